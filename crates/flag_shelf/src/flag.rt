ghost use Rattle.flag_rules.specs.Flags.{state_of, Sound};

use flag_rules::parts::{Job, Mark};
use plan::check::Plan;
use shelf::row::BlockRow;

/// A shelf that keeps channel c's reading in block c, that of party p's link i in block C + p × K + i, and a mark for
/// each link that says whether it is live.
#[derive(Drop)]
pub struct FlagShelf<'a, R> {
    pub(crate) plan: Plan,
    pub(crate) row: BlockRow<'a, R>,
    pub(crate) marks: Vec<Mark>,
    pub(crate) jobs: Vec<Job<R>>,
    ghost sound: { ∥ Sound (state_of plan row.blocks.now marks.items jobs.items) ∥₁ },
}
