ghost use Rattle.std.specs.Prelude.{map};
ghost use Rattle.block_rules.specs.Blocks.{state_of};
ghost use Rattle.block_rules.specs.Sound.{Sound};
ghost use Rattle.block_parts.specs.Seats.{party_of};

use block_parts::seat::Seat;
use block_rules::parts::LinkState;
use plan::check::Plan;
use shelf::row::BlockRow;

/// A shelf on which a put stores by making another block current. A link guards the block that it saw, and a block
/// that is not current any more is used again only once no guard is on it.
#[derive(Drop)]
pub struct BlockShelf<'a, R> {
    pub(crate) plan: Plan,
    pub(crate) row: BlockRow<'a, R>,
    pub(crate) current: Vec<u16>,
    pub(crate) links: Vec<LinkState>,
    pub(crate) seats: Vec<Seat>,
    ghost sound: { ∥ Sound (state_of plan row.blocks.now current.items links.items (map party_of seats.items)) ∥₁ },
}
