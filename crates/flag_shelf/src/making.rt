ghost use Rattle.std.specs.Prelude.{◌≡◌, ℕ, true, length, is_ok, IfOk};
ghost use Rattle.plan.specs.Refusals.{accepted, refused};
ghost use Rattle.plan.specs.Plans.{need, plan_verdict};
ghost use Rattle.plan.specs.declared.check.Plan.{Plan as PlanIn};
ghost use Rattle.plan.specs.declared.check.ShelfType.TheVariants.{Flag};
ghost use Rattle.shelf.specs.Rules.{Fresh};
ghost use Rattle.shelf.specs.Beyond.{BeyondStays};
ghost use Rattle.flag_rules.specs.Flags.{made};
ghost use Rattle.flag_rules.proofs.AsShelf.{flag_shelf_rules};
ghost use Rattle.flag_shelf.specs.States.{flag_state};

use crate::flag::FlagShelf;
use flag_rules::parts::{Job, Mark};
use plan::check::{Plan, ShelfType, check_plan};
use reading::kind::Reading;
use shelf::making::filled;
use shelf::row::BlockRow;
use std::alloc::{AllocError, Global};

// The block shelf has a making and a promise on blocks like these: it fills other fields and names its own row.
impl<'a, R: Reading> FlagShelf<'a, R> {
    /// A shelf of a plan, on a row of blocks. If the plan check accepts, the blocks of the need are blanked, and no
    /// others; if it refuses, the shelf has no parties and no need, and no block is touched. All memory is allocated
    /// here, before any block is touched; for a refused plan none is wanted.
    pub fn make(
        heap: Global,
        plan: Plan,
        mut row: BlockRow<'a, R>,
    ) -> Result<FlagShelf<'a, R>, AllocError>
        ensures state { IfOk result (λ s. flag_state s ≡ made R.Reading.kind.blank plan row.entry.blocks.now) }
        ensures fresh { IfOk result (λ s. (given : PlanIn) → accepted given ≡ plan_verdict plan Flag (length row.entry.blocks.now) → Fresh (flag_shelf_rules R.Reading.kind.blank) (flag_state s)) }
        ensures lent { IfOk result (λ s. s.row.blocks.ghost_name ≡ row.entry.blocks.ghost_name) }
        ensures succeeds { (n : ℕ) → refused n ≡ plan_verdict plan Flag (length row.entry.blocks.now) → is_ok result ≡ true }
    {
        // the plan of no parties, written out: its zeros are what a planted error changes
        let none = Plan {
            parties: 0,
            links: 0,
            channels: 0,
        };
        let plan = check_plan(plan, ShelfType::Flag, row.len()).unwrap_or(none);
        let marks = filled(heap, Mark::Empty, plan.all_links())?;
        let jobs = filled(heap, Job::Idle, plan.parties as usize)?;
        row.blank_first(plan.blocks_needed(ShelfType::Flag));
        Ok(FlagShelf {
            plan,
            row,
            marks,
            jobs,
        })
    }

    /// Does nothing; promises that whatever is called from now on, no block beyond the need is touched.
    pub fn blocks_beyond_stay(&self)
        ensures { BeyondStays (flag_shelf_rules R.Reading.kind.blank) (λ s. s.row) (need Flag self.now.plan) (flag_state self.now) }
    {}
}
