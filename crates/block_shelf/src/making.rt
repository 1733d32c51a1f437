ghost use Rattle.std.specs.Prelude.{◌≡◌, ℕ, ◌+◌, ◌<◌, ◌≤◌, true, map, length, is_ok, IfOk};
ghost use Rattle.plan.specs.Refusals.{accepted, refused};
ghost use Rattle.plan.specs.Plans.{plan_verdict, Small};
ghost use Rattle.plan.specs.declared.check.Plan.{Plan as PlanIn};
ghost use Rattle.plan.specs.declared.check.ShelfType.TheVariants.{Block};
ghost use Rattle.shelf.specs.Rules.{Fresh};
ghost use Rattle.block_rules.specs.Blocks.{share, blocks_from, fresh_party, fresh_parties, made};
ghost use Rattle.block_rules.proofs.AsShelf.{block_shelf_rules};
ghost use Rattle.block_parts.specs.Seats.{party_of};
ghost use Rattle.block_shelf.specs.States.{block_state};

use crate::block::BlockShelf;
use block_parts::block_list::{BlockList, MOST_BLOCKS};
use block_parts::seat::Seat;
use block_rules::parts::{Job, LinkState};
use plan::check::{Plan, ShelfType, check_plan};
use reading::kind::Reading;
use shelf::making::filled;
use shelf::row::BlockRow;
use std::alloc::{AllocError, Global};

// The current blocks of fresh channels: channel c has block c. (A loop: `collect` promises no success, not even for
// none.)
fn first_blocks(heap: Global, channels: u8) -> Result<Vec<u16>, AllocError>
    ensures blocks { IfOk result (λ v. v.items ≡ blocks_from 0 channels) }
    ensures succeeds { channels ≡ 0 → is_ok result ≡ true }
{
    let mut list = Vec::new(heap);
    for channel in 0..channels {
        list.push(u16::from(channel))?;
    }
    Ok(list)
}

// The seat of a party that owns as many blocks from the first on, all ready, the lowest on top.
fn fresh_seat(first: u16, count: u16) -> Seat
    requires few { count ≤ MOST_BLOCKS }
    requires fits { first + count < 65536 }
    ensures { party_of result ≡ fresh_party first count }
{
    let mut ready = BlockList::new();
    for block in (first..first + count).rev() {
        ready.push(block);
    }
    Seat {
        ready,
        retired: BlockList::new(),
        read: BlockList::new(),
        job: Job::Idle,
    }
}

// The seats of all parties, whose blocks stand behind those of the channels. (A loop, as above.)
fn fresh_seats(heap: Global, plan: Plan) -> Result<Vec<Seat>, AllocError>
    requires { Small plan }
    ensures seats { IfOk result (λ v. map party_of v.items ≡ fresh_parties plan.channels (share plan) plan.parties) }
    ensures succeeds { plan.parties ≡ 0 → is_ok result ≡ true }
{
    let share = plan.all_links() as u16 + 1;
    let mut seats = Vec::new(heap);
    for party in 0..plan.parties {
        seats.push(fresh_seat(u16::from(plan.channels) + u16::from(party) * share, share))?;
    }
    Ok(seats)
}

impl<'a, R: Reading> BlockShelf<'a, R> {
    /// A shelf of a plan, on a row of blocks. If the plan check accepts, the blocks of the need are blanked, and no
    /// others; if it refuses, the shelf has no parties and no need, and no block is touched. All memory is allocated
    /// here, before any block is touched; for a refused plan none is wanted.
    pub fn make(
        heap: Global,
        plan: Plan,
        mut row: BlockRow<'a, R>,
    ) -> Result<BlockShelf<'a, R>, AllocError>
        ensures state { IfOk result (λ s. block_state s ≡ made R.Reading.kind.blank plan row.entry.blocks.now) }
        ensures fresh { IfOk result (λ s. (given : PlanIn) → accepted given ≡ plan_verdict plan Block (length row.entry.blocks.now) → Fresh (block_shelf_rules R.Reading.kind.blank) (block_state s)) }
        ensures lent { IfOk result (λ s. s.row.blocks.ghost_name ≡ row.entry.blocks.ghost_name) }
        ensures succeeds { (n : ℕ) → refused n ≡ plan_verdict plan Block (length row.entry.blocks.now) → is_ok result ≡ true }
    {
        let plan = check_plan(plan, ShelfType::Block, row.len()).unwrap_or_default();
        let current = first_blocks(heap, plan.channels)?;
        let links = filled(heap, LinkState::default(), plan.all_links())?;
        let seats = fresh_seats(heap, plan)?;
        row.blank_first(plan.blocks_needed(ShelfType::Block));
        Ok(BlockShelf {
            plan,
            row,
            current,
            links,
            seats,
        })
    }
}
