//! The block shelf. A test names the kind of reading that it runs; the runs are the same for each.
use crate::scenarios::{
    SMALL, check_link, contention, refusal, refusals, shown, take, there_and_back,
};
use block_rules::parts::Place;
use block_shelf::block::BlockShelf;
use plan::check::Plan;
use plan::refusal::Refusal;
use reading::capture::Capture;
use reading::kind::Reading;
use reading::tally::Tally;
use shelf::answer::Answer;
use shelf::making::filled;
use shelf::row::BlockRow;
use shelf::shelf::Shelf;
use std::process::Abort;
use std::test::Fail;

// Carries out a run on a fresh shelf.
fn on_blocks<R: Reading + Drop, F: FnOnce(&mut BlockShelf<R>) -> Result<(), Fail>>(
    rt: &(impl Abort + AllocGlobal),
    run: F,
) -> Result<(), Fail>
    requires { F.IsAlwaysCallable run }
{
    let mut blocks = filled(rt.alloc(), R::blank().amended(0xFF), 24)?;
    let mut shelf = BlockShelf::make(rt.alloc(), SMALL, BlockRow::new(&mut blocks))?;
    assert_eq!(rt; shelf.patience(), 6);
    run(&mut shelf)
}

#[test]
fn blocks_of_tallies(rt: HostRuntime) -> Result<(), Fail> {
    on_blocks::<Tally, _>(&rt, |shelf| there_and_back(&rt, shelf))?;
    on_blocks::<Tally, _>(&rt, |shelf| contention(&rt, shelf))?;
    on_blocks::<Tally, _>(&rt, |shelf| refusals(&rt, shelf))
}

#[test]
fn blocks_of_captures(rt: HostRuntime) -> Result<(), Fail> {
    on_blocks::<Capture, _>(&rt, |shelf| there_and_back(&rt, shelf))?;
    on_blocks::<Capture, _>(&rt, |shelf| contention(&rt, shelf))?;
    on_blocks::<Capture, _>(&rt, |shelf| refusals(&rt, shelf))
}

const PAIR: Plan = Plan {
    parties: 2,
    links: 1,
    channels: 1,
};

#[test]
fn six_blocks_are_too_few(rt: HostRuntime) -> Result<(), Fail> {
    let mut blocks = [Tally { count: 9 }; 6];
    {
        let mut shelf = BlockShelf::make(rt.alloc(), PAIR, BlockRow::new(&mut blocks))?;
        assert_eq!(rt; refusal(shelf.start_take(0, 0, 0)), Some(1));
        assert_eq!(rt; refusal(shelf.turn(0)), Some(1));
        assert_eq!(rt; refusal(shelf.place(0)), Some(10));
    }
    for block in blocks {
        assert_eq!(rt; block.count, 9);
    }
    Ok(())
}

// Party 0 takes the channel and puts a count; answers how many turns the put had.
fn turns_of_put(shelf: &mut BlockShelf<Tally>, count: u64) -> Result<usize, Refusal> {
    take(shelf, 0, 0, 0)?;
    shelf.start_put(0, 0, Tally { count })?;
    for turns in 1..=shelf.patience() {
        if shelf.turn(0)? != Answer::Run {
            return Ok(turns);
        }
    }
    Ok(0)
}

// Three pairs of take and put: the third put finds no ready block behind it and scans both guards.
fn three_pairs(rt: &impl Abort, shelf: &mut BlockShelf<Tally>) -> Result<(), Fail> {
    assert_eq!(rt; turns_of_put(shelf, 5), Ok(1));
    assert_eq!(rt; turns_of_put(shelf, 10), Ok(1));
    assert_eq!(rt; turns_of_put(shelf, 15), Ok(3));
    assert_eq!(rt; shelf.place(3), Ok(Place::Current(0)));
    assert_eq!(rt; shelf.place(2), Ok(Place::Retired(0)));
    assert_eq!(rt; shelf.place(1), Ok(Place::Ready(0)));
    Ok(())
}

#[test]
fn third_put_scans(rt: HostRuntime) -> Result<(), Fail> {
    let mut blocks = [Tally { count: 9 }; 7];
    let mut shelf = BlockShelf::make(rt.alloc(), PAIR, BlockRow::new(&mut blocks))?;
    three_pairs(&rt, &mut shelf)?;
    assert_eq!(rt; shelf.place(0), Ok(Place::Ready(0)));
    assert_eq!(rt; take(&mut shelf, 0, 0, 0), Ok(Answer::Taken));
    assert_eq!(rt; shown(&shelf, 0, 0), Ok(15));
    // block 1 lies on top
    assert_eq!(rt; refusal(shelf.start_put(0, 0, Tally { count: 20 })), None);
    assert_eq!(rt; shelf.place(1), Ok(Place::InHand(0)));
    assert_eq!(rt; shelf.place(0), Ok(Place::Ready(0)));
    Ok(())
}

#[test]
fn held_block_is_not_used_again(rt: HostRuntime) -> Result<(), Fail> {
    let mut blocks = [Tally { count: 9 }; 7];
    let mut shelf = BlockShelf::make(rt.alloc(), PAIR, BlockRow::new(&mut blocks))?;
    assert_eq!(rt; take(&mut shelf, 1, 0, 0), Ok(Answer::Taken));
    three_pairs(&rt, &mut shelf)?;
    assert_eq!(rt; shelf.place(0), Ok(Place::Retired(0)));
    assert_eq!(rt; shown(&shelf, 1, 0), Ok(0));
    assert_eq!(rt; check_link(&mut shelf, 1, 0), Ok(Answer::Broken));
    Ok(())
}
