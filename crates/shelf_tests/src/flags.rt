//! The flag shelf. A test names the kind of reading that it runs; the runs are the same for each.
use crate::scenarios::{SMALL, contention, refusal, refusals, there_and_back};
use flag_shelf::flag::FlagShelf;
use reading::capture::Capture;
use reading::kind::Reading;
use reading::tally::Tally;
use shelf::making::filled;
use shelf::row::BlockRow;
use shelf::shelf::Shelf;
use std::process::Abort;
use std::test::Fail;

// Carries out a run on a fresh shelf. (The block shelf has the like: `make` is each shelf's own, with a lent row.)
fn on_flags<R: Reading + Drop, F: FnOnce(&mut FlagShelf<R>) -> Result<(), Fail>>(
    rt: &(impl Abort + AllocGlobal),
    run: F,
) -> Result<(), Fail>
    requires { F.IsAlwaysCallable run }
{
    let mut blocks = filled(rt.alloc(), R::blank().amended(0xFF), 9)?;
    let mut shelf = FlagShelf::make(rt.alloc(), SMALL, BlockRow::new(&mut blocks))?;
    assert_eq!(rt; shelf.patience(), 0);
    run(&mut shelf)
}

#[test]
fn flags_of_tallies(rt: HostRuntime) -> Result<(), Fail> {
    on_flags::<Tally, _>(&rt, |shelf| there_and_back(&rt, shelf))?;
    on_flags::<Tally, _>(&rt, |shelf| contention(&rt, shelf))?;
    on_flags::<Tally, _>(&rt, |shelf| refusals(&rt, shelf))
}

#[test]
fn flags_of_captures(rt: HostRuntime) -> Result<(), Fail> {
    on_flags::<Capture, _>(&rt, |shelf| there_and_back(&rt, shelf))?;
    on_flags::<Capture, _>(&rt, |shelf| contention(&rt, shelf))?;
    on_flags::<Capture, _>(&rt, |shelf| refusals(&rt, shelf))
}

#[test]
fn refused_plan(rt: HostRuntime) -> Result<(), Fail> {
    let mut blocks = [Tally { count: 9 }; 7];
    {
        let mut shelf = FlagShelf::make(rt.alloc(), SMALL, BlockRow::new(&mut blocks))?;
        assert_eq!(rt; shelf.plan().parties, 0);
        assert_eq!(rt; refusal(shelf.start_take(0, 0, 0)), Some(1));
        assert_eq!(rt; refusal(shelf.turn(0)), Some(1));
    }
    for block in blocks {
        assert_eq!(rt; block.count, 9);
    }
    Ok(())
}

#[test]
fn blocks_of_the_need(rt: HostRuntime) -> Result<(), Fail> {
    let mut blocks = [Tally { count: 9 }; 10];
    {
        let mut shelf = FlagShelf::make(rt.alloc(), SMALL, BlockRow::new(&mut blocks))?;
        there_and_back(&rt, &mut shelf)?;
    }
    assert_eq!(rt; blocks[0].count, 7);
    assert_eq!(rt; blocks[1].count, 5);
    assert_eq!(rt; blocks[8].count, 9);
    assert_eq!(rt; blocks[9].count, 9);
    Ok(())
}
