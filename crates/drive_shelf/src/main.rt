//! Carries out a script of shelf calls from standard input and prints what each call answers: a way to compare the
//! shelves with another implementation, call by call. docs/RULES.md has the form of a script.
#![tactic(auto)]

mod drive;
mod script;

use block_shelf::block::BlockShelf;
use drive::{answer_of, answer_with_places, drive};
use flag_shelf::flag::FlagShelf;
use plan::check::{Plan, ShelfType};
use reading::tally::Tally;
use script::MOST_BYTES;
use shelf::making::filled;
use shelf::row::BlockRow;
use std::io;
use std::io::Read;

// What every block holds before the making.
const BEFORE: Tally = Tally { count: 9999 };

fn print_blocks(rt: &impl Print, blocks: &[Tally]) -> io::Result<()> {
    print!(rt; "blocks")?;
    for block in blocks {
        let count = block.count;
        print!(rt; " {count}")?;
    }
    println!(rt; "")
}

// The shelf that a script's first byte names. (No `From`: the type is another crate's, and any other byte is a block shelf.)
fn shelf_type(code: u8) -> ShelfType {
    match code {
        0 => ShelfType::Flag,
        _ => ShelfType::Block,
    }
}

fn run(rt: &HostRuntime) -> anyhow::Result<()> {
    let mut bytes = Vec::new(rt.alloc());
    rt.stdin().take(MOST_BYTES).read_to_end(&mut bytes)?;
    let [code, parties, links, channels, high, low, calls @ ..] = bytes.as_slice() else {
        return Ok(());
    };
    let plan = Plan {
        parties: *parties,
        links: *links,
        channels: *channels,
    };
    let count = u16::from_be_bytes([*high, *low]);
    let mut blocks = filled(rt.alloc(), BEFORE, count as usize)?;
    let row = BlockRow::new(&mut blocks);
    match shelf_type(*code) {
        ShelfType::Flag => {
            let mut shelf = FlagShelf::make(rt.alloc(), plan, row)?;
            drive(rt, &mut shelf, calls, answer_of)?;
        }
        ShelfType::Block => {
            let mut shelf = BlockShelf::make(rt.alloc(), plan, row)?;
            drive(rt, &mut shelf, calls, answer_with_places)?;
        }
    }
    print_blocks(rt, &blocks)?;
    Ok(())
}

fn main(rt: HostRuntime) -> anyhow::Result<()> {
    run(&rt)
}
