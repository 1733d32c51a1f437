//! Prints in plain words what a run sheet on standard input says.
#![tactic(auto)]

use sheet::sheet::read_sheet;
use sheet::words::{Record, Summary};
use std::io;
use std::io::Read;

// No sheet has more records, so with this much room the reader does not want for memory.
const MOST_RECORDS: usize = 65_536;

// The header, a numbered line for each record, and how the reading ended.
fn print_contents(rt: &impl Print, summary: Summary, records: &[Record]) -> io::Result<()> {
    if let Some(header) = summary.header {
        println!(rt; "{header}")?;
    }
    for (i, record) in records.iter().enumerate() {
        let number = i + 1;
        println!(rt; "{number} {record}")?;
    }
    match summary.fault {
        Some(fault) => println!(rt; "{fault}"),
        None => println!(rt; "end"),
    }
}

// The bytes of standard input, or one more than a sheet may have.
fn read_input(rt: &HostRuntime) -> io::Result<Vec<u8>> {
    let mut bytes = Vec::new(rt.alloc());
    rt.stdin().take(65_537).read_to_end(&mut bytes)?;
    Ok(bytes)
}

fn run(rt: &HostRuntime) -> anyhow::Result<()> {
    let bytes = read_input(rt)?;
    let mut records = Vec::with_capacity(rt.alloc(), MOST_RECORDS)?;
    let summary = read_sheet(bytes.as_slice(), &mut records)?;
    print_contents(rt, summary, records.as_slice())?;
    Ok(())
}

fn main(rt: HostRuntime) -> anyhow::Result<()> {
    run(&rt)
}
