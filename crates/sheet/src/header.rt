ghost use Rattle.std.specs.Prelude.{◌≡◌, ℕ, ◌<◌, ◌≤◌, [], ◌∷◌, map};
ghost use Rattle.plan.specs.Refusals.{refusal_number};
ghost use Rattle.sheet_rules.specs.Formats.{outside, header_format};
ghost use Rattle.sheet.specs.Told.{header_told, Reads, one};

use crate::bit_reader::BitReader;
use crate::words::{Fault, Header, Kind};
use plan::check::{Plan, ShelfType};
use plan::refusal::Refusal;

// Each field is taken by `let .. else` where it stands, and sizes are told by a match with a guard: rules of the project.

// A field that has just one right value: the version and the spare bit.
fn read_fixed(bits: &mut BitReader, width: usize, right: u64) -> Result<(), Fault>
    requires { width ≤ 64 }
    ensures { Reads (λ _. right) (one width (outside right right) 21) result bits.old bits.new }
{
    let place = bits.place();
    let Some(value) = bits.take(width) else {
        return Err(Fault::at(Refusal::SheetEndsEarly, place));
    };
    if value != right {
        return Err(Fault::at(Refusal::WrongHeader, place));
    }
    Ok(())
}

// A field in which only 0 and 1 are right, and the choices that they stand for: the kind and the shelf.
fn read_choice<T: Copy>(bits: &mut BitReader, choices: [T; 2]) -> Result<T, Fault>
    ensures { (number : T → ℕ) → map number choices ≡ 0 ∷ 1 ∷ [] → Reads number (one 2 (outside 0 1) 21) result bits.old bits.new }
{
    let place = bits.place();
    let Some(value) = bits.take(2) else {
        return Err(Fault::at(Refusal::SheetEndsEarly, place));
    };
    match choices.get(value as usize) {
        Some(choice) => Ok(*choice),
        None => Err(Fault::at(Refusal::WrongHeader, place)),
    }
}

// N, K or C: from 1 to `most`, or the plan's refusal.
fn read_size(bits: &mut BitReader, width: usize, most: u64, refusal: Refusal) -> Result<u8, Fault>
    requires narrow { width ≤ 64 }
    requires byte { most < 256 }
    ensures { Reads (λ v. v) (one width (outside 1 most) (refusal_number refusal)) result bits.old bits.new }
{
    let place = bits.place();
    let Some(size) = bits.take(width) else {
        return Err(Fault::at(Refusal::SheetEndsEarly, place));
    };
    match size {
        0 => Err(Fault::at(refusal, place)),
        n if n > most => Err(Fault::at(refusal, place)),
        n => Ok(n as u8),
    }
}

// The header, field by field.
pub(crate) fn read_header(bits: &mut BitReader) -> Result<Header, Fault>
    ensures { Reads header_told header_format result bits.old bits.new }
{
    read_fixed(bits, 4, 1)?;
    let kind = read_choice(bits, [Kind::Tally, Kind::Capture])?;
    let shelf = read_choice(bits, [ShelfType::Flag, ShelfType::Block])?;
    let parties = read_size(bits, 5, 24, Refusal::PartiesOutOfRange)?;
    let links = read_size(bits, 3, 4, Refusal::LinksOutOfRange)?;
    let channels = read_size(bits, 7, 64, Refusal::ChannelsOutOfRange)?;
    read_fixed(bits, 1, 0)?;
    Ok(Header {
        kind,
        shelf,
        plan: Plan {
            parties,
            links,
            channels,
        },
    })
}
