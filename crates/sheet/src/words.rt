ghost use Rattle.std.specs.Prelude.{◌≡◌};
ghost use Rattle.sheet_rules.specs.Contents.{fault_at};
ghost use Rattle.plan.specs.Refusals.{refusal_number};
ghost use Rattle.sheet.specs.Told.{fault_told};

use crate::channel_list::ChannelList;
use plan::check::{Plan, ShelfType};
use plan::refusal::Refusal;

/// The kinds of reading that a sheet can name.
#[derive(Clone, Copy, PartialEq, Eq, Debug)]
pub enum Kind {
    Tally,
    Capture,
}

/// What a sheet says of its hub: the kind of reading, the shelf, and the plan.
#[derive(Clone, Copy, PartialEq, Eq, Debug)]
pub struct Header {
    pub kind: Kind,
    pub shelf: ShelfType,
    pub plan: Plan,
}

/// One record of a sheet: a call of the hub.
#[derive(Clone, Copy)]
pub enum Record {
    Amendment { party: u8, channel: u8, word: u64 },
    Picture { party: u8, channels: ChannelList },
    Turn { party: u8 },
    Release { party: u8 },
    Look { party: u8, link: u8 },
}

/// The part of the program whose rule was broken.
#[derive(Clone, Copy, PartialEq, Eq, Debug)]
pub enum Layer {
    Plan,
    Sheet,
    Runner,
}

/// Why the reading of a sheet ended early, and the place of the failing field's first bit.
#[derive(Clone, Copy, PartialEq, Eq, Debug)]
pub struct Fault {
    pub refusal: Refusal,
    pub layer: Layer,
    pub place: usize,
}

impl Fault {
    /// The reader's fault at a place: sizes out of range are the plan's, all else is the sheet's.
    pub fn at(refusal: Refusal, place: usize) -> Fault
        ensures { fault_told result ≡ fault_at (refusal_number refusal) place }
    {
        let layer = match refusal {
            Refusal::PartiesOutOfRange | Refusal::LinksOutOfRange | Refusal::ChannelsOutOfRange =>
                Layer::Plan,
            _ => Layer::Sheet,
        };
        Fault {
            refusal,
            layer,
            place,
        }
    }
}

/// What the reading of a sheet came to, beside its records: the header if it was whole, and the fault that ended
/// the reading early. Without a fault the sheet was read to its end.
#[derive(Clone, Copy)]
pub struct Summary {
    pub header: Option<Header>,
    pub fault: Option<Fault>,
}
