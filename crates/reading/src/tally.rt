ghost use Rattle.std.specs.Prelude.{◌≡◌};
ghost use Rattle.reading.specs.Tallies.{tally_kind};

use crate::kind::Reading;

/// A tally: how often something was counted.
#[derive(Clone, Copy, PartialEq, Eq, Debug)]
pub struct Tally {
    pub count: u64,
}

impl Reading for Tally {
    ghost kind = { tally_kind };

    fn blank() -> Tally {
        Tally { count: 0 }
    }

    fn admits(_word: u64) -> bool {
        true
    }

    fn amended(self, word: u64) -> Tally {
        Tally {
            count: self.count.wrapping_add(word),
        }
    }

    fn shown(self) -> u64 {
        self.count
    }
}
