ghost use Rattle.std.specs.Prelude.{◌≡◌, true};
ghost use Rattle.reading.specs.Words.{first_of, samples_of, levels_of};
ghost use Rattle.reading.specs.Captures.{capture_kind, capture_admits, capture_amended, capture_shown, ShowsFields, ShowsAmended};

use crate::capture::Capture;
use crate::kind::Reading;

// The fields of a word: each its own place and width, so each a line of its own.
fn first_field(word: u64) -> u32
    ensures { result ≡ first_of word }
{
    (word >> 32) as u32
}

fn samples_field(word: u64) -> u16
    ensures { result ≡ samples_of word }
{
    ((word >> 16) % 0x1_0000) as u16
}

fn levels_field(word: u64) -> u16
    ensures { result ≡ levels_of word }
{
    (word % 0x1_0000) as u16
}

impl Reading for Capture {
    ghost kind = { capture_kind };

    fn blank() -> Capture {
        Capture {
            first: 0,
            samples: 0,
            levels: 0,
        }
    }

    fn admits(word: u64) -> bool {
        let first = first_field(word) as u64;
        let samples = samples_field(word) as u64;
        samples == 0 || first + samples < 1 << 32
    }

    fn amended(mut self, word: u64) -> Capture {
        let first = first_field(word);
        let samples = samples_field(word);
        let levels = levels_field(word);
        if samples == 0 {
            self.levels = levels;
            self
        } else if (first as u64) + (samples as u64) < 1 << 32 {
            // tested here once more, since whoever makes a capture owes its bound
            Capture {
                first,
                samples,
                levels,
            }
        } else {
            self
        }
    }

    fn shown(self) -> u64
        ensures word { result ≡ capture_shown self }
        ensures read_back { ShowsFields self result }
    {
        ((self.first as u64) << 32) + ((self.samples as u64) << 16) + self.levels as u64
    }
}

impl Capture {
    /// Does nothing; promises what amending by an admitted word means, in shown words: a word without samples
    /// changes only the levels, any other is itself what is shown then.
    pub fn amending_is_shown(self, word: u64)
        ensures { capture_admits word ≡ true → ShowsAmended (capture_shown self) word (capture_shown (capture_amended self word)) }
    {}
}
