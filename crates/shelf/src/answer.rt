ghost use Rattle.std.specs.Prelude.{Some};
ghost use Rattle.shelf.specs.Words.{answer_word};

use std::fmt;

/// What a turn of a shelf answers: "run", or the answer of the operation that it ends.
#[derive(Clone, Copy, PartialEq, Eq, Debug)]
pub enum Answer {
    /// The operation goes on.
    Run,
    /// A take ended.
    Taken,
    /// A put ended that stored its reading.
    Stored,
    /// A put ended that found its link broken.
    Missed,
    /// A check ended that found its link live.
    Live,
    /// A check ended that found its link broken.
    Broken,
}

impl fmt::Display for Answer {
    ghost output = { λ a. Some (answer_word a) };

    fn fmt<W: fmt::Write>(&self, f: &mut fmt::Formatter<W>) -> fmt::Result {
        f.write_str(match self {
            Answer::Run => "run",
            Answer::Taken => "taken",
            Answer::Stored => "stored",
            Answer::Missed => "missed",
            Answer::Live => "live",
            Answer::Broken => "broken",
        })
    }
}
