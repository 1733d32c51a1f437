ghost use Rattle.std.specs.Prelude.{◌≡◌};
ghost use Rattle.plan.specs.Refusals.{told};
ghost use Rattle.reading.specs.Kinds.{KindOf, amendment};

use plan::refusal::Refusal;

/// A kind of reading: any type whose maker gives a blank reading, the 64-bit words that amend a reading,
/// what such a word makes of it, and the 64-bit word that shows it.
pub trait Reading: Copy {
    ghost kind: { KindOf Self };

    /// The reading that a fresh channel holds.
    fn blank() -> Self
        ensures { result ≡ kind.blank };

    /// Whether the word may amend readings of this kind.
    fn admits(word: u64) -> bool
        ensures { result ≡ kind.admits word };

    /// What the word makes of this reading; of interest where the kind admits the word.
    fn amended(self, word: u64) -> Self
        ensures { result ≡ kind.amended self word };

    /// The word that shows this reading.
    fn shown(self) -> u64
        ensures { result ≡ kind.shown self };
}

/// What the word makes of the reading, or the refusal of a word that the kind does not admit.
pub fn amend<R: Reading>(reading: R, word: u64) -> Result<R, Refusal>
    ensures { told result ≡ amendment R.Reading.kind reading word }
{
    if !R::admits(word) {
        return Err(Refusal::WordNotAdmitted);
    }
    Ok(reading.amended(word))
}
