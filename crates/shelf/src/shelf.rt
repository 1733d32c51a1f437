ghost use Rattle.std.specs.Prelude.{◌≡◌};
ghost use Rattle.plan.specs.Refusals.{told};
ghost use Rattle.shelf.specs.Rules.{Rules};
ghost use Rattle.shelf.specs.Meaning.{activity_of};
ghost use Rattle.shelf.specs.Calls.{Take, Put, Check, Drop, Turn, after, granted, looked, turn_answer, is_idle};

use crate::answer::Answer;
use plan::check::Plan;
use plan::refusal::Refusal;
use reading::kind::Reading;

/// A shelf: it keeps a reading for each channel and gives every party ideal load-linked (take), store-conditional
/// (put) and validate (check), one step a turn.
///
/// The ghost member `rules` has the shelf's exact rules, what they mean, and the laws that hold of that meaning;
/// `state` is what the shelf's fields stand for, and the trait's own laws say that the laws of the rules hold of it.
/// Each call's answer and the state after it are pinned by the rules, and a refused call leaves the state as it was.
/// A party and its link are two numbers in each call, as callers have them; a pair would have to be made at each call.
pub trait Shelf {
    type Item: Reading;

    ghost rules: { Rules Self.Item };

    ghost state: { Self → rules.State };

    /// The plan of the shelf.
    fn plan(&self) -> Plan
        ensures { result ≡ rules.plan (state self.now) };

    /// How many turns an operation may spend, undisturbed, before the turn that ends it.
    fn patience(&self) -> usize
        ensures { result ≡ rules.patience (state self.now) };

    /// Whether no operation of the party is running.
    fn is_idle(&self, party: u8) -> bool
        ensures { result ≡ is_idle (activity_of (rules.means (state self.now)) party) };

    /// Starts a take: empties the link, on which the channel's reading is to be.
    fn start_take(&mut self, party: u8, link: u8, channel: u8) -> Result<(), Refusal>
        ensures answer { told result ≡ granted rules (state self.old) (Take party link channel) }
        ensures shelf { state self.new ≡ after rules (state self.old) (Take party link channel) };

    /// Starts a put of a reading into the link's channel.
    fn start_put(&mut self, party: u8, link: u8, reading: Self::Item) -> Result<(), Refusal>
        ensures answer { told result ≡ granted rules (state self.old) (Put party link reading) }
        ensures shelf { state self.new ≡ after rules (state self.old) (Put party link reading) };

    /// Starts a check whether the link is live.
    fn start_check(&mut self, party: u8, link: u8) -> Result<(), Refusal>
        ensures answer { told result ≡ granted rules (state self.old) (Check party link) }
        ensures shelf { state self.new ≡ after rules (state self.old) (Check party link) };

    /// Empties the link.
    fn drop_link(&mut self, party: u8, link: u8) -> Result<(), Refusal>
        ensures answer { told result ≡ granted rules (state self.old) (Drop party link) }
        ensures shelf { state self.new ≡ after rules (state self.old) (Drop party link) };

    /// The reading on the link.
    fn look(&self, party: u8, link: u8) -> Result<Self::Item, Refusal>
        ensures { told result ≡ looked rules (state self.now) party link };

    /// One step of the party's operation.
    fn turn(&mut self, party: u8) -> Result<Answer, Refusal>
        ensures answer { told result ≡ turn_answer rules (state self.old) party }
        ensures shelf { state self.new ≡ after rules (state self.old) (Turn party) };

    // the laws of the rules hold of every shelf's state, and a blank reading is the kind's
    ghost sound: { (shelf : Self) → rules.sound (state shelf) };

    ghost blank: { rules.blank ≡ Self.Item.Reading.kind.blank };
}
