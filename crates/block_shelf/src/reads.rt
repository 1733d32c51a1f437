ghost use Rattle.std.specs.Prelude.{◌≡◌, not};
ghost use Rattle.shelf.specs.Meaning.{activity_of, link_at};
ghost use Rattle.shelf.specs.Calls.{is_idle, is_vacant};
ghost use Rattle.block_rules.specs.Blocks.{link, party as party_at, current_of, channel_held, is_live};
ghost use Rattle.block_rules.specs.Means.{means};
ghost use Rattle.block_shelf.specs.States.{block_state};

use crate::block::BlockShelf;
use block_rules::parts::{Job, LinkState};
use plan::check::Plan;
use reading::kind::Reading;
use shelf::numbering::Standing;

// The channel on which a link is; 0 if it is on none, as the rules say.
pub(crate) fn channel_of(hold: Option<u8>) -> u8
    ensures { result ≡ channel_held hold }
{
    hold.unwrap_or(0)
}

impl<'a, R: Reading> BlockShelf<'a, R> {
    // What a party is at; idle if there is no such party.
    pub(crate) fn job(&self, party: u8) -> Job
        ensures { result ≡ (party_at (block_state self.now) party).job }
    {
        self.seats
            .get(party as usize)
            .map_or(Job::Idle, |seat| seat.job)
    }

    // A link by its number; an unused one if there is no such link.
    pub(crate) fn link(&self, at: usize) -> LinkState
        ensures { result ≡ link (block_state self.now) at }
    {
        self.links.get(at).copied().unwrap_or_default()
    }

    // The current block of a channel; 0 if there is no such channel.
    pub(crate) fn current(&self, channel: u8) -> u16
        ensures { result ≡ current_of (block_state self.now) channel }
    {
        self.current.get(channel as usize).copied().unwrap_or(0)
    }

    // Whether the current block of the link's channel is the one that the link saw.
    pub(crate) fn is_live(&self, at: usize) -> bool
        ensures { result ≡ is_live (block_state self.now) at }
    {
        let link = self.link(at);
        self.current(channel_of(link.hold)) == link.seen
    }
}

impl<'a, R: Reading> Standing for BlockShelf<'a, R> {
    ghost sizes = { λ s. s.plan };

    ghost at_rest = { λ s p. is_idle (activity_of (means R.Reading.kind.blank (block_state s)) p) };

    ghost held = { λ s j. not (is_vacant (link_at (means R.Reading.kind.blank (block_state s)) j)) };

    fn sizes(&self) -> Plan {
        self.plan
    }

    fn rests(&self, party: u8) -> bool {
        self.job(party).is_idle()
    }

    fn is_held(&self, at: usize) -> bool {
        self.links.get(at).is_some_and(|link| link.hold.is_some())
    }
}
