ghost use Rattle.std.specs.Prelude.{◌≡◌};
ghost use Rattle.plan.specs.Refusals.{told};
ghost use Rattle.plan.specs.Plans.{need};
ghost use Rattle.plan.specs.declared.check.ShelfType.TheVariants.{Block};
ghost use Rattle.shelf.specs.Beyond.{BeyondStays};
ghost use Rattle.block_rules.specs.Places.{PlaceTold};
ghost use Rattle.block_rules.proofs.AsShelf.{block_shelf_rules};
ghost use Rattle.block_shelf.specs.States.{block_state};
ghost use Rattle.block_shelf.specs.Laws.{ChannelTold, PartyTold, PlacesStay, HeldBlocksStay};

use crate::block::BlockShelf;
use block_rules::parts::Place;
use plan::refusal::Refusal;
use reading::kind::Reading;

impl<'a, R: Reading> BlockShelf<'a, R> {
    /// Where a block stands: it is the current block of a channel, or ready, retired or in the hand of a party. A block
    /// that the shelf does not need is refused.
    pub fn place(&self, block: usize) -> Result<Place, Refusal>
        ensures { PlaceTold (block_state self.now) block (told result) }
    {
        let Ok(block) = u16::try_from(block) else {
            return Err(Refusal::NoSuchBlock);
        };
        if let Some(channel) = self.channel_with(block) {
            return Ok(Place::Current(channel));
        }
        self.place_with_party(block).ok_or(Refusal::NoSuchBlock)
    }

    // The channel of which the block is the current one.
    fn channel_with(&self, block: u16) -> Option<u8>
        ensures { ChannelTold (block_state self.now) block result }
    {
        for (channel, current) in self.current.iter().enumerate() {
            if *current == block {
                return Some(channel as u8);
            }
        }
        None
    }

    // Where the block stands with a party.
    fn place_with_party(&self, block: u16) -> Option<Place>
        ensures { PartyTold (block_state self.now) block result }
    {
        for (party, seat) in self.seats.iter().enumerate() {
            if let Some(place) = seat.place_of(party as u8, block) {
                return Some(place);
            }
        }
        None
    }

    /// Does nothing; promises that whatever is called from now on, every block of the need stands in exactly one
    /// place, each party's ready, retired and in-hand blocks number H + 1, and a put finds a ready block.
    pub fn blocks_have_one_place(&self)
        ensures { PlacesStay R.Reading.kind.blank (block_state self.now) }
    {}

    /// Does nothing; promises that whatever is called from now on, a block that a held link guards is never ready, in
    /// hand or written.
    pub fn held_blocks_stay(&self)
        ensures { HeldBlocksStay R.Reading.kind.blank (block_state self.now) }
    {}

    /// Does nothing; promises that whatever is called from now on, no block beyond the need is touched. (Each shelf has its
    /// own, as another maker's shelf need not stand on a row.)
    pub fn blocks_beyond_stay(&self)
        ensures { BeyondStays (block_shelf_rules R.Reading.kind.blank) (λ s. s.row) (need Block self.now.plan) (block_state self.now) }
    {}
}
