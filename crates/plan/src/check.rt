ghost use Rattle.std.specs.Prelude.{◌≡◌};
ghost use Rattle.plan.specs.Refusals.{told};
ghost use Rattle.plan.specs.Plans.{width, need, patience, plan_verdict};
ghost use Rattle.std.specs.Prelude.{Some};
ghost use Rattle.plan.specs.Words.{shelf_word};

use crate::refusal::Refusal;
use std::fmt;

/// The two shelves on which a hub can stand.
#[derive(Clone, Copy, PartialEq, Eq, Debug)]
pub enum ShelfType {
    Flag,
    Block,
}

impl fmt::Display for ShelfType {
    ghost output = { λ s. Some (shelf_word s) };

    fn fmt<W: fmt::Write>(&self, f: &mut fmt::Formatter<W>) -> fmt::Result {
        f.write_str(match self {
            ShelfType::Flag => "flag",
            ShelfType::Block => "block",
        })
    }
}

/// The sizes of a hub: N parties, K links for each party, C channels. The default has none of them.
#[derive(Clone, Copy, PartialEq, Eq, Debug, Default)]
pub struct Plan {
    pub parties: u8,
    pub links: u8,
    pub channels: u8,
}

impl Plan {
    /// H, the links of all parties together.
    pub fn all_links(self) -> usize
        ensures { result ≡ width self }
    {
        self.parties as usize * self.links as usize
    }

    /// How many blocks a shelf of this plan needs.
    pub fn blocks_needed(self, shelf: ShelfType) -> usize
        ensures { result ≡ need shelf self }
    {
        let channels = self.channels as usize;
        let all_links = self.all_links();
        match shelf {
            ShelfType::Flag => channels + all_links,
            ShelfType::Block => channels + self.parties as usize * (all_links + 1),
        }
    }

    /// How many turns a shelf operation may spend, undisturbed, before the turn that ends it.
    pub fn turns_before_end(self, shelf: ShelfType) -> usize
        ensures { result ≡ patience shelf self }
    {
        match shelf {
            ShelfType::Flag => 0,
            ShelfType::Block => self.all_links().max(5),
        }
    }
}

/// The plan itself, if each size is in its range and the blocks suffice for the shelf.
pub fn check_plan(plan: Plan, shelf: ShelfType, blocks: usize) -> Result<Plan, Refusal>
    ensures { told result ≡ plan_verdict plan shelf blocks }
{
    if !(1..=24).contains(&plan.parties) {
        return Err(Refusal::PartiesOutOfRange);
    }
    if !(1..=4).contains(&plan.links) {
        return Err(Refusal::LinksOutOfRange);
    }
    if !(1..=64).contains(&plan.channels) {
        return Err(Refusal::ChannelsOutOfRange);
    }
    if blocks < plan.blocks_needed(shelf) {
        return Err(Refusal::TooFewBlocks);
    }
    Ok(plan)
}
