ghost use Rattle.std.specs.Prelude.{◌≡◌};

/// A link: the block that it saw, its guard (a hazard pointer), and the channel from which it took the reading that it
/// holds, if it holds one.
#[derive(Clone, Copy, PartialEq, Eq, Debug, Default)]
pub struct LinkState {
    pub seen: u16,
    pub guard: Option<u16>,
    pub hold: Option<u8>,
}

impl LinkState {
    ghost use Rattle.block_rules.specs.Blocks.{emptied, seeing, guarding, holding};

    /// The link without a guard and without a reading.
    pub fn emptied(self) -> LinkState
        ensures { result ≡ emptied self }
    {
        LinkState {
            guard: None,
            hold: None,
            ..self
        }
    }

    /// The link after it saw a block.
    pub fn seeing(self, block: u16) -> LinkState
        ensures { result ≡ seeing self block }
    {
        LinkState {
            seen: block,
            ..self
        }
    }

    /// The link with its guard on the block that it saw.
    pub fn guarding(self) -> LinkState
        ensures { result ≡ guarding self }
    {
        LinkState {
            guard: Some(self.seen),
            ..self
        }
    }

    /// The link after its take came into force on a channel.
    pub fn holding(self, channel: u8) -> LinkState
        ensures { result ≡ holding self channel }
    {
        LinkState {
            hold: Some(channel),
            ..self
        }
    }
}

/// The four accesses of a take, in their order: what its next turn does.
#[derive(Clone, Copy, PartialEq, Eq, Debug)]
pub enum Access {
    /// Read the channel's current block into seen.
    ReadCurrent,
    /// Set the guard to the seen block.
    SetGuard,
    /// Compare the current block with the seen one.
    Compare,
    /// Read the seen block's reading.
    ReadBlock,
}

/// What a party is at. A link is given by its number among the links of all parties.
#[derive(Clone, Copy, PartialEq, Eq, Debug)]
pub enum Job {
    Idle,
    /// A take: link, channel, next access.
    Taking(usize, u8, Access),
    /// A put that waits: link, block in hand.
    Putting(usize, u16),
    /// A put in force whose party looks for blocks to use again: link, number of the guard to read next.
    Scanning(usize, usize),
    /// A check: link.
    Checking(usize),
}

impl Job {
    ghost use Rattle.block_rules.specs.Blocks.{rests};

    /// Whether a party with this job is idle.
    pub fn is_idle(self) -> bool
        ensures { result ≡ rests self }
    {
        matches!(self, Job::Idle)
    }
}

/// Where a block stands.
#[derive(Clone, Copy, PartialEq, Eq, Debug)]
pub enum Place {
    /// The current block of a channel.
    Current(u8),
    /// Ready for a put of a party.
    Ready(u8),
    /// Retired by a party, and not ready again yet.
    Retired(u8),
    /// In the hand of a party whose put waits.
    InHand(u8),
}
