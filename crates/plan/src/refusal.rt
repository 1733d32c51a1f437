ghost use Rattle.std.specs.Prelude.{◌≡◌};
ghost use Rattle.plan.specs.Refusals.{refusal_number, OwnNumbers};

/// Why a call, a plan or a sheet is refused. Each case has a number of its own, by which contracts and programs
/// speak of it, as is a rule of the project.
#[derive(Clone, Copy, PartialEq, Eq, Debug)]
pub enum Refusal {
    /// 1: the party is not below N, or the shelf has none.
    NoSuchParty = 1,
    /// 2: the party has an operation running.
    PartyBusy = 2,
    /// 3: the party has no operation running.
    NothingRunning = 3,
    /// 4: the link is not below K.
    NoSuchLink = 4,
    /// 5: the picture's list is empty or longer than K.
    ListLength = 5,
    /// 6: a channel is not below C.
    NoSuchChannel = 6,
    /// 7: a channel is listed twice.
    ChannelRepeated = 7,
    /// 8: the link is empty.
    LinkEmpty = 8,
    /// 9: the kind of reading does not admit the word.
    WordNotAdmitted = 9,
    /// 10: the block is not below the shelf's need.
    NoSuchBlock = 10,
    /// 11: N is outside its range.
    PartiesOutOfRange = 11,
    /// 12: K is outside its range.
    LinksOutOfRange = 12,
    /// 13: C is outside its range.
    ChannelsOutOfRange = 13,
    /// 14: there are fewer blocks than the shelf needs.
    TooFewBlocks = 14,
    /// 20: the sheet ends before a field does.
    SheetEndsEarly = 20,
    /// 21: version, kind, shelf or spare is wrong.
    WrongHeader = 21,
    /// 22: no record has this code.
    UnknownCode = 22,
    /// 23: a set bit or a further byte follows the end.
    NotEmptyAfterEnd = 23,
    /// 24: the sheet has more than 65,536 bytes.
    SheetTooLong = 24,
}

impl Refusal {
    /// The number that stands for this refusal on screens and in documents.
    pub fn number(self) -> u8
        ensures { result ≡ refusal_number self }
    {
        self as u8
    }

    /// Does nothing; promises that no two refusals have one number.
    pub fn numbers_differ()
        ensures { OwnNumbers }
    {}
}
