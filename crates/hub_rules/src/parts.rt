/// The most channels that a picture may list: a party has at most so many links.
pub const MOST_LISTED: usize = 4;

/// The channels that a picture lists: as many as `count` says, in the order of the links that are to hold them. (A buffer
/// of its own with its length, since the list is `Copy`, which the library's vector of fixed room is not.)
#[derive(Clone, Copy)]
pub struct ChannelList {
    pub channels: [u8; MOST_LISTED],
    pub count: u8,
}

/// What the hub keeps of a party: the operation that runs, and how far it is. It keeps no reading.
#[derive(Clone, Copy)]
pub enum Party {
    /// No operation runs.
    Idle,
    /// An amendment (channel, word) takes the channel on link 0.
    AmendmentTake(u8, u64),
    /// An amendment (channel, word) puts what the word makes of the taken reading.
    AmendmentPut(u8, u64),
    /// A picture takes the channel that is listed for this link.
    PictureTake(ChannelList, u8),
    /// A picture checks this link.
    PictureCheck(ChannelList, u8),
}

/// What a turn answers: the operation goes on, or this turn ended it.
#[derive(Clone, Copy, PartialEq, Eq, Debug)]
pub enum Progress {
    Run,
    Done,
}
