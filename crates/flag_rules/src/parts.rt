/// The mark of a link: empty, or on a channel, live or broken.
#[derive(Clone, Copy, PartialEq, Eq, Debug)]
pub enum Mark {
    Empty,
    Live(u8),
    Broken(u8),
}

/// What a party waits for. A link is given by its number among the links of all parties.
#[derive(Clone, Copy)]
pub enum Job<R> {
    Idle,
    Taking(usize, u8),
    Putting(usize, R),
    Checking(usize),
}
