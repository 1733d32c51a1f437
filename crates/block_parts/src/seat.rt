use crate::block_list::BlockList;
use block_rules::parts::Job;

/// What a party has: its ready blocks, the top last; its retired ones, the oldest first; the blocks that its scan read
/// in guards; and what it is at.
#[derive(Clone, Copy)]
pub struct Seat {
    pub ready: BlockList,
    pub retired: BlockList,
    pub read: BlockList,
    pub job: Job,
}
