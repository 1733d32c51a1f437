ghost use Rattle.std.specs.Prelude.{◌≡◌, ◌+◌, ◌<◌, ◌≤◌, ◌++◌, length};
ghost use Rattle.block_rules.specs.Blocks.{missing, retiring, after_put_answer, noted, unread, still_held, freeing};
ghost use Rattle.block_parts.specs.Lists.{blocks_in};
ghost use Rattle.block_parts.specs.Seats.{party_of, top_of, took_up, going_on, place_with};

use crate::block_list::{BlockList, MOST_BLOCKS};
use crate::seat::Seat;
use block_rules::parts::{Job, Place};
use shelf::answer::Answer;

// The steps that append promise the rule's party if there is room. (An invariant that makes room certain was tried: it
// does not close, since a step is given job and block by its caller.)
impl Seat {
    /// Takes the top ready block into hand for a put on a link, if one is ready.
    pub fn take_up(&mut self, link: usize) -> Option<u16>
        ensures block { result ≡ top_of (party_of self.old).ready }
        ensures party { party_of self.new ≡ took_up (party_of self.old) link (party_of self.old).ready }
    {
        let block = self.ready.pop()?;
        self.job = Job::Putting(link, block);
        Some(block)
    }

    /// The put missed: its block goes back on top of ready, if there is room.
    pub fn miss(&mut self, block: u16)
        ensures { length (party_of self.old).ready < MOST_BLOCKS → party_of self.new ≡ missing (party_of self.old) block }
    {
        self.ready.push(block);
        self.job = Job::Idle;
    }

    /// The put on a link stored: the block that the link saw is retired, if there is room. The put ends, or, if no
    /// block is ready, a scan follows.
    pub fn retire(&mut self, link: usize, seen: u16) -> Answer
        ensures answer { result ≡ after_put_answer (party_of self.old).ready }
        ensures party { length (party_of self.old).retired < MOST_BLOCKS → party_of self.new ≡ retiring (party_of self.old) link seen }
    {
        self.retired.push(seen);
        self.read.clear();
        if self.ready.is_empty() {
            self.job = Job::Scanning(link, 0);
            return Answer::Run;
        }
        self.job = Job::Idle;
        Answer::Stored
    }

    /// The scan read a guard and goes on with the given job. A block in the guard is noted, if there is room.
    pub fn go_on(&mut self, guard: Option<u16>, job: Job)
        ensures { length (party_of self.old).read < MOST_BLOCKS → party_of self.new ≡ going_on (party_of self.old) guard job }
    {
        note(&mut self.read, guard);
        self.job = job;
    }

    /// The scan read its last guard: the retired blocks that no guard had are ready again.
    pub fn finish(&mut self, guard: Option<u16>)
        ensures { length (party_of self.old).read < MOST_BLOCKS → length (party_of self.old).ready + length (party_of self.old).retired ≤ MOST_BLOCKS
            → party_of self.new ≡ freeing (party_of self.old) (noted guard (party_of self.old).read) }
    {
        note(&mut self.read, guard);
        self.retired = sort_out(&mut self.ready, &self.retired, &self.read);
        self.job = Job::Idle;
    }

    /// Where a block stands with this party, whose number is given, if it does.
    #[tactic(auto, using(crate::proofs::Members::among_reverse))]
    pub fn place_of(&self, party: u8, block: u16) -> Option<Place>
        ensures { result ≡ place_with (party_of self.now) party block }
    {
        if self.ready.contains(block) {
            return Some(Place::Ready(party));
        }
        if self.retired.contains(block) {
            return Some(Place::Retired(party));
        }
        if matches!(self.job, Job::Putting(_, hand) if hand == block) {
            return Some(Place::InHand(party));
        }
        None
    }
}

// Notes the block of a guard, if it has one.
fn note(read: &mut BlockList, guard: Option<u16>)
    ensures { length (blocks_in read.old) < MOST_BLOCKS → blocks_in read.new ≡ noted guard (blocks_in read.old) }
{
    if let Some(block) = guard {
        read.push(block);
    }
}

// Sorts the retired blocks: those that were not read in a guard go on top of ready, in their order, if there is room;
// the others are answered.
fn sort_out(ready: &mut BlockList, retired: &BlockList, read: &BlockList) -> BlockList
    ensures freed { length (blocks_in ready.old) + length (blocks_in retired.now) ≤ MOST_BLOCKS
        → blocks_in ready.new ≡ blocks_in ready.old ++ unread (blocks_in read.now) (blocks_in retired.now) }
    ensures kept { blocks_in result ≡ still_held (blocks_in read.now) (blocks_in retired.now) }
{
    let mut held = BlockList::new();
    for block in retired.as_slice() {
        if read.contains(*block) {
            held.push(*block);
        } else {
            ready.push(*block);
        }
    }
    held
}
