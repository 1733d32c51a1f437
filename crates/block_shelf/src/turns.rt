ghost use Rattle.std.specs.Prelude.{◌≡◌, ◌+◌, if◌then◌else◌, ◌==◌, nat_lt};
ghost use Rattle.plan.specs.Plans.{width};
ghost use Rattle.block_rules.specs.Blocks.{link as link_in, party as party_at, current_of, is_live, with_job, with_party, with_both, start_put, compared, turn_take, turn_put, turn_scan, turn_job, take_answer, after_put_answer};
ghost use Rattle.block_rules.specs.Sound.{Sound};
ghost use Rattle.block_rules.specs.declared.parts.Job.TheVariants.{Taking, Putting, Scanning, Checking};
ghost use Rattle.block_rules.specs.declared.parts.Access.TheVariants.{Compare};
ghost use Rattle.block_shelf.specs.States.{block_state};

use crate::block::BlockShelf;
use crate::reads::channel_of;
use block_rules::parts::{Access, Job, LinkState};
use reading::kind::Reading;
use shelf::answer::Answer;

// Each function that changes the shelf asks that the rules allow the state to which it leads. What a turn function takes
// beside the party are the parts of the job that `turn` has just matched; a struct for them would be the job again.
impl<'a, R: Reading> BlockShelf<'a, R> {
    // Gives a party another job.
    pub(crate) fn set_job(&mut self, party: u8, job: Job)
        requires { Sound (with_party (block_state self.old) party (with_job (party_at (block_state self.old) party) job)) }
        ensures { block_state self.new ≡ with_party (block_state self.old) party (with_job (party_at (block_state self.old) party) job) }
    {
        if let Some(seat) = self.seats.get_mut(party as usize) {
            seat.job = job;
        }
    }

    // Changes a link, by its number, and gives a party another job.
    pub(crate) fn set_link(&mut self, party: u8, at: usize, link: LinkState, job: Job)
        requires { Sound (with_both (block_state self.old) at link party (with_job (party_at (block_state self.old) party) job)) }
        ensures { block_state self.new ≡ with_both (block_state self.old) at link party (with_job (party_at (block_state self.old) party) job) }
    {
        if let Some(place) = self.links.get_mut(at) {
            *place = link;
        }
        if let Some(seat) = self.seats.get_mut(party as usize) {
            seat.job = job;
        }
    }

    // The start of a put: the top ready block goes into hand, and the reading is written there.
    pub(crate) fn take_up(&mut self, party: u8, at: usize, reading: R)
        requires { Sound (start_put (block_state self.old) party at reading) }
        ensures { block_state self.new ≡ start_put (block_state self.old) party at reading }
    {
        let Some(seat) = self.seats.get_mut(party as usize) else {
            return;
        };
        if let Some(block) = seat.take_up(at) {
            self.row.write(block as usize, reading);
        }
    }

    // The four accesses of a take, one a turn. (An enum and not closures: the state keeps which comes next, and the rules
    // have the same cases.)
    pub(crate) fn turn_take(&mut self, party: u8, at: usize, channel: u8, access: Access) -> Answer
        requires { (party_at (block_state self.old) party).job ≡ Taking at channel access }
        ensures answer { result ≡ take_answer access }
        ensures shelf { block_state self.new ≡ turn_take (block_state self.old) party at channel access }
    {
        match access {
            Access::ReadCurrent => {
                let link = self.link(at).seeing(self.current(channel));
                self.set_link(party, at, link, Job::Taking(at, channel, Access::SetGuard));
                Answer::Run
            }
            Access::SetGuard => {
                let link = self.link(at).guarding();
                self.set_link(party, at, link, Job::Taking(at, channel, Access::Compare));
                Answer::Run
            }
            Access::Compare => {
                self.compare(party, at, channel);
                Answer::Run
            }
            Access::ReadBlock => {
                // nobody keeps the reading that is read here: the guard keeps its block as it is, and a look reads it there
                let _reading = self.row.read(self.link(at).seen as usize, R::blank());
                self.set_job(party, Job::Idle);
                Answer::Taken
            }
        }
    }

    // The comparison of a take: it holds, and the take is in force, or the take begins again.
    fn compare(&mut self, party: u8, at: usize, channel: u8)
        requires { (party_at (block_state self.old) party).job ≡ Taking at channel Compare }
        ensures { block_state self.new ≡ compared (block_state self.old) party at channel ((current_of (block_state self.old) channel) == (link_in (block_state self.old) at).seen) }
    {
        let link = self.link(at);
        if self.current(channel) == link.seen {
            self.set_link(
                party,
                at,
                link.holding(channel),
                Job::Taking(at, channel, Access::ReadBlock),
            );
        } else {
            self.set_job(party, Job::Taking(at, channel, Access::ReadCurrent));
        }
    }

    // The comparison of a put: it stores, or it missed and its block is ready again.
    pub(crate) fn turn_put(&mut self, party: u8, at: usize, block: u16) -> Answer
        requires { (party_at (block_state self.old) party).job ≡ Putting at block }
        ensures answer { result ≡ (if is_live (block_state self.old) at then after_put_answer (party_at (block_state self.old) party).ready else Answer.Missed) }
        ensures shelf { block_state self.new ≡ turn_put (block_state self.old) party at block (is_live (block_state self.old) at) }
    {
        let link = self.link(at);
        if !self.is_live(at) {
            self.seats[party as usize].miss(block);
            return Answer::Missed;
        }
        self.current[channel_of(link.hold) as usize] = block;
        self.seats[party as usize].retire(at, link.seen)
    }

    // A scan reads one guard; after the last it ends the put.
    pub(crate) fn turn_scan(&mut self, party: u8, at: usize, next: usize) -> Answer
        requires { (party_at (block_state self.old) party).job ≡ Scanning at next }
        ensures answer { result ≡ (if nat_lt (next + 1) (width self.old.plan) then Answer.Run else Answer.Stored) }
        ensures shelf { block_state self.new ≡ turn_scan (block_state self.old) party at next (link_in (block_state self.old) next).guard (nat_lt (next + 1) (width self.old.plan)) }
    {
        let guard = self.link(next).guard;
        if next + 1 < self.plan.all_links() {
            self.seats[party as usize].go_on(guard, Job::Scanning(at, next + 1));
            return Answer::Run;
        }
        self.seats[party as usize].finish(guard);
        Answer::Stored
    }

    // The comparison of a check.
    pub(crate) fn turn_check(&mut self, party: u8, at: usize) -> Answer
        requires { (party_at (block_state self.old) party).job ≡ Checking at }
        ensures answer { result ≡ (if is_live (block_state self.old) at then Answer.Live else Answer.Broken) }
        ensures shelf { block_state self.new ≡ turn_job (block_state self.old) party (Checking at) }
    {
        let live = self.is_live(at);
        self.set_job(party, Job::Idle);
        if live { Answer::Live } else { Answer::Broken }
    }
}
