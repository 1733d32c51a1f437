ghost use Rattle.std.specs.Prelude.{refl};
ghost use Rattle.flag_rules.proofs.AsShelf.{flag_shelf_rules};
ghost use Rattle.flag_rules.proofs.Steps.{sound_out};
ghost use Rattle.flag_shelf.specs.States.{flag_state};

use crate::flag::FlagShelf;
use flag_rules::parts::{Job, Mark};
use plan::check::Plan;
use plan::refusal::Refusal;
use reading::kind::Reading;
use shelf::answer::Answer;
use shelf::numbering::Standing;
use shelf::shelf::Shelf;

// Alike in shape to the block shelf's, since both implement one trait; each call keeps its own shelf's rules.
impl<'a, R: Reading> Shelf for FlagShelf<'a, R> {
    type Item = R;

    ghost rules = { flag_shelf_rules R.Reading.kind.blank };

    ghost state = { λ s. flag_state s };

    ghost sound = { λ s. sound_out (flag_state s) s.sound };

    ghost blank = { refl };

    fn plan(&self) -> Plan {
        self.plan
    }

    fn patience(&self) -> usize {
        0
    }

    fn is_idle(&self, party: u8) -> bool {
        self.rests(party)
    }

    fn start_take(&mut self, party: u8, link: u8, channel: u8) -> Result<(), Refusal> {
        let at = self.free_link(party, link)?;
        if channel >= self.plan.channels {
            return Err(Refusal::NoSuchChannel);
        }
        self.marks[at] = Mark::Empty;
        self.jobs[party as usize] = Job::Taking(at, channel);
        Ok(())
    }

    fn start_put(&mut self, party: u8, link: u8, reading: R) -> Result<(), Refusal> {
        let at = self.held_link(party, link)?;
        self.jobs[party as usize] = Job::Putting(at, reading);
        Ok(())
    }

    fn start_check(&mut self, party: u8, link: u8) -> Result<(), Refusal> {
        let at = self.held_link(party, link)?;
        self.jobs[party as usize] = Job::Checking(at);
        Ok(())
    }

    fn drop_link(&mut self, party: u8, link: u8) -> Result<(), Refusal> {
        let which = self.free_link(party, link)?;
        self.marks[which] = Mark::Empty;
        Ok(())
    }

    fn look(&self, party: u8, link: u8) -> Result<R, Refusal> {
        let at = self.held_link(party, link)?;
        Ok(self.row.read(self.plan.channels as usize + at, R::blank()))
    }

    fn turn(&mut self, party: u8) -> Result<Answer, Refusal> {
        if party >= self.plan.parties {
            return Err(Refusal::NoSuchParty);
        }
        match self.job(party) {
            Job::Idle => Err(Refusal::NothingRunning),
            Job::Taking(at, channel) => Ok(self.end_take(party, at, channel)),
            Job::Putting(at, reading) => Ok(self.end_put(party, at, reading)),
            Job::Checking(at) => Ok(self.end_check(party, at)),
        }
    }
}
