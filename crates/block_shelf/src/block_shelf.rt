ghost use Rattle.std.specs.Prelude.{refl};
ghost use Rattle.block_rules.proofs.AsShelf.{block_shelf_rules};
ghost use Rattle.block_rules.proofs.Unique.{sound_out};
ghost use Rattle.block_shelf.specs.States.{block_state};

use crate::block::BlockShelf;
use block_rules::parts::{Access, Job};
use plan::check::{Plan, ShelfType};
use plan::refusal::Refusal;
use reading::kind::Reading;
use shelf::answer::Answer;
use shelf::numbering::Standing;
use shelf::shelf::Shelf;

impl<'a, R: Reading> Shelf for BlockShelf<'a, R> {
    type Item = R;

    ghost rules = { block_shelf_rules R.Reading.kind.blank };

    ghost state = { λ s. block_state s };

    ghost sound = { λ s. sound_out (block_state s) s.sound };

    ghost blank = { refl };

    fn plan(&self) -> Plan {
        self.plan
    }

    fn patience(&self) -> usize {
        Plan::turns_before_end(self.plan, ShelfType::Block)
    }

    fn is_idle(&self, party: u8) -> bool {
        self.rests(party)
    }

    fn start_take(&mut self, party: u8, link: u8, channel: u8) -> Result<(), Refusal> {
        let at = self.free_link(party, link)?;
        if channel >= self.plan.channels {
            return Err(Refusal::NoSuchChannel);
        }
        let empty = self.link(at).emptied();
        self.set_link(
            party,
            at,
            empty,
            Job::Taking(at, channel, Access::ReadCurrent),
        );
        Ok(())
    }

    fn start_put(&mut self, party: u8, link: u8, reading: R) -> Result<(), Refusal> {
        let at = self.held_link(party, link)?;
        self.take_up(party, at, reading);
        Ok(())
    }

    fn start_check(&mut self, party: u8, link: u8) -> Result<(), Refusal> {
        let at = self.held_link(party, link)?;
        self.set_job(party, Job::Checking(at));
        Ok(())
    }

    fn drop_link(&mut self, party: u8, link: u8) -> Result<(), Refusal> {
        let at = self.free_link(party, link)?;
        let empty = self.link(at).emptied();
        self.links[at] = empty;
        Ok(())
    }

    fn look(&self, party: u8, link: u8) -> Result<R, Refusal> {
        let at = self.held_link(party, link)?;
        Ok(self.row.read(self.link(at).seen as usize, R::blank()))
    }

    fn turn(&mut self, party: u8) -> Result<Answer, Refusal> {
        if party >= self.plan.parties {
            return Err(Refusal::NoSuchParty);
        }
        match self.job(party) {
            Job::Idle => Err(Refusal::NothingRunning),
            Job::Taking(at, channel, access) => Ok(self.turn_take(party, at, channel, access)),
            Job::Putting(at, block) => Ok(self.turn_put(party, at, block)),
            Job::Scanning(at, next) => Ok(self.turn_scan(party, at, next)),
            Job::Checking(at) => Ok(self.turn_check(party, at)),
        }
    }
}
