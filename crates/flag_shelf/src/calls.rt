ghost use Rattle.std.specs.Prelude.{◌≡◌, ℕ, ◌+◌, ◌*◌, ◌<◌, ◌≤◌, not, List, [], ◌∷◌, map, vec_len};
ghost use Rattle.shelf.specs.Meaning.{activity_of, link_at};
ghost use Rattle.shelf.specs.Calls.{is_idle, is_vacant};
ghost use Rattle.flag_rules.specs.Flags.{job_of, mark_at, is_full, with_job, break_mark, taken, put_by, put_answer, answer_of_check};
ghost use Rattle.flag_rules.specs.declared.parts.Job.TheVariants.{Idle, Taking, Putting, Checking};
ghost use Rattle.flag_rules.specs.Means.{means, activity_in};
ghost use Rattle.flag_shelf.specs.States.{flag_state};

use crate::flag::FlagShelf;
use flag_rules::parts::{Job, Mark};
use plan::check::Plan;
use reading::kind::Reading;
use shelf::answer::Answer;
use shelf::numbering::Standing;

impl<'a, R: Reading> FlagShelf<'a, R> {
    // What a party waits for; nothing if there is no such party.
    pub(crate) fn job(&self, party: u8) -> Job<R>
        ensures { result ≡ job_of (flag_state self.now) party }
    {
        self.jobs.get(party as usize).copied().unwrap_or(Job::Idle)
    }

    // The mark of a link by its number; empty if there is no such link.
    pub(crate) fn mark(&self, at: usize) -> Mark
        ensures { result ≡ mark_at (flag_state self.now) at }
    {
        self.marks.get(at).copied().unwrap_or(Mark::Empty)
    }
}

impl<'a, R: Reading> Standing for FlagShelf<'a, R> {
    ghost sizes = { λ s. s.plan };

    ghost at_rest = { λ s p. is_idle (activity_of (means R.Reading.kind.blank (flag_state s)) p) };

    ghost held = { λ s j. not (is_vacant (link_at (means R.Reading.kind.blank (flag_state s)) j)) };

    fn sizes(&self) -> Plan {
        self.plan
    }

    fn rests(&self, party: u8) -> bool {
        matches!(self.job(party), Job::Idle)
    }

    fn is_held(&self, at: usize) -> bool {
        !matches!(self.mark(at), Mark::Empty)
    }
}

// A mark after a put came into force on a live link of the channel.
fn broken(mark: Mark, channel: u8) -> Mark
    ensures { result ≡ break_mark channel mark }
{
    match mark {
        Mark::Live(other) if other == channel => Mark::Broken(other),
        _ => mark,
    }
}

// Breaks every live mark on a channel.
fn break_marks(marks: &mut [Mark], channel: u8)
    ensures { marks.new ≡ map (break_mark channel) marks.old }
{
    for mark in marks {
        *mark = broken(*mark, channel);
    }
}

// What these take beside the party are the parts of the job that `turn` has just matched.
impl<'a, R: Reading> FlagShelf<'a, R> {
    // The take comes into force and ends: the channel's reading is copied to the link's block.
    pub(crate) fn end_take(&mut self, party: u8, at: usize, channel: u8) -> Answer
        requires { job_of (flag_state self.old) party ≡ Taking at channel }
        ensures answer { result ≡ Answer.Taken }
        ensures shelf { flag_state self.new ≡ taken R.Reading.kind.blank (flag_state self.old) party at channel }
    {
        let reading = self.row.read(channel as usize, R::blank());
        self.row.write(self.plan.channels as usize + at, reading);
        self.marks[at] = Mark::Live(channel);
        self.jobs[party as usize] = Job::Idle;
        Answer::Taken
    }

    // The put comes into force and ends: on a live link it stores and breaks all links on the channel.
    pub(crate) fn end_put(&mut self, party: u8, at: usize, reading: R) -> Answer
        requires { job_of (flag_state self.old) party ≡ Putting at reading }
        ensures answer { result ≡ put_answer (mark_at (flag_state self.old) at) }
        ensures shelf { flag_state self.new ≡ put_by (flag_state self.old) party reading (mark_at (flag_state self.old) at) }
    {
        let mark = self.mark(at);
        self.jobs[party as usize] = Job::Idle;
        let Mark::Live(channel) = mark else {
            return Answer::Missed;
        };
        self.row.write(channel as usize, reading);
        break_marks(&mut self.marks, channel);
        Answer::Stored
    }

    // The check comes into force and ends.
    pub(crate) fn end_check(&mut self, party: u8, at: usize) -> Answer
        requires { job_of (flag_state self.old) party ≡ Checking at }
        ensures answer { result ≡ answer_of_check (mark_at (flag_state self.old) at) }
        ensures shelf { flag_state self.new ≡ with_job (flag_state self.old) party Idle }
    {
        let answer = check_answer(self.mark(at));
        self.jobs[party as usize] = Job::Idle;
        answer
    }
}

fn check_answer(mark: Mark) -> Answer
    ensures { result ≡ answer_of_check mark }
{
    match mark {
        Mark::Live(_) => Answer::Live,
        Mark::Empty | Mark::Broken(_) => Answer::Broken,
    }
}
