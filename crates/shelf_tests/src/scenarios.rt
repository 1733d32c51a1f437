//! Runs of calls that every shelf must carry out alike.
use plan::check::Plan;
use plan::refusal::Refusal;
use reading::kind::Reading;
use shelf::answer::Answer;
use shelf::shelf::Shelf;
use std::process::Abort;
use std::test::Fail;

pub(crate) const SMALL: Plan = Plan {
    parties: 3,
    links: 2,
    channels: 2,
};

// The number that a call is refused with, if it is.
pub(crate) fn refusal<T: Drop>(answer: Result<T, Refusal>) -> Option<u8> {
    answer.err().map(Refusal::number)
}

// Gives turns until the operation ends, at most as many as an undisturbed one has, and answers what the last answered.
pub(crate) fn ended<S: Shelf>(shelf: &mut S, party: u8) -> Result<Answer, Refusal> {
    for _ in 0..shelf.patience() {
        let answer = shelf.turn(party)?;
        if answer != Answer::Run {
            return Ok(answer);
        }
    }
    shelf.turn(party)
}

// The word that a link shows.
pub(crate) fn shown<S: Shelf>(shelf: &S, party: u8, link: u8) -> Result<u64, Refusal> {
    Ok(shelf.look(party, link)?.shown())
}

// Takes a channel on a link.
pub(crate) fn take<S: Shelf>(
    shelf: &mut S,
    party: u8,
    link: u8,
    channel: u8,
) -> Result<Answer, Refusal> {
    shelf.start_take(party, link, channel)?;
    ended(shelf, party)
}

// Puts a blank reading amended by a word.
fn put<S: Shelf>(shelf: &mut S, party: u8, link: u8, word: u64) -> Result<Answer, Refusal> {
    shelf.start_put(party, link, S::Item::blank().amended(word))?;
    ended(shelf, party)
}

pub(crate) fn check_link<S: Shelf>(shelf: &mut S, party: u8, link: u8) -> Result<Answer, Refusal> {
    shelf.start_check(party, link)?;
    ended(shelf, party)
}

// A channel that went 7, 8, 7 has broken its links, which still show 7; another channel's links live on.
pub(crate) fn there_and_back<S: Shelf>(rt: &impl Abort, shelf: &mut S) -> Result<(), Fail> {
    assert_eq!(rt; take(shelf, 0, 0, 0), Ok(Answer::Taken));
    assert_eq!(rt; put(shelf, 0, 0, 7), Ok(Answer::Stored));
    assert_eq!(rt; take(shelf, 1, 0, 0), Ok(Answer::Taken));
    assert_eq!(rt; take(shelf, 1, 1, 1), Ok(Answer::Taken));
    assert_eq!(rt; take(shelf, 0, 0, 0), Ok(Answer::Taken));
    assert_eq!(rt; put(shelf, 0, 0, 8), Ok(Answer::Stored));
    assert_eq!(rt; take(shelf, 2, 0, 0), Ok(Answer::Taken));
    assert_eq!(rt; put(shelf, 2, 0, 7), Ok(Answer::Stored));
    assert_eq!(rt; check_link(shelf, 1, 0), Ok(Answer::Broken));
    assert_eq!(rt; check_link(shelf, 1, 1), Ok(Answer::Live));
    assert_eq!(rt; shown(shelf, 1, 0), Ok(7));
    assert_eq!(rt; put(shelf, 1, 0, 9), Ok(Answer::Missed));
    assert_eq!(rt; take(shelf, 1, 0, 0), Ok(Answer::Taken));
    assert_eq!(rt; shown(shelf, 1, 0), Ok(7));
    assert_eq!(rt; put(shelf, 1, 1, 5), Ok(Answer::Stored));
    assert_eq!(rt; check_link(shelf, 1, 0), Ok(Answer::Live));
    Ok(())
}

// Three parties on one channel: of two puts on links taken together the first stores, the second misses.
pub(crate) fn contention<S: Shelf>(rt: &impl Abort, shelf: &mut S) -> Result<(), Fail> {
    assert_eq!(rt; refusal(shelf.start_take(0, 0, 1)), None);
    assert_eq!(rt; refusal(shelf.start_take(1, 0, 1)), None);
    assert_eq!(rt; ended(shelf, 1), Ok(Answer::Taken));
    assert_eq!(rt; ended(shelf, 0), Ok(Answer::Taken));
    assert_eq!(rt; take(shelf, 2, 1, 1), Ok(Answer::Taken));
    assert_eq!(rt;
        refusal(shelf.start_put(0, 0, S::Item::blank().amended(3))),
        None
    );
    assert_eq!(rt;
        refusal(shelf.start_put(1, 0, S::Item::blank().amended(4))),
        None
    );
    assert_eq!(rt; ended(shelf, 1), Ok(Answer::Stored));
    assert_eq!(rt; ended(shelf, 0), Ok(Answer::Missed));
    assert_eq!(rt; shown(shelf, 2, 1), Ok(0));
    assert_eq!(rt; check_link(shelf, 2, 1), Ok(Answer::Broken));
    assert_eq!(rt; take(shelf, 2, 1, 1), Ok(Answer::Taken));
    assert_eq!(rt; shown(shelf, 2, 1), Ok(4));
    assert_eq!(rt; refusal(shelf.drop_link(2, 1)), None);
    assert_eq!(rt; refusal(shelf.look(2, 1)), Some(8));
    Ok(())
}

// Refusals in the order of the table, and nothing changed by them.
pub(crate) fn refusals<S: Shelf>(rt: &impl Abort, shelf: &mut S) -> Result<(), Fail> {
    assert_eq!(rt; take(shelf, 0, 0, 0), Ok(Answer::Taken));
    assert_eq!(rt; refusal(shelf.start_take(1, 0, 0)), None);
    assert_eq!(rt; refusal(shelf.start_take(3, 9, 9)), Some(1));
    assert_eq!(rt; refusal(shelf.start_take(1, 9, 9)), Some(2));
    assert_eq!(rt; refusal(shelf.start_take(0, 2, 9)), Some(4));
    assert_eq!(rt; refusal(shelf.start_take(0, 0, 2)), Some(6));
    assert_eq!(rt; refusal(shelf.start_put(3, 9, S::Item::blank())), Some(1));
    assert_eq!(rt; refusal(shelf.start_put(1, 9, S::Item::blank())), Some(2));
    assert_eq!(rt; refusal(shelf.start_put(0, 2, S::Item::blank())), Some(4));
    assert_eq!(rt; refusal(shelf.start_put(0, 1, S::Item::blank())), Some(8));
    assert_eq!(rt; refusal(shelf.start_check(3, 9)), Some(1));
    assert_eq!(rt; refusal(shelf.start_check(1, 9)), Some(2));
    assert_eq!(rt; refusal(shelf.start_check(0, 2)), Some(4));
    assert_eq!(rt; refusal(shelf.start_check(0, 1)), Some(8));
    assert_eq!(rt; refusal(shelf.drop_link(3, 9)), Some(1));
    assert_eq!(rt; refusal(shelf.drop_link(1, 9)), Some(2));
    assert_eq!(rt; refusal(shelf.drop_link(0, 2)), Some(4));
    assert_eq!(rt; refusal(shelf.look(3, 9)), Some(1));
    assert_eq!(rt; refusal(shelf.look(1, 9)), Some(2));
    assert_eq!(rt; refusal(shelf.look(0, 2)), Some(4));
    assert_eq!(rt; refusal(shelf.look(0, 1)), Some(8));
    assert_eq!(rt; refusal(shelf.turn(3)), Some(1));
    assert_eq!(rt; refusal(shelf.turn(0)), Some(3));
    assert_eq!(rt; check_link(shelf, 0, 0), Ok(Answer::Live));
    assert_eq!(rt; ended(shelf, 1), Ok(Answer::Taken));
    assert_eq!(rt; refusal(shelf.turn(1)), Some(3));
    Ok(())
}
