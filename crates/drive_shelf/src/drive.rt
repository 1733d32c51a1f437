use crate::script::{Command, Reply, decode};
use block_shelf::block::BlockShelf;
use plan::refusal::Refusal;
use reading::kind::Reading;
use reading::tally::Tally;
use shelf::shelf::Shelf;
use std::io;

/// What a shelf answers; the place question is not one of every shelf's.
pub(crate) fn answer_of<S: Shelf>(shelf: &mut S, command: Command) -> Result<Reply, Refusal> {
    match command {
        Command::Take {
            party,
            link,
            channel,
        } => shelf.start_take(party, link, channel)?,
        Command::Put {
            party,
            link,
            reading,
        } => shelf.start_put(party, link, S::Item::blank().amended(reading as u64))?,
        Command::Check { party, link } => shelf.start_check(party, link)?,
        Command::Drop { party, link } => shelf.drop_link(party, link)?,
        Command::Look { party, link } => return Ok(Reply::Shows(shelf.look(party, link)?.shown())),
        Command::Turn { party } => return Ok(Reply::Turned(shelf.turn(party)?)),
        Command::Place { .. } => return Ok(Reply::NoQuestion),
        Command::Idle { party } => return Ok(Reply::Idle(shelf.is_idle(party))),
    }
    Ok(Reply::Granted)
}

/// What a block shelf answers.
pub(crate) fn answer_with_places(
    shelf: &mut BlockShelf<Tally>,
    command: Command,
) -> Result<Reply, Refusal> {
    match command {
        Command::Place { block } => Ok(Reply::At(shelf.place(block)?)),
        other => answer_of(shelf, other),
    }
}

/// Carries out calls on a shelf and prints what each answers.
pub(crate) fn drive<S: Shelf, F: Fn(&mut S, Command) -> Result<Reply, Refusal>>(
    rt: &impl Print,
    shelf: &mut S,
    calls: &[u8],
    answer: F,
) -> io::Result<()>
    requires { F.IsAlwaysCallable answer }
{
    for bytes in calls.chunks(4) {
        let Some(command) = decode(bytes) else {
            return Ok(());
        };
        match answer(shelf, command) {
            Ok(reply) => println!(rt; "{reply}")?,
            Err(refusal) => {
                let number = refusal.number();
                println!(rt; "no {number}")?;
            }
        }
    }
    Ok(())
}
