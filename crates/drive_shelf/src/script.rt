use block_rules::parts::Place;
use shelf::answer::Answer;
use std::fmt;

/// Six bytes for the shelf and 65,536 calls of four.
pub(crate) const MOST_BYTES: u64 = 262_150;

/// A call of a script.
#[derive(Clone, Copy)]
pub(crate) enum Command {
    Take { party: u8, link: u8, channel: u8 },
    Put { party: u8, link: u8, reading: u8 },
    Check { party: u8, link: u8 },
    Drop { party: u8, link: u8 },
    Look { party: u8, link: u8 },
    Turn { party: u8 },
    Place { block: usize },
    Idle { party: u8 },
}

/// The call that four bytes stand for; none ends the script. (A match by code: here a byte becomes a command.)
pub(crate) fn decode(bytes: &[u8]) -> Option<Command> {
    let [code, a, b, c] = bytes else {
        return None;
    };
    let (party, link) = (*a, *b);
    match *code {
        0 => Some(Command::Take {
            party,
            link,
            channel: *c,
        }),
        1 => Some(Command::Put {
            party,
            link,
            reading: *c,
        }),
        2 => Some(Command::Check { party, link }),
        3 => Some(Command::Drop { party, link }),
        4 => Some(Command::Look { party, link }),
        5 => Some(Command::Turn { party }),
        6 => Some(Command::Place {
            block: u16::from_be_bytes([party, link]) as usize,
        }),
        7 => Some(Command::Idle { party }),
        _ => None,
    }
}

/// What a call answers that is not refused.
#[derive(Clone, Copy)]
pub(crate) enum Reply {
    Granted,
    Shows(u64),
    Turned(Answer),
    Idle(bool),
    At(Place),
    NoQuestion,
}

impl fmt::Display for Reply {
    fn fmt<W: fmt::Write>(&self, f: &mut fmt::Formatter<W>) -> fmt::Result {
        match *self {
            Reply::Granted => write!(f, "ok"),
            Reply::Shows(word) => write!(f, "{word}"),
            Reply::Turned(answer) => write!(f, "{answer}"),
            Reply::Idle(true) => write!(f, "yes"),
            Reply::Idle(false) => write!(f, "no"),
            Reply::At(Place::Current(channel)) => write!(f, "current {channel}"),
            Reply::At(Place::Ready(party)) => write!(f, "ready {party}"),
            Reply::At(Place::Retired(party)) => write!(f, "retired {party}"),
            Reply::At(Place::InHand(party)) => write!(f, "hand {party}"),
            Reply::NoQuestion => write!(f, "-"),
        }
    }
}
