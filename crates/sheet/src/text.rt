//! Sheets in plain words, as people read them.
ghost use Rattle.std.specs.Prelude.{Some};
ghost use Rattle.sheet.specs.Words.{kind_word, layer_word, header_text, fault_text};

use crate::channel_list::ChannelList;
use crate::words::{Fault, Header, Kind, Layer, Record};
use plan::check::Plan;
use std::fmt;

impl fmt::Display for Kind {
    ghost output = { λ k. Some (kind_word k) };

    fn fmt<W: fmt::Write>(&self, f: &mut fmt::Formatter<W>) -> fmt::Result {
        f.write_str(match self {
            Kind::Tally => "tally",
            Kind::Capture => "capture",
        })
    }
}

impl fmt::Display for Header {
    ghost output = { λ h. Some (header_text h) };

    fn fmt<W: fmt::Write>(&self, f: &mut fmt::Formatter<W>) -> fmt::Result {
        let Header { kind, shelf, plan } = self;
        let Plan {
            parties,
            links,
            channels,
        } = plan;
        write!(
            f,
            "sheet kind {kind} shelf {shelf} parties {parties} links {links} channels {channels}"
        )
    }
}

impl fmt::Display for ChannelList {
    fn fmt<W: fmt::Write>(&self, f: &mut fmt::Formatter<W>) -> fmt::Result {
        let channels = self.as_slice();
        if channels.is_empty() {
            return f.write_str(" none");
        }
        for channel in channels {
            write!(f, " {channel}")?;
        }
        Ok(())
    }
}

impl fmt::Display for Record {
    fn fmt<W: fmt::Write>(&self, f: &mut fmt::Formatter<W>) -> fmt::Result {
        match self {
            Record::Amendment {
                party,
                channel,
                word,
            } => {
                write!(
                    f,
                    "amendment party {party} channel {channel} word 0x{word:016X}"
                )
            }
            Record::Picture { party, channels } => write!(
                f,
                "picture party {party} channels{channels}"
            ),
            Record::Turn { party } => write!(f, "turn party {party}"),
            Record::Release { party } => write!(f, "release party {party}"),
            Record::Look { party, link } => write!(f, "look party {party} link {link}"),
        }
    }
}

impl fmt::Display for Layer {
    ghost output = { λ l. Some (layer_word l) };

    fn fmt<W: fmt::Write>(&self, f: &mut fmt::Formatter<W>) -> fmt::Result {
        f.write_str(match self {
            Layer::Plan => "plan",
            Layer::Sheet => "sheet",
            Layer::Runner => "runner",
        })
    }
}

impl fmt::Display for Fault {
    ghost output = { λ f. Some (fault_text f) };

    fn fmt<W: fmt::Write>(&self, f: &mut fmt::Formatter<W>) -> fmt::Result {
        let Fault {
            refusal,
            layer,
            place,
        } = self;
        let number = refusal.number();
        write!(f, "fault {number} at {place} ({layer})")
    }
}
