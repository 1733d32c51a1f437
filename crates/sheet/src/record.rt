ghost use Rattle.std.specs.Prelude.{◌<◌, []};
ghost use Rattle.sheet_rules.specs.Formats.{channels_format, amendment_format, picture_format, turn_format, release_format, look_format, entry_format};
ghost use Rattle.sheet.specs.Rest.{LeftOfSheet};
ghost use Rattle.sheet.specs.Told.{channels_of, record_told, option_told, Reads};

use crate::bit_reader::BitReader;
use crate::channel_list::ChannelList;
use crate::words::{Fault, Record};
use plan::refusal::Refusal;

fn read_amendment(bits: &mut BitReader) -> Result<Record, Fault>
    ensures { Reads record_told amendment_format result bits.old bits.new }
{
    let Some(party) = bits.take(5) else {
        return Err(Fault::at(Refusal::SheetEndsEarly, bits.place()));
    };
    let Some(channel) = bits.take(7) else {
        return Err(Fault::at(Refusal::SheetEndsEarly, bits.place()));
    };
    let Some(word) = bits.take(64) else {
        return Err(Fault::at(Refusal::SheetEndsEarly, bits.place()));
    };
    Ok(Record::Amendment {
        party: party as u8,
        channel: channel as u8,
        word,
    })
}

// As many channels as were counted.
fn read_channels(bits: &mut BitReader, count: usize) -> Result<ChannelList, Fault>
    requires { count < 8 }
    ensures { Reads channels_of (channels_format count []) result bits.old bits.new }
{
    let mut channels = [0u8; 7];
    for i in 0..count {
        let Some(channel) = bits.take(7) else {
            return Err(Fault::at(Refusal::SheetEndsEarly, bits.place()));
        };
        channels[i] = channel as u8;
    }
    Ok(ChannelList {
        count: count as u8,
        channels,
    })
}

fn read_picture(bits: &mut BitReader) -> Result<Record, Fault>
    ensures { Reads record_told picture_format result bits.old bits.new }
{
    let Some(party) = bits.take(5) else {
        return Err(Fault::at(Refusal::SheetEndsEarly, bits.place()));
    };
    let Some(count) = bits.take(3) else {
        return Err(Fault::at(Refusal::SheetEndsEarly, bits.place()));
    };
    let channels = read_channels(bits, count as usize)?;
    Ok(Record::Picture {
        party: party as u8,
        channels,
    })
}

// A turn and a release have the same one field; each record has a reader of its own, since every field is taken by
// `let .. else` where it stands, a rule of the project.
fn read_turn(bits: &mut BitReader) -> Result<Record, Fault>
    ensures { Reads record_told turn_format result bits.old bits.new }
{
    let Some(party) = bits.take(5) else {
        return Err(Fault::at(Refusal::SheetEndsEarly, bits.place()));
    };
    Ok(Record::Turn { party: party as u8 })
}

fn read_release(bits: &mut BitReader) -> Result<Record, Fault>
    ensures { Reads record_told release_format result bits.old bits.new }
{
    let Some(party) = bits.take(5) else {
        return Err(Fault::at(Refusal::SheetEndsEarly, bits.place()));
    };
    Ok(Record::Release { party: party as u8 })
}

fn read_look(bits: &mut BitReader) -> Result<Record, Fault>
    ensures { Reads record_told look_format result bits.old bits.new }
{
    let Some(party) = bits.take(5) else {
        return Err(Fault::at(Refusal::SheetEndsEarly, bits.place()));
    };
    let Some(link) = bits.take(3) else {
        return Err(Fault::at(Refusal::SheetEndsEarly, bits.place()));
    };
    Ok(Record::Look {
        party: party as u8,
        link: link as u8,
    })
}

// The next record, or none at the end code. (One match by code, with a range: a rule of the project.)
pub(crate) fn read_record(bits: &mut BitReader) -> Result<Option<Record>, Fault>
    ensures entry { Reads (option_told record_told) entry_format result bits.old bits.new }
    ensures left { LeftOfSheet bits.old }
{
    let place = bits.place();
    let Some(code) = bits.take(3) else {
        return Err(Fault::at(Refusal::SheetEndsEarly, place));
    };
    match code {
        0 => Ok(None),
        1 => Ok(Some(read_amendment(bits)?)),
        2 => Ok(Some(read_picture(bits)?)),
        3 => Ok(Some(read_turn(bits)?)),
        4 => Ok(Some(read_release(bits)?)),
        5 => Ok(Some(read_look(bits)?)),
        6..=7 => Err(Fault::at(Refusal::UnknownCode, place)),
        _ => unreachable(),
    }
}
