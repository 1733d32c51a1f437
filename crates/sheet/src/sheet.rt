ghost use Rattle.std.specs.Prelude.{◌≡◌, ◌≤◌, true, [], map, is_ok, IfOk, if◌then◌else◌, Some, None, vec_capacity};
ghost use Rattle.sheet_rules.specs.Bits.{bits_of};
ghost use Rattle.sheet_rules.specs.Contents.{fault_at};
ghost use Rattle.sheet_rules.specs.Formats.{only_fill};
ghost use Rattle.sheet_rules.specs.Sheets.{Ends, ReadRight};
ghost use Rattle.sheet.specs.Told.{record_told, fault_told, option_told, contents_told};

use crate::bit_reader::BitReader;
use crate::header::read_header;
use crate::record::read_record;
use crate::words::{Fault, Record, Summary};
use plan::refusal::Refusal;
use std::alloc::AllocError;

// No sheet has more bytes.
const MOST_BYTES: usize = 65_536;

// Behind the end code only zero bits may fill the byte.
fn fault_after_end(bits: &BitReader) -> Option<Fault>
    ensures { option_told fault_told result ≡ (if only_fill bits.now.bits then None else Some (fault_at 23 bits.now.place)) }
{
    if bits.only_fill_left() {
        return None;
    }
    Some(Fault::at(Refusal::NotEmptyAfterEnd, bits.place()))
}

// Records up to the end or the first fault, which is returned. With room for 65,536 records it does not want for memory.
fn read_records(
    bits: &mut BitReader,
    records: &mut Vec<Record>,
) -> Result<Option<Fault>, AllocError>
    requires { records.old.items ≡ [] }
    ensures said { IfOk result (λ f. Ends bits.old.bits bits.old.place (map record_told records.new.items) (option_told fault_told f)) }
    ensures succeeds { 65536 ≤ vec_capacity records.old → is_ok result ≡ true }
{
    loop {
        match read_record(bits) {
            Ok(Some(record)) => records.push(record)?,
            Ok(None) => return Ok(fault_after_end(bits)),
            Err(fault) => return Ok(Some(fault)),
        }
    }
}

// The summary of a sheet whose header is not whole.
fn nothing_but(fault: Fault) -> Summary
    ensures header { result.header ≡ None }
    ensures fault { result.fault ≡ Some fault }
{
    Summary {
        header: None,
        fault: Some(fault),
    }
}

/// Reads a run sheet: answers its header and its fault, and leaves its records in `records`, in order, up to the end
/// or to the first field that fails. A sheet is accepted, with no fault, exactly if its bits are the packed header,
/// the packed records, the end code and zero bits to fill the byte. If `records` has room for 65,536 of them, the
/// call always succeeds; otherwise it may want for memory.
pub fn read_sheet(bytes: &[u8], records: &mut Vec<Record>) -> Result<Summary, AllocError>
    ensures said { IfOk result (λ s. ReadRight (bits_of bytes.now) (contents_told s records.new.items)) }
    ensures succeeds { 65536 ≤ vec_capacity records.old → is_ok result ≡ true }
{
    records.clear();
    if bytes.len() > MOST_BYTES {
        return Ok(nothing_but(Fault::at(Refusal::SheetTooLong, 0)));
    }
    let mut bits = BitReader::new(bytes);
    let header = match read_header(&mut bits) {
        Ok(header) => header,
        Err(fault) => return Ok(nothing_but(fault)),
    };
    let fault = read_records(&mut bits, records)?;
    Ok(Summary {
        header: Some(header),
        fault,
    })
}
