// The hour record in a text: its reader.
#![tactic(auto)]

ghost use Rattle.std.specs.Prelude.{◌≡◌};
ghost use Rattle.lines.specs.Cells.{line_in};
ghost use Rattle.record_text.specs.Hour.{record_by, told, read_record};

use energy::{GrossKwh, NetKwh};
use lines::TextRefusal;
use record::Record;
use std::array;
use text::Line;

// A record that was read, and the place after it.
#[derive(Clone, Copy)]
pub struct RecordRead {
    pub place: u64,
    pub read: Record,
}

// The record that the lines make.
fn record_by(kept: &[Line; 84], units: u64, monthly: [GrossKwh; 8]) -> Record
    ensures { result ≡ record_by (line_in kept.now) units monthly }
{
    Record {
        hour: kept[0].number[0],
        net: NetKwh(blanks::value_or(kept, 1, 0)),
        reverse: NetKwh(blanks::value_or(kept, 2, 0)),
        unit: array::from_fn(|k| blanks::place_by(kept, units, monthly, k)),
    }
}

// A record from `start` on in a text, of the plant's units with their monthly practical powers: the record and the place after it, or
// why the text is refused. Units and powers are parts of a sheet; a type of both would be made for each record and taken apart below.
pub fn read_record(
    text: &[u8],
    start: u64,
    units: u64,
    monthly: [GrossKwh; 8],
) -> Result<RecordRead, TextRefusal>
    ensures { told result ≡ read_record text.now start units monthly }
{
    let at = lines::start_in(text, start)?;
    let n = units::unit_count(units) as usize;
    let mut kept = [text::no_line(); 84];
    let c = record_lines::read_lines(&text[at..], n, &mut kept)?;
    Ok(RecordRead {
        place: (at + c.at) as u64,
        read: record_by(&kept, units, monthly),
    })
}
