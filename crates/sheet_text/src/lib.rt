// The day sheet in a text: its reader.
#![tactic(auto)]

ghost use Rattle.std.specs.Prelude.{◌≡◌, ◌≤◌, ◌<◌};
ghost use Rattle.lines.specs.Cells.{line_in};
ghost use Rattle.sheet_text.specs.Day.{offer_by, unit_by, place_by, sheet_by, told, read_sheet};

use energy::{GrossKwh, HubKwh};
use lines::TextRefusal;
use offer::{Offer, Step};
use sheet::{Sheet, UnitSheet};
use std::array;
use text::Line;

// A sheet that was read, and the place after it. A generic type for this and for `record_text`'s would not name what was read.
#[derive(Clone, Copy)]
pub struct SheetRead {
    pub place: u64,
    pub sheet: Sheet,
}

// The pairs quantity:price of a line. No `From`: which lines make a value, and what their numbers are, is the sheet's own, as a record has lines of
// another order.
fn offer_by(line: &Line) -> Offer
    ensures { result ≡ offer_by line.now }
{
    Offer {
        steps: line.count / 2,
        step: array::from_fn(|s| Step {
            quantity: HubKwh(line.number[2 * s]),
            price: line.number[2 * s + 1],
        }),
    }
}

// Block j of the units, named by its number, which is no place in the list.
fn unit_by(kept: &[Line; 280], j: usize) -> UnitSheet
    requires { j ≤ 8 }
    ensures { result ≡ unit_by (line_in kept.now) j }
{
    let at = 30 + 27 * j;
    UnitSheet {
        own: kept[at].number[0],
        nominal: GrossKwh(kept[at + 1].number[0]),
        monthly: GrossKwh(kept[at + 2].number[0]),
        offers: array::from_fn(|h| offer_by(&kept[at + 3 + h])),
    }
}

// The unit of place k of the plant, which is no place in the list. A record's blocks are other lines, so the two share only `block_of`.
fn place_by(kept: &[Line; 280], units: u64, k: usize) -> UnitSheet
    requires { k < 8 }
    ensures { result ≡ place_by (line_in kept.now) units k }
{
    if units::member_at(units, k) {
        unit_by(kept, units::block_of(units, k))
    } else {
        sheet::no_unit()
    }
}

// The sheet that the lines make.
fn sheet_by(kept: &[Line; 280]) -> Sheet
    ensures { result ≡ sheet_by (line_in kept.now) }
{
    let units = kept[29].number[0];
    Sheet {
        month: kept[0].number[0],
        day: kept[1].number[0],
        loss: kept[2].number[0],
        ceiling: kept[3].number[0],
        bar: kept[4].number[0],
        cpf: array::from_fn(|h| kept[5 + h].number[0]),
        units,
        unit: array::from_fn(|k| place_by(kept, units, k)),
    }
}

// A sheet from `start` on in a text: the sheet and the place after it, or why the text is refused. A reader for sheets and records would take the
// reading of the lines and the making of the value as functions, and is no plainer: each is four or five calls.
pub fn read_sheet(text: &[u8], start: u64) -> Result<SheetRead, TextRefusal>
    ensures { told result ≡ read_sheet text.now start }
{
    let at = lines::start_in(text, start)?;
    let mut kept = [text::no_line(); 280];
    let c = sheet_lines::read_lines(&text[at..], &mut kept)?;
    Ok(SheetRead {
        place: (at + c.at) as u64,
        sheet: sheet_by(&kept),
    })
}
