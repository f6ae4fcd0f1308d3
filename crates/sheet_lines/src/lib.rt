// The lines of a day sheet: the row due at each place, and their reading.
#![tactic(auto)]

ghost use Rattle.std.specs.Prelude.{◌≡◌, ℕ, ◌≤◌, ◌<◌, length, get_or, Ok, Err};
ghost use Rattle.std.specs.Int.Count.{ones};
ghost use Rattle.lines.specs.Lines.{Reading, begin, number_of};
ghost use Rattle.lines.specs.Cells.{line_in, Kept, Stopped, cursors, refusals, lines_before};
ghost use Rattle.sheet_lines.specs.Rows.{head_rows, unit_rows, offer_row, end_row, row_at, due_row, read_lines};

use lines::{Cursor, Frame, Stop};
use text::{Line, Row};

// Line k of the head, from 0. A table of rows is no plainer: a row of it takes ten lines, and the row of the day goes by the month.
fn head_row(month: u64, k: usize) -> Row
    requires { k < 30 }
    ensures { result ≡ get_or (head_rows month) k end_row }
{
    match k {
        0 => text::number_row(*b"month=====", 1, 12),
        1 => text::number_row(*b"day=======", 1, sheet::last_day(month)),
        2 => text::number_row(*b"loss======", 0, 2000),
        3 => text::number_row(*b"ceiling===", 0, 10000000),
        4 => text::number_row(*b"bar=======", 0, 1000000),
        29 => text::number_row(*b"units=====", 1, 255),
        _ => text::number_row(*b"cpf=======", 0, 10000),
    }
}

// Written out, as the row of a take is (`day_calls`).
fn offer_row() -> Row
    ensures { result ≡ offer_row }
{
    Row {
        key: *b"offer=====",
        word: *b"==========",
        blank: false,
        order: true,
        parts: 2,
        most: 20,
        low: [1, 0, 0, 0],
        high: [1000000, 10000000, 0, 0],
    }
}

// Line k of a unit's block, from 0; a match as the head is.
fn unit_row(k: usize) -> Row
    requires { k < 27 }
    ensures { result ≡ get_or unit_rows k end_row }
{
    match k {
        0 => text::number_row(*b"own=======", 0, 2000),
        1 => text::number_row(*b"nominal===", 1, 1000000),
        2 => text::number_row(*b"monthly===", 0, 1000000),
        _ => offer_row(),
    }
}

// The end of a sheet; a record's has another word.
fn end_row() -> Row
    ensures { result ≡ end_row }
{
    text::word_row(*b"end=======", *b"sheet=====")
}

// The first number of line k of the list, 0 past the list's end, where no line stands to take it of.
pub fn first_at(kept: &[Line], k: usize) -> u64
    ensures { result ≡ number_of (line_in kept.now k) }
{
    lines::number_at(kept, k, 0)
}

// The number of units, once the line `units` is read.
fn units_read(kept: &[Line]) -> usize
    ensures value { result ≡ ones (number_of (line_in kept.now 29)) }
    ensures upper_bound { result ≤ 64 }
{
    first_at(kept, 29).count_ones() as usize
}

// The rows of a sheet: the month and the units come from its own lines. A frame of head, blocks and end for both texts would ask for three rows, two
// lengths and the number of units, and is no plainer than the three arms.
#[derive(Clone, Copy)]
struct SheetRows;

impl Frame for SheetRows {
    ghost due = { λ rows. due_row };

    ghost room = { 30 };

    fn row_at(&self, kept: &[Line], k: usize) -> Row {
        if k < 30 {
            head_row(first_at(kept, 0), k)
        } else if (k - 30) / 27 < units_read(kept) {
            unit_row((k - 30) % 27)
        } else {
            end_row()
        }
    }
}

// The lines of a sheet that begins where the text does.
pub fn read_lines(text: &[u8], kept: &mut [Line]) -> Result<Cursor, Stop>
    requires in_bounds { 30 ≤ length kept.old }
    ensures cursor { refusals result ≡ cursors (read_lines text.now) }
    ensures kept { (s : Reading) → read_lines text.now ≡ Ok s → Kept kept.new s.lines }
    ensures lines_bound { lines_before result < 10000 }
    ensures refused { (e : Stop) → result ≡ Err e → Stopped text.now due_row begin e kept.new }
    ensures behind { (k : ℕ) → lines_before result ≤ k → line_in kept.new k ≡ line_in kept.old k }
{
    let head = lines::read_more(text, &SheetRows, 30, lines::start(), kept)?;
    lines::read_more(text, &SheetRows, 27 * units_read(kept) + 1, head, kept)
}
