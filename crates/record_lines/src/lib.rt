// The lines of an hour record: the row due at each place, and their reading.
#![tactic(auto)]

ghost use Rattle.std.specs.Prelude.{◌≡◌, ℕ, ◌≤◌, ◌<◌, get_or, Ok, Err};
ghost use Rattle.lines.specs.Lines.{Reading, begin};
ghost use Rattle.lines.specs.Cells.{line_in, Kept, Stopped, cursors, refusals, lines_before};
ghost use Rattle.record_lines.specs.Rows.{head_rows, unit_rows, spans_row, end_row, row_at, due_row, read_lines};

use lines::{Cursor, Frame, Stop};
use text::{Line, Row};

// Line k of the head, from 0. A table of rows is no plainer: a row of it takes ten lines.
fn head_row(k: usize) -> Row
    requires { k < 3 }
    ensures { result ≡ get_or head_rows k end_row }
{
    match k {
        0 => text::number_row(*b"hour======", 1, 24),
        1 => text::blank_row(*b"net=======", 0, 8000000),
        _ => text::blank_row(*b"reverse===", 0, 8000000),
    }
}

// Written out, as the row of a take is (`day_calls`).
fn spans_row() -> Row
    ensures { result ≡ spans_row }
{
    Row {
        key: *b"spans=====",
        word: *b"==========",
        blank: true,
        order: false,
        parts: 4,
        most: 24,
        low: [1, 1, 0, 0],
        high: [60, 8, 2, 1000000],
    }
}

// Line k of a unit's block, from 0; a match as the head is.
fn unit_row(k: usize) -> Row
    requires { k < 9 }
    ensures { result ≡ get_or unit_rows k end_row }
{
    match k {
        0 => text::blank_row(*b"declared==", 0, 1000000),
        1 => text::blank_row(*b"real======", 0, 1000000),
        2 => text::blank_row(*b"test======", 0, 1000000),
        3 => text::blank_row(*b"deviation=", 0, 1000000),
        4 => text::blank_row(*b"power=====", 0, 1000000),
        5 => text::blank_row(*b"reading===", 0, 1000000),
        6 => text::blank_row(*b"since=====", 1, 744),
        7 => text::blank_row(*b"repair====", 0, 1),
        _ => spans_row(),
    }
}

// The end of a record; a sheet's has another word.
fn end_row() -> Row
    ensures { result ≡ end_row }
{
    text::word_row(*b"end=======", *b"hour======")
}

// The rows of a record of a plant of n units.
#[derive(Clone, Copy)]
struct RecordRows {
    n: usize,
}

impl Frame for RecordRows {
    ghost due = { λ rows. due_row rows.n };

    ghost room = { 0 };

    fn row_at(&self, kept: &[Line], k: usize) -> Row {
        if k < 3 {
            head_row(k)
        } else if (k - 3) / 9 < self.n {
            unit_row((k - 3) % 9)
        } else {
            end_row()
        }
    }
}

// The lines of a record that begins where the text does, in a plant of n units.
pub fn read_lines(text: &[u8], n: usize, kept: &mut [Line]) -> Result<Cursor, Stop>
    requires n_bound { n ≤ 64 }
    ensures cursor { refusals result ≡ cursors (read_lines text.now n) }
    ensures kept { (s : Reading) → read_lines text.now n ≡ Ok s → Kept kept.new s.lines }
    ensures lines_bound { lines_before result < 10000 }
    ensures refused { (e : Stop) → result ≡ Err e → Stopped text.now (due_row n) begin e kept.new }
    ensures behind { (k : ℕ) → lines_before result ≤ k → line_in kept.new k ≡ line_in kept.old k }
{
    lines::read_more(text, &RecordRows { n }, 3 + 9 * n + 1, lines::start(), kept)
}
