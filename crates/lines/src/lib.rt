// A text read line by line. The reader's state is a cursor by value; the lines read are kept in a lent list of lines.
#![tactic(auto)]

ghost use Rattle.std.specs.Prelude.{◌≡◌, ◌≢◌, ℕ, List, length, get_or, ◌+◌, ◌^◌, ◌≤◌, ◌<◌, cond, IfOk, Ok, Err};
ghost use Rattle.text.specs.declared.Row.{Row};
ghost use Rattle.text.specs.declared.Line.{Line};
ghost use Rattle.lines.specs.Lines.{Reading, read_line, read_by, line_at, place_after};
ghost use Rattle.lines.specs.Cells.{line_in, Kept, Stopped, cursor_of, cursors, refusals, lines_before, lent, ending};
ghost use Rattle.lines.specs.Refusals.{text_number, text_refusal, bad_start, no_start};

use text::{Line, Row, TextFault};

// Why a text is refused, with the line, 0 for its size or the start: a 0 and no `None`, since C gets a line with every refusal.
#[derive(Clone, Copy, PartialEq, Eq)]
pub struct TextRefusal {
    pub fault: TextFault,
    pub line: u64,
}

impl TextRefusal {
    // Document 01's number.
    pub fn number(self) -> u64
        ensures { result ≡ text_number self }
    {
        self.fault.number()
    }
}

// The refusal of document 01's number, with the line: the numbers 1 to 4 are those of the four faults. No `From`, which
// takes one value.
pub fn text_refusal(number: u64, line: u64) -> TextRefusal
    ensures { result ≡ text_refusal number line }
{
    let fault = match number {
        1 => TextFault::NotDue,
        2 => TextFault::BadValue,
        3 => TextFault::OfferOrder,
        _ => TextFault::TextEnds,
    };
    TextRefusal { fault, line }
}

// How far a text is read: the place of the line due, and how many lines were read before it. The list of lines is lent, so its length is no
// count of them.
#[derive(Clone, Copy, PartialEq, Eq)]
pub struct Cursor {
    pub at: usize,
    pub lines: usize,
}

// Where a reading of several lines is refused: why, and the place where the refused line begins. Of one line the caller
// has the place.
#[derive(Clone, Copy, PartialEq, Eq)]
pub struct Stop {
    pub refusal: TextRefusal,
    pub at: usize,
}

impl From<Stop> for TextRefusal {
    ghost from_gives = { λ stop refusal. refusal ≡ stop.refusal };

    fn from(stop: Stop) -> TextRefusal {
        stop.refusal
    }
}

// How many numbers line k of the list has, 0 past the list's end. This and the next take list and place, since no line
// stands past the end; each is one call, and one function of both is no plainer.
pub fn count_at(kept: &[Line], k: usize) -> usize
    ensures { result ≡ (line_in kept.now k).count }
{
    kept.get(k).map_or(0, |line| line.count)
}

// Number i of line k of the list, 0 past the list's end.
pub fn number_at(kept: &[Line], k: usize, i: usize) -> u64
    requires { i < 24 }
    ensures { result ≡ get_or (line_in kept.now k).number i 0 }
{
    kept.get(k).map_or(0, |line| line.number[i])
}

// The start of a text.
pub fn start() -> Cursor
    ensures { result ≡ record { at = 0; lines = 0 } }
{
    Cursor { at: 0, lines: 0 }
}

// The place to read from; a text is refused where it is too long or the start is past its end.
pub fn start_in(text: &[u8], start: u64) -> Result<usize, TextRefusal>
    ensures { result ≡ cond (bad_start text.now start) (Err no_start) (Ok start) }
{
    if 65536 < text.len() || (text.len() as u64) < start {
        return Err(TextRefusal {
            fault: TextFault::TextEnds,
            line: 0,
        });
    }
    Ok(start as usize)
}

// The line at a place, by its row, and the place behind it: it is cut out of the text up to its LF, and its value out of the line.
fn line_at(text: &[u8], at: usize, row: &Row, read: &mut Line) -> Result<usize, TextFault>
    ensures { lent result read.new ≡ ending (place_after text.now at) (line_at text.now at row.now) }
{
    let end = text::find(text, at, b'\n');
    if text.len() <= end {
        return Err(TextFault::TextEnds);
    }
    let line = &text[at..end];
    if !text::key_is(line, row.key) {
        return Err(TextFault::NotDue);
    }
    values::read_value(text::value_of(line), row, read)?;
    Ok(end + 1)
}

// The line due, by its row, kept where there is room for it. A refused line is not kept, so a line is read beside the list first.
pub fn read_line(
    text: &[u8],
    row: &Row,
    c: Cursor,
    kept: &mut [Line],
) -> Result<Cursor, TextRefusal>
    requires lines_bound { c.lines < 2 ^ 32 }
    ensures cursor { (s : Reading) → c ≡ cursor_of s → result ≡ cursors (read_line text.now row.now s) }
    ensures kept { (s : Reading) (t : Reading) → c ≡ cursor_of s → Kept kept.old s.lines → read_line text.now row.now s ≡ Ok t → Kept kept.new t.lines }
    ensures lines_bound_2 { IfOk result (λ d. d.lines ≡ c.lines + 1) }
    ensures elsewhere { (j : ℕ) → j ≢ c.lines → line_in kept.new j ≡ line_in kept.old j }
    ensures refused { (r : TextRefusal) → result ≡ Err r → (r.line ≡ c.lines + 1) × (kept.new ≡ kept.old) }
{
    let mut line = text::no_line();
    match line_at(text, c.at, row, &mut line) {
        Ok(at) => {
            if c.lines < kept.len() {
                kept[c.lines] = line;
            }
            Ok(Cursor {
                at,
                lines: c.lines + 1,
            })
        }
        Err(fault) => Err(TextRefusal {
            fault,
            line: c.lines as u64 + 1,
        }),
    }
}

// The lines of one kind of text: which row is due after those read so far.
pub trait Frame {
    ghost due: { Self → List Line → Row };

    // how many lines the list has to keep, so that they tell the row due
    ghost room: { ℕ };

    // The row due after k lines, by what is kept of them. The list is lent and longer than what is read, so that its length is no count of them.
    fn row_at(&self, kept: &[Line], k: usize) -> Row
        requires { room ≤ length kept.now }
        ensures { (lines : List Line) → Kept kept.now lines → k ≡ length lines → result ≡ due self.now lines };
}

// n lines more, each by the row that is due. The readers of sheets and of records promise the same of their own rows: one definition of all of it
// would take text, rows, cursor and both lists, and be no plainer. A refused line is one of the n.
pub fn read_more<F: Frame>(
    text: &[u8],
    frame: &F,
    n: usize,
    c: Cursor,
    kept: &mut [Line],
) -> Result<Cursor, Stop>
    requires n_bound { (n < 10000) × (c.lines < 10000) × (F.room ≤ length kept.old) }
    ensures cursor { (s : Reading) → c ≡ cursor_of s → Kept kept.old s.lines → refusals result ≡ cursors (read_by text.now (F.due frame.now) n s) }
    ensures kept { (s : Reading) (t : Reading) → c ≡ cursor_of s → Kept kept.old s.lines → read_by text.now (F.due frame.now) n s ≡ Ok t → Kept kept.new t.lines }
    ensures lines_bound { IfOk result (λ d. d.lines ≡ c.lines + n) }
    ensures lines_most { lines_before result ≤ c.lines + n }
    ensures refused { (s : Reading) (e : Stop) → c ≡ cursor_of s → Kept kept.old s.lines → result ≡ Err e → Stopped text.now (F.due frame.now) s e kept.new }
    ensures behind { (c.lines ≤ lines_before result) × ((k : ℕ) → lines_before result ≤ k → line_in kept.new k ≡ line_in kept.old k) }
{
    let mut d = c;
    for i in 0..n {
        let row = frame.row_at(kept, d.lines);
        let at = d.at;
        d = read_line(text, &row, d, kept).map_err(|refusal| Stop { refusal, at })?;
    }
    Ok(d)
}
