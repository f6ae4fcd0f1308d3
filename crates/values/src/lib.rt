// The value of a line, read by its row into a line that the caller lends: handed over by value, 200 bytes from function to function, it was slower.
#![tactic(auto)]

ghost use Rattle.std.specs.Prelude.{◌≡◌, ◌/◌, ◌<◌, get_or};
ghost use Rattle.text.specs.Rows.{no_line};
ghost use Rattle.values.specs.Values.{into, added, mark_due, part_next, value_of};

use text::{Line, Row, TextFault};

// The number at a place, 0 past the end: a row may have more parts than bounds, so that its places are tested here.
fn element(number: &[u64], at: usize) -> u64
    ensures { result ≡ get_or number.now at 0 }
{
    number.get(at).copied().unwrap_or(0)
}

fn mark_due(parts: usize, p: usize) -> u8
    requires { p < 1000 }
    ensures { result ≡ mark_due parts p }
{
    if p + 1 == parts { b',' } else { b':' }
}

fn part_next(parts: usize, p: usize) -> usize
    requires { p < 1000 }
    ensures { result ≡ part_next parts p }
{
    if p + 1 == parts { 0 } else { p + 1 }
}

// One number more in the line, kept where there is room for it.
fn add(line: &mut Line, n: u64)
    requires { line.old.count < 1000 }
    ensures { line.new ≡ added line.old n }
{
    if line.count < 24 {
        line.number[line.count] = n;
    }
    line.count += 1;
}

// The numbers of a value: a group's numbers are joined by ':', groups by ','.
fn numbers(value: &[u8], row: &Row, line: &mut Line) -> Result<(), TextFault>
    requires { line.old ≡ no_line }
    ensures { into result line.new ≡ Rattle.values.specs.Values.numbers row.now.low row.now.high row.now.parts row.now.most 0 value.now no_line }
{
    let parts = row.parts;
    let mut from = 0;
    let mut p = 0;
    // each number says where the next one begins, so that no `for` counts the place
    for k in 0..row.most {
        let part = text::part_at(value, from, element(&row.low, p), element(&row.high, p)).ok_or(
            TextFault::BadValue,
        )?;
        add(line, part.number);
        let whole = p + 1 == parts;
        if value.len() <= part.end {
            return if whole {
                Ok(())
            } else {
                Err(TextFault::BadValue)
            };
        }
        if value[part.end] != mark_due(parts, p) {
            return Err(TextFault::BadValue);
        }
        p = part_next(parts, p);
        from = part.end + 1;
    }
    Err(TextFault::BadValue)
}

// Whether the first numbers of the pairs rise and the second never fall.
fn rising(line: &Line) -> bool
    ensures { result ≡ Rattle.values.specs.Values.rising line.now.number 0 (line.now.count / 2) 0 0 }
{
    let mut q = 0;
    let mut p = 0;
    for s in 0..line.count / 2 {
        let x = element(&line.number, 2 * s);
        let y = element(&line.number, 2 * s + 1);
        if x <= q || y < p {
            return false;
        }
        q = x;
        p = y;
    }
    true
}

// A value by its row: a word, blank, or numbers in their order. After a fault the line holds nothing that counts. It looks at the row's
// fields in turn, since a row has one shape for all lines (`Row`).
pub fn read_value(value: &[u8], row: &Row, line: &mut Line) -> Result<(), TextFault>
    ensures { into result line.new ≡ value_of row.now value.now }
{
    *line = text::no_line();
    if row.parts == 0 {
        return if text::word_is(value, row.word) {
            Ok(())
        } else {
            Err(TextFault::BadValue)
        };
    }
    if value.is_empty() {
        return if row.blank {
            Ok(())
        } else {
            Err(TextFault::BadValue)
        };
    }
    numbers(value, row, line)?;
    if row.order && !rising(line) {
        return Err(TextFault::OfferOrder);
    }
    Ok(())
}
