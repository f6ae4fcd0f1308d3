// What the lines of a unit in an hour record say: the numbers, and what blank means at each place.
#![tactic(auto)]

ghost use Rattle.std.specs.Prelude.{◌≡◌, ◌≤◌, ◌<◌};
ghost use Rattle.std.specs.Option.{option_copied};
ghost use Rattle.lines.specs.Cells.{line_in};
ghost use Rattle.blanks.specs.Blanks.{given, value_or, reading_by, span_by, spans_by, unit_by, place_by};

use energy::{GrossKwh, NetKwh};
use record::{Span, UnitRecord};
use std::array;
use text::Line;

// Line k, none where it is blank. A list may end before the place: a line that it has no room for is blank.
fn given(kept: &[Line], k: usize) -> Option<&Line>
    ensures { option_copied result ≡ given (line_in kept.now k) }
{
    match kept.get(k) {
        Some(line) if 0 < line.count => Some(line),
        _ => None,
    }
}

// The number of line k, or what blank means there. It takes list and place: `value_or(given(kept, k), 0)` at each of nine calls is no plainer.
pub fn value_or(kept: &[Line], k: usize, blank: u64) -> u64
    ensures { result ≡ value_or blank (line_in kept.now k) }
{
    given(kept, k).map_or(blank, |line| line.number[0])
}

// The reading of a line, none where the line is blank: then the unit is not measured.
fn reading_by(line: Option<&Line>) -> Option<NetKwh>
    ensures { (l : Line) → option_copied line.entry ≡ given l → result ≡ reading_by l }
{
    line.map(|line| NetKwh(line.number[0]))
}

// The span of place i in a line, of a unit with that declared capability.
#[tactic(auto, unfolding(crate::specs::Blanks::span_by))]
fn span_by(line: Option<&Line>, declared: GrossKwh, i: usize) -> Span
    requires { i < 6 }
    ensures { (l : Line) → option_copied line.entry ≡ given l → result ≡ span_by l declared i }
{
    match line {
        Some(line) => Span {
            minutes: line.number[4 * i],
            kind: line.number[4 * i + 1],
            cause: line.number[4 * i + 2],
            capability: GrossKwh(line.number[4 * i + 3]),
        },
        None if i == 0 => Span {
            minutes: 60,
            kind: 1,
            cause: 0,
            capability: declared,
        },
        None => record::no_span(),
    }
}

// The number of spans in a line.
#[tactic(auto, unfolding(crate::specs::Blanks::spans_by))]
fn spans_by(line: Option<&Line>) -> usize
    ensures { (l : Line) → option_copied line.entry ≡ given l → result ≡ spans_by l }
{
    line.map_or(1, |line| line.count / 4)
}

// Block j of the units, for a unit of that monthly practical power. The block is named by its number, which is no place in the list.
fn unit_by(kept: &[Line], j: usize, monthly: GrossKwh) -> UnitRecord
    requires { j ≤ 8 }
    ensures { result ≡ unit_by (line_in kept.now) j monthly }
{
    let at = 3 + 9 * j;
    let declared = GrossKwh(value_or(kept, at, monthly.0));
    let spans = given(kept, at + 8);
    UnitRecord {
        declared,
        real: NetKwh(value_or(kept, at + 1, 0)),
        test: NetKwh(value_or(kept, at + 2, 0)),
        deviation: NetKwh(value_or(kept, at + 3, 0)),
        power: GrossKwh(value_or(kept, at + 4, monthly.0)),
        reading: reading_by(given(kept, at + 5)),
        since: value_or(kept, at + 6, 1),
        repair: value_or(kept, at + 7, 0),
        spans: spans_by(spans),
        span: array::from_fn(|i| span_by(spans, declared, i)),
    }
}

// The unit of place k of the plant, which is no place in the list.
pub fn place_by(kept: &[Line], units: u64, monthly: [GrossKwh; 8], k: usize) -> UnitRecord
    requires { k < 8 }
    ensures { result ≡ place_by (line_in kept.now) units monthly k }
{
    if units::member_at(units, k) {
        unit_by(kept, units::block_of(units, k), monthly[k])
    } else {
        record::no_unit()
    }
}
