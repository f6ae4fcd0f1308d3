// The hour record: its type, the empty one, how a span's kind counts, and the test of the spans' minutes.
#![tactic(auto)]

ghost use Rattle.std.specs.Prelude.{◌≡◌, eqb};
ghost use Rattle.record.specs.Empty.{no_span, no_unit, no_record};
ghost use Rattle.record.specs.Spans.{counted_kind, minutes_of, minutes_hold};

use energy::{GrossKwh, NetKwh};

// The number of spans that a unit has room for, and the minutes that they have in all.
pub const SPANS: usize = 6;

const HOUR_MINUTES: u64 = 60;

// Minutes of an hour in one status: its kind, the cause (0 none, 1 environment, 2 frequency control), the announced capability.
// Kind and cause stay numbers: a record may hold any, and an enum would ask more of those who make one.
#[derive(Clone, Copy)]
pub struct Span {
    pub minutes: u64,
    pub kind: u64,
    pub cause: u64,
    pub capability: GrossKwh,
}

// What an hour record says of a unit; a unit without a reading is not measured.
// `repair` stays a number: a record may hold any, and a bool would ask more of those who make one.
// The spans are the first `spans` of a fixed array: the libraries use no heap.
#[derive(Clone, Copy)]
pub struct UnitRecord {
    pub declared: GrossKwh,
    pub real: NetKwh,
    pub test: NetKwh,
    pub deviation: NetKwh,
    pub power: GrossKwh,
    pub reading: Option<NetKwh>,
    pub since: u64,
    pub repair: u64,
    pub spans: usize,
    pub span: [Span; SPANS],
}

// One hour of the plant. Place k of `unit` is that of unit k + 1, empty where the unit is outside the plant.
#[derive(Clone, Copy)]
pub struct Record {
    pub hour: u64,
    pub net: NetKwh,
    pub reverse: NetKwh,
    pub unit: [UnitRecord; 8],
}

// A place without a span.
pub fn no_span() -> Span
    ensures { result ≡ no_span }
{
    Span {
        minutes: 0,
        kind: 0,
        cause: 0,
        capability: GrossKwh(0),
    }
}

// A unit outside the plant.
pub fn no_unit() -> UnitRecord
    ensures { result ≡ no_unit }
{
    UnitRecord {
        declared: GrossKwh(0),
        real: NetKwh(0),
        test: NetKwh(0),
        deviation: NetKwh(0),
        power: GrossKwh(0),
        reading: None,
        since: 0,
        repair: 0,
        spans: 0,
        span: [no_span(); SPANS],
    }
}

// The empty record, which the definitions have beside a refused text.
pub fn no_record() -> Record
    ensures { result ≡ no_record }
{
    Record {
        hour: 0,
        net: NetKwh(0),
        reverse: NetKwh(0),
        unit: [no_unit(); 8],
    }
}

// The kind that a span counts as: kinds 2 and 3 count as 7 under an environmental cause, and as 5 under frequency control. A number as in a span, of
// which a record may hold any.
#[tactic(auto, unfolding(crate::specs::Spans::counted_kind))]
pub fn counted_kind(span: Span) -> u64
    ensures { result ≡ counted_kind span }
{
    match (span.kind, span.cause) {
        (2 | 3, 1) => 7,
        (2 | 3, 2) => 5,
        (kind, _) => kind,
    }
}

// Whether a unit's spans have 60 minutes in all.
fn unit_minutes(u: &UnitRecord) -> bool
    ensures { result ≡ eqb (minutes_of u.now) 60 }
{
    let n = u.spans.min(SPANS);
    let mut left = HOUR_MINUTES;
    for span in &u.span[..n] {
        let Some(rest) = left.checked_sub(span.minutes) else {
            return false;
        };
        left = rest;
    }
    left == 0
}

// Whether each unit of the plant has spans of 60 minutes in all: refusal 31 where it does not hold.
pub fn minutes_hold(hour: &Record, units: u64) -> bool
    ensures { result ≡ minutes_hold hour.now units }
{
    (0..8).all(|k| !units::member_at(units, k) || unit_minutes(&hour.unit[k]))
}
