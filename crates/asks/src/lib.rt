// The lines of a list of calls, as `replay` reads them behind the sheet: what a line asks, and where the next one stands.
#![tactic(auto)]

ghost use Rattle.std.specs.Prelude.{◌≡◌, ◌+◌, ◌<◌, ◌≤◌, length, IfOk};
ghost use Rattle.asks.specs.Asks.{key_of, kind_of, numbers_of, row_of, asks_of, next_of, asking_of, asking_at};
ghost use Rattle.asks.specs.Extent.{extent_of, line_ends};

use ledger::Asked;
use lines::TextRefusal;
use text::{Row, TextFault};

// What a line asks for: a call, or the total of a unit and an item.
#[derive(Clone, Copy)]
pub enum Asks {
    Call(Asked),
    Total { unit: u64, item: u64 },
}

// What a line asks for, and where the next call's line begins.
#[derive(Clone, Copy)]
pub struct Asking {
    pub asked: Asks,
    pub next: usize,
}

// The calls of a text: how many there are before its end or before the first line that is no call; of that line, where there is one, why
// it is none, and its number, counted from 1 in the whole text.
#[derive(Clone, Copy)]
pub struct Extent {
    pub calls: usize,
    pub stop: Option<TextRefusal>,
}

// What a line of a list of calls may be, by its key.
#[derive(Clone, Copy)]
enum LineKind {
    Take,
    Release,
    Move,
    Settle,
    Restate,
    Void,
    Total,
}

impl LineKind {
    fn key(self) -> [u8; 10]
        ensures { result ≡ key_of self }
    {
        match self {
            LineKind::Take => *b"take======",
            LineKind::Release => *b"release===",
            LineKind::Move => *b"move======",
            LineKind::Settle => *b"settle====",
            LineKind::Restate => *b"restate===",
            LineKind::Void => *b"void======",
            LineKind::Total => *b"total=====",
        }
    }

    // How many numbers the line gives.
    fn numbers(self) -> u8
        ensures { result ≡ numbers_of self }
    {
        match self {
            LineKind::Take => 3,
            LineKind::Release => 3,
            LineKind::Move => 4,
            LineKind::Settle => 0,
            LineKind::Restate => 0,
            LineKind::Void => 1,
            LineKind::Total => 2,
        }
    }

    // The value of the line: numbers of at most 9 digits joined by ':', or nothing.
    fn row(self) -> Row
        ensures { result ≡ row_of self }
    {
        let most = self.numbers();
        Row {
            key: *b"==========",
            word: *b"==========",
            blank: false,
            order: false,
            parts: most as usize,
            most,
            low: [0, 0, 0, 0],
            high: [999999999, 999999999, 999999999, 999999999],
        }
    }

    // What the line asks for, by its numbers: a call in numbers, so that one decoding, `Call::from`, serves the calls of a
    // text and of C. A record begins at `start`, behind its line, and lies in the whole text.
    fn asks(self, number: [u64; 24], start: usize, size: usize) -> Asks
        ensures { result ≡ asks_of self number start size }
    {
        let asked = Asked {
            kind: 0,
            hour: number[0],
            unit: number[1],
            to: number[2],
            kwh: number[2],
            begin: 0,
            end: size as u64,
            start: start as u64,
        };
        match self {
            LineKind::Take => Asks::Call(Asked { kind: 1, ..asked }),
            LineKind::Release => Asks::Call(Asked { kind: 2, ..asked }),
            LineKind::Move => Asks::Call(Asked {
                kind: 3,
                kwh: number[3],
                ..asked
            }),
            LineKind::Settle => Asks::Call(Asked { kind: 4, ..asked }),
            LineKind::Restate => Asks::Call(Asked { kind: 5, ..asked }),
            LineKind::Void => Asks::Call(Asked { kind: 6, ..asked }),
            LineKind::Total => Asks::Total {
                unit: number[0],
                item: number[1],
            },
        }
    }

    // Where the next call's line begins, behind this line or its record.
    fn next(self, text: &[u8], after: usize) -> usize
        ensures value { result ≡ next_of text.now self after }
        ensures lower_bound { after ≤ result }
    {
        match self {
            LineKind::Settle | LineKind::Restate => record_end::behind_record(text, after),
            _ => after,
        }
    }
}

// The kind of a line by its key.
#[tactic(auto, unfolding(crate::specs::Asks::kind_of))]
fn kind_of(line: &[u8]) -> Option<LineKind>
    ensures { result ≡ kind_of line.now }
{
    let kinds = [
        LineKind::Take,
        LineKind::Release,
        LineKind::Move,
        LineKind::Settle,
        LineKind::Restate,
        LineKind::Void,
        LineKind::Total,
    ];
    kinds
        .iter()
        .copied()
        .find(|kind| text::key_is(line, kind.key()))
}

// What the line of a kind asks whose value has these numbers.
fn asking_of(text: &[u8], kind: LineKind, number: [u64; 24], e: usize) -> Asking
    requires { e < length text.now }
    ensures value { result ≡ asking_of text.now kind number e }
    ensures e_lt_next { e < result.next }
{
    Asking {
        asked: kind.asks(number, e + 1, text.len()),
        next: kind.next(text, e + 1),
    }
}

// What the line at a place of the text asks.
pub fn ask(text: &[u8], at: usize) -> Result<Asking, TextFault>
    ensures value { result ≡ asking_at text.now at }
    ensures at_lt_next { IfOk result (λ a. at < a.next) }
{
    let e = text::find(text, at, b'\n');
    if text.len() <= e {
        return Err(TextFault::TextEnds);
    }
    let line = &text[at..e];
    let Some(kind) = kind_of(line) else {
        return Err(TextFault::NotDue);
    };
    let mut read = text::no_line();
    match values::read_value(text::value_of(line), &kind.row(), &mut read) {
        Ok(()) => Ok(asking_of(text, kind, read.number, e)),
        Err(_) => Err(TextFault::BadValue),
    }
}

// How many line ends stand in a part of a text.
#[tactic(auto, unfolding(crate::specs::Extent::line_ends))]
fn line_ends(part: &[u8]) -> usize
    ensures value { result ≡ line_ends part.now }
    ensures upper_bound { result ≤ length part.now }
{
    part.iter().filter(|x| **x == b'\n').count()
}

// The calls of the text from a place on.
pub fn calls_from(text: &[u8], from: usize) -> Extent
    ensures value { result ≡ extent_of text.now from }
    ensures calls_in_bounds { result.calls ≤ length text.now }
{
    let mut at = from;
    let mut calls: usize = 0;
    // Each line says where the next one begins, so the place is not an index that `for` could count.
    while at < text.len() {
        match ask(text, at) {
            Ok(asking) => {
                at = asking.next;
                calls += 1;
            }
            Err(fault) => {
                let line = line_ends(&text[..at]) as u64 + 1;
                return Extent {
                    calls,
                    stop: Some(TextRefusal { fault, line }),
                };
            }
        }
    }
    Extent { calls, stop: None }
}
