// A day's text behind its sheet, read into a list of calls in numbers and an ending: takes and hour records in any mixture.
#![tactic(auto)]

ghost use Rattle.std.specs.Prelude.{◌≡◌, true, is_some, IfSome, ◌/◌, ◌≤◌, ◌<◌, length};
ghost use Rattle.ledger.specs.Requests.{call_numbers};
ghost use Rattle.day_calls.specs.DayCalls.{take_row, taken, settle_asked, next_at, step_of, step_at, ended_by, line_bytes, stored_at, Lists};

use ledger::Asked;
use text::{Line, Row, TextFault};

// A call of the text: a take, with the place after its line; or the settle of a record.
#[derive(Clone, Copy)]
pub enum Next {
    Take(Asked, usize),
    Settle(Asked),
}

// A call, and the place from which the text goes on; of a record's call that is due in `account` the place of the record.
#[derive(Clone, Copy)]
pub struct Step {
    pub asked: Asked,
    pub after: usize,
}

// How many calls were stored in the list that was lent, which may have room for more; and how the list ends, at the text's end or with the fault of the line that is no call.
// None where calls are left.
#[derive(Clone, Copy)]
pub struct Listed {
    pub calls: usize,
    pub ending: Option<Result<(), TextFault>>,
}

// Written out: a function for rows of more than one number would take their values one by one and name none.
fn take_row() -> Row
    ensures { result ≡ take_row }
{
    Row {
        key: *b"take======",
        word: *b"==========",
        blank: false,
        order: false,
        parts: 3,
        most: 3,
        low: [0, 0, 0, 0],
        high: [999999999, 999999999, 999999999, 0],
    }
}

// The take of a line's numbers, in the form that the list of calls in numbers has, so that one decoding, `Call::from`, serves the calls
// of a text and of C.
fn take_asked(line: &Line) -> Asked
    ensures { result ≡ taken line.now }
{
    Asked {
        kind: 1,
        hour: line.number[0],
        unit: line.number[1],
        to: 0,
        kwh: line.number[2],
        begin: 0,
        end: 0,
        start: 0,
    }
}

// The settle of the record that begins at a place, in the same form.
fn settle_at(text: &[u8], at: usize) -> Asked
    ensures { result ≡ settle_asked text.now at }
{
    Asked {
        kind: 4,
        hour: 0,
        unit: 0,
        to: 0,
        kwh: 0,
        begin: 0,
        end: text.len() as u64,
        start: at as u64,
    }
}

// What comes at a place of the text: a call, or none at its end. A list of calls has lines of seven kinds, and `asks` reads it: the two share `find`,
// `key_is` and `read_value`. The two keys are tested in turn, as each ends in its own way: a take's line is
// read here, a record's by those who settle it.
pub fn next_at(text: &[u8], at: usize) -> Result<Option<Next>, TextFault>
    ensures { result ≡ next_at text.now at }
{
    if text.len() <= at {
        return Ok(None);
    }
    let e = text::find(text, at, b'\n');
    if text.len() <= e {
        return Err(TextFault::TextEnds);
    }
    let line = &text[at..e];
    if text::key_is(line, *b"take======") {
        let mut read = text::no_line();
        values::read_value(text::value_of(line), &take_row(), &mut read)?;
        return Ok(Some(Next::Take(take_asked(&read), e + 1)));
    }
    if text::key_is(line, *b"hour======") {
        return Ok(Some(Next::Settle(settle_at(text, at))));
    }
    Err(TextFault::NotDue)
}

// The call that begins at a place of the text, and the place behind it.
fn step_of(text: &[u8], at: usize, next: Next) -> Step
    ensures { result ≡ step_of text.now at next }
{
    match next {
        Next::Take(asked, after) => Step { asked, after },
        Next::Settle(asked) => Step {
            asked,
            after: record_end::behind_record(text, at),
        },
    }
}

// The call at a place of the text, and the place behind it; or none at its end.
fn step_at(text: &[u8], at: usize) -> Result<Option<Step>, TextFault>
    ensures { result ≡ step_at text.now at }
{
    match next_at(text, at)? {
        Some(next) => Ok(Some(step_of(text, at, next))),
        None => Ok(None),
    }
}

// How a list ends where no call comes.
fn ended_by(step: Result<Option<Step>, TextFault>) -> Result<(), TextFault>
    ensures { result ≡ ended_by step }
{
    step.map(|_| ())
}

// The eight numbers of call i: the list is lent, as include/gozalvek.h has it.
fn store_call(calls: &mut [u64], i: usize, a: Asked)
    requires { i < length calls.old / call_numbers }
    ensures { calls.new ≡ stored_at calls.old i a }
{
    let number = [a.kind, a.hour, a.unit, a.to, a.kwh, a.begin, a.end, a.start];
    let at = 8 * i;
    calls[at..at + 8].copy_from_slice(&number);
}

// The calls of a text from a place on, in numbers, and the ending. A list with a place for every six bytes of the text has places for all of them.
pub fn list_calls(text: &[u8], from: usize, calls: &mut [u64]) -> Listed
    ensures lists { IfSome result.ending (λ ending. Lists text.now from calls.new result.calls ending) }
    ensures calls_in_bounds { result.calls ≤ length calls.old / call_numbers }
    ensures all_value { length text.now / line_bytes ≤ length calls.old / call_numbers → is_some result.ending ≡ true }
{
    let room = calls.len() / 8;
    let mut step = step_at(text, from);
    let mut n: usize = 0;
    // each call says where the next one begins, so that no `for` counts the place
    while let Ok(Some(call)) = step {
        if room <= n {
            return Listed {
                calls: n,
                ending: None,
            };
        }
        store_call(calls, n, call.asked);
        n += 1;
        step = step_at(text, call.after);
    }
    Listed {
        calls: n,
        ending: Some(ended_by(step)),
    }
}
