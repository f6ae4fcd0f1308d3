// What each call is decided to be: a call decoded from its numbers, a change of commitments tested, an hour settled, restated or voided
// by what the sheet and the book have of it, and the numbers of answers. The crate `ledger` says what is right.
#![tactic(auto)]

ghost use Rattle.std.specs.Prelude.{◌≡◌, true, ◌&&◌, ◌||◌, [], ◌∷◌, ltb, eqb, ◌+◌, ◌<◌};
ghost use Rattle.std.specs.Result.{ForOk};
ghost use Rattle.settlement.specs.Ranges.{HourDue};
ghost use Rattle.ledger.specs.Calls.{verdict, bad_hour, unknown_units, short_of};
ghost use Rattle.ledger.specs.Numbers.{number_of, line_of, posted_of};
ghost use Rattle.ledger.specs.Requests.{part_of, asked_at};
ghost use Rattle.decisions.specs.Calls.{commitment_call, record_call, decoded, call_start};
ghost use Rattle.decisions.specs.Changes.{hour_index, entry_index, change_of, change_tests};
ghost use Rattle.decisions.specs.Hours.{void_decided, standing_row, told_of, record_decided};

use energy::{Energy, HubKwh};
use ledger::{Asked, Effect, Refusal};
use lines::TextRefusal;
use record_text::RecordRead;
use settlement::{DueHour, HourResult};
use terms::HourSheet;

// The calls that change commitments.
#[derive(Clone, Copy)]
pub enum CommitmentKind {
    Take,
    Release,
    Move,
}

// A take, release or move of an hour. A move goes from `unit` to `to`; the others do not look at `to`.
#[derive(Clone, Copy)]
pub struct CommitmentCall {
    pub kind: CommitmentKind,
    pub hour: u64,
    pub unit: u64,
    pub to: u64,
    pub kwh: u64,
}

// A settle, or a restate (`again`): the part of the lent text that it is given, from `begin` to before `end`, and where its record starts in that part.
// A bool is enough: a restate differs from a settle in one test alone. Numbers and no slice: C gives them so, and one text is lent for all calls.
#[derive(Clone, Copy)]
pub struct RecordCall {
    pub again: bool,
    pub begin: u64,
    pub end: u64,
    pub start: u64,
}

// A call. A void has its hour.
#[derive(Clone, Copy)]
pub enum Call {
    Commitment(CommitmentCall),
    Record(RecordCall),
    Void(u64),
}

// A take, release or move: the unit `from` gives `out` and the unit `to` gets `into`. In a take and in a release both are the same unit, and one
// of the two amounts is 0. `moves` says that it is a move, whose units must differ: past the decoding that test alone tells a move from the others.
#[derive(Clone, Copy)]
pub struct CommitmentChange {
    pub hour: u64,
    pub from: u64,
    pub to: u64,
    pub out: HubKwh,
    pub into: HubKwh,
    pub moves: bool,
}

// What an accepted settle, restate or void comes to: its hour and the text place, how many postings it appends, and
// whether the hour is settled, its energies and amounts after it. A void has energies and amounts too, all 0: the three
// calls are stored and posted in one way.
#[derive(Clone, Copy)]
pub struct HourChange {
    pub hour: u64,
    pub place: u64,
    pub posted: u64,
    pub settled: bool,
    pub result: HourResult,
}

// Group i of a list of calls in numbers, eight for each; past the last whole group none is asked for. The list is one of numbers, since C gives it so.
#[tactic(auto, unfolding(ledger::specs::Requests::asked_at))]
pub fn asked_at(calls: &[u64], i: usize) -> Asked
    ensures { result ≡ asked_at calls.now i }
{
    if i >= calls.len() / 8 {
        return Asked::default();
    }
    let at = 8 * i;
    Asked {
        kind: calls[at],
        hour: calls[at + 1],
        unit: calls[at + 2],
        to: calls[at + 3],
        kwh: calls[at + 4],
        begin: calls[at + 5],
        end: calls[at + 6],
        start: calls[at + 7],
    }
}

// A take, release or move of a call's numbers: the kind is no field of them, so that no `From` of one value makes the call.
fn commitment_call(kind: CommitmentKind, asked: Asked) -> Call
    ensures { result ≡ commitment_call kind asked }
{
    Call::Commitment(CommitmentCall {
        kind,
        hour: asked.hour,
        unit: asked.unit,
        to: asked.to,
        kwh: asked.kwh,
    })
}

// A settle or a restate likewise.
fn record_call(again: bool, asked: Asked) -> Call
    ensures { result ≡ record_call again asked }
{
    Call::Record(RecordCall {
        again,
        begin: asked.begin,
        end: asked.end,
        start: asked.start,
    })
}

// A call by its numbers. The one place where a kind's number is read; the numbers are the C interface's: 1 take, 2 release, 3 move, 4 settle, 5 restate, 6 void. Another number
// is a void of hour 0.
impl From<Asked> for Call {
    #[tactic(auto, unfolding(crate::specs::Calls::decoded))]
    fn from(asked: Asked) -> Call
        ensures { result ≡ decoded asked }
    {
        match asked.kind {
            1 => commitment_call(CommitmentKind::Take, asked),
            2 => commitment_call(CommitmentKind::Release, asked),
            3 => commitment_call(CommitmentKind::Move, asked),
            4 => record_call(false, asked),
            5 => record_call(true, asked),
            6 => Call::Void(asked.hour),
            _ => Call::Void(0),
        }
    }
}

// The text place of a call that is refused: where its record starts in its part of the text, 0 without one, since C gets a place with every answer.
pub fn start_of(call: Call) -> u64
    ensures { result ≡ call_start call }
{
    match call {
        Call::Record(c) => c.start,
        Call::Commitment(_) | Call::Void(_) => 0,
    }
}

// What a take, release or move gives and gets.
impl From<CommitmentCall> for CommitmentChange {
    #[tactic(auto, unfolding(crate::specs::Changes::change_of))]
    fn from(call: CommitmentCall) -> CommitmentChange
        ensures { result ≡ change_of call }
    {
        let kwh = HubKwh(call.kwh);
        let (from, to, out, into, moves) = match call.kind {
            CommitmentKind::Take => (call.unit, call.unit, HubKwh(0), kwh, false),
            CommitmentKind::Release => (call.unit, call.unit, kwh, HubKwh(0), false),
            CommitmentKind::Move => (call.unit, call.to, kwh, kwh, true),
        };
        CommitmentChange {
            hour: call.hour,
            from,
            to,
            out,
            into,
            moves,
        }
    }
}

impl CommitmentChange {
    // 24: whether a move's units are the same.
    fn same_units(self) -> bool
        ensures { result ≡ (self.moves && eqb self.from self.to) }
    {
        self.moves && self.from == self.to
    }

    // 21: whether nothing is given and nothing comes.
    fn no_amount(self) -> bool
        ensures { result ≡ (eqb self.out.0 0 && eqb self.into.0 0) }
    {
        self.out == HubKwh(0) && self.into == HubKwh(0)
    }
}

fn hour_bad(hour: u64) -> bool
    ensures { result ≡ bad_hour hour }
{
    !(1..=24).contains(&hour)
}

fn units_unknown(units: u64, from: u64, to: u64) -> bool
    ensures { result ≡ unknown_units units from to }
{
    !units::has_unit(units, from) || !units::has_unit(units, to)
}

// Where an hour stands in the book. For one that is none it is 0 and no `None`: the call is refused by its hour whatever is read there, and the test of the
// hour stands once, in its place among the refusals.
#[tactic(auto, using(ledger::proofs::Passed::hour_in), unfolding(crate::specs::Changes::hour_index))]
pub fn hour_index(hour: u64) -> usize
    ensures value { result ≡ hour_index hour }
    ensures upper_bound { result < 24 }
{
    if hour_bad(hour) {
        return 0;
    }
    (hour - 1) as usize
}

// Where a unit stands in an hour of the book; 0 for one that is none, as above.
#[tactic(auto, using(ledger::proofs::Passed::hour_in, ledger::proofs::Passed::unit_in), unfolding(crate::specs::Changes::entry_index))]
pub fn entry_index(hour: u64, unit: u64) -> usize
    ensures value { result ≡ entry_index hour unit }
    ensures upper_bound { result < 192 }
{
    if hour_bad(hour) || unit < 1 || 8 < unit {
        return 0;
    }
    (8 * (hour - 1) + (unit - 1)) as usize
}

// 22: whether what is held and what comes to it exceed the last offer quantity.
fn over_offer(last: HubKwh, held: HubKwh, kwh: HubKwh) -> bool
    ensures { result ≡ ltb last.0 (held.0 + kwh.0) }
{
    last < kwh || last.above(kwh) < held
}

// 10 11 24 20 21 23 22: by whether the hour is settled, the commitments of the units that give and get, and the latter's last offer quantity.
#[tactic(auto, unfolding(ledger::specs::Calls::verdict))]
pub fn change_verdict(
    units: u64,
    change: CommitmentChange,
    settled: bool,
    source: HubKwh,
    held: HubKwh,
    last: HubKwh,
) -> Result<(), Refusal>
    ensures { result ≡ verdict (change_tests units change settled source.0 held.0 last.0) }
{
    if hour_bad(change.hour) {
        return Err(Refusal::HourRange);
    }
    if units_unknown(units, change.from, change.to) {
        return Err(Refusal::UnitUnknown);
    }
    if change.same_units() {
        return Err(Refusal::SameUnit);
    }
    if settled {
        return Err(Refusal::HourSettled);
    }
    if change.no_amount() {
        return Err(Refusal::NoAmount);
    }
    if source < change.out {
        return Err(Refusal::HeldLess);
    }
    if over_offer(last, held, change.into) {
        return Err(Refusal::OverOffer);
    }
    Ok(())
}

// 42: fewer free places, up to 100,000 in all, than five a unit. Count and places come as two numbers, here and below: a type of both would be made
// for each call and taken apart in it.
fn short_of(units: u64, count: u64, places: usize) -> bool
    ensures { result ≡ short_of units count places }
{
    let most = (places as u64).min(100000);
    most.saturating_sub(count) < 5 * units::unit_count(units)
}

// void: 10 41 42.
#[tactic(auto, unfolding(crate::specs::Hours::void_decided, ledger::specs::Calls::verdict))]
pub fn decide_void(
    units: u64,
    hour: u64,
    settled: bool,
    count: u64,
    places: usize,
) -> Result<HourChange, Refusal>
    ensures { result ≡ void_decided units hour settled count places }
{
    if hour_bad(hour) {
        return Err(Refusal::HourRange);
    }
    if !settled {
        return Err(Refusal::HourOpen);
    }
    if short_of(units, count, places) {
        return Err(Refusal::NoPlaces);
    }
    Ok(HourChange {
        hour,
        place: 0,
        posted: 5 * units::unit_count(units),
        settled: false,
        result: state::no_result(),
    })
}

// 40 of a settle, 41 of a restate.
fn standing(again: bool) -> Refusal
    ensures { result ≡ (standing_row again true).refusal }
{
    if again {
        Refusal::HourOpen
    } else {
        Refusal::HourStands
    }
}

// Whether the hour stands otherwise than a settle, or a restate, needs it.
fn stands_otherwise(again: bool, settled: bool) -> bool
    ensures { result ≡ (standing_row again settled).holds }
{
    again != settled
}

// A settle or a restate (`again`) by what was read of its text: text, 31, 40 or 41, 32 33 42. The record is lent, since
// it is large; where the text is refused there is none, and the rest is not looked at.
#[tactic(auto, unfolding(crate::specs::Hours::record_decided, ledger::specs::Calls::verdict))]
pub fn decide_record(
    day: &HourSheet,
    held: &[HubKwh; 8],
    again: bool,
    settled: bool,
    reading: Result<&RecordRead, TextRefusal>,
    count: u64,
    places: usize,
) -> Result<HourChange, Refusal>
    requires { ForOk reading (λ r. HourDue day.now r.now.read held.now) }
    ensures { result ≡ record_decided day.now held.now again settled (told_of reading.entry) count places }
{
    let r = reading?;
    let read = &r.read;
    if !record::minutes_hold(read, day.units) {
        return Err(Refusal::Minutes);
    }
    if stands_otherwise(again, settled) {
        return Err(standing(again));
    }
    if !readings::readings_hold(read, day.units) {
        return Err(Refusal::Readings);
    }
    if !settlement::proportions_hold(day, read) {
        return Err(Refusal::Proportions);
    }
    if short_of(day.units, count, places) {
        return Err(Refusal::NoPlaces);
    }
    let due = DueHour {
        day,
        hour: read,
        commitment: held,
    };
    Ok(HourChange {
        hour: read.hour,
        place: r.place,
        posted: 5 * units::unit_count(day.units),
        settled: true,
        result: due.settle_hour(),
    })
}

// The part of a text from `begin` to before `end`, as far as the text goes.
pub fn part_of(text: &[u8], begin: u64, end: u64) -> &[u8]
    ensures { result.now ≡ part_of text.now begin end }
{
    let last = end.min(text.len() as u64);
    let first = begin.min(last);
    &text[first as usize..last as usize]
}

// An answer and its text place in four numbers, as C is given them: the refusal's number or 0, its line, how many postings were appended, the text
// place. Two values make them, so it is no `From`.
pub fn reply_of(answer: Result<Effect, Refusal>, place: u64) -> [u64; 4]
    ensures { result ≡ number_of answer ∷ line_of answer ∷ posted_of answer ∷ place ∷ [] }
{
    match answer {
        Ok(Effect::Committed) => [0, 0, 0, place],
        Ok(Effect::Posted(n)) => [0, 0, n, place],
        Err(refusal) => [refusal.number(), refusal.line(), 0, place],
    }
}
