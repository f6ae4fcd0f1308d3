// One engine for every call. A call is carried out on the book and the lent list of postings: `carry_out` tests it, stores what it changes, and appends what it
// posts. A single call, a list of calls and the statement's day go through it.
#![tactic(auto)]

ghost use Rattle.std.specs.Prelude.{◌≡◌, length};
ghost use Rattle.ledger.specs.Ledger.{void as void_call};
ghost use Rattle.ledger.specs.Requests.{part_of};
ghost use Rattle.decisions.specs.Calls.{call_of, record_of};
ghost use Rattle.engine.specs.Journal.{done_by};
ghost use Rattle.engine.specs.Carried.{left, carried, Ready, StoreReady, decision_of, recorded};

use decisions::{Call, CommitmentChange, HourChange, RecordCall};
use ledger::{Effect, Refusal};
use postings::Posting;
use sheet::Sheet;
use state::Book;

// What a call answers: the answer, the text place, and the count of the postings after it.
#[derive(Clone, Copy)]
pub struct Done {
    pub answer: Result<Effect, Refusal>,
    pub place: u64,
    pub count: u64,
}

// The list and the count come apart, as the accounts of a day have them: a struct of both would have to say in each contract that it still holds the same list.
// For the same reason each contract asks for `Ready`, what sheet, book, count and list have to keep among them.

// An accepted settle, restate or void: what its hour's amounts change is posted, and the hour is stored. A refused one changes nothing, and its text place is
// `start`.
fn store_hour(
    book: &mut Book,
    list: &mut [Posting],
    count: u64,
    units: u64,
    decided: Result<HourChange, Refusal>,
    start: u64,
) -> Done
    requires { StoreReady units book.old count (length list.old) decided }
    ensures { left result book.new list.new ≡ done_by list.old (decision_of units book.old count start decided) }
{
    let d = match decided {
        Ok(d) => d,
        Err(refusal) => {
            return Done {
                answer: Err(refusal),
                place: start,
                count,
            };
        }
    };
    postings::post_hour(list, count as usize, d.hour, units, book, &d.result.amounts);
    book.store_hour((d.hour - 1) as usize, d.settled, units, &d.result);
    Done {
        answer: Ok(Effect::Posted(d.posted)),
        place: d.place,
        count: count + d.posted,
    }
}

// A settle, or a restate (`again`), of the record from byte `start` of the text on: what it comes to, or why it is refused. Sheet, text and places are lent
// apart, as in `carry_out`: it reads the book, which that one changes.
fn record_change(
    book: &Book,
    sheet: &Sheet,
    text: &[u8],
    start: u64,
    again: bool,
    count: u64,
    places: usize,
) -> Result<HourChange, Refusal>
    requires { Ready sheet.now book.now count places }
    ensures { result ≡ recorded sheet.now book.now again text.now start count places }
{
    let monthly = sheet::monthly_of(sheet);
    let r = record_text::read_record(text, start, sheet.units, monthly)?;
    let hour = r.read.hour;
    let h = (hour - 1) as usize;
    let held = book.commitments(h);
    let settled = book.is_settled(h);
    let day = terms::hour_sheet(sheet, hour);
    decisions::decide_record(&day, &held, again, settled, Ok(&r), count, places)
}

// A settle or a restate. It stands apart from `carry_out`, and so does a void: what they need of the stack would be made ready for each take.
#[inline(never)]
fn carry_record(
    book: &mut Book,
    list: &mut [Posting],
    count: u64,
    sheet: &Sheet,
    text: &[u8],
    c: RecordCall,
) -> Done
    requires { Ready sheet.now book.old count (length list.old) }
    ensures { left result book.new list.new ≡ carried sheet.now book.old count list.old (record_of c.again (part_of text.now c.begin c.end) c.start) }
{
    let part = decisions::part_of(text, c.begin, c.end);
    let decided = record_change(book, sheet, part, c.start, c.again, count, list.len());
    store_hour(book, list, count, sheet.units, decided, c.start)
}

#[inline(never)]
fn carry_void(book: &mut Book, list: &mut [Posting], count: u64, sheet: &Sheet, hour: u64) -> Done
    requires { Ready sheet.now book.old count (length list.old) }
    ensures { left result book.new list.new ≡ carried sheet.now book.old count list.old (void_call hour) }
{
    let units = sheet.units;
    let settled = book.is_settled(decisions::hour_index(hour));
    let decided = decisions::decide_void(units, hour, settled, count, list.len());
    store_hour(book, list, count, units, decided, 0)
}

// One call, on a book that is known to be in its ranges under a sheet that is in its own: it is tested, what it changes is stored, and what it posts is appended
// from the count on.
pub fn carry_out(
    book: &mut Book,
    list: &mut [Posting],
    count: u64,
    sheet: &Sheet,
    text: &[u8],
    call: Call,
) -> Done
    requires { Ready sheet.now book.old count (length list.old) }
    ensures { left result book.new list.new ≡ carried sheet.now book.old count list.old (call_of text.now call) }
{
    match call {
        Call::Commitment(c) => {
            let change = CommitmentChange::from(c);
            Done {
                answer: commitments::change(book, sheet, change),
                place: 0,
                count,
            }
        }
        Call::Record(c) => carry_record(book, list, count, sheet, text, c),
        Call::Void(hour) => carry_void(book, list, count, sheet, hour),
    }
}
