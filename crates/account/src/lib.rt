// The day's account: from the bytes of day.txt to the bytes printed. The sheet is read, then takes and hour records are carried out as they
// come, over a journal of 2,000 places.
#![tactic(auto)]

ghost use Rattle.std.specs.Prelude.{◌≡◌, true, ◌+◌, ◌≤◌};
ghost use Rattle.sheet.specs.Ranges.{sheet_holds};
ghost use Rattle.decimal.specs.Output.{output, filled};
ghost use Rattle.decimal.specs.Writer.{Wrote};
ghost use Rattle.listing.specs.Listing.{most_bytes};
ghost use Rattle.account.specs.Day.{day_number, due_at, answered_by, day_from};
ghost use Rattle.account.specs.declared.DayRefusal.TheVariants.{Line as not_a_call, Call as refused_call};
ghost use Rattle.account.specs.Statement.{day_lines, statement_of};

use day_calls::{Next, Step};
use decimal::Writer;
use decisions::Call;
use journal::Accounts;
use ledger::{Effect, Refusal};
use sheet::Sheet;
use state::Book;
use text::TextFault;

// Why a day is refused: a line that is no call, or a call that is refused.
#[derive(Clone, Copy)]
pub enum DayRefusal {
    Line(TextFault),
    Call(Refusal),
}

impl From<TextFault> for DayRefusal {
    ghost from_gives = { λ t r. r ≡ not_a_call t };

    fn from(line: TextFault) -> DayRefusal {
        DayRefusal::Line(line)
    }
}

impl From<Refusal> for DayRefusal {
    ghost from_gives = { λ t r. r ≡ refused_call t };

    fn from(call: Refusal) -> DayRefusal {
        DayRefusal::Call(call)
    }
}

impl DayRefusal {
    // Document 01's number, as of the two refusals that it is made of.
    pub fn number(self) -> u64
        ensures { result ≡ day_number self }
    {
        match self {
            DayRefusal::Line(fault) => fault.number(),
            DayRefusal::Call(refusal) => refusal.number(),
        }
    }
}

// A day, with what is due in it: a call with the place after its line, where a record's call keeps the place of the record; none where the
// day's text has ended; or why it is refused.
#[derive(Clone, Copy)]
pub struct Day {
    pub count: u64,
    pub book: Book,
    pub due: Result<Option<Step>, DayRefusal>,
}

// What is due at a place: `day_calls::step_at` goes behind a record at once, here that waits until the record is answered.
fn due_at(text: &[u8], at: usize) -> Result<Option<Step>, DayRefusal>
    ensures { result ≡ due_at text.now at }
{
    match day_calls::next_at(text, at)? {
        Some(Next::Take(asked, after)) => Ok(Some(Step { asked, after })),
        Some(Next::Settle(asked)) => Ok(Some(Step { asked, after: at })),
        None => Ok(None),
    }
}

// What is due after a call, by its answer.
fn due_after(
    text: &[u8],
    after: usize,
    place: u64,
    answer: Result<Effect, Refusal>,
) -> Result<Option<Step>, DayRefusal>
    ensures { result ≡ answered_by text.now after place answer }
{
    match answer? {
        Effect::Committed => due_at(text, after),
        Effect::Posted(_) => due_at(text, place as usize),
    }
}

// The day behind a sheet that passes 9, over a journal of 2,000 places: each call is carried out as it comes. From the empty book on 12 never comes up, so that
// neither is tested. Each call takes a byte of the text at least, so no more come than the loop has turns. The accounts
// are made by their fields, as in `journal::run`: a function for it would say in its contract what the fields say.
fn day_of(sheet: &Sheet, text: &[u8], at: usize) -> Day
    requires { sheet_holds sheet.now ≡ true }
    ensures { result ≡ day_from sheet.now text.now at }
{
    let mut list = [postings::no_posting(); 2000];
    let mut accounts = Accounts {
        sheet,
        book: state::empty_book(),
        list: &mut list,
        count: 0,
    };
    let mut due = due_at(text, at);
    for _ in 0..text.len() + 1 {
        let Ok(Some(next)) = due else {
            break;
        };
        let done = accounts.answer(Ok(()), text, Call::from(next.asked));
        due = due_after(text, next.after, done.place, done.answer);
    }
    Day {
        count: accounts.count,
        book: accounts.book,
        due,
    }
}

// What is printed of a day.
#[tactic(auto, using(listing::proofs::Entries::none_in_front), unfolding(crate::specs::Statement::day_lines))]
fn put_day(out: &mut Writer, units: u64, day: &Day)
    ensures result_after { Wrote out.old out.new (day_lines units day.now) }
    ensures upper_bound { out.new.place ≤ out.old.place + most_bytes }
{
    match day.due {
        Ok(_) => {
            listing::put_settled(out, b"", units, &day.book);
        }
        Err(refusal) => {
            listing::put_refusal(out, refusal.number());
        }
    }
}

// What is printed of a day's text.
fn put_statement(out: &mut Writer, text: &[u8])
    ensures result_after { Wrote out.old out.new (statement_of text.now) }
    ensures upper_bound { out.new.place ≤ out.old.place + most_bytes }
{
    match sheet_text::read_sheet(text, 0) {
        Ok(read) => {
            let day = day_of(&read.sheet, text, read.place as usize);
            put_day(out, read.sheet.units, &day);
        }
        Err(refusal) => {
            listing::put_refusal(out, refusal.number());
        }
    }
}

// The statement of a day's text, written from the start of the buffer on as far as it has room; gives how many bytes are written: C lends the buffer. A buffer
// of 32,256 bytes has room for every statement.
#[tactic(auto, using(decimal::proofs::Filled::written_filled))]
pub fn statement_of(text: &[u8], out: &mut [u8]) -> usize
    ensures result_after { output out.new result ≡ filled out.old (statement_of text.now) }
    ensures upper_bound { result ≤ most_bytes }
{
    let mut writer = Writer {
        buffer: out,
        place: 0,
    };
    put_statement(&mut writer, text);
    writer.place
}
