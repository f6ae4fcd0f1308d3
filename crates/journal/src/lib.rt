// The calls over the accounts of a plant's day: its sheet, the book, and the journal, which is a lent list of postings and a count of them. The named calls are
// thin functions over `perform`; a list of calls in numbers is carried out by `run_on`.
#![tactic(auto)]

ghost use Rattle.std.specs.Prelude.{◌≡◌, length};
ghost use Rattle.state.specs.Book.{Sized, empty_book};
ghost use Rattle.postings.specs.Journal.{scanned};
ghost use Rattle.ledger.specs.Ledger.{take as take_call, release as release_call, move as move_call, settle as settle_call, restate as restate_call, void as void_call};
ghost use Rattle.ledger.specs.Total.{item_of, total_on};
ghost use Rattle.ledger.specs.Requests.{call_for, calls_in};
ghost use Rattle.ledger.specs.Demand.{Demand};
ghost use Rattle.engine.specs.Journal.{scanned_in};
ghost use Rattle.decisions.specs.Calls.{call_of, commitment_of, record_of};
ghost use Rattle.journal.specs.Accounts.{state_in, passes, tested, Known, Performs, Same};
ghost use Rattle.journal.specs.Run.{turns_of, stored_answer, replies_in, ran_all, running, start_on};

use decisions::{Call, CommitmentCall, CommitmentKind, RecordCall};
use engine::Done;
use ledger::{Asked, Refusal};
use postings::Posting;
use sheet::Sheet;
use state::Book;

// The accounts of a plant's day. Postings are appended to the lent list from the count on; the places behind it are free, and no library has a heap to grow a list.
#[derive(Drop)]
pub struct Accounts<'a> {
    pub sheet: &'a Sheet,
    pub book: Book,
    pub list: &'a mut [Posting],
    pub count: u64,
}

// What a list of calls leaves beside its answers and the list of postings.
#[derive(Clone, Copy)]
pub struct Ran {
    pub book: Book,
    pub count: u64,
}

// What the postings of a unit and an item add up to: `None` where a posting, of whatever unit, is out of its range.
fn scan(list: &[Posting], unit: u64, item: u64) -> Option<i64>
    ensures { result ≡ scanned unit item list.now }
{
    let mut sum = postings::scanned_none();
    for x in list {
        sum = postings::scanned_with(sum, *x, unit, item);
    }
    sum
}

impl Accounts<'_> {
    // The sum of the postings up to the count of a unit and an item.
    fn sum_of(&self, unit: u64, item: u64) -> Option<i64>
        ensures { result ≡ scanned_in self.now.list.now self.now.count unit item }
    {
        let n = postings::covered(self.count, self.list.len());
        scan(&self.list[..n], unit, item)
    }

    // 9, then 12; where neither holds, that sum.
    fn tested(&self, unit: u64, item: u64) -> Result<i64, Refusal>
        ensures { result ≡ tested self.now.sheet.now (state_in self.now) unit item }
    {
        if !sheet::sheet_holds(self.sheet) {
            return Err(Refusal::SheetRange);
        }
        if !state::book_holds(self.sheet, &self.book) {
            return Err(Refusal::BookRange);
        }
        if !postings::count_holds(self.count, self.list.len()) {
            return Err(Refusal::BookRange);
        }
        self.sum_of(unit, item).ok_or(Refusal::BookRange)
    }

    // Whether 9 or 12 refuses every call.
    fn passes(&self) -> Result<(), Refusal>
        ensures { result ≡ passes self.now.sheet.now (state_in self.now) }
    {
        // the sum is not looked at, so that any unit and item will do
        self.tested(0, 0)?;
        Ok(())
    }

    // A call of which it is known whether 9 or 12 refuses it; where neither does, it is carried out.
    pub fn answer(&mut self, passes: Result<(), Refusal>, text: &[u8], call: Call) -> Done
        requires { Known self.old passes }
        ensures { Performs self.old (call_of text.now call) self.new result }
    {
        if let Err(refusal) = passes {
            return Done {
                answer: Err(refusal),
                place: decisions::start_of(call),
                count: self.count,
            };
        }
        let done = engine::carry_out(
            &mut self.book,
            self.list,
            self.count,
            self.sheet,
            text,
            call,
        );
        self.count = done.count;
        done
    }

    // A call.
    fn perform(&mut self, text: &[u8], call: Call) -> Done
        ensures { Performs self.old (call_of text.now call) self.new result }
    {
        state::is_sized(self.book);
        let known = self.passes();
        self.answer(known, text, call)
    }

    // The document names the calls; each is a thin function that promises its call by name.

    // A take, release or move, which has no text.
    fn commit(&mut self, call: CommitmentCall) -> Done
        ensures { Performs self.old (commitment_of call.kind call) self.new result }
    {
        self.perform(b"", Call::Commitment(call))
    }

    pub fn take(&mut self, hour: u64, unit: u64, kwh: u64) -> Done
        ensures { Performs self.old (take_call hour unit kwh) self.new result }
    {
        self.commit(CommitmentCall {
            kind: CommitmentKind::Take,
            hour,
            unit,
            to: unit,
            kwh,
        })
    }

    pub fn release(&mut self, hour: u64, unit: u64, kwh: u64) -> Done
        ensures { Performs self.old (release_call hour unit kwh) self.new result }
    {
        self.commit(CommitmentCall {
            kind: CommitmentKind::Release,
            hour,
            unit,
            to: unit,
            kwh,
        })
    }

    pub fn move_kwh(&mut self, hour: u64, from: u64, to: u64, kwh: u64) -> Done
        ensures { Performs self.old (move_call hour from to kwh) self.new result }
    {
        self.commit(CommitmentCall {
            kind: CommitmentKind::Move,
            hour,
            unit: from,
            to,
            kwh,
        })
    }

    // A settle, or a restate (`again`), of the whole text.
    fn record(&mut self, again: bool, text: &[u8], start: u64) -> Done
        ensures { Performs self.old (record_of again text.now start) self.new result }
    {
        let call = RecordCall {
            again,
            begin: 0,
            end: text.len() as u64,
            start,
        };
        self.perform(text, Call::Record(call))
    }

    // The hour record is read from byte `start` of the text on.
    pub fn settle(&mut self, text: &[u8], start: u64) -> Done
        ensures { Performs self.old (settle_call text.now start) self.new result }
    {
        self.record(false, text, start)
    }

    pub fn restate(&mut self, text: &[u8], start: u64) -> Done
        ensures { Performs self.old (restate_call text.now start) self.new result }
    {
        self.record(true, text, start)
    }

    pub fn void_hour(&mut self, hour: u64) -> Done
        ensures { Performs self.old (void_call hour) self.new result }
    {
        self.perform(b"", Call::Void(hour))
    }

    // Any call, given in numbers, as a line of a list of calls has it: as thin as the named ones.
    pub fn call(&mut self, text: &[u8], asked: Asked) -> Done
        ensures { Performs self.old (call_for text.now asked) self.new result }
    {
        self.perform(text, Call::from(asked))
    }

    // Whether the unit is in the plant and the item is one of the five.
    fn knows(&self, unit: u64, item: u64) -> bool
        ensures { result ≡ item_of self.now.sheet.now unit item }
    {
        units::has_unit(self.sheet.units, unit) && (1..=5).contains(&item)
    }

    // The total of the postings of a unit and an item, up to the count: 9, then 12, then 11.
    pub fn total(&self, unit: u64, item: u64) -> Result<i64, Refusal>
        ensures { result ≡ total_on self.now.sheet.now (state_in self.now) unit item }
    {
        let sum = self.tested(unit, item)?;
        if !self.knows(unit, item) {
            return Err(Refusal::UnitUnknown);
        }
        Ok(sum)
    }

    // A list of calls in numbers, each on what the call before it left, and their answers in numbers: the slices that C lends. 9 and 12 are tested once, since no call leads into 12; where
    // one of them holds, every call is refused with it. They are lent one by one: a struct of them would need a name for each in each contract.
    pub fn run_on(&mut self, calls: &[u64], text: &[u8], answers: &mut [u64])
        ensures ran { running self.new answers.new ≡ ran_all self.old.sheet.now calls.now text.now (running self.old answers.old) (turns_of (length calls.now) (length answers.old)) }
        ensures same { Same self.old self.new }
    {
        state::is_sized(self.book);
        let passes = self.passes();
        for i in 0..turns(calls.len(), answers.len()) {
            let asked = decisions::asked_at(calls, i);
            let done = self.answer(passes, text, Call::from(asked));
            store_answer(answers, i, done);
        }
    }
}

// As many calls as there are whole groups of eight numbers, and places for four numbers of an answer.
#[tactic(auto, unfolding(crate::specs::Run::turns_of))]
fn turns(calls: usize, answers: usize) -> usize
    ensures { result ≡ turns_of calls answers }
{
    (calls / 8).min(answers / 4)
}

// The four numbers of answer i, where there are places for them: group i of the list of numbers that C lends.
fn store_answer(answers: &mut [u64], i: usize, done: Done)
    ensures { answers.new ≡ stored_answer answers.old i done.answer done.place }
{
    if i < answers.len() / 4 {
        let at = 4 * i;
        answers[at..at + 4].copy_from_slice(&decisions::reply_of(done.answer, done.place));
    }
}

// A list of calls in numbers on the empty book, from the first place of the list on, with the promise about every list of calls. The slices are
// lent one by one, as in `run_on`.
pub fn run(
    list: &mut [Posting],
    sheet: &Sheet,
    calls: &[u64],
    text: &[u8],
    answers: &mut [u64],
) -> Ran
    ensures ran { record { list = list.new; answers = answers.new; book = result.book; count = result.count } ≡ ran_all sheet.now calls.now text.now (start_on list.old answers.old 0 empty_book) (turns_of (length calls.now) (length answers.old)) }
    ensures promised { Demand sheet.now list.old (calls_in calls.now text.now (turns_of (length calls.now) (length answers.old))) (replies_in answers.new (turns_of (length calls.now) (length answers.old))) (record { book = result.book; count = result.count; journal = list.new }) }
{
    let mut accounts = Accounts {
        sheet,
        book: state::empty_book(),
        list,
        count: 0,
    };
    accounts.run_on(calls, text, answers);
    Ran {
        book: accounts.book,
        count: accounts.count,
    }
}
