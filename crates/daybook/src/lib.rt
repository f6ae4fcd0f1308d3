// A list of calls carried out and printed: from the bytes of calls.txt to the bytes that `replay` writes. Each call is carried out as it comes,
// over a list of 2,000 places, and printed with its result; behind the last stand the commitments, the settled hours and the totals.
#![tactic(auto)]

ghost use Rattle.std.specs.Prelude.{◌≡◌, ◌<◌, ◌≤◌, length};
ghost use Rattle.listing.specs.Listing.{joined};
ghost use Rattle.decimal.specs.Output.{output, written};
ghost use Rattle.decimal.specs.Writer.{Wrote};
ghost use Rattle.asks.specs.Extent.{extent_of};
ghost use Rattle.daybook.specs.Replay.{course, Goes, left_by, printed_by, stepped, step_line, steps, nth_line, begun, listed_total, last_tables, ending, call_lines, replayed};

use asks::{Asking, Asks};
use decimal::Writer;
use journal::Accounts;
use lines::TextRefusal;
use sheet::Sheet;

// A run: the text, the accounts, and the place of the next line in the text. A record's place counts from the text's first byte, so that the text is
// kept whole.
#[derive(Drop)]
struct Replay<'a> {
    text: &'a [u8],
    accounts: Accounts<'a>,
    at: usize,
}

impl Replay<'_> {
    // The call or the total of a line is carried out and printed, and its next line is next. A total changes nothing.
    fn carry_out(&mut self, out: &mut Writer, asking: Asking)
        ensures left { Goes self.old self.new (left_by self.old.accounts.sheet.now self.old.text.now (course self.old) asking) }
        ensures printed { Wrote out.old out.new (printed_by self.old.accounts.sheet.now self.old.text.now (course self.old) asking.asked) }
    {
        match asking.asked {
            Asks::Call(asked) => {
                let done = self.accounts.call(self.text, asked);
                entries::put_entry(out, self.text, self.at, done.answer);
                self.at = asking.next;
            }
            Asks::Total { unit, item } => {
                let total = self.accounts.total(unit, item);
                entries::put_entry(out, self.text, self.at, total);
                self.at = asking.next;
            }
        }
    }

    // The next line is carried out and printed; one that is no call leaves all as it stands.
    #[tactic(auto, using(decimal::proofs::Laws::written_none), unfolding(crate::specs::Replay::stepped, crate::specs::Replay::step_line))]
    fn turn(&mut self, out: &mut Writer)
        ensures left { Goes self.old self.new (stepped self.old.accounts.sheet.now self.old.text.now (course self.old)) }
        ensures printed { Wrote out.old out.new (step_line self.old.accounts.sheet.now self.old.text.now (course self.old)) }
    {
        if let Ok(asking) = asks::ask(self.text, self.at) {
            self.carry_out(out, asking);
        }
    }

    // So many lines.
    fn run(&mut self, out: &mut Writer, calls: usize)
        ensures left { Goes self.old self.new (steps self.old.accounts.sheet.now self.old.text.now (course self.old) calls) }
        ensures printed { Wrote out.old out.new (joined calls (nth_line self.old.accounts.sheet.now self.old.text.now (course self.old))) }
    {
        for i in 0..calls {
            self.turn(out);
        }
    }

    // Total n by unit and item, from 0. Two loops, one in the other, are no plainer than one over the 40 totals.
    #[tactic(auto, unfolding(crate::specs::Replay::listed_total))]
    fn put_total(&self, out: &mut Writer, n: usize)
        requires { n < 40 }
        ensures { Wrote out.old out.new (listed_total self.now.accounts.sheet.now (course self.now) n) }
    {
        let unit = n as u64 / 5 + 1;
        let item = n as u64 % 5 + 1;
        entries::put_listed(out, unit, item, self.accounts.total(unit, item));
    }

    // The commitments, the settled hours and the totals.
    fn put_last_tables(&self, out: &mut Writer)
        ensures { Wrote out.old out.new (last_tables self.now.accounts.sheet.now (course self.now)) }
    {
        entries::put_tables(out, self.accounts.sheet.units, &self.accounts.book);
        for n in 0..40 {
            self.put_total(out, n);
        }
    }

    // What stands behind the calls: the tables, or the line that is no call.
    #[tactic(auto, unfolding(crate::specs::Replay::ending))]
    fn put_ending(&self, out: &mut Writer, stop: Option<TextRefusal>)
        ensures { Wrote out.old out.new (ending self.now.accounts.sheet.now (course self.now) stop) }
    {
        match stop {
            None => self.put_last_tables(out),
            Some(refusal) => entries::put_stop(out, refusal.line, refusal.number()),
        }
    }

    // The calls from the next line on, up to the text's end or the first line that is no call.
    #[tactic(auto, using(decimal::proofs::Laws::written_append), unfolding(crate::specs::Replay::call_lines))]
    fn put_calls(&mut self, out: &mut Writer)
        ensures { Wrote out.old out.new (call_lines self.old.accounts.sheet.now self.old.text.now (course self.old) (extent_of self.old.text.now self.old.at)) }
    {
        let extent = asks::calls_from(self.text, self.at);
        self.run(out, extent.calls);
        self.put_ending(out, extent.stop);
    }
}

// The calls behind the sheet, on the empty book, over a list of 2,000 places of its own.
fn put_day<'x>(out: &mut Writer, sheet: &'x Sheet, text: &'x [u8], from: usize)
    ensures { Wrote out.old out.new (call_lines sheet.now text.now (begun from) (extent_of text.now from)) }
{
    let mut list = [postings::no_posting(); 2000];
    let accounts = Accounts {
        sheet,
        book: state::empty_book(),
        list: &mut list,
        count: 0,
    };
    let mut replay = Replay {
        text,
        accounts,
        at: from,
    };
    replay.put_calls(out);
}

// What `replay` prints for a text.
#[tactic(auto, unfolding(crate::specs::Replay::replayed))]
fn put_replay(out: &mut Writer, text: &[u8])
    ensures { Wrote out.old out.new (replayed text.now) }
{
    match sheet_text::read_sheet(text, 0) {
        Ok(read) => put_day(out, &read.sheet, text, read.place as usize),
        Err(refusal) => entries::put_sheet_refused(out, refusal),
    }
}

// What `replay` prints for a text, as far as `out` has places; the place behind it. The buffer is lent, since no library has a heap; a
// function for this and for `account::statement_of` would take what is printed as a function, and be longer.
pub fn replay_of(text: &[u8], out: &mut [u8]) -> usize
    ensures result_after { output out.new result ≡ written (output out.old 0) (replayed text.now) }
    ensures upper_bound { result ≤ length out.new }
{
    let mut writer = Writer {
        buffer: out,
        place: 0,
    };
    put_replay(&mut writer, text);
    writer.place
}
