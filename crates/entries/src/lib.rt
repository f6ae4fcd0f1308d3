// What `replay` prints of a list of calls, written into a lent buffer: a line for each call with its result, and the tables behind them.
#![tactic(auto, using(decimal::proofs::Laws::written_append, decimal::proofs::Laws::written_none))]

ghost use Rattle.std.specs.Prelude.{◌≡◌, ℕ, ◌/◌, ◌%◌, List};
ghost use Rattle.decimal.specs.Writer.{Wrote};
ghost use Rattle.entries.specs.Entries.{place_text, refusal_text, sheet_refused, effect_text, sum_text, outcome_text, line_text, entry_line, stop_line};
ghost use Rattle.entries.specs.Tables.{held_line, commitment_lines, tables, total_line};

use decimal::Writer;
use energy::HubKwh;
use ledger::{Effect, Refusal};
use lines::TextRefusal;
use state::Book;

// What a line of the text comes to where it is not refused.
pub trait Accepted: Copy {
    ghost text: { Self → List ℕ };

    fn put(self, out: &mut Writer)
        ensures { Wrote out.old out.new (text self) };
}

// A call, by what it did.
impl Accepted for Effect {
    ghost text = { effect_text };

    #[tactic(auto, using(decimal::proofs::Laws::written_append), unfolding(crate::specs::Entries::effect_text))]
    fn put(self, out: &mut Writer) {
        match self {
            Effect::Committed => out.put_bytes(b"accepted"),
            Effect::Posted(n) => {
                out.put_bytes(b"accepted=");
                out.put_number(n);
            }
        }
    }
}

// A total, by its sum.
impl Accepted for i64 {
    ghost text = { sum_text };

    #[tactic(auto, using(decimal::proofs::Laws::written_append), unfolding(crate::specs::Entries::sum_text))]
    fn put(self, out: &mut Writer) {
        out.put_bytes(b"sum=");
        out.put_signed(self);
    }
}

// For 1 to 4 ` line=LINE`.
#[tactic(auto, using(decimal::proofs::Laws::written_append, decimal::proofs::Laws::written_none), unfolding(crate::specs::Entries::place_text))]
fn put_place(out: &mut Writer, refusal: Refusal)
    ensures { Wrote out.old out.new (place_text refusal) }
{
    if refusal.number() <= 4 {
        out.put_bytes(b" line=");
        out.put_number(refusal.line());
    }
}

// `refused=NUMBER`, for 1 to 4 with the line.
#[tactic(auto, using(decimal::proofs::Laws::written_append), unfolding(crate::specs::Entries::refusal_text))]
fn put_refusal(out: &mut Writer, refusal: Refusal)
    ensures { Wrote out.old out.new (refusal_text refusal) }
{
    out.put_bytes(b"refused=");
    out.put_number(refusal.number());
    put_place(out, refusal);
}

// The line of a sheet that is refused.
#[tactic(auto, using(decimal::proofs::Laws::written_append), unfolding(crate::specs::Entries::sheet_refused))]
pub fn put_sheet_refused(out: &mut Writer, refusal: TextRefusal)
    ensures { Wrote out.old out.new (sheet_refused refusal) }
{
    out.put_bytes(b"sheet ");
    put_refusal(out, Refusal::Text(refusal));
    out.put_byte(b'\n');
}

// What a line comes to, or why it is refused.
#[tactic(auto, unfolding(crate::specs::Entries::outcome_text))]
fn put_answer<T: Accepted>(out: &mut Writer, answer: Result<T, Refusal>)
    ensures { Wrote out.old out.new (outcome_text T.text answer) }
{
    match answer {
        Ok(accepted) => accepted.put(out),
        Err(refusal) => put_refusal(out, refusal),
    }
}

// The line at a place of the text, without its LF; past the end there is none.
fn line_at(text: &[u8], from: usize) -> &[u8]
    ensures { result.now ≡ line_text text.now from }
{
    if from < text.len() {
        &text[from..text::find(text, from, b'\n')]
    } else {
        b""
    }
}

// The line at a place of the text as it stands, and what the call or the total that it asks for comes to.
#[tactic(auto, using(decimal::proofs::Laws::written_append), unfolding(crate::specs::Entries::entry_line))]
pub fn put_entry<T: Accepted>(
    out: &mut Writer,
    text: &[u8],
    from: usize,
    answer: Result<T, Refusal>,
)
    ensures { Wrote out.old out.new (entry_line text.now from (outcome_text T.text answer)) }
{
    out.put_bytes(line_at(text, from));
    out.put_byte(b' ');
    put_answer(out, answer);
    out.put_byte(b'\n');
}

// The line of the text that is no call, with its number and the refusal's: whatever the two numbers are.
#[tactic(auto, using(decimal::proofs::Laws::written_append), unfolding(crate::specs::Entries::stop_line))]
pub fn put_stop(out: &mut Writer, line: u64, refusal: u64)
    ensures { Wrote out.old out.new (stop_line line refusal) }
{
    out.put_bytes(b"line=");
    out.put_number(line);
    out.put_bytes(b" refused=");
    out.put_number(refusal);
    out.put_byte(b'\n');
}

// The commitment of entry e, that of hour e / 8 and place e % 8, where it is over 0. One loop over the entries, as in `listing`.
#[tactic(auto, using(decimal::proofs::Laws::written_append, decimal::proofs::Laws::written_none), unfolding(crate::specs::Tables::held_line))]
fn put_commitment(out: &mut Writer, e: usize, held: HubKwh)
    ensures { Wrote out.old out.new (held_line (e / 8) (e % 8) held) }
{
    if held != HubKwh(0) {
        out.put_bytes(b"commitment");
        out.put_field(e as u64 / 8 + 1);
        out.put_field(e as u64 % 8 + 1);
        out.put_field(held.0);
        out.put_byte(b'\n');
    }
}

#[tactic(auto, using(listing::proofs::Joined::none_joined, crate::proofs::Commitments::all_commitments))]
fn put_commitments(out: &mut Writer, book: &Book)
    ensures { Wrote out.old out.new (commitment_lines book.now) }
{
    for (e, held) in book.commitment.iter().enumerate() {
        put_commitment(out, e, *held);
    }
}

// The tables of commitments and of settled hours.
#[tactic(auto, using(decimal::proofs::Laws::written_append, crate::proofs::Settled::all_settled), unfolding(crate::specs::Tables::tables))]
pub fn put_tables(out: &mut Writer, units: u64, book: &Book)
    ensures { Wrote out.old out.new (tables units book.now) }
{
    put_commitments(out, book);
    listing::put_settled(out, b"settled ", units, book);
}

// A line of the table of totals, where the unit is in the plant.
#[tactic(auto, using(decimal::proofs::Laws::written_append, decimal::proofs::Laws::written_none), unfolding(crate::specs::Tables::total_line))]
pub fn put_listed(out: &mut Writer, unit: u64, item: u64, t: Result<i64, Refusal>)
    ensures { Wrote out.old out.new (total_line unit item t) }
{
    if let Ok(sum) = t {
        out.put_bytes(b"total");
        out.put_field(unit);
        out.put_field(item);
        out.put_field(sum);
        out.put_byte(b'\n');
    }
}
