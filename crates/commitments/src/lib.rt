// A take, release or move on the book: tested, and stored where it is accepted.
#![tactic(auto)]

ghost use Rattle.std.specs.Prelude.{◌≡◌, ◌<◌, ◌/◌, ◌%◌};
ghost use Rattle.state.specs.Sizes.{places, entries};
ghost use Rattle.state.specs.Ranges.{limit_at};
ghost use Rattle.commitments.specs.Changed.{changed_in};

use decisions::CommitmentChange;
use energy::{Energy, HubKwh};
use ledger::{Effect, Refusal};
use sheet::Sheet;
use state::Book;

// What the commitment of an entry, that of hour j / 8 and place j % 8, may not exceed. It takes the entry, which is in the book's bounds:
// hour and unit apart would be tested once more.
fn limit_in(sheet: &Sheet, j: usize) -> HubKwh
    requires { j < entries }
    ensures { result ≡ limit_at sheet.now (j / places) (j % places) }
{
    let k = j % 8;
    state::limit_of(
        units::member_at(sheet.units, k),
        &sheet.unit[k].offers[j / 8],
    )
}

// A take, release or move: it is tested, and where it is accepted what is given goes off one commitment and what comes is added to the other.
pub fn change(book: &mut Book, sheet: &Sheet, c: CommitmentChange) -> Result<Effect, Refusal>
    ensures { record { book = book.new; answer = result } ≡ changed_in sheet.now book.old c }
{
    let units = sheet.units;
    let from = decisions::entry_index(c.hour, c.from);
    let to = decisions::entry_index(c.hour, c.to);
    let settled = book.is_settled(decisions::hour_index(c.hour));
    let source = book.commitment[from];
    let held = book.commitment[to];
    let last = limit_in(sheet, to);
    decisions::change_verdict(units, c, settled, source, held, last)?;
    book.commitment[from] = source.above(c.out);
    book.commitment[to] = book.commitment[to].plus(c.into);
    Ok(Effect::Committed)
}
