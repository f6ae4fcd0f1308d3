// The lines of the statement, written into a lent buffer: settled hours, or a refusal.
#![tactic(auto, using(decimal::proofs::Laws::written_append, decimal::proofs::Laws::written_none))]

ghost use Rattle.std.specs.Prelude.{◌≡◌, ◌+◌, ◌*◌, ◌/◌, ◌%◌, ◌≤◌, ◌<◌, eqb, ◌&&◌, length};
ghost use Rattle.units.specs.Units.{member_at};
ghost use Rattle.state.specs.Sizes.{hours, places};
ghost use Rattle.state.specs.Book.{mark_at, settled_mark};
ghost use Rattle.decimal.specs.Writer.{Wrote};
ghost use Rattle.listing.specs.Listing.{most_line, unit_line, settled_behind, refusal_line};

use decimal::Writer;
use energy::HubGrains;
use settlement::Amounts;
use state::Book;

// The line of a unit in an hour.
#[tactic(auto, using(decimal::proofs::Laws::written_append, crate::proofs::Joined::none_joined), unfolding(crate::specs::Listing::unit_line))]
pub fn put_unit_line(out: &mut Writer, hour: u64, unit: u64, grains: HubGrains, amounts: Amounts)
    ensures result_after { Wrote out.old out.new (unit_line hour unit grains.0 amounts) }
    ensures upper_bound { out.new.place ≤ out.old.place + most_line }
{
    out.put_number(hour);
    out.put_field(unit);
    out.put_field(grains.0);
    for amount in amounts.item {
        out.put_field(amount);
    }
    out.put_byte(b'\n');
}

// Whether entry e of the book, that of hour e / 8 and place e % 8, has a line: its hour stands settled, and its unit is in the plant. Two
// loops, one in the other, are no plainer than one over the 192 entries.
fn is_listed(units: u64, book: &Book, e: usize) -> bool
    requires { e < hours * places }
    ensures { result ≡ (eqb (mark_at book.now (e / 8)) settled_mark && member_at units (e % 8)) }
{
    book.mark[e / 8] == 1 && units::member_at(units, e % 8)
}

// The lines of the settled hours, hour then unit ascending, with the same bytes in front of each.
#[tactic(auto, using(crate::proofs::Joined::none_joined, crate::proofs::Entries::all_entries))]
pub fn put_settled(out: &mut Writer, front: &[u8], units: u64, book: &Book)
    ensures result_after { Wrote out.old out.new (settled_behind front.now units book.now) }
    ensures upper_bound { out.new.place ≤ out.old.place + hours * places * (length front.now + most_line) }
{
    for e in 0..192 {
        if is_listed(units, book, e) {
            let hour = e as u64 / 8 + 1;
            let unit = e as u64 % 8 + 1;
            out.put_bytes(front);
            put_unit_line(out, hour, unit, book.energy[e], book.amounts[e]);
        }
    }
}

// The line of a refusal, by its number: a day's refusal and a text's each give theirs (`number`), and a trait over both would say no more.
#[tactic(auto, using(decimal::proofs::Laws::written_append), unfolding(crate::specs::Listing::refusal_line))]
pub fn put_refusal(out: &mut Writer, number: u64)
    ensures result_after { Wrote out.old out.new (refusal_line number) }
    ensures upper_bound { out.new.place ≤ out.old.place + most_line }
{
    out.put_bytes(b"refused=");
    out.put_number(number);
    out.put_byte(b'\n');
}
