// Postings: the count and the scan of those up to it, and the postings of a call.
#![tactic(auto)]

ghost use Rattle.std.specs.Prelude.{◌≡◌, ◌+◌, ◌-◌, ◌*◌, ◌≤◌, ◌<◌, length, nat_abs, ◌-ℤ◌};
ghost use Rattle.std.proofs.Math.Seq.{paste};
ghost use Rattle.postings.specs.Journal.{no_posting, count_holds, covered_by, is_of, scanned_with, scanned_none};
ghost use Rattle.postings.specs.Plan.{entry_size, unit_postings, plan_of};
ghost use Rattle.state.specs.Sizes.{hours, places, items};
ghost use Rattle.state.specs.Book.{hour_amounts};
ghost use Rattle.state.specs.Ranges.{most_amount, ItemsWithin, AmountsWithin};

use settlement::{Amounts, ITEMS};
use state::Book;
use std::array;

// An amount posted for a unit's item in an hour, in Rial. Hour, unit and item are counted from 1. The item stays a number: C gets it as
// one, and a total may ask for any, which refusal 11 tests.
#[derive(Clone, Copy)]
pub struct Posting {
    pub hour: u64,
    pub unit: u64,
    pub item: u64,
    pub amount: i64,
}

// The postings of one call in their order, then none. A type of the definitions: no code makes one.
#[derive(Clone, Copy)]
pub struct Plan {
    pub row: [Posting; 40],
}

// Whether a count keeps to the list and to 100,000.
#[tactic(auto, unfolding(crate::specs::Journal::count_holds))]
pub fn count_holds(count: u64, len: usize) -> bool
    ensures { result ≡ count_holds count len }
{
    count <= len as u64 && count <= 100000
}

// How many postings are looked at.
#[tactic(auto, unfolding(crate::specs::Journal::covered_by))]
pub fn covered(count: u64, len: usize) -> usize
    ensures { result ≡ covered_by count len }
{
    count.min(len as u64).min(100000) as usize
}

pub fn no_posting() -> Posting
    ensures { result ≡ no_posting }
{
    Posting {
        hour: 0,
        unit: 0,
        item: 0,
        amount: 0,
    }
}

// Whether a posting is that of a unit and an item.
fn is_of(x: Posting, unit: u64, item: u64) -> bool
    ensures { result ≡ is_of x unit item }
{
    (x.unit, x.item) == (unit, item)
}

// What the postings passed of a unit and item add up to: 0 before the first, and `None` once a posting is out of its bound.
pub fn scanned_none() -> Option<i64>
    ensures { result ≡ scanned_none }
{
    Some(0)
}

// One posting more.
#[tactic(auto, unfolding(crate::specs::Journal::scanned_with))]
pub fn scanned_with(sum: Option<i64>, x: Posting, unit: u64, item: u64) -> Option<i64>
    ensures { result ≡ scanned_with sum x unit item }
{
    let sum = sum?;
    if !state::within(x.amount, 1000000000000) {
        return None;
    }
    if is_of(x, unit, item) && state::within(sum, 99999000000000000) {
        return Some(sum + x.amount);
    }
    Some(sum)
}

// An amount's new value less its old one.
fn difference(new: i64, old: i64) -> i64
    requires { (nat_abs new ≤ most_amount) × (nat_abs old ≤ most_amount) }
    ensures { result ≡ new -ℤ old }
{
    new - old
}

// The five postings of the unit of place k, from a place of the list on: each amount's new value less its old one. The whole list is lent, since no
// library has a heap, and the contract says what stands in all of it.
fn post_unit(list: &mut [Posting], at: usize, hour: u64, k: usize, old: &Amounts, new: &Amounts)
    requires room { (at + items ≤ length list.old) × (k < places) }
    requires within { ItemsWithin old.now × ItemsWithin new.now }
    ensures { list.new ≡ paste list.old at (unit_postings hour k old.now new.now) items }
{
    let postings: [Posting; ITEMS] = array::from_fn(|i| Posting {
        hour,
        unit: k as u64 + 1,
        item: i as u64 + 1,
        amount: difference(new.item[i], old.item[i]),
    });
    list[at..at + ITEMS].copy_from_slice(&postings);
}

// The postings of an hour whose amounts in the book give way to new ones, from a place of the list on: five for each unit of the plant, in
// order. The list is lent whole, as in `post_unit`.
pub fn post_hour(
    list: &mut [Posting],
    at: usize,
    hour: u64,
    units: u64,
    book: &Book,
    new: &[Amounts; 8],
)
    requires room { (at + entry_size units ≤ length list.old) × (units < 256) }
    requires hour_in { (1 ≤ hour) × (hour ≤ hours) }
    requires within { AmountsWithin units (hour_amounts book.now (hour - 1)) × AmountsWithin units new.now }
    ensures { list.new ≡ paste list.old at (plan_of hour units (hour_amounts book.now (hour - 1)) new.now).row (entry_size units) }
{
    let h = (hour - 1) as usize;
    let mut next = at;
    for k in 0..8 {
        if units::member_at(units, k) {
            // only the plant's units have postings, so that k does not tell the place
            post_unit(list, next, hour, k, &book.amounts[8 * h + k], &new[k]);
            next += ITEMS;
        }
    }
}
