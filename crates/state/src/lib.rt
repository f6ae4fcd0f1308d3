// The book: how it is read and written, what refusal 12 asks of it, and the book as four lists of numbers, taken apart
// into them and put together again. Hours and places are counted from 0 here.
#![tactic(auto)]

ghost use Rattle.std.specs.Prelude.{◌≡◌, ◌*◌, ◌<◌, length, cond, eqb};
ghost use Rattle.state.specs.Sizes.{hours, places, items, entries};
ghost use Rattle.state.specs.Book.{Sized, mark_at, hour_commitments, open_mark, settled_mark, stored, with_hour, empty_book, no_result};
ghost use Rattle.state.specs.Ranges.{within as is_within, limit_of, place_holds, commitments_hold, marks_hold, energies_hold, items_hold, amounts_hold, book_holds};
ghost use Rattle.state.specs.Numbers.{commitments_of, energies_of, amounts_at, amounts_of, book_of, kwh_of, grains_of, amount_numbers};

use energy::{HubGrains, HubKwh};
use offer::Offer;
use settlement::{Amounts, HourResult};
use sheet::{Sheet, UnitSheet};
use std::array;

// A stored energy and a stored amount at most, the amount in either direction.
const MOST_ENERGY: HubGrains = HubGrains(80000000000);

const MOST_AMOUNT: u64 = 100000000000;

// The amounts of a book, five for each hour and place.
pub const AMOUNTS: usize = 960;

// Hour h and place k, which is that of unit k + 1, stand at 8 * h + k. Marks: 0 open, 1 settled; a mark stays a number, since refusal 12
// tests the marks of any book, and C gets them as numbers. Four lists stand beside one another, since 12 tests each and C is given each.
#[derive(Clone, Copy)]
pub struct Book {
    pub commitment: [HubKwh; 192],
    pub mark: [u64; 24],
    pub energy: [HubGrains; 192],
    pub amounts: [Amounts; 192],
}

// No commitments, all hours open.
#[tactic(auto, unfolding(crate::specs::Book::empty_book))]
pub fn empty_book() -> Book
    ensures { result ≡ empty_book }
{
    Book {
        commitment: [HubKwh(0); 192],
        mark: [0; 24],
        energy: [HubGrains(0); 192],
        amounts: [settlement::no_amounts(); 192],
    }
}

// What a void stores: no energy, no amounts.
#[tactic(auto, unfolding(crate::specs::Book::no_result))]
pub fn no_result() -> HourResult
    ensures { result ≡ no_result }
{
    HourResult {
        energy: [HubGrains(0); 8],
        amounts: [settlement::no_amounts(); 8],
    }
}

// The entries of the plant's units in hour h give way to the new ones, by place; all others stay. Hours are indices below 24 here: a type of an hour would be
// made for each call and taken apart in it.
fn store<T: Copy>(all: &mut [T; 192], h: usize, units: u64, new: &[T; 8])
    requires { h < hours }
    ensures { (none : T) → all.new ≡ stored none h units new.now all.old }
{
    for k in 0..8 {
        if units::member_at(units, k) {
            all[8 * h + k] = new[k];
        }
    }
}

impl Book {
    // Whether an hour stands settled.
    pub fn is_settled(&self, h: usize) -> bool
        requires { h < hours }
        ensures { result ≡ eqb (mark_at self.now h) settled_mark }
    {
        self.mark[h] == 1
    }

    // An hour's commitments, by place.
    pub fn commitments(&self, h: usize) -> [HubKwh; 8]
        requires { h < hours }
        ensures { result ≡ hour_commitments self.now h }
    {
        array::from_fn(|k| self.commitment[8 * h + k])
    }

    // An hour settled, or open again: its mark, and its units' energies and amounts.
    pub fn store_hour(&mut self, h: usize, settled: bool, units: u64, new: &HourResult)
        requires { h < hours }
        ensures { self.new ≡ with_hour self.old h (cond settled settled_mark open_mark) units new.now }
    {
        store(&mut self.energy, h, units, &new.energy);
        store(&mut self.amounts, h, units, &new.amounts);
        self.mark[h] = settled as u64;
    }
}

// A book has as many entries as its type says. It does nothing: a call of it says so in a proof.
pub fn is_sized(book: Book) -> bool
    ensures { Sized book }
{
    true
}

// Whether an amount lies between -most and most.
pub fn within(amount: i64, most: u64) -> bool
    ensures { result ≡ is_within amount most }
{
    amount.unsigned_abs() <= most
}

// What a commitment may not exceed: the offer's last quantity, 0 outside the plant.
#[tactic(auto, unfolding(crate::specs::Ranges::limit_of))]
pub fn limit_of(member: bool, offer: &Offer) -> HubKwh
    ensures { result ≡ limit_of member offer.now }
{
    if member {
        offer::last_quantity(offer)
    } else {
        HubKwh(0)
    }
}

// Whether no commitment of place k exceeds its limit. An offer is looked at only where there is a commitment: 0 exceeds nothing. Places
// are indices below 8, as hours below 24.
fn place_holds(member: bool, unit: &UnitSheet, commitment: &[HubKwh; 192], k: usize) -> bool
    requires { k < places }
    ensures { result ≡ place_holds member unit.now commitment.now k }
{
    (0..24).all(|h| {
        let held = commitment[8 * h + k];
        held == HubKwh(0) || held <= limit_of(member, &unit.offers[h])
    })
}

fn commitments_hold(sheet: &Sheet, commitment: &[HubKwh; 192]) -> bool
    ensures { result ≡ commitments_hold sheet.now.units sheet.now.unit commitment.now }
{
    (0..8).all(|k| {
        let member = units::member_at(sheet.units, k);
        place_holds(member, &sheet.unit[k], commitment, k)
    })
}

// Whether each hour is marked open or settled.
fn marks_hold(mark: &[u64; 24]) -> bool
    ensures { result ≡ marks_hold mark.now }
{
    mark.iter().all(|m| *m == 0 || *m == 1)
}

fn energies_hold(energy: &[HubGrains; 192]) -> bool
    ensures { result ≡ energies_hold energy.now }
{
    energy.iter().all(|grains| *grains <= MOST_ENERGY)
}

// Whether a unit's amounts in an hour are within their bound.
fn items_hold(amounts: &Amounts) -> bool
    ensures { result ≡ items_hold amounts.now }
{
    amounts
        .item
        .iter()
        .all(|amount| within(*amount, MOST_AMOUNT))
}

fn amounts_hold(amounts: &[Amounts; 192]) -> bool
    ensures { result ≡ amounts_hold amounts.now }
{
    amounts.iter().all(|a| items_hold(a))
}

// Whether the book keeps its ranges: refusal 12 where it does not.
#[tactic(auto, unfolding(crate::specs::Ranges::book_holds))]
pub fn book_holds(sheet: &Sheet, book: &Book) -> bool
    ensures { result ≡ book_holds sheet.now book.now }
{
    commitments_hold(sheet, &book.commitment)
        && marks_hold(&book.mark)
        && energies_hold(&book.energy)
        && amounts_hold(&book.amounts)
}

// The commitments of a book as numbers: C and other programs have plain numbers. No `From` here and below, since none
// can be written for an array.
pub fn kwh_of(commitment: &[HubKwh; 192]) -> [u64; 192]
    ensures { result ≡ kwh_of commitment.now }
{
    commitment.map(|c| c.0)
}

// The energies of a book as numbers.
pub fn grains_of(energy: &[HubGrains; 192]) -> [u64; 192]
    ensures { result ≡ grains_of energy.now }
{
    energy.map(|e| e.0)
}

// The amounts of a book as numbers, five to an hour and place.
pub fn amount_numbers(amounts: &[Amounts; 192]) -> [i64; AMOUNTS]
    ensures { result ≡ amount_numbers amounts.now }
{
    array::from_fn(|n| amounts[n / 5].item[n % 5])
}

// The lists of a book, of their numbers. A list of numbers is a slice, so that a part of a longer one can be lent, and
// each function asks for its length: a type that says it would ask for a copy.
pub fn commitments_of(commitment: &[u64]) -> [HubKwh; 192]
    requires { length commitment.now ≡ entries }
    ensures { result ≡ commitments_of commitment.now }
{
    array::from_fn(|j| HubKwh(commitment[j]))
}

pub fn energies_of(energy: &[u64]) -> [HubGrains; 192]
    requires { length energy.now ≡ entries }
    ensures { result ≡ energies_of energy.now }
{
    array::from_fn(|j| HubGrains(energy[j]))
}

// The amounts of an hour and place, whose entry is j: only `amounts_of` goes through the entries.
fn amounts_by(amounts: &[i64], j: usize) -> Amounts
    requires { (j < entries) × (length amounts.now ≡ items * entries) }
    ensures { result ≡ amounts_at amounts.now j }
{
    Amounts {
        item: array::from_fn(|i| amounts[5 * j + i]),
    }
}

pub fn amounts_of(amounts: &[i64]) -> [Amounts; 192]
    requires { length amounts.now ≡ items * entries }
    ensures { result ≡ amounts_of amounts.now }
{
    array::from_fn(|j| amounts_by(amounts, j))
}

// The book of its numbers. That of a book's own numbers is the book itself (`book_same` in proofs/Packed).
pub fn book_by(commitment: &[u64], mark: &[u64; 24], energy: &[u64], amounts: &[i64]) -> Book
    requires { (length commitment.now ≡ entries) × (length energy.now ≡ entries) × (length amounts.now ≡ items * entries) }
    ensures { result ≡ book_of commitment.now mark.now energy.now amounts.now }
{
    Book {
        commitment: commitments_of(commitment),
        mark: *mark,
        energy: energies_of(energy),
        amounts: amounts_of(amounts),
    }
}
