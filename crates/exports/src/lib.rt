// What C and Rust programs call: slices of bytes and numbers in, slices of numbers out. include/gozalvek.h says what each argument is.
#![tactic(auto)]

ghost use Rattle.std.specs.Prelude.{◌≡◌, ◌<◌, ◌≤◌, ◌+◌, ◌*◌, min, length, get_or, set};
ghost use Rattle.decimal.specs.Output.{output, filled};
ghost use Rattle.listing.specs.Listing.{most_bytes};
ghost use Rattle.account.specs.Statement.{statement_of};
ghost use Rattle.state.specs.Sizes.{entries, items};
ghost use Rattle.exports.specs.Exports.{put, held_numbers, amount_numbers, signed_of, posting_stored, listed_to, most_places, owned_of, called_of};

use journal::Ran;
use postings::Posting;
use sheet::Sheet;
use state::Book;

// A value stored at a place. A slice that C lends may be too short: what has no place there is left out.
fn store<T: Copy>(out: &mut [T], at: usize, x: T)
    ensures { out.new ≡ set out.old at x }
{
    if at < out.len() {
        out[at] = x;
    }
}

// A list's entries in their order from a place on: C gets a book as numbers at fixed places.
fn store_all<T: Copy, const N: usize>(out: &mut [T], from: usize, list: &[T; N])
    requires { from + N ≤ entries * items }
    ensures { (none : T) → out.new ≡ put out.old from (λ k. get_or list.now k none) N }
{
    for (k, x) in list.iter().enumerate() {
        store(out, from + k, *x);
    }
}

// The 192 commitments, behind them the 24 hour marks, and behind those the 192 energies.
fn put_held(out: &mut [u64], book: &Book)
    ensures { out.new ≡ held_numbers book.now out.old }
{
    store_all(out, 0, &state::kwh_of(&book.commitment));
    store_all(out, 192, &book.mark);
    store_all(out, 216, &state::grains_of(&book.energy));
}

// The 960 amounts, five to an hour and unit, as C gets them.
fn put_amounts(out: &mut [i64], book: &Book)
    ensures { out.new ≡ amount_numbers book.now out.old }
{
    for (k, amounts) in book.amounts.iter().enumerate() {
        store_all(out, 5 * k, &amounts.item);
    }
}

// A number as a signed one, 0 where it is none: C gets a posting in signed numbers, since its amount is one.
fn signed(x: u64) -> i64
    ensures { result ≡ signed_of x }
{
    i64::try_from(x).unwrap_or(0)
}

// Posting k in four places, where there are such: C gets hour, unit, item and amount as numbers at fixed places.
fn put_posting(out: &mut [i64], k: usize, x: Posting)
    ensures { out.new ≡ posting_stored out.old k x }
{
    if k < out.len() / 4 {
        let at = 4 * k;
        let number = [signed(x.hour), signed(x.unit), signed(x.item), x.amount];
        out[at..at + 4].copy_from_slice(&number);
    }
}

// The journal list, posting by posting: C gets it as numbers at fixed places.
fn listed(list: &[Posting], out: &mut [i64])
    ensures { out.new ≡ listed_to out.old list.now (length list.now) }
{
    for (k, x) in list.iter().enumerate() {
        put_posting(out, k, *x);
    }
}

// A list of calls over a journal list of so many places of its own, and the list as they leave it. The list is part of an array of `ROOM`.
// The slices of the C call, lent one by one: a struct of lent slices would need in each contract that each is still the same one.
fn owned<const ROOM: usize>(
    sheet: &Sheet,
    places: usize,
    calls: &[u64],
    text: &[u8],
    answers: &mut [u64],
    out: &mut [i64],
) -> Ran
    requires room { ROOM ≤ most_places }
    requires places_in_room { places ≤ ROOM }
    ensures { record { ran = result; answers = answers.new; postings = out.new } ≡ owned_of sheet.now places calls.now text.now answers.old out.old }
{
    let mut list = [postings::no_posting(); ROOM];
    let ran = journal::run(&mut list[..places], sheet, calls, text, answers);
    listed(&list[..places], out);
    ran
}

// The same, over a short array where that holds the places: it is filled in a fraction of the time. The slices are lent one by one, as in `owned`.
fn carried_out(
    sheet: &Sheet,
    places: usize,
    calls: &[u64],
    text: &[u8],
    answers: &mut [u64],
    out: &mut [i64],
) -> Ran
    requires { places ≤ most_places }
    ensures { record { ran = result; answers = answers.new; postings = out.new } ≡ owned_of sheet.now places calls.now text.now answers.old out.old }
{
    if places <= 2560 {
        return owned::<2560>(sheet, places, calls, text, answers, out);
    }
    owned::<100040>(sheet, places, calls, text, answers, out)
}

// The length of a journal list: C may ask for any number of places.
fn length_of(places: u64) -> usize
    ensures { result ≡ min places most_places }
{
    places.min(100040) as usize
}

// A list of calls under the sheet of a text, over a journal list of so many places. Gives the number of the sheet's refusal, or 0. The
// number and the arguments are as include/gozalvek.h has them, each slice an argument of its own.
#[unsafe(no_mangle)]
pub extern "C" fn gozalvek_calls(
    sheet: &[u8],
    places: u64,
    calls: &[u64],
    text: &[u8],
    answers: &mut [u64],
    held: &mut [u64],
    amounts: &mut [i64],
    postings: &mut [i64],
    line: &mut u64,
    count: &mut u64,
) -> u64
    ensures { record { number = result; line = line.new; count = count.new; answers = answers.new; held = held.new; amounts = amounts.new; postings = postings.new } ≡ called_of sheet.now places calls.now text.now answers.old held.old amounts.old postings.old }
{
    match sheet_text::read_sheet(sheet, 0) {
        Err(refusal) => {
            *line = refusal.line;
            *count = 0;
            refusal.number()
        }
        Ok(read) => {
            let n = length_of(places);
            let ran = carried_out(&read.sheet, n, calls, text, answers, postings);
            *line = 0;
            *count = ran.count;
            put_held(held, &ran.book);
            put_amounts(amounts, &ran.book);
            0
        }
    }
}

// The statement of a day's text, written from the start of the buffer on as far as it has room; gives how many bytes are written: it is
// `account::statement_of` under the name that include/gozalvek.h has.
#[unsafe(no_mangle)]
pub extern "C" fn gozalvek_statement(text: &[u8], out: &mut [u8]) -> usize
    ensures result_after { output out.new result ≡ filled out.old (statement_of text.now) }
    ensures upper_bound { result ≤ most_bytes }
{
    account::statement_of(text, out)
}
