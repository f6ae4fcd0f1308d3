// The calls on the book and the journal: what each is refused for, and what an accepted one changes and posts; and the plain ledger, which says the
// same with no book. Definitions and laws; the code that carries the calls out stands in the crates above.
#![tactic(auto)]

ghost use Rattle.std.specs.Prelude.{◌≡◌};
ghost use Rattle.ledger.specs.declared.Refusal.TheVariants.{Text};
ghost use Rattle.ledger.specs.Numbers.{refusal_number, refusal_line};

use lines::TextRefusal;
use state::Book;

// Why a call is refused.
#[derive(Clone, Copy)]
pub enum Refusal {
    // 1 to 4, with the line
    Text(TextRefusal),
    // 9: the sheet's values break its ranges or orders
    SheetRange,
    // 10: hour not 1 to 24
    HourRange,
    // 11: unit not in the plant (total: or item not 1 to 5)
    UnitUnknown,
    // 12: the book or the journal breaks its ranges
    BookRange,
    // 20: hour stands settled
    HourSettled,
    // 21: amount 0
    NoAmount,
    // 22: target would exceed its last offer quantity
    OverOffer,
    // 23: unit holds less
    HeldLess,
    // 24: both units the same
    SameUnit,
    // 31: minutes not 60 in all
    Minutes,
    // 32: readings total over `net`, or none blank and the total not `net`
    Readings,
    // 33: deviation over 0, all proportions 0
    Proportions,
    // 40: hour stands
    HourStands,
    // 41: hour is open
    HourOpen,
    // 42: fewer free places than five a unit
    NoPlaces,
}

impl From<TextRefusal> for Refusal {
    ghost from_gives = { λ t r. r ≡ Text t };

    fn from(refusal: TextRefusal) -> Refusal {
        Refusal::Text(refusal)
    }
}

impl Refusal {
    // Document 01's number. A refusal has two numbers, this one and the line, so that neither is its `From`.
    pub fn number(self) -> u64
        ensures { result ≡ refusal_number self }
    {
        match self {
            Refusal::Text(t) => t.number(),
            Refusal::SheetRange => 9,
            Refusal::HourRange => 10,
            Refusal::UnitUnknown => 11,
            Refusal::BookRange => 12,
            Refusal::HourSettled => 20,
            Refusal::NoAmount => 21,
            Refusal::OverOffer => 22,
            Refusal::HeldLess => 23,
            Refusal::SameUnit => 24,
            Refusal::Minutes => 31,
            Refusal::Readings => 32,
            Refusal::Proportions => 33,
            Refusal::HourStands => 40,
            Refusal::HourOpen => 41,
            Refusal::NoPlaces => 42,
        }
    }

    // The line of a refusal 1 to 4, otherwise 0: the other number. It looks at one case alone, so it has little in common with `number`.
    pub fn line(self) -> u64
        ensures { result ≡ refusal_line self }
    {
        match self {
            Refusal::Text(t) => t.line,
            _ => 0,
        }
    }
}

// What an accepted call did.
#[derive(Clone, Copy)]
pub enum Effect {
    // a take, release or move: commitments are changed, and nothing is posted
    Committed,
    // a settle, restate or void: so many postings are appended
    Posted(u64),
}

// A call in numbers, as the C interface's list of calls has it: kinds 1 to 6 are take, release, move, settle, restate and void, and every other
// number asks for a void of hour 0, which is refused; and the part of the lent text that the call is given, from `begin` to before `end`; a record
// starts at `start` in that part.
#[derive(Clone, Copy, Default)]
pub struct Asked {
    pub kind: u64,
    pub hour: u64,
    pub unit: u64,
    pub to: u64,
    pub kwh: u64,
    pub begin: u64,
    pub end: u64,
    pub start: u64,
}

// What a call answers and leaves, without what it posted. A type of the definitions: no code makes one.
#[derive(Clone, Copy)]
pub struct Outcome {
    pub answer: Result<Effect, Refusal>,
    pub place: u64,
    pub count: u64,
    pub book: Book,
}
