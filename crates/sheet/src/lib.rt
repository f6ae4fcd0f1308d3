// The day sheet: its type, the empty one, and the test of its ranges and orders.
#![tactic(auto)]

ghost use Rattle.std.specs.Prelude.{◌≡◌};
ghost use Rattle.offer.specs.Offer.{offer_holds};
ghost use Rattle.finite.specs.Finite.{every};
ghost use Rattle.sheet.specs.Limits.{last_day};
ghost use Rattle.sheet.specs.Empty.{no_unit, no_sheet};
ghost use Rattle.sheet.specs.Ranges.{offer_at, monthly_of, unit_holds, place_holds, units_hold, date_holds, rates_hold, cpf_holds, sheet_holds};

use energy::GrossKwh;
use offer::Offer;
use std::array;

// What the sheet says of a unit: own use in ten-thousandths, nominal and monthly practical power, the offers of 24
// hours.
#[derive(Clone, Copy)]
pub struct UnitSheet {
    pub own: u64,
    pub nominal: GrossKwh,
    pub monthly: GrossKwh,
    pub offers: [Offer; 24],
}

// One plant's day. Place k of `unit` is that of unit k + 1, which is in the plant where bit k of `units` is 1:
// a mask and no `Option` at each place, since the text has it as a number, and refusal 9 tests it. `HourSheet` and `Plant` take it over.
#[derive(Clone, Copy)]
pub struct Sheet {
    pub month: u64,
    pub day: u64,
    pub loss: u64,
    pub ceiling: u64,
    pub bar: u64,
    pub cpf: [u64; 24],
    pub units: u64,
    pub unit: [UnitSheet; 8],
}

// The last day of a month of the Persian calendar.
pub fn last_day(month: u64) -> u64
    ensures { result ≡ last_day month }
{
    if month <= 6 {
        return 31;
    }
    30
}

pub fn no_unit() -> UnitSheet
    ensures { result ≡ no_unit }
{
    UnitSheet {
        own: 0,
        nominal: GrossKwh(0),
        monthly: GrossKwh(0),
        offers: [offer::no_offer(); 24],
    }
}

pub fn no_sheet() -> Sheet
    ensures { result ≡ no_sheet }
{
    Sheet {
        month: 0,
        day: 0,
        loss: 0,
        ceiling: 0,
        bar: 0,
        cpf: [0; 24],
        units: 0,
        unit: [no_unit(); 8],
    }
}

// Each unit's monthly practical power, which a blank line of an hour record stands for.
pub fn monthly_of(sheet: &Sheet) -> [GrossKwh; 8]
    ensures { result ≡ monthly_of sheet.now }
{
    array::from_fn(|k| sheet.unit[k].monthly)
}

// Whether a unit's offers of the 24 hours keep their ranges and orders.
fn offers_hold(u: &UnitSheet) -> bool
    ensures { result ≡ every 24 (λ h. offer_holds (offer_at u.now h)) }
{
    u.offers.iter().all(offer::offer_holds)
}

// Whether a unit's values keep their ranges and orders.
#[tactic(auto, unfolding(crate::specs::Ranges::unit_holds))]
fn unit_holds(u: &UnitSheet) -> bool
    ensures { result ≡ unit_holds u.now }
{
    u.own <= 2000
        && GrossKwh(1) <= u.nominal
        && u.nominal <= GrossKwh(1000000)
        && u.monthly <= GrossKwh(1000000)
        && offers_hold(u)
}

// A place outside the plant has nothing to keep.
fn place_holds(units: u64, k: usize, u: &UnitSheet) -> bool
    ensures { result ≡ place_holds units k u.now }
{
    !units::member_at(units, k) || unit_holds(u)
}

// Whether the plant's units keep their ranges and orders.
fn units_hold(units: u64, unit: &[UnitSheet; 8]) -> bool
    ensures { result ≡ units_hold units unit.now }
{
    (0..8).all(|k| place_holds(units, k, &unit[k]))
}

fn date_holds(month: u64, day: u64) -> bool
    ensures { result ≡ date_holds month day }
{
    (1..=12).contains(&month) && (1..=last_day(month)).contains(&day)
}

fn cpf_holds(cpf: &[u64; 24]) -> bool
    ensures { result ≡ cpf_holds cpf.now }
{
    cpf.iter().all(|factor| *factor <= 10000)
}

fn rates_hold(loss: u64, ceiling: u64, bar: u64) -> bool
    ensures { result ≡ rates_hold loss ceiling bar }
{
    loss <= 2000 && ceiling <= 10000000 && bar <= 1000000
}

// Whether a sheet keeps its ranges and orders: refusal 9 where it does not.
#[tactic(auto, unfolding(crate::specs::Ranges::sheet_holds))]
pub fn sheet_holds(sheet: &Sheet) -> bool
    ensures { result ≡ sheet_holds sheet.now }
{
    date_holds(sheet.month, sheet.day)
        && rates_hold(sheet.loss, sheet.ceiling, sheet.bar)
        && cpf_holds(&sheet.cpf)
        && (1..=255).contains(&sheet.units)
        && units_hold(sheet.units, &sheet.unit)
}
