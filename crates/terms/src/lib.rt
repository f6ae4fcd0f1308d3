// What an hour's settlement uses of the sheet.
#![tactic(auto)]

ghost use Rattle.std.specs.Prelude.{◌≡◌, ℕ, ◌≤◌, ◌<◌};
ghost use Rattle.terms.specs.Terms.{unit_terms, units_terms, hour_sheet};

use energy::GrossKwh;
use offer::Offer;
use sheet::{Sheet, UnitSheet};
use std::array;

// What an hour's formulas use of the sheet: whether the day lies in the season, the plant's loss, the base
// availability rate and the hour's capacity payment factor.
#[derive(Clone, Copy)]
pub struct Rates {
    pub season: bool,
    pub loss: u64,
    pub bar: u64,
    pub cpf: u64,
}

// What an hour's settlement uses of a unit's sheet: its own use, its nominal power and its offer of the hour.
#[derive(Clone, Copy)]
pub struct UnitTerms {
    pub own: u64,
    pub nominal: GrossKwh,
    pub offer: Offer,
}

// What an hour's settlement uses of the sheet. Place k of `unit` is that of unit k + 1.
#[derive(Clone, Copy)]
pub struct HourSheet {
    pub rates: Rates,
    pub ceiling: u64,
    pub units: u64,
    pub unit: [UnitTerms; 8],
}

// What is used of a unit's sheet in the hour h, from 0; for an hour, so no `From`, as below. The hour is an index
// below 24, as in the book: a type of it would be made for each call and taken apart in it.
fn unit_terms(unit: &UnitSheet, h: usize) -> UnitTerms
    requires { h < 24 }
    ensures { result ≡ unit_terms unit.now h }
{
    UnitTerms {
        own: unit.own,
        nominal: unit.nominal,
        offer: unit.offers[h],
    }
}

// What is used of each unit's.
fn units_terms(sheet: &Sheet, h: usize) -> [UnitTerms; 8]
    requires { h < 24 }
    ensures { result ≡ units_terms sheet.now h }
{
    array::from_fn(|k| unit_terms(&sheet.unit[k], h))
}

// What an hour's settlement uses of the sheet. It takes parts of the sheet for the hour that it is told, so it is no `From`, which takes one value.
#[tactic(auto, using(crate::proofs::Taken::hour_taken), unfolding(crate::specs::Terms::rates_of))]
pub fn hour_sheet(sheet: &Sheet, hour: u64) -> HourSheet
    requires { (1 ≤ hour) × (hour ≤ 24) }
    ensures { result ≡ hour_sheet sheet.now hour }
{
    let h = (hour - 1) as usize;
    HourSheet {
        rates: Rates {
            season: formulas::in_season(sheet.month, sheet.day),
            loss: sheet.loss,
            bar: sheet.bar,
            cpf: sheet.cpf[h],
        },
        ceiling: sheet.ceiling,
        units: sheet.units,
        unit: units_terms(sheet, h),
    }
}
