// An hour's settlement: the five items of each unit, the hour's energies and amounts, and the test of a record's proportions.
#![tactic(auto)]

ghost use Rattle.std.specs.Prelude.{◌≡◌, ℕ, ◌≤◌, ◌<◌};
ghost use Rattle.allocation.specs.Fill.{grains_at};
ghost use Rattle.deviation.specs.Deviation.{SplitReady};
ghost use Rattle.settlement.specs.Hour.{no_amounts, energy_item, availability_item, refund_item, test_item, amounts_of};
ghost use Rattle.settlement.specs.Ranges.{HourGiven, HourInRange, RatesReady, UnitReady, drawn_by, place_amounts, amounts_by, plant_by, hour_by, proportions_by};

use allocation::{Plant, PlantHour, PlantUnit};
use energy::{HubGrains, HubKwh, NetKwh};
use formulas::{AvailabilityRate, Declaration, Deviations};
use offer::ModifiedOffer;
use record::{Record, UnitRecord};
use std::array;
use terms::{HourSheet, Rates, UnitTerms};

// The number of items of a unit.
pub const ITEMS: usize = 5;

// A unit's items, in Rial.
#[derive(Clone, Copy)]
pub struct Amounts {
    pub item: [i64; ITEMS],
}

// An hour's energies and amounts: place k is that of unit k + 1, all 0 where the unit is outside the plant. Two lists, as C and refusal 12 have them.
#[derive(Clone, Copy)]
pub struct HourResult {
    pub energy: [HubGrains; 8],
    pub amounts: [Amounts; 8],
}

// What a unit's items go by in an hour: the rates, what is used of its sheet, its commitment, what the record says of it, and its energy.
#[derive(Clone, Copy)]
struct UnitHour<'a> {
    rates: Rates,
    terms: &'a UnitTerms,
    commitment: HubKwh,
    unit: &'a UnitRecord,
    energy: HubGrains,
    ghost rated: { RatesReady rates },
    ghost ready: { UnitReady terms.now.own terms.now.offer commitment unit.now energy },
}

impl UnitHour<'_> {
    // What availability is paid by: two of the rates, whose ranges it needs. A `From` of the unit's hour would be no plainer, and not
    // say what is made.
    fn availability(&self) -> AvailabilityRate
        ensures { (result.cpf ≡ self.now.rates.cpf) × (result.bar ≡ self.now.rates.bar) }
    {
        AvailabilityRate {
            cpf: self.rates.cpf,
            bar: self.rates.bar,
        }
    }

    // Item 1.
    #[tactic(auto, using(offer::proofs::Costs::cost_first, offer::proofs::Costs::cost_le, formulas::proofs::Laws::energy_pay_most, formulas::proofs::Amounts::back), unfolding(crate::specs::Hour::energy_item))]
    fn energy_item(&self) -> i64
        ensures { result ≡ energy_item self.now.terms.now.offer self.now.commitment self.now.energy }
    {
        let modified = ModifiedOffer {
            offer: &self.terms.offer,
            commitment: self.commitment,
        };
        let cost = modified.cost_between(HubGrains(0), self.energy);
        formulas::paid(formulas::energy_pay(cost))
    }

    // Item 2, by the net declared capability.
    #[tactic(auto, using(formulas::proofs::Laws::availability_most, formulas::proofs::Amounts::back), unfolding(crate::specs::Hour::availability_item))]
    fn availability_item(&self, declared: NetKwh) -> i64
        requires { declared.0 ≤ 1000000 }
        ensures { result ≡ availability_item self.now.rates declared self.now.commitment }
    {
        let gate = energy::gate_of(self.commitment, self.rates.loss);
        formulas::paid(formulas::availability_pay(declared, gate, self.availability()))
    }

    // Item 3.
    #[tactic(auto, using(formulas::proofs::Laws::refund_most, formulas::proofs::Amounts::back), unfolding(crate::specs::Hour::refund_item))]
    fn refund_item(&self, its: Declaration) -> i64
        requires { its.declared.0 ≤ 1000000 }
        ensures { result ≡ refund_item self.now.rates its.declared its.real its.deviations its.allowed }
    {
        formulas::owed(its.refund(self.availability()))
    }

    // Item 4, by the deviation by kinds.
    #[tactic(auto, using(charge::proofs::Laws::counted_in, charge::proofs::Laws::weighted_most, charge::proofs::Charge::charge_most, formulas::proofs::Amounts::back), unfolding(crate::specs::Hour::test_item))]
    fn test_item(&self, d: Deviations) -> i64
        requires { SplitReady d }
        ensures { result ≡ test_item self.now.rates self.now.unit.now.reading self.now.unit.now.repair self.now.unit.now.since d self.now.energy }
    {
        let repair = self.unit.repair;
        let q = charge::counted_deviation(d, repair);
        if charge::is_charged(q, self.unit.reading, self.energy, self.rates.loss) {
            let w = charge::weighted(d, repair);
            return formulas::owed(charge::charge_of(w, self.unit.since, self.availability()));
        }
        0
    }

    // The five items, by what of the drawn energy's price is due of the unit. Own use is taken off `declared` and the declaration ceiling; the other
    // figures are net.
    fn amounts(&self, drawn: u64) -> Amounts
        requires { drawn ≤ 80000000000 }
        ensures { result ≡ amounts_of self.now.rates self.now.terms.now.own self.now.terms.now.offer self.now.commitment self.now.unit.now self.now.energy drawn }
    {
        let own = self.terms.own;
        let declared = energy::net_of(self.unit.declared, own);
        let ceiling = formulas::declaration_ceiling(self.rates.season, self.unit.power);
        let d = deviation::split(own, self.unit);
        let its = Declaration {
            declared,
            real: self.unit.real,
            deviations: d,
            allowed: energy::net_of(ceiling, own),
        };
        Amounts {
            item: [
                self.energy_item(),
                self.availability_item(declared),
                self.refund_item(its),
                self.test_item(d),
                formulas::owed(drawn),
            ],
        }
    }
}

pub fn no_amounts() -> Amounts
    ensures { result ≡ no_amounts }
{
    Amounts {
        item: [0i64; ITEMS],
    }
}

// What the allocation rests on in the record's hour. It is made of three values, so it is no `From`, which takes one.
fn plant_of(day: &HourSheet, hour: &Record, commitment: &[HubKwh; 8]) -> Plant
    ensures { result ≡ plant_by day.now hour.now commitment.now }
{
    Plant {
        loss: day.rates.loss,
        units: day.units,
        unit: array::from_fn(|k| PlantUnit {
            real: hour.unit[k].real,
            nominal: day.unit[k].nominal,
            commitment: commitment[k],
            offer: day.unit[k].offer,
        }),
    }
}

// An hour that may be settled: what is used of the sheet, the record and the hour's commitments, in the ranges that refusals 9 and 12 and the record's
// reader see to.
#[derive(Clone, Copy)]
pub struct DueHour<'a> {
    pub day: &'a HourSheet,
    pub hour: &'a Record,
    pub commitment: &'a [HubKwh; 8],
    ghost in_range: { HourInRange day.now hour.now commitment.now },
}

impl DueHour<'_> {
    // What of the drawn energy's price is due of the unit at place k: all of it of the lowest-numbered unit, nothing of the others.
    #[tactic(auto, using(formulas::proofs::Laws::drawn_most))]
    fn drawn_at(&self, k: usize) -> u64
        ensures value { result ≡ drawn_by self.now.day.now self.now.hour.now k }
        ensures most { result ≤ 80000000000 }
    {
        if !units::lowest_at(self.day.units, k) {
            return 0;
        }
        formulas::drawn_pay(
            self.hour.reverse,
            self.hour.net,
            self.day.ceiling,
            self.day.rates.loss,
        )
    }

    // The amounts of the place k by its energy, 0 outside the plant.
    #[tactic(auto, using(units::proofs::Laws::place_lt))]
    fn amounts_at(&self, k: usize, energy: HubGrains) -> Amounts
        requires { energy.0 ≤ 80000000000 }
        ensures { result ≡ place_amounts self.now.day.now self.now.hour.now self.now.commitment.now energy k }
    {
        if !units::member_at(self.day.units, k) {
            return no_amounts();
        }
        let its = UnitHour {
            rates: self.day.rates,
            terms: &self.day.unit[k],
            commitment: self.commitment[k],
            unit: &self.hour.unit[k],
            energy,
        };
        its.amounts(self.drawn_at(k))
    }

    // The amounts of each place by the energies.
    fn amounts(&self, energy: &[HubGrains; 8]) -> [Amounts; 8]
        requires { (k : ℕ) → k < 8 → grains_at energy.now k ≤ 80000000000 }
        ensures { result ≡ amounts_by self.now.day.now self.now.hour.now self.now.commitment.now energy.now }
    {
        array::from_fn(|k| self.amounts_at(k, energy[k]))
    }

    // The hour's energies and amounts.
    pub fn settle_hour(&self) -> HourResult
        ensures { result ≡ hour_by self.now.day.now self.now.hour.now self.now.commitment.now }
    {
        let plant = plant_of(self.day, self.hour, self.commitment);
        let delivered = PlantHour {
            net: self.hour.net,
            reverse: self.hour.reverse,
            plant: &plant,
        };
        let energy = delivered.allocate();
        HourResult {
            energy,
            amounts: self.amounts(&energy),
        }
    }
}

// Whether each unit of the plant that has a deviation has a proportion over 0: refusal 33 where one has none.
pub fn proportions_hold(day: &HourSheet, hour: &Record) -> bool
    requires { HourGiven day.now hour.now }
    ensures { result ≡ proportions_by day.now hour.now }
{
    (0..8).all(|k| !units::member_at(day.units, k)
        || deviation::is_proportioned(day.unit[k].own, &hour.unit[k]))
}
