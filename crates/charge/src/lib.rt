// Item 4, the test: the counted and the weighted deviation, whether it is charged, and the charge.
#![tactic(auto)]

ghost use Rattle.std.specs.Prelude.{◌≡◌, ◌≤◌, ◌<◌, ◌^◌, ℕ};
ghost use Rattle.finite.specs.Finite.{tabulate};
ghost use Rattle.formulas.specs.Items.{kinds};
ghost use Rattle.charge.specs.Test.{counted_of, kind_weight, in_q, in_w, q_part, w_part, counted_deviation, is_charged, weighted as the_weighted, base_charge, growth as the_growth, hours_counted, charge_of, NearExact};

use energy::{Energy, HubGrains, NetKwh};
use formulas::{AvailabilityRate, Deviations, KINDS};
use std::array;

// How a kind is charged: the tenths of its deviation that W takes, 0 where it is not charged, and whether `repair` exempts it.
// A 0 and no `None`: W takes it as it is.
#[derive(Clone, Copy)]
struct KindWeight {
    tenths: u64,
    exempt: bool,
}

// A row for each kind, 2 to 8.
const KIND_WEIGHTS: [KindWeight; KINDS] = [
    // kind 2
    KindWeight {
        tenths: 10,
        exempt: false,
    },
    // kind 3
    KindWeight {
        tenths: 5,
        exempt: false,
    },
    // kind 4
    KindWeight {
        tenths: 0,
        exempt: false,
    },
    // kind 5
    KindWeight {
        tenths: 0,
        exempt: false,
    },
    // kind 6
    KindWeight {
        tenths: 10,
        exempt: true,
    },
    // kind 7
    KindWeight {
        tenths: 0,
        exempt: false,
    },
    // kind 8
    KindWeight {
        tenths: 3,
        exempt: false,
    },
];

impl KindWeight {
    // What counts of a deviation of the kind: nothing on a repair day that exempts it.
    fn counted(self, deviation: NetKwh, repaired: bool) -> NetKwh
        ensures { result.0 ≡ counted_of self deviation repaired }
    {
        if self.exempt && repaired {
            return NetKwh(0);
        }
        deviation
    }

    // What q takes of it: nothing of a kind without a weight.
    #[tactic(auto, using(std::proofs::lemmas::Bool::Decides::nat_tests))]
    fn in_q(self, deviation: NetKwh, repaired: bool) -> NetKwh
        ensures { result ≡ record { 0 = in_q self deviation repaired } }
    {
        if self.tenths == 0 {
            return NetKwh(0);
        }
        self.counted(deviation, repaired)
    }

    // What W takes of it.
    fn in_w(self, deviation: NetKwh, repaired: bool) -> u64
        requires { in_w self deviation repaired < 2 ^ 64 }
        ensures { result ≡ in_w self deviation repaired }
    {
        self.counted(deviation, repaired).product(self.tenths)
    }
}

// The row of the kind at index j.
#[tactic(auto, unfolding(crate::specs::Test::kind_weights, crate::specs::Test::kind_weight))]
fn kind_weight(j: usize) -> KindWeight
    requires { j < kinds }
    ensures { result ≡ kind_weight j }
{
    KIND_WEIGHTS[j]
}

// What q takes of each kind.
fn counted_parts(d: Deviations, repaired: bool) -> [NetKwh; KINDS]
    ensures { result ≡ tabulate kinds (λ (j : ℕ). record { 0 = q_part d repaired j }) }
{
    array::from_fn(|j| kind_weight(j).in_q(d.kwh[j], repaired))
}

// The counted deviation q. `repair` is the record's number, here and of W: a record may hold any.
pub fn counted_deviation(d: Deviations, repair: u64) -> NetKwh
    requires { (counted_deviation d repair).0 < 2 ^ 64 }
    ensures { result ≡ counted_deviation d repair }
{
    energy::total(&counted_parts(d, repair != 0))
}

// Whether the counted deviation is charged: over 2,000 kWh, or twenty times it over the reading; of an unmeasured unit, twenty times it
// at the hub over the unit's energy.
#[tactic(auto, using(std::proofs::lemmas::Bool::Decides::nat_tests), unfolding(crate::specs::Test::is_charged, energy::specs::Energy::hub_of))]
pub fn is_charged(q: NetKwh, reading: Option<NetKwh>, energy: HubGrains, loss: u64) -> bool
    ensures { result ≡ is_charged q reading energy loss }
{
    if q > NetKwh(2000) {
        return true;
    }
    let twenty = q.times(20);
    match reading {
        Some(reading) => twenty > reading,
        None => energy::hub_of(twenty, loss) > energy,
    }
}

// What W takes of each kind.
fn weighted_parts(d: Deviations, repaired: bool) -> [u64; KINDS]
    requires { (j : ℕ) → j < kinds → w_part d repaired j < 2 ^ 64 }
    ensures { result ≡ tabulate kinds (w_part d repaired) }
{
    array::from_fn(|j| kind_weight(j).in_w(d.kwh[j], repaired))
}

// The weighted deviation W, in tenths of a kWh.
pub fn weighted(d: Deviations, repair: u64) -> u64
    requires { the_weighted d repair < 2 ^ 64 }
    ensures { result ≡ the_weighted d repair }
{
    weighted_parts(d, repair != 0).iter().sum()
}

// The charge of the first hour, b.
#[tactic(auto, using(crate::proofs::Charge::rated_most, crate::proofs::Charge::product_most), unfolding(crate::specs::Test::base_charge))]
fn base_charge(w: u64, rate: AvailabilityRate) -> u64
    requires { w ≤ 10000000 }
    ensures { result ≡ base_charge w rate.cpf rate.bar }
{
    let tenths = w * 125;
    let rated = tenths * rate.cpf;
    let product = rated * rate.bar;
    product / 1000000000
}

// 10^8 × 1.05^n, rounded down, for n from 0 to 24.
const GROWTH: [u64; 25] = [
    100000000, 105000000, 110250000, 115762500, 121550625, 127628156, 134009564, 140710042,
    147745544, 155132821, 162889462, 171033935, 179585632, 188564914, 197993159, 207892817,
    218287458, 229201831, 240661923, 252695019, 265329770, 278596259, 292526071, 307152375,
    322509994,
];

#[tactic(auto, using(crate::proofs::Charge::table_at))]
fn growth(n: usize) -> u64
    requires { n ≤ 24 }
    ensures { result ≡ the_growth n }
{
    GROWTH[n]
}

// How many hours before this one the deviation has grown for, 24 at most.
#[tactic(auto, unfolding(crate::specs::Test::hours_counted))]
fn hours_counted(since: u64) -> u64
    ensures { result ≡ hours_counted since }
{
    since.saturating_sub(1).min(24)
}

// The charge of a weighted deviation in its hour `since`: not over the exact product, and less than 130 Rial short of it.
#[tactic(auto, using(crate::proofs::Charge::hours_most, crate::proofs::Charge::grown_most, crate::proofs::Charge::charge_near), unfolding(crate::specs::Test::charge_of))]
pub fn charge_of(w: u64, since: u64, rate: AvailabilityRate) -> u64
    requires { w ≤ 10000000 }
    ensures value { result ≡ charge_of w since rate.cpf rate.bar }
    ensures near_exact { NearExact w rate.cpf rate.bar (hours_counted since) result }
{
    let base = base_charge(w, rate);
    let n = hours_counted(since) as usize;
    base * growth(n) / 100000000
}
