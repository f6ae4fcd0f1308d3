// The arithmetic of a unit's items but the test, in Rial: the season, the ceiling of a declaration, each item's magnitude, and its sign.
#![tactic(auto)]

ghost use Rattle.std.specs.Prelude.{◌≡◌, ◌+◌, ◌^◌, ◌≤◌, ◌<◌};
ghost use Rattle.formulas.specs.Items.{first_kind, kinds, deviation_of, in_season, declaration_ceiling, energy_pay, availability, refund_kwh, refund as the_refund, drawn_pay, paid as the_paid, owed as the_owed};

use energy::{Energy, GrossKwh, NetKwh};

// The number of kinds that a deviation is split into: 2 to 8.
pub const KINDS: usize = 7;

// What availability is paid by: the hour's capacity payment factor and the base availability rate.
#[derive(Clone, Copy)]
pub struct AvailabilityRate {
    pub cpf: u64,
    pub bar: u64,
    ghost in_range: { (cpf ≤ 10000) × (bar ≤ 1000000) },
}

// A unit's deviation by kind, from kind 2 on, in net kWh at the gate. Kinds are numbers as in a record's spans, from which the split makes them; the formulas name
// d5 and d7.
#[derive(Clone, Copy)]
pub struct Deviations {
    pub kwh: [NetKwh; KINDS],
}

impl Deviations {
    // The deviation of a kind.
    fn of_kind(self, kind: usize) -> NetKwh
        requires { (first_kind ≤ kind) × (kind < first_kind + kinds) }
        ensures { result.0 ≡ (deviation_of self kind).0 }
    {
        self.kwh[kind - 2]
    }
}

// An amount that is paid, and one that is owed: the magnitude negated. Two, since an item is paid or owed; `try_from` would give a Result that is never
// refused.
pub fn paid(magnitude: u64) -> i64
    requires { magnitude < 2 ^ 63 }
    ensures { result ≡ the_paid magnitude }
{
    magnitude as i64
}

pub fn owed(magnitude: u64) -> i64
    requires { magnitude < 2 ^ 63 }
    ensures { result ≡ the_owed magnitude }
{
    -(magnitude as i64)
}

// Item 1, by the undivided cost of the unit's grains.
#[tactic(auto, unfolding(crate::specs::Items::energy_pay))]
pub fn energy_pay(cost: u64) -> u64
    ensures { result ≡ energy_pay cost }
{
    cost / 10000000
}

// Item 2: availability beyond the commitment's gate energy.
#[tactic(auto, unfolding(crate::specs::Items::availability))]
pub fn availability_pay(declared: NetKwh, gate: NetKwh, rate: AvailabilityRate) -> u64
    requires { declared.0 ≤ 10000000 }
    ensures { result ≡ availability declared gate rate.cpf rate.bar }
{
    energy::pay_of(declared.above(gate), rate.cpf, rate.bar)
}

// Whether a day lies in the season, from 15/3 to 15/6.
#[tactic(auto, using(std::proofs::lemmas::Bool::Decides::nat_tests), unfolding(crate::specs::Items::in_season))]
pub fn in_season(month: u64, day: u64) -> bool
    ensures { result ≡ in_season month day }
{
    (3, 15) <= (month, day) && (month, day) <= (6, 15)
}

// The declaration ceiling A, by the practical power with the main fuel.
#[tactic(auto, unfolding(crate::specs::Items::declaration_ceiling))]
pub fn declaration_ceiling(season: bool, power: GrossKwh) -> GrossKwh
    requires { power.0 ≤ 1000000000 }
    ensures { result ≡ declaration_ceiling season power }
{
    if season {
        return power.plus(power.percent(6).min(GrossKwh(6000)));
    }
    power.plus(power.percent(3).min(GrossKwh(3000)))
}

// What item 3 goes by: the net declared capability D, `real`, the deviation by kinds, and the net declaration ceiling net(A).
#[derive(Clone, Copy)]
pub struct Declaration {
    pub declared: NetKwh,
    pub real: NetKwh,
    pub deviations: Deviations,
    pub allowed: NetKwh,
}

impl Declaration {
    // The kWh that item 3 takes back: what `real`, d5 and d7 leave of D, or what is above net(A).
    #[tactic(auto, unfolding(crate::specs::Items::refund_kwh))]
    pub fn refund_kwh(self) -> NetKwh
        ensures { result ≡ refund_kwh self.declared self.real self.deviations self.allowed }
    {
        let d = self.deviations;
        let unable = self.declared.above(self.real);
        let short = unable.above(d.of_kind(5)).above(d.of_kind(7));
        short.max(self.declared.above(self.allowed))
    }

    // Item 3, a magnitude.
    #[tactic(auto, unfolding(crate::specs::Items::refund_kwh, crate::specs::Items::refund))]
    pub fn refund(self, rate: AvailabilityRate) -> u64
        requires { self.declared.0 ≤ 10000000 }
        ensures { result ≡ the_refund self.declared self.real self.deviations self.allowed rate.cpf rate.bar }
    {
        energy::pay_of(self.refund_kwh(), rate.cpf, rate.bar)
    }
}

// Item 5, a magnitude: energy drawn from the grid, at the ceiling price.
#[tactic(auto, using(crate::proofs::Laws::drawn_factors), unfolding(energy::specs::Energy::hub_of, crate::specs::Items::energy_pay, crate::specs::Items::drawn_pay))]
pub fn drawn_pay(reverse: NetKwh, net: NetKwh, ceiling: u64, loss: u64) -> u64
    requires { (reverse.0 ≤ 10000000) × (ceiling ≤ 10000000) }
    ensures { result ≡ drawn_pay reverse net ceiling loss }
{
    let drawn = energy::hub_of(reverse.above(net), loss);
    energy_pay(drawn.product(ceiling))
}
