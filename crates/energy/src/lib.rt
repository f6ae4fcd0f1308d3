// The plant's energies and what is paid for them. Gross, net-at-gate and hub energies are types of their own: each is
// added, subtracted and compared with its own kind only, and the conversions from one kind to another stand here
// alone. The four differ in the type alone, which is what they are for. A bound of 10^9 keeps each product in 64 bits; a type of a bounded energy would
// be made at each conversion and taken apart in it.
#![tactic(auto)]

ghost use Rattle.std.specs.Prelude.{◌≡◌, ℕ, ◌+◌, ◌*◌, ◌-◌, ◌/◌, ◌^◌, ◌≤◌, ◌<◌, sum_by};
ghost use Rattle.energy.specs.Energy.{net_of, hub_of, gate_of, grains_of, pay_of};

// Gross energy in kWh.
#[derive(Clone, Copy, PartialEq, Eq, PartialOrd, Ord)]
pub struct GrossKwh(pub u64);

// Net energy at the gate in kWh.
#[derive(Clone, Copy, PartialEq, Eq, PartialOrd, Ord)]
pub struct NetKwh(pub u64);

// Hub energy in whole kWh, as in offers and commitments.
#[derive(Clone, Copy, PartialEq, Eq, PartialOrd, Ord)]
pub struct HubKwh(pub u64);

// Hub energy in grains of 0.1 Wh.
#[derive(Clone, Copy, PartialEq, Eq, PartialOrd, Ord)]
pub struct HubGrains(pub u64);

// An energy of one kind, which is added to and subtracted from its own kind only: an amount of the kind's unit.
pub trait Energy: Copy {
    ghost amount: { Self → ℕ };

    fn of(number: u64) -> Self
        ensures { amount result ≡ number };

    fn amount(self) -> u64
        ensures { result ≡ amount self };

    final fn plus(self, more: Self) -> Self
        requires { amount self + amount more < 2 ^ 64 }
        ensures { amount result ≡ amount self + amount more }
    {
        Self::of(self.amount() + more.amount())
    }

    // max(self - other, 0)
    final fn above(self, other: Self) -> Self
        ensures { amount result ≡ amount self - amount other }
    {
        Self::of(self.amount().saturating_sub(other.amount()))
    }

    // Its product with a number that is no energy, which is no energy either: a weight by minutes or tenths, or an
    // undivided cost by a price.
    final fn product(self, factor: u64) -> u64
        requires { amount self * factor < 2 ^ 64 }
        ensures { result ≡ amount self * factor }
    {
        self.amount() * factor
    }
}

impl Energy for GrossKwh {
    ghost amount = { λ e. e.0 };

    fn of(kwh: u64) -> GrossKwh {
        GrossKwh(kwh)
    }

    fn amount(self) -> u64 {
        let GrossKwh(kwh) = self;
        kwh
    }
}

impl Energy for NetKwh {
    ghost amount = { λ e. e.0 };

    fn of(kwh: u64) -> NetKwh {
        NetKwh(kwh)
    }

    fn amount(self) -> u64 {
        let NetKwh(kwh) = self;
        kwh
    }
}

impl Energy for HubKwh {
    ghost amount = { λ e. e.0 };

    fn of(kwh: u64) -> HubKwh {
        HubKwh(kwh)
    }

    fn amount(self) -> u64 {
        let HubKwh(kwh) = self;
        kwh
    }
}

impl Energy for HubGrains {
    ghost amount = { λ e. e.0 };

    fn of(grains: u64) -> HubGrains {
        HubGrains(grains)
    }

    fn amount(self) -> u64 {
        let HubGrains(grains) = self;
        grains
    }
}

// What energies of one kind add up to.
pub fn total<E: Energy>(energies: &[E]) -> E
    requires { sum_by E.amount energies.now < 2 ^ 64 }
    ensures { E.amount result ≡ sum_by E.amount energies.now }
{
    E::of(energies.iter().map(|e| e.amount()).sum())
}

// Net of gross: less the unit's own use, in ten-thousandths.
#[tactic(auto, unfolding(crate::specs::Energy::net_of))]
pub fn net_of(gross: GrossKwh, own: u64) -> NetKwh
    requires { gross.0 ≤ 1000000000 }
    ensures { result ≡ net_of gross own }
{
    let kept = 10000u64.saturating_sub(own);
    let product = gross.0 * kept;
    NetKwh(product / 10000)
}

// Hub energy of net energy at the gate: less the plant's loss, in ten-thousandths.
#[tactic(auto, unfolding(crate::specs::Energy::hub_of))]
pub fn hub_of(net: NetKwh, loss: u64) -> HubGrains
    requires { net.0 ≤ 1000000000 }
    ensures { result ≡ hub_of net loss }
{
    let kept = 10000u64.saturating_sub(loss);
    let product = net.0 * kept;
    HubGrains(product)
}

// Gate energy of a commitment.
pub fn gate_of(commitment: HubKwh, loss: u64) -> NetKwh
    requires { (commitment.0 * 10000 < 2 ^ 64) × (loss < 10000) }
    ensures { result ≡ gate_of commitment loss }
{
    let kept = 10000 - loss;
    let grains = commitment.0 * 10000;
    NetKwh(grains.div_ceil(kept))
}

// A whole hub energy in grains.
#[tactic(auto, unfolding(crate::specs::Energy::grains_of))]
pub fn grains_of(kwh: HubKwh) -> HubGrains
    requires { kwh.0 ≤ 1000000000 }
    ensures { result ≡ grains_of kwh }
{
    HubGrains(kwh.0 * 10000)
}

// Rial for k kWh of availability, by the capacity payment factor and the base availability rate.
#[tactic(auto, unfolding(crate::specs::Energy::pay_of))]
pub fn pay_of(k: NetKwh, cpf: u64, bar: u64) -> u64
    requires { (k.0 ≤ 10000000) × (cpf ≤ 10000) × (bar ≤ 1000000) }
    ensures { result ≡ pay_of k cpf bar }
{
    let rated = k.0 * cpf;
    let product = rated * bar;
    product / 1000000
}

impl GrossKwh {
    // So many percent of it, rounded down.
    pub fn percent(self, share: u64) -> GrossKwh
        requires { self.0 * share < 2 ^ 64 }
        ensures { result.0 ≡ self.0 * share / 100 }
    {
        GrossKwh(self.0 * share / 100)
    }
}

impl NetKwh {
    pub fn times(self, factor: u64) -> NetKwh
        requires { factor * self.0 < 2 ^ 64 }
        ensures { result.0 ≡ factor * self.0 }
    {
        NetKwh(factor * self.0)
    }
}
