// The plant's net hub energy allocated to its units: ceilings, and the fill by rising price.
#![tactic(auto)]

ghost use Rattle.std.specs.Prelude.{◌≡◌, true, cond, Option, Some, ℕ, ◌+◌, ◌≤◌, ◌<◌, eqb, ltb, length, get_or};
ghost use Rattle.finite.specs.Finite.{tabulate};
ghost use Rattle.energy.specs.Energy.{hub_of};
ghost use Rattle.allocation.specs.Fill.{grains_at, better, best, fill as the_fill};
ghost use Rattle.allocation.specs.Allocation.{net_at, gross_at, real_sum, plant_energy, ceilings as the_ceilings, prices_of, energies, PlantHolds};
ghost use Rattle.allocation.specs.Blocks.{priced, filling_at, next_price, has_room, given, HasBlock, Fillings, Offered, EachOffered};

use energy::{Energy, GrossKwh, HubGrains, HubKwh, NetKwh};
use offer::{Block, ModifiedOffer, Offer};
use std::array;

// What an hour's allocation rests on of a unit: its `real`, its nominal power, its commitment and its offer.
#[derive(Clone, Copy)]
pub struct PlantUnit {
    pub real: NetKwh,
    pub nominal: GrossKwh,
    pub commitment: HubKwh,
    pub offer: Offer,
}

// What an hour's allocation rests on: places 0 to 7 stand for units 1 to 8, and bit k of `units` says whether the
// plant has the unit at place k. Values at the other places are not looked at.
#[derive(Clone, Copy)]
pub struct Plant {
    pub loss: u64,
    pub units: u64,
    pub unit: [PlantUnit; 8],
}

// What a plant delivered and what it drew in an hour, `net` and `reverse`, and what the allocation rests on.
#[derive(Clone, Copy)]
pub struct PlantHour<'a> {
    pub net: NetKwh,
    pub reverse: NetKwh,
    pub plant: &'a Plant,
    ghost in_range: { (net.0 ≤ 8000000) × PlantHolds plant.now },
}

// A unit in the fill: its ceiling, its energy so far, and its next block if it has room. Where there is no room `next` is a block without grains and no
// `None`: only a unit with room is filled, and `fill` would have to open the Option again.
#[derive(Clone, Copy)]
struct Filling {
    ceiling: HubGrains,
    energy: HubGrains,
    next: Block,
}

// The plant's net hub energy H.
pub fn plant_energy(net: NetKwh, reverse: NetKwh, loss: u64) -> HubGrains
    requires { net.0 ≤ 1000000000 }
    ensures { result ≡ plant_energy net reverse loss }
{
    energy::hub_of(net.above(reverse), loss)
}

// `real` of the plant's units, by place; 0 outside the plant.
fn reals_of(plant: &Plant) -> [NetKwh; 8]
    ensures { result ≡ tabulate 8 (net_at plant.now) }
{
    array::from_fn(|k| units::member_or(plant.units, k, plant.unit[k].real, NetKwh(0)))
}

// R: the sum of `real` over the plant's units.
fn real_sum(plant: &Plant) -> NetKwh
    requires { (k : ℕ) → (net_at plant.now k).0 ≤ 1000000 }
    ensures { result ≡ real_sum plant.now }
{
    energy::total(&reals_of(plant))
}

impl PlantUnit {
    // What its share goes by: `real`, or `nominal` where R, here `reals`, is 0.
    fn weight(&self, reals: NetKwh) -> u64
        ensures { result ≡ cond (eqb reals.0 0) self.now.nominal.0 self.now.real.0 }
    {
        if reals == NetKwh(0) {
            return self.nominal.0;
        }
        self.real.0
    }
}

// What each unit's share goes by, 0 outside the plant.
fn weights_of(plant: &Plant, reals: NetKwh) -> [u64; 8]
    ensures { result ≡ tabulate 8 (λ (k : ℕ). cond (eqb reals.0 0) (gross_at plant.now k).0 (net_at plant.now k).0) }
{
    array::from_fn(|k| units::member_or(plant.units, k, plant.unit[k].weight(reals), 0))
}

// Each unit's `real` at the hub, and its share of the excess. Shares and ceilings are lists by place, here and below: each is made of the one before it,
// and a unit with its share would be a type for one step.
fn with_shares(plant: &Plant, shares: [u64; 8]) -> [HubGrains; 8]
    requires { ((k : ℕ) → (net_at plant.now k).0 ≤ 1000000) × ((k : ℕ) → k < 8 → get_or shares k 0 ≤ 100000000000) }
    ensures { result ≡ tabulate 8 (λ (k : ℕ). record { 0 = (hub_of (net_at plant.now k) plant.now.loss).0 + get_or shares k 0 }) }
{
    array::from_fn(|k| {
        let real = units::member_or(plant.units, k, plant.unit[k].real, NetKwh(0));
        energy::hub_of(real, plant.loss).plus(HubGrains(shares[k]))
    })
}

impl Filling {
    // A unit with so much energy. That its offer holds is asked only where there is room below the ceiling: a unit outside the plant may have an
    // offer that does not hold.
    fn of(unit: &PlantUnit, ceiling: HubGrains, energy: HubGrains) -> Filling
        requires { energy.0 < ceiling.0 → Offered unit.now }
        ensures { (result.ceiling ≡ ceiling) × (result.energy ≡ energy) × HasBlock unit.now result }
    {
        if energy < ceiling {
            let modified = ModifiedOffer {
                offer: &unit.offer,
                commitment: unit.commitment,
            };
            return Filling {
                ceiling,
                energy,
                next: modified.block_at(energy, ceiling),
            };
        }
        Filling {
            ceiling,
            energy,
            next: Block {
                price: 0,
                end: ceiling,
            },
        }
    }

    fn has_room(&self) -> bool
        ensures { result ≡ ltb self.now.energy.0 self.now.ceiling.0 }
    {
        self.energy < self.ceiling
    }
}

// Each unit before the fill.
fn unfilled(plant: &Plant, ceilings: [HubGrains; 8]) -> [Filling; 8]
    requires { EachOffered plant.now.unit ceilings }
    ensures { (length result ≡ 8) × Fillings plant.now.unit ceilings result × ((u : ℕ) → u < 8 → (filling_at result u).energy.0 ≡ 0) }
{
    array::from_fn(|u| Filling::of(&plant.unit[u], ceilings[u], HubGrains(0)))
}

// The unit found so far with the price of its next block, or unit v with its own next block's where that is less.
fn better_of(found: Option<(usize, u64)>, v: usize, price: u64) -> Option<(usize, u64)>
    ensures { (next : ℕ → ℕ) (q : Option ℕ) → next v ≡ price → found ≡ priced next q → result ≡ priced next (better next q v) }
{
    let Some((_, low)) = found else {
        return Some((v, price));
    };
    if price < low {
        return Some((v, price));
    }
    found
}

// The unit with room whose next block is cheapest, the lowest at equal price. Tried with the library's `filter` and `min_by_key`: that what they pick is the
// unit of the definition did not prove.
fn cheapest(fillings: &[Filling; 8]) -> Option<usize>
    ensures picked { result ≡ best (next_price fillings.now) (has_room fillings.now) 8 }
    ensures below { (u : ℕ) → result ≡ Some u → u < 8 }
{
    let mut found = None;
    for v in 0..8 {
        if fillings[v].has_room() {
            found = better_of(found, v, fillings[v].next.price);
        }
    }
    found.map(|(u, _)| u)
}

// What each unit has.
fn energies_of(fillings: &[Filling; 8]) -> [HubGrains; 8]
    ensures { result ≡ given fillings.now }
{
    array::from_fn(|k| fillings[k].energy)
}

// The fill, a block or what is left of the total at a time; then only the unit that was filled gets its next block.
fn fill(plant: &Plant, ceilings: [HubGrains; 8], total: HubGrains) -> [HubGrains; 8]
    requires { EachOffered plant.now.unit ceilings }
    ensures { result ≡ the_fill (prices_of plant.now.unit) (grains_at ceilings) 8 total.0 }
{
    let mut fillings = unfilled(plant, ceilings);
    let mut left = total;
    while left > HubGrains(0) {
        let Some(u) = cheapest(&fillings) else {
            return energies_of(&fillings);
        };
        let filling = fillings[u];
        let more = filling.next.end.above(filling.energy).min(left);
        let grains = filling.energy.plus(more);
        fillings[u] = Filling::of(&plant.unit[u], filling.ceiling, grains);
        left = left.above(more);
    }
    energies_of(&fillings)
}

impl PlantHour<'_> {
    // Each unit's ceiling, 0 outside the plant.
    pub fn ceilings(&self) -> [HubGrains; 8]
        ensures { result ≡ the_ceilings self.now.net self.now.reverse self.now.plant.now }
    {
        let reals = real_sum(self.plant);
        let excess = energy::hub_of(self.net.above(self.reverse).above(reals), self.plant.loss);
        let weights = weights_of(self.plant, reals);
        let mut shares = [0u64; 8];
        apportion::apportion(&weights, excess.0, &mut shares);
        with_shares(self.plant, shares)
    }

    // Each unit's energy: the plant's net hub energy filled by rising price, each unit to its ceiling.
    pub fn allocate(&self) -> [HubGrains; 8]
        ensures { result ≡ energies self.now.net self.now.reverse self.now.plant.now }
    {
        let limits = self.ceilings();
        let total = plant_energy(self.net, self.reverse, self.plant.loss);
        fill(self.plant, limits, total)
    }
}
