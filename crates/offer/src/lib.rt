// A unit's offer for an hour: its test, and the modified offer's prices and sums.
#![tactic(auto)]

ghost use Rattle.std.specs.Prelude.{◌≡◌, true, ◌-◌, ◌≤◌, ◌<◌};
ghost use Rattle.finite.specs.Finite.{every};
ghost use Rattle.offer.specs.Offer.{no_offer, steps_allowed, in_range, in_order, step_in_range, step_in_order, offer_holds, last_quantity};
ghost use Rattle.offer.specs.Modified.{IsBlock, OnStep, cost_between};

use energy::{Energy, HubGrains, HubKwh};

// A step: a cumulative quantity and a price in Rial/MWh.
#[derive(Clone, Copy)]
pub struct Step {
    pub quantity: HubKwh,
    pub price: u64,
}

// Up to ten steps. Past the number of steps nothing is looked at. An array with a count beside it, as a library has no
// heap.
#[derive(Clone, Copy)]
pub struct Offer {
    pub steps: usize,
    pub step: [Step; 10],
}

// Grains that follow one another at one price, up to the grain `end`, which is no longer one of them.
#[derive(Clone, Copy)]
pub struct Block {
    pub price: u64,
    pub end: HubGrains,
}

// A unit's offer with price 0 up to the unit's commitment: what the unit's grains cost.
#[derive(Clone, Copy)]
pub struct ModifiedOffer<'a> {
    pub offer: &'a Offer,
    pub commitment: HubKwh,
    ghost holds: { (offer_holds offer.now ≡ true) × (commitment.0 ≤ 1000000000) },
}

// No steps.
pub fn no_offer() -> Offer
    ensures { result ≡ no_offer }
{
    Offer {
        steps: 0,
        step: [Step {
            quantity: HubKwh(0),
            price: 0,
        }; 10],
    }
}

impl Step {
    // Whether its quantity and its price are in their ranges.
    #[tactic(auto, unfolding(crate::specs::Offer::in_range))]
    fn in_range(self) -> bool
        ensures { result ≡ in_range self }
    {
        HubKwh(1) <= self.quantity && self.quantity <= HubKwh(1000000) && self.price <= 10000000
    }

    // Whether the next step may follow it: its own quantity is less, its own price no more.
    #[tactic(auto, unfolding(crate::specs::Offer::in_order))]
    fn in_order(self, next: Step) -> bool
        ensures { result ≡ in_order self next }
    {
        self.quantity < next.quantity && self.price <= next.price
    }
}

// Whether an offer may have so many steps. One shared test of a number between bounds would be no plainer than this
// line.
#[tactic(auto, unfolding(crate::specs::Offer::steps_allowed))]
fn steps_allowed(steps: usize) -> bool
    ensures { result ≡ steps_allowed steps }
{
    (1..=10).contains(&steps)
}

// Whether each step is in its ranges.
fn steps_in_range(offer: &Offer) -> bool
    requires { offer.now.steps ≤ 10 }
    ensures { result ≡ every offer.now.steps (step_in_range offer.now) }
{
    (0..offer.steps).all(|s| offer.step[s].in_range())
}

// Whether each step but the last may be followed by the next.
fn steps_in_order(offer: &Offer) -> bool
    requires { (1 ≤ offer.now.steps) × (offer.now.steps ≤ 10) }
    ensures { result ≡ every (offer.now.steps - 1) (step_in_order offer.now) }
{
    (0..offer.steps - 1).all(|s| offer.step[s].in_order(offer.step[s + 1]))
}

// Whether the offer keeps its ranges and its order: 1 to 10 steps, each in its ranges, quantities rising, prices never
// falling.
#[tactic(auto, using(crate::proofs::Steps::allowed), unfolding(crate::specs::Offer::offer_holds))]
pub fn offer_holds(offer: &Offer) -> bool
    ensures { result ≡ offer_holds offer.now }
{
    steps_allowed(offer.steps) && steps_in_range(offer) && steps_in_order(offer)
}

// The quantity of the last step, or 0 where the number of steps is not 1 to 10.
#[tactic(auto, using(crate::proofs::Steps::allowed), unfolding(crate::specs::Offer::last_quantity))]
pub fn last_quantity(offer: &Offer) -> HubKwh
    ensures { result ≡ last_quantity offer.now }
{
    if !steps_allowed(offer.steps) {
        return HubKwh(0);
    }
    offer.step[offer.steps - 1].quantity
}

impl ModifiedOffer<'_> {
    // The step that grain i past the commitment falls in: the first that ends past it, or the last one, which has no
    // end.
    #[tactic(auto, using(crate::proofs::Steps::holds))]
    fn step_at(&self, i: HubGrains) -> usize
        ensures { OnStep self.now.offer.now i.0 result }
    {
        let last = self.offer.steps - 1;
        (0..last)
            .find(|s| i < energy::grains_of(self.offer.step[*s].quantity))
            .unwrap_or(last)
    }

    // The grains from i on, below `limit`, that have the price of grain i.
    #[tactic(auto, using(crate::proofs::Steps::holds))]
    pub fn block_at(&self, i: HubGrains, limit: HubGrains) -> Block
        requires { i.0 < limit.0 }
        ensures { IsBlock self.now.offer.now self.now.commitment i.0 limit.0 result.price result.end.0 }
    {
        let committed = energy::grains_of(self.commitment);
        if i < committed {
            return Block {
                price: 0,
                end: committed.min(limit),
            };
        }
        let s = self.step_at(i);
        let step = self.offer.step[s];
        if s + 1 < self.offer.steps {
            return Block {
                price: step.price,
                end: energy::grains_of(step.quantity).min(limit),
            };
        }
        Block {
            price: step.price,
            end: limit,
        }
    }

    // What the grains from `from` up to `to` cost, undivided: nothing up to the commitment, then step by step; the last
    // step has no end.
    #[tactic(auto, using(crate::proofs::Steps::holds))]
    pub fn cost_between(&self, from: HubGrains, to: HubGrains) -> u64
        requires { (from.0 ≤ to.0) × (to.0 ≤ 100000000000) }
        ensures { result ≡ cost_between self.now.offer.now self.now.commitment from.0 to.0 }
    {
        let committed = energy::grains_of(self.commitment);
        let mut at = from.max(committed);
        let mut cost = 0;
        let last = self.offer.steps - 1;
        for s in 0..last {
            let step = self.offer.step[s];
            let end = energy::grains_of(step.quantity);
            cost += end.min(to).above(at).product(step.price);
            at = at.max(end);
        }
        cost + to.above(at).product(self.offer.step[last].price)
    }
}
