// Runs worked examples of the sources (000 and 001) that the scope document reproduces, and prints a line for each: the example's
// number, then its figures. The sources have no example of kind 8; those of it here were worked out by hand.
#![tactic(auto)]

ghost use Rattle.std.specs.Prelude.{◌≡◌, true, ℕ, ◌≤◌, ◌<◌, length, get_or};
ghost use Rattle.finite.specs.Finite.{tabulate};
ghost use Rattle.offer.specs.Offer.{offer_holds};
ghost use Rattle.allocation.specs.Allocation.{PlantHolds};
ghost use Rattle.record.specs.Empty.{no_span};
ghost use Rattle.record.specs.InRange.{SpanInRange};
ghost use Rattle.charge.specs.Test.{counted_deviation, weighted};

use allocation::{Plant, PlantHour, PlantUnit};
use energy::{Energy, GrossKwh, HubGrains, HubKwh, NetKwh};
use formulas::{AvailabilityRate, Declaration, Deviations};
use offer::{ModifiedOffer, Offer, Step};
use record::{Span, UnitRecord};
use std::io::{BufWriter, Write};
use std::{array, io};

fn step(quantity: u64, price: u64) -> Step
    ensures { result ≡ record { quantity = record { 0 = quantity }; price = price } }
{
    Step {
        quantity: HubKwh(quantity),
        price,
    }
}

// An offer of two steps. In a program of the tests the facts of its constants are promised where they are made, here and below.
fn two_steps(quantity: u64, price: u64, next_quantity: u64, next_price: u64) -> Offer
    requires { (1 ≤ quantity) × (quantity < next_quantity) × (next_quantity ≤ 1000000) × (price ≤ next_price) × (next_price ≤ 10000000) }
    ensures { offer_holds result ≡ true }
{
    let mut offer = offer::no_offer();
    offer.steps = 2;
    offer.step[0] = step(quantity, price);
    offer.step[1] = step(next_quantity, next_price);
    offer
}

// A unit of example 12.
fn unit_12(real: u64, commitment: u64, offer: Offer) -> PlantUnit
    ensures { result ≡ record { real = record { 0 = real }; nominal = record { 0 = 100000 }; commitment = record { 0 = commitment }; offer = offer } }
{
    PlantUnit {
        real: NetKwh(real),
        nominal: GrossKwh(100000),
        commitment: HubKwh(commitment),
        offer,
    }
}

// The plant of example 12 in its first case: three units. What stands in the other places does not count.
fn plant_12() -> Plant
    ensures { PlantHolds result }
{
    let mut unit = [unit_12(130000, 0, two_steps(80000, 390000, 140000, 430000)); 8];
    unit[0] = unit_12(120000, 20000, two_steps(50000, 380000, 130000, 440000));
    unit[1] = unit_12(150000, 50000, two_steps(110000, 370000, 160000, 444000));
    Plant {
        loss: 100,
        units: 7,
        unit,
    }
}

// The shares of the three units, in grains.
fn example_12<W: Write>(out: &mut W) -> io::Result<()> {
    let delivered = PlantHour {
        net: NetKwh(320000),
        reverse: NetKwh(0),
        plant: &plant_12(),
    };
    let energy = delivered.allocate();
    writeln!(out, "12 {} {} {}", energy[0].0, energy[1].0, energy[2].0)
}

// A of 120,000 on a day.
fn example_13<W: Write>(out: &mut W, month: u64, day: u64) -> io::Result<()> {
    let season = formulas::in_season(month, day);
    let allowed = formulas::declaration_ceiling(season, GrossKwh(120000));
    writeln!(out, "13 {}", allowed.0)
}

// The spans given, and none at the places after them. It stands by itself, since what a closure gives is not known inside a generic function.
fn six_spans(given: &[Span]) -> [Span; 6]
    ensures { result ≡ tabulate 6 (λ (i : ℕ). get_or given.now i no_span) }
{
    array::from_fn(|i| given.get(i).copied().unwrap_or(record::no_span()))
}

// The split of the deviation of a unit with an own use of 1 per cent, by its test criterion and its spans: d2 to d8. The examples
// below differ in their figures alone, which is what an example is.
fn split_example<W: Write>(
    out: &mut W,
    name: &str,
    test: NetKwh,
    deviation: NetKwh,
    given: &[Span],
) -> io::Result<()>
    requires bounds { (test.0 ≤ 1000000) × (deviation.0 ≤ 1000000) × (1 ≤ length given.now) × (length given.now ≤ 6) }
    requires by_index { (i : ℕ) → i < length given.now → SpanInRange (get_or given.now i no_span) }
{
    let u = UnitRecord {
        declared: GrossKwh(0),
        real: NetKwh(0),
        test,
        deviation,
        power: GrossKwh(0),
        reading: None,
        since: 1,
        repair: 0,
        spans: given.len(),
        span: six_spans(given),
    };
    write!(out, "{name}")?;
    for kwh in deviation::split(100, &u).kwh {
        write!(out, " {}", kwh.0)?;
    }
    writeln!(out)
}

// A span in numbers, as a record has them.
fn span_of(minutes: u64, kind: u64, cause: u64, capability: GrossKwh) -> Span
    requires { (1 ≤ minutes) × (minutes ≤ 60) × (1 ≤ kind) × (kind ≤ 8) × (cause ≤ 2) × (capability.0 ≤ 1000000) }
    ensures { SpanInRange result }
{
    Span {
        minutes,
        kind,
        cause,
        capability,
    }
}

// Kinds 2 and 3.
fn example_16<W: Write>(out: &mut W) -> io::Result<()> {
    let first = span_of(20, 1, 0, GrossKwh(135000));
    let second = span_of(30, 2, 0, GrossKwh(110000));
    let third = span_of(10, 3, 0, GrossKwh(105000));
    split_example(
        out,
        "16",
        NetKwh(135000),
        NetKwh(17500),
        &[first, second, third],
    )
}

// Kind 2, once of environmental cause.
#[tactic(auto, using(crate::proofs::Ranges::two_spans))]
fn example_18<W: Write>(out: &mut W) -> io::Result<()> {
    let first = span_of(40, 2, 0, GrossKwh(40000));
    let second = span_of(20, 2, 1, GrossKwh(20000));
    split_example(out, "18", NetKwh(80000), NetKwh(46000), &[first, second])
}

// Kinds 7 and 8 in equal proportions: the odd kWh is kind 7's. The causes leave kind 8 as it is.
fn kind_8_split<W: Write>(out: &mut W) -> io::Result<()> {
    let first = span_of(30, 7, 0, GrossKwh(40000));
    let second = span_of(15, 8, 1, GrossKwh(40000));
    let third = span_of(15, 8, 2, GrossKwh(40000));
    split_example(
        out,
        "kind 8",
        NetKwh(80000),
        NetKwh(10001),
        &[first, second, third],
    )
}

// The commitment of 150,000 hub kWh leaves nothing of the declared 150,000.
fn example_21<W: Write>(out: &mut W) -> io::Result<()> {
    let declared = energy::net_of(GrossKwh(150000), 300);
    let gate = energy::gate_of(HubKwh(150000), 100);
    let unsold = declared.above(gate);
    writeln!(out, "21 {}", unsold.0)
}

// A deviation of kinds 2, 3, 5, 6 and 8.
fn of_kinds(d2: u64, d3: u64, d5: u64, d6: u64, d8: u64) -> Deviations
    requires { (d2 ≤ 100000) × (d3 ≤ 100000) × (d5 ≤ 100000) × (d6 ≤ 100000) × (d8 ≤ 100000) }
    ensures { (repair : ℕ) → ((counted_deviation result repair).0 ≤ 10000000) × (weighted result repair ≤ 10000000) }
{
    Deviations {
        kwh: [
            NetKwh(d2),
            NetKwh(d3),
            NetKwh(0),
            NetKwh(d5),
            NetKwh(d6),
            NetKwh(0),
            NetKwh(d8),
        ],
    }
}

// A deviation of kind 8 alone.
fn of_kind_8(d8: u64) -> Deviations
    requires { d8 ≤ 100000 }
    ensures { (repair : ℕ) → ((counted_deviation result repair).0 ≤ 10000000) × (weighted result repair ≤ 10000000) }
{
    of_kinds(0, 0, 0, 0, d8)
}

// The charge of a deviation by a base availability rate of 185,000, 0 where it is free; `repair` is a record's number.
fn test_example<W: Write>(
    out: &mut W,
    name: &str,
    d: Deviations,
    repair: u64,
    reading: NetKwh,
    since: u64,
    cpf: u64,
) -> io::Result<()>
    requires { ((counted_deviation d repair).0 ≤ 10000000) × (weighted d repair ≤ 10000000) × (cpf ≤ 10000) }
{
    let q = charge::counted_deviation(d, repair);
    if charge::is_charged(q, Some(reading), HubGrains(0), 0) {
        let w = charge::weighted(d, repair);
        let rate = AvailabilityRate { cpf, bar: 185000 };
        writeln!(out, "{name} {}", charge::charge_of(w, since, rate))
    } else {
        writeln!(out, "{name} 0")
    }
}

// The refund of a unit that declared 98,000 net, with an own use of 2 per cent, by A: how much energy, and the amount.
fn refund_example<W: Write>(
    out: &mut W,
    name: &str,
    real: NetKwh,
    d: Deviations,
    a: GrossKwh,
) -> io::Result<()>
    requires { a.0 ≤ 1000000 }
{
    let declared = NetKwh(98000);
    let allowed = energy::net_of(a, 200);
    let declaration = Declaration {
        declared,
        real,
        deviations: d,
        allowed,
    };
    let rate = AvailabilityRate {
        cpf: 1500,
        bar: 185000,
    };
    let kwh = declaration.refund_kwh();
    writeln!(out, "{name} {} {}", kwh.0, declaration.refund(rate))
}

// The offer of examples 41, 42 and 44.
fn four_steps() -> Offer
    ensures { offer_holds result ≡ true }
{
    let mut offer = offer::no_offer();
    offer.steps = 4;
    offer.step[0] = step(59000, 272000);
    offer.step[1] = step(127000, 386000);
    offer.step[2] = step(199000, 394000);
    offer.step[3] = step(249000, 440000);
    offer
}

// What a unit is paid for so much energy by that offer, without a commitment.
fn energy_example<W: Write>(out: &mut W, number: u64, energy: HubGrains) -> io::Result<()>
    requires { energy.0 ≤ 100000000000 }
{
    let modified = ModifiedOffer {
        offer: &four_steps(),
        commitment: HubKwh(0),
    };
    let cost = modified.cost_between(HubGrains(0), energy);
    writeln!(out, "{number} {}", formulas::energy_pay(cost))
}

fn refund_examples<W: Write>(out: &mut W) -> io::Result<()> {
    let d5 = of_kinds(0, 0, 10000, 0, 0);
    refund_example(out, "23", NetKwh(90000), d5, GrossKwh(120000))?;
    refund_example(out, "24", NetKwh(70000), d5, GrossKwh(120000))?;
    refund_example(out, "25", NetKwh(90000), d5, GrossKwh(80000))?;
    refund_example(
        out,
        "kind 8",
        NetKwh(70000),
        of_kind_8(10000),
        GrossKwh(120000),
    )
}

// Of kind 8, W is three times the deviation: 2,000 kWh are free and one more is charged, on a repair day too; and so are 2,000 kWh where twenty
// times them is the reading, and where it is one over it.
fn test_examples<W: Write>(out: &mut W) -> io::Result<()> {
    let d2_d3 = of_kinds(10000, 20000, 0, 0, 0);
    test_example(out, "26", d2_d3, 0, NetKwh(80000), 1, 2000)?;
    test_example(out, "26", d2_d3, 0, NetKwh(80000), 2, 1980)?;
    test_example(
        out,
        "27",
        of_kinds(1800, 0, 0, 0, 0),
        0,
        NetKwh(80000),
        1,
        2000,
    )?;
    let d6 = of_kinds(0, 0, 0, 40000, 0);
    test_example(out, "28", d6, 0, NetKwh(0), 1, 2000)?;
    test_example(out, "28", d6, 0, NetKwh(0), 2, 1980)?;
    test_example(out, "kind 8", of_kind_8(2000), 0, NetKwh(60000), 1, 2000)?;
    test_example(out, "kind 8", of_kind_8(2001), 0, NetKwh(60000), 1, 2000)?;
    test_example(out, "kind 8", of_kind_8(2001), 1, NetKwh(60000), 2, 2000)?;
    test_example(out, "kind 8", of_kind_8(2000), 0, NetKwh(40000), 1, 2000)?;
    test_example(out, "kind 8", of_kind_8(2000), 0, NetKwh(39999), 1, 2000)
}

fn main(rt: HostRuntime) -> io::Result<()> {
    let mut out = BufWriter::new(rt.alloc(), io::writer(&rt))?;
    example_12(&mut out)?;
    example_13(&mut out, 3, 15)?;
    example_13(&mut out, 6, 15)?;
    example_13(&mut out, 3, 14)?;
    example_13(&mut out, 6, 16)?;
    example_16(&mut out)?;
    example_18(&mut out)?;
    kind_8_split(&mut out)?;
    example_21(&mut out)?;
    refund_examples(&mut out)?;
    test_examples(&mut out)?;
    energy_example(&mut out, 41, HubGrains(1200000000))?;
    energy_example(&mut out, 42, HubGrains(750000000))?;
    energy_example(&mut out, 44, HubGrains(1200000000))?;
    out.flush()
}
