// The test of a record's readings against the plant's `net`.
#![tactic(auto)]

ghost use Rattle.std.specs.Prelude.{◌≡◌, ℕ};
ghost use Rattle.finite.specs.Finite.{tabulate};
ghost use Rattle.record.specs.InRange.{InRange};
ghost use Rattle.readings.specs.Readings.{place_reading, readings_total, all_measured, readings_hold};

use energy::NetKwh;
use record::Record;
use std::array;

// The readings of the plant's units, by place; 0 outside the plant and of a unit that is not measured. Record and units come apart, here and below: the
// units are the sheet's, and a type of both would be made for each test and taken apart in it.
fn readings_of(hour: &Record, units: u64) -> [NetKwh; 8]
    ensures { result ≡ tabulate 8 (λ (k : ℕ). record { 0 = place_reading hour.now units k }) }
{
    array::from_fn(|k| units::member_or(
        units,
        k,
        hour.unit[k].reading.unwrap_or(NetKwh(0)),
        NetKwh(0),
    ))
}

// The total of the plant's readings.
fn readings_total(hour: &Record, units: u64) -> NetKwh
    requires { InRange units hour.now }
    ensures { result ≡ readings_total hour.now units }
{
    energy::total(&readings_of(hour, units))
}

// Whether each unit of the plant is measured.
fn all_measured(hour: &Record, units: u64) -> bool
    ensures { result ≡ all_measured hour.now units }
{
    (0..8).all(|k| !units::member_at(units, k) || hour.unit[k].reading.is_some())
}

// Whether the readings keep to the plant's `net`: refusal 32 where they do not.
#[tactic(auto, using(std::proofs::lemmas::Bool::Decides::nat_tests), unfolding(crate::specs::Readings::readings_hold))]
pub fn readings_hold(hour: &Record, units: u64) -> bool
    requires { InRange units hour.now }
    ensures { result ≡ readings_hold hour.now units }
{
    let total = readings_total(hour, units);
    if hour.net < total {
        return false;
    }
    total == hour.net || !all_measured(hour, units)
}
