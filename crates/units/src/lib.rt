// The plant's units, read off the sheet's mask: bit n - 1 stands for unit n, whose place is n - 1.
#![tactic(auto)]

ghost use Rattle.std.specs.Prelude.{◌≡◌, ◌<◌, cond};
ghost use Rattle.units.specs.Units.{is_member, member_at, members, unit_count, is_lowest};

// Whether unit n is in the plant.
#[tactic(auto, using(crate::proofs::Ones::shifted_bit), unfolding(crate::specs::Units::is_member))]
pub fn has_unit(units: u64, n: u64) -> bool
    ensures { result ≡ is_member units n }
{
    (1..=8).contains(&n) && (units >> (n - 1)) & 1 == 1
}

// Whether the unit of place k, which is unit k + 1, is in the plant.
#[tactic(auto, using(crate::proofs::Laws::place_past), unfolding(crate::specs::Units::member_at))]
pub fn member_at(units: u64, k: usize) -> bool
    ensures { result ≡ member_at units k }
{
    k < 8 && has_unit(units, k as u64 + 1)
}

// The first value where the unit of place k is in the plant, the other outside it.
pub fn member_or<T: Copy>(units: u64, k: usize, value: T, otherwise: T) -> T
    ensures { result ≡ cond (member_at units k) value otherwise }
{
    if member_at(units, k) {
        value
    } else {
        otherwise
    }
}

// The number of units in the plant.
pub fn unit_count(units: u64) -> u64
    ensures { result ≡ unit_count units }
{
    units.count_ones() as u64
}

// The number of the plant's units below place k: the number, from 0, of the block of the unit at place k.
pub fn block_of(units: u64, k: usize) -> usize
    requires { k < 64 }
    ensures { result ≡ members units k }
{
    let bound = 1u64 << k;
    (units % bound).count_ones() as usize
}

// Whether the unit of place k is the plant's lowest-numbered one.
#[tactic(auto, using(crate::proofs::Laws::place_lt), unfolding(crate::specs::Units::is_lowest))]
pub fn lowest_at(units: u64, k: usize) -> bool
    ensures { result ≡ is_lowest units k }
{
    member_at(units, k) && block_of(units, k) == 0
}
