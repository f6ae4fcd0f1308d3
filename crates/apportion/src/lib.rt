// Largest remainder: a total divided among any number of parts by their weights.
#![tactic(auto)]

ghost use Rattle.std.specs.Prelude.{◌≡◌, ◌*◌, ◌/◌, ◌%◌, ◌^◌, ◌<◌, cond, eqb, length, sum};
ghost use Rattle.finite.specs.Finite.{tabulate};
ghost use Rattle.apportion.specs.Shares.{sum_of, quotient, remainder, shares as the_shares, largest as the_largest, add_ones, Fits, Due};

// A total to be divided by weights, of which some is over 0: `all` is what they add up to. The shares are lent beside it:
// a struct that held them would need in each contract that they are still the same list.
#[derive(Drop)]
struct Division<'a> {
    weights: &'a [u64],
    total: u64,
    all: u64,
    ghost some: { 0 < all },
    ghost fits: { Fits weights.now total },
}

fn sum_of(s: &[u64]) -> u64
    requires { sum s.now < 2 ^ 64 }
    ensures { result ≡ sum s.now }
{
    s.iter().sum()
}

impl Division<'_> {
    // A part's remainder by its weight, or 0 once the part has more than its quotient.
    fn remainder_left(&self, weight: u64, share: u64) -> u64
        requires { self.now.total * weight < 2 ^ 64 }
        ensures { result ≡ cond (eqb share (self.now.total * weight / self.now.all)) (self.now.total * weight % self.now.all) 0 }
    {
        let x = self.total * weight;
        if share == x / self.all {
            return x % self.all;
        }
        0
    }

    // The part with the largest remainder, the lowest of equal ones; the library's `max_by_key` gives the last of equal ones.
    fn largest(&self, shares: &[u64]) -> usize
        requires { (length shares.now ≡ length self.now.weights.now) × (0 < length self.now.weights.now) }
        ensures { result ≡ the_largest (quotient self.now.all self.now.total self.now.weights.now) (remainder self.now.all self.now.total self.now.weights.now) shares.now (length self.now.weights.now) }
    {
        let mut part = 0;
        let mut most = self.remainder_left(self.weights[0], shares[0]);
        for i in 1..self.weights.len() {
            let x = self.remainder_left(self.weights[i], shares[i]);
            if most < x {
                part = i;
                most = x;
            }
        }
        part
    }

    // Each part's quotient, rounded down.
    fn quotients(&self, shares: &mut [u64])
        requires { length shares.old ≡ length self.now.weights.now }
        ensures { shares.new ≡ tabulate (length self.now.weights.now) (quotient self.now.all self.now.total self.now.weights.now) }
    {
        for (i, share) in shares.iter_mut().enumerate() {
            *share = self.total * self.weights[i] / self.all;
        }
    }

    // One each to the largest remainders, `rest` in all.
    fn add_ones(&self, rest: u64, shares: &mut [u64])
        requires { Due self.now.weights.now self.now.total self.now.all rest shares.old }
        ensures { shares.new ≡ add_ones (quotient self.now.all self.now.total self.now.weights.now) (remainder self.now.all self.now.total self.now.weights.now) (length self.now.weights.now) rest shares.old }
    {
        for _added in 0..rest {
            let part = self.largest(shares);
            shares[part] += 1;
        }
    }
}

// The shares of a total by weights, one for each part, into a list of the caller's: a library has no heap.
pub fn apportion(weights: &[u64], total: u64, shares: &mut [u64])
    requires { (length shares.old ≡ length weights.now) × (sum_of weights.now < 2 ^ 64) × Fits weights.now total }
    ensures { shares.new ≡ the_shares weights.now total }
{
    let all = sum_of(weights);
    if all == 0 {
        shares.fill(0);
        return;
    }
    let d = Division {
        weights,
        total,
        all,
    };
    d.quotients(shares);
    let rest = total - sum_of(shares);
    d.add_ones(rest, shares);
}
