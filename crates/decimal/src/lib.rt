// Numbers and bytes written into a lent buffer, one behind the other; bytes for which the buffer has no room are left out.
#![tactic(auto, using(crate::proofs::Laws::written_append))]

ghost use Rattle.std.specs.Prelude.{◌≡◌, ℕ, ◌+◌, ◌<◌, ◌≤◌, List, [], ◌∷◌, length};
ghost use Rattle.decimal.specs.Writer.{Wrote};
ghost use Rattle.decimal.specs.Decimal.{two_digits, digits, signed, most_number};

// A lent buffer, and the place where the next byte goes. What a function writes through it is promised for every buffer, as far as it has room, since C
// lends one of any length (include/gozalvek.h); std's `write!` and `write_all` promise what a buffer holds only where it has room for all of it. How far the
// place goes on at most is promised of each text by itself.
#[derive(Drop)]
pub struct Writer<'a> {
    pub buffer: &'a mut [u8],
    pub place: usize,
}

// A number that is written in decimal digits, with its sign if it has one.
pub trait Decimal {
    ghost text: { Self → List ℕ };

    fn put(self, out: &mut Writer)
        ensures result_after { Wrote out.old out.new (text self) }
        ensures upper_bound { out.new.place ≤ out.old.place + most_number };
}

impl Decimal for u64 {
    ghost text = { digits };

    fn put(self, out: &mut Writer) {
        out.put_number(self);
    }
}

impl Decimal for i64 {
    ghost text = { signed };

    fn put(self, out: &mut Writer) {
        out.put_signed(self);
    }
}

impl Writer<'_> {
    #[tactic(auto, unfolding(crate::specs::Output::with_byte, crate::specs::Output::written))]
    pub fn put_byte(&mut self, byte: u8)
        ensures result_after { Wrote self.old self.new (byte ∷ []) }
        ensures upper_bound { self.new.place ≤ self.old.place + 1 }
    {
        if self.place < self.buffer.len() {
            self.buffer[self.place] = byte;
            self.place += 1;
        }
    }

    #[tactic(auto, using(crate::proofs::Laws::written_next), unfolding(crate::specs::Output::written))]
    pub fn put_bytes(&mut self, bytes: &[u8])
        ensures result_after { Wrote self.old self.new bytes.now }
        ensures upper_bound { self.new.place ≤ self.old.place + length bytes.now }
    {
        for byte in bytes {
            self.put_byte(*byte);
        }
    }

    // The tens and the last digit of a number below 100.
    #[tactic(auto, unfolding(crate::specs::Output::written))]
    fn put_two(&mut self, n: u64)
        requires { n < 100 }
        ensures result_after { Wrote self.old self.new (two_digits n) }
        ensures upper_bound { self.new.place ≤ self.old.place + 2 }
    {
        self.put_byte(b'0' + (n / 10) as u8);
        self.put_byte(b'0' + (n % 10) as u8);
    }

    // A number: the digits of its hundreds, then its last two.
    #[tactic(auto, using(crate::proofs::Laws::written_append, crate::proofs::Laws::digits_one, crate::proofs::Laws::digits_two, crate::proofs::Laws::digits_hundreds))]
    pub fn put_number(&mut self, n: u64)
        ensures result_after { Wrote self.old self.new (digits n) }
        ensures upper_bound { self.new.place ≤ self.old.place + most_number }
    {
        if n < 10 {
            self.put_byte(b'0' + n as u8);
        } else if n < 100 {
            self.put_two(n);
        } else {
            self.put_number(n / 100);
            self.put_two(n % 100);
        }
    }

    // A number with its sign; a zero has none.
    #[tactic(auto, using(crate::proofs::Laws::written_append, crate::proofs::Signs::signed_below, crate::proofs::Signs::signed_above))]
    pub fn put_signed(&mut self, z: i64)
        ensures result_after { Wrote self.old self.new (signed z) }
        ensures upper_bound { self.new.place ≤ self.old.place + most_number }
    {
        if z < 0 {
            self.put_byte(b'-');
        }
        self.put_number(z.unsigned_abs());
    }

    // A number behind a space.
    pub fn put_field<N: Decimal>(&mut self, n: N)
        ensures result_after { Wrote self.old self.new (32 ∷ N.text n) }
        ensures upper_bound { self.new.place ≤ self.old.place + (most_number + 1) }
    {
        self.put_byte(b' ');
        n.put(self);
    }
}
