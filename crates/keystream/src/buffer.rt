// A plain buffer of bits, the first most significant: a word, and how many of its lowest bits are held.
// By a rule of the project it says no more; what the bits are is part of the read-ahead's soundness.
ghost use Rattle.std.specs.Prelude.{◌≡◌, ℕ, ◌+◌, ◌-◌, ◌/◌, ◌%◌, ◌^◌, ◌<◌, ◌≤◌};
ghost use Rattle.keystream.specs.Bits.{as_number};
ghost use Rattle.keystream.specs.Meaning.{Meaning, Meant, keystream, moved};

#[derive(Clone, Copy, Default)]
pub(crate) struct Buffer {
    pub(crate) word: u64,
    pub(crate) count: u32,
}

impl Buffer {
    // Takes the first n bits out.
    pub(crate) fn next(&mut self, n: u32) -> u64
        requires nonzero { 0 < n }
        requires held { n ≤ self.old.count }
        requires most { self.old.count ≤ 64 }
        ensures answer { result ≡ self.old.word / 2 ^ (self.old.count - n) }
        ensures word { self.new.word ≡ self.old.word % 2 ^ (self.old.count - n) }
        ensures count { self.new.count ≡ self.old.count - n }
    {
        let rest = self.count - n;
        let front = self.word >> rest;
        self.word = low(self.word, rest);
        self.count = rest;
        front
    }
}

// The lowest `count` bits of a word.
fn low(word: u64, count: u32) -> u64
    requires { count < 64 }
    ensures { result ≡ word % 2 ^ count }
{
    word & ((1 << count) - 1)
}

// The bits of `high` and after them the `count` bits of `low`, as one number of at most 64 bits.
pub(crate) fn joined(high: u64, low: u64, count: u32) -> u64
    requires { count ≤ 64 }
    ensures { (m : Meaning) (s : Meant) (n total : ℕ) → n + count ≡ total → total ≤ 64
        → high ≡ as_number (keystream m s n)
        → low ≡ as_number (keystream m (moved s n) count)
        → result ≡ as_number (keystream m s total) }
{
    high.unbounded_shl(count) | low
}
