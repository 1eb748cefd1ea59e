// The read-ahead: any generator, with up to 64 bits already drawn from it.
ghost use Rattle.std.specs.Prelude.{◌≡◌, ◌<◌, ◌≤◌, min, Ok};
ghost use Rattle.keystream.specs.Bits.{as_number};
ghost use Rattle.keystream.specs.Meaning.{idle, left, keystream, moved};
ghost use Rattle.keystream.specs.Ahead.{ahead_meaning, ahead_meant, ahead_sound};
ghost use Rattle.std.proofs.Common.{rules};

use crate::buffer::{Buffer, joined};
use crate::fault::GeneratorFault;
use crate::generator::{Generator, check_take};
use crate::setup::Setup;

#[derive(Drop)]
pub struct ReadAhead<G> {
    below: G,
    buffer: Buffer,
}

impl<G: Generator> ReadAhead<G> {
    /// Puts a read-ahead over a generator and makes it forget.
    pub fn new(mut below: G) -> ReadAhead<G>
        requires { G.sound below }
        ensures meaning { ⟦<ReadAhead<G> as Generator>⟧.meaning result ≡ G.meaning below }
        ensures unloaded { ⟦<ReadAhead<G> as Generator>⟧.meant result ≡ idle }
        ensures sound { ⟦<ReadAhead<G> as Generator>⟧.sound result }
    {
        below.forget();
        ReadAhead {
            below,
            buffer: Buffer::default(),
        }
    }

    // The next n bits, out of the buffer.
    fn held(&mut self, n: u32) -> u64
        requires sound { ahead_sound G.meaning G.meant G.sound self.old }
        requires nonzero { 0 < n }
        requires held { n ≤ self.old.buffer.count }
        ensures answer { result ≡ as_number
            (keystream (ahead_meaning G.meaning self.old) (ahead_meant G.meant self.old) n) }
        ensures after { ahead_meant G.meant self.new ≡ moved (ahead_meant G.meant self.old) n }
        ensures same { ahead_meaning G.meaning self.new ≡ ahead_meaning G.meaning self.old }
        ensures kept { ahead_sound G.meaning G.meant G.sound self.new }
    {
        self.buffer.next(n)
    }

    // Hands out all bits held, and fills the buffer from below.
    fn refill(&mut self) -> Result<u64, GeneratorFault>
        requires sound { ahead_sound G.meaning G.meant G.sound self.old }
        requires some_left { 0 < left (G.meaning self.old.below) (G.meant self.old.below) }
        ensures answer { result ≡ Ok (as_number
            (keystream (ahead_meaning G.meaning self.old) (ahead_meant G.meant self.old) self.old.buffer.count)) }
        ensures after { ahead_meant G.meant self.new
            ≡ moved (ahead_meant G.meant self.old) self.old.buffer.count }
        ensures same { ahead_meaning G.meaning self.new ≡ ahead_meaning G.meaning self.old }
        ensures kept { ahead_sound G.meaning G.meant G.sound self.new }
        ensures full { self.new.buffer.count
            ≡ min (left (G.meaning self.old.below) (G.meant self.old.below)) 64 }
    {
        let front = self.buffer.word;
        let count = self.below.left().min(64) as u32;
        let word = self.below.take(count)?;
        self.buffer = Buffer { word, count };
        Ok(front)
    }
}

impl<G: Generator> Generator for ReadAhead<G> {
    const KIND: u8 = G::KIND;

    ghost KIND = { G.KIND };

    ghost meaning = { ahead_meaning G.meaning };

    ghost meant = { ahead_meant G.meant };

    ghost sound = { ahead_sound G.meaning G.meant G.sound };

    ghost ranges = { Prim.search rules };

    ghost fits = { Prim.search rules };

    // What the generator below answers is passed on, call by call: Rust has no shorter form.
    fn key_bits(&self) -> usize {
        self.below.key_bits()
    }

    fn longest(&self) -> usize {
        self.below.longest()
    }

    fn limit(&self) -> u64 {
        self.below.limit()
    }

    fn left(&self) -> u64 {
        self.below.left() + u64::from(self.buffer.count)
    }

    fn check(&self, setup: &Setup<'_>) -> Result<(), GeneratorFault> {
        self.below.check(setup)
    }

    fn load(&mut self, setup: &Setup<'_>) -> Result<(), GeneratorFault> {
        self.below.load(setup)?;
        self.buffer = Buffer::default();
        Ok(())
    }

    fn take(&mut self, n: u32) -> Result<u64, GeneratorFault> {
        check_take(self.left(), n)?;
        if n <= self.buffer.count {
            return Ok(self.held(n));
        }
        let more = n - self.buffer.count;
        let front = self.refill()?;
        let back = self.held(more);
        Ok(joined(front, back, more))
    }

    fn forget(&mut self) {
        self.below.forget();
        self.buffer = Buffer::default();
    }
}
