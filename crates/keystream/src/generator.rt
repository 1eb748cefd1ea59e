// What every keystream generator does, said over its meaning alone.
ghost use Rattle.std.specs.Prelude.{◌≡◌, ℕ};
ghost use Rattle.keystream.specs.Meaning.{Meaning, Meant, idle, Ranges, Fits, left};
ghost use Rattle.keystream.specs.Calls.{load_answer, load_after, take_answer, take_after};
ghost use Rattle.keystream.specs.Refusals.{answered, take_refusals};

use crate::fault::GeneratorFault;
use crate::setup::Setup;

pub trait Generator {
    /// The number that the kind is known by. A generator that stands on another has that of the one below.
    const KIND: u8;

    ghost KIND: { ℕ };

    // The four things that never change.
    ghost meaning: { Self → Meaning };

    // What is loaded now.
    ghost meant: { Self → Meant };

    // What the making sets up and each call keeps.
    ghost sound: { Self → Type 0 };

    final fn kind_number(&self) -> u8
        ensures { result ≡ KIND }
    {
        Self::KIND
    }

    fn key_bits(&self) -> usize
        requires { sound self.now }
        ensures { result ≡ (meaning self.now).key_bits };

    fn longest(&self) -> usize
        requires { sound self.now }
        ensures { result ≡ (meaning self.now).longest };

    fn limit(&self) -> u64
        requires { sound self.now }
        ensures { result ≡ (meaning self.now).limit };

    fn left(&self) -> u64
        requires { sound self.now }
        ensures { result ≡ left (meaning self.now) (meant self.now) };

    /// What load would answer.
    fn check(&self, setup: &Setup<'_>) -> Result<(), GeneratorFault>
        requires { sound self.now }
        ensures { result ≡ load_answer (meaning self.now) setup.now };

    /// Takes in a key and a variable, and goes to place 0.
    fn load(&mut self, setup: &Setup<'_>) -> Result<(), GeneratorFault>
        requires { sound self.old }
        ensures answer { result ≡ load_answer (meaning self.old) setup.now }
        ensures after { meant self.new ≡ load_after (meaning self.old) (meant self.old) setup.now }
        ensures same { meaning self.new ≡ meaning self.old }
        ensures kept { sound self.new };

    /// The next n keystream bits as one number, the first bit most significant.
    fn take(&mut self, n: u32) -> Result<u64, GeneratorFault>
        requires { sound self.old }
        ensures answer { result ≡ take_answer (meaning self.old) (meant self.old) n }
        ensures after { meant self.new ≡ take_after (meaning self.old) (meant self.old) n }
        ensures same { meaning self.new ≡ meaning self.old }
        ensures kept { sound self.new };

    /// Unloads.
    fn forget(&mut self)
        requires { sound self.old }
        ensures after { meant self.new ≡ idle }
        ensures same { meaning self.new ≡ meaning self.old }
        ensures kept { sound self.new };

    ghost ranges: { (s : Self) → sound s → Ranges (meaning s) };

    ghost fits: { (s : Self) → sound s → Fits (meaning s) (meant s) };
}

/// What a take of n bits is refused with where `rest` bits are left.
pub fn check_take(rest: u64, n: u32) -> Result<(), GeneratorFault>
    ensures { result ≡ answered (take_refusals rest n) tt }
{
    if n == 0 || n > 64 {
        return Err(GeneratorFault::TakeCount);
    }
    if u64::from(n) > rest {
        return Err(GeneratorFault::TakeBeyond);
    }
    Ok(())
}
