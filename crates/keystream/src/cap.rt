// The cap: any generator, with a limit of its own.
ghost use Rattle.std.specs.Prelude.{◌≡◌, Ok, Err, IfOk, IfErr, MatchResult};
ghost use Rattle.keystream.specs.Meaning.{idle};
ghost use Rattle.keystream.specs.Capped.{capped, cap_answer, cap_meaning, cap_meant, cap_sound};
ghost use Rattle.std.proofs.Common.{rules};

use crate::fault::{CapFault, GeneratorFault};
use crate::generator::{Generator, check_take};
use crate::setup::Setup;

const LIMIT_MOST: u64 = 1 << 54;

#[derive(Drop)]
pub struct Cap<G> {
    below: G,
    limit: u64,
}

/// A cap that is not made: why, and the generator as it was handed in.
#[derive(Drop)]
pub struct CapRefused<G> {
    pub fault: CapFault,
    pub below: G,
}

impl<G: Generator> Cap<G> {
    /// Puts a cap over a generator and makes it forget.
    pub fn new(mut below: G, limit: u64) -> Result<Cap<G>, CapRefused<G>>
        requires { G.sound below }
        ensures answer { MatchResult result
            (λ made. cap_answer limit ≡ Ok tt)
            (λ refused. cap_answer limit ≡ Err refused.fault) }
        ensures meaning { IfOk result (λ made.
            ⟦<Cap<G> as Generator>⟧.meaning made ≡ capped limit (G.meaning below)) }
        ensures unloaded { IfOk result (λ made. ⟦<Cap<G> as Generator>⟧.meant made ≡ idle) }
        ensures sound { IfOk result ⟦<Cap<G> as Generator>⟧.sound }
        ensures back { IfErr result (λ refused. refused.below ≡ below) }
    {
        if limit == 0 || limit > LIMIT_MOST {
            return Err(CapRefused {
                fault: CapFault::Limit,
                below,
            });
        }
        below.forget();
        Ok(Cap { below, limit })
    }
}

impl<G: Generator> Generator for Cap<G> {
    const KIND: u8 = G::KIND;

    ghost KIND = { G.KIND };

    ghost meaning = { cap_meaning G.meaning };

    ghost meant = { cap_meant G.meant };

    ghost sound = { cap_sound G.meaning G.meant G.sound };

    ghost ranges = { Prim.search rules };

    ghost fits = { Prim.search rules };

    // What the generator below answers is passed on, call by call: Rust has no shorter form.
    fn key_bits(&self) -> usize {
        self.below.key_bits()
    }

    fn longest(&self) -> usize {
        self.below.longest()
    }

    fn limit(&self) -> u64 {
        self.below.limit().min(self.limit)
    }

    fn left(&self) -> u64 {
        let above = self.below.limit().saturating_sub(self.limit);
        self.below.left().saturating_sub(above)
    }

    fn check(&self, setup: &Setup<'_>) -> Result<(), GeneratorFault> {
        self.below.check(setup)
    }

    fn load(&mut self, setup: &Setup<'_>) -> Result<(), GeneratorFault> {
        self.below.load(setup)
    }

    fn take(&mut self, n: u32) -> Result<u64, GeneratorFault> {
        check_take(self.left(), n)?;
        self.below.take(n)
    }

    fn forget(&mut self) {
        self.below.forget();
    }
}
