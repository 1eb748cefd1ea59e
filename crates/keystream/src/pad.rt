// The pad kind: its keystream is read off 16 lines of 64 bytes that are handed in.
ghost use Rattle.std.specs.Prelude.{◌≡◌, Ok, Err, IfOk, MatchResult};
ghost use Rattle.keystream.specs.Meaning.{idle};
ghost use Rattle.keystream.specs.PadKind.{pad_kind, pad_meaning, pad_answer, meaning_of, meant_of};
ghost use Rattle.keystream.specs.PadLaws.{stream_fits};
ghost use Rattle.std.proofs.Common.{rules};

use crate::fault::{GeneratorFault, PadFault};
use crate::generator::{Generator, check_take};
use crate::setup::Setup;
use crate::stream::{LINE_BITS, LONGEST, Stream};

const PAD_BYTES: usize = 1024;

const KEY_BYTES: usize = 1;

#[derive(Drop)]
pub struct Pad {
    bytes: [u8; PAD_BYTES],
    stream: Option<Stream>,
}

impl Pad {
    pub fn new(bytes: &[u8]) -> Result<Pad, PadFault>
        ensures answer { MatchResult result
            (λ pad. pad_answer bytes.now ≡ Ok tt)
            (λ fault. pad_answer bytes.now ≡ Err fault) }
        ensures meaning { IfOk result (λ pad.
            ⟦<Pad as Generator>⟧.meaning pad ≡ pad_meaning bytes.now) }
        ensures unloaded { IfOk result (λ pad. ⟦<Pad as Generator>⟧.meant pad ≡ idle) }
        ensures sound { IfOk result ⟦<Pad as Generator>⟧.sound }
    {
        let bytes = <[u8; PAD_BYTES]>::try_from(bytes).map_err(|_| PadFault::Length)?;
        Ok(Pad {
            bytes,
            stream: None,
        })
    }
}

impl Generator for Pad {
    const KIND: u8 = 2;

    ghost KIND = { pad_kind };

    ghost meaning = { meaning_of };

    ghost meant = { meant_of };

    // What is loaded fits by its type.
    ghost sound = { λ pad. Unit {0} };

    ghost ranges = { Prim.search rules };

    ghost fits = { λ pad sound. stream_fits pad.bytes pad.stream };

    fn key_bits(&self) -> usize {
        8 * KEY_BYTES
    }

    fn longest(&self) -> usize {
        LONGEST
    }

    fn limit(&self) -> u64 {
        LINE_BITS as u64
    }

    fn left(&self) -> u64 {
        self.stream.map_or(0, |stream| stream.left())
    }

    fn check(&self, setup: &Setup<'_>) -> Result<(), GeneratorFault> {
        if setup.key.len() != KEY_BYTES {
            return Err(GeneratorFault::KeyLength);
        }
        if setup.count > LONGEST {
            return Err(GeneratorFault::VariableTooLong);
        }
        if setup.variable.len() != setup.count.div_ceil(8) {
            return Err(GeneratorFault::VariableBytes);
        }
        Ok(())
    }

    fn load(&mut self, setup: &Setup<'_>) -> Result<(), GeneratorFault> {
        self.check(setup)?;
        self.stream = Some(Stream::begin(setup));
        Ok(())
    }

    fn take(&mut self, n: u32) -> Result<u64, GeneratorFault> {
        check_take(self.left(), n)?;
        // never refused here: with nothing loaded nothing is left
        let stream = self.stream.as_mut().ok_or(GeneratorFault::TakeBeyond)?;
        Ok(stream.take(&self.bytes, n))
    }

    fn forget(&mut self) {
        self.stream = None;
    }
}
