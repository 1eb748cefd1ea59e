// A keystream applied to a span of bits of a buffer.
ghost use Rattle.std.specs.Prelude.{◌≡◌, ℕ, ◌+◌, ◌*◌, ◌^◌, ◌<◌, ◌≤◌, length, Ok, bit_xor, slice_index};
ghost use Rattle.keystream.specs.Bits.{◌⊕◌, bit_at, bits_of};
ghost use Rattle.keystream.specs.Meaning.{keystream};
ghost use Rattle.keystream.specs.Span.{laid, sealed, apply_answer, apply_buffer, apply_after};

use crate::fault::{GeneratorFault, SpanFault};
use crate::generator::Generator;

// The most bits of one take.
const DRAW: usize = 64;

// XORs each byte with the byte of the mask at its place. The mask is read by an index, since a proof learns
// nothing of what a loop over `iter_mut().zip(mask)` writes.
fn xor_bytes(bytes: &mut [u8], mask: &[u8; 16])
    requires { length bytes.old ≤ 16 }
    ensures { (k : ℕ) → k < length bytes.old
        → slice_index bytes.new k ≡ bit_xor (slice_index bytes.old k) (slice_index mask.now k) }
{
    for (j, byte) in bytes.iter_mut().enumerate() {
        *byte ^= mask[j];
    }
}

// XORs the `count` bits of a word, the first most significant, into the buffer from a bit of a byte on.
// The word and its count are used up here: a struct of the two would be made and taken apart at once.
fn lay(buffer: &mut [u8], from: usize, bit: usize, word: u64, count: u32)
    requires bit { bit < 8 }
    requires nonzero { 0 < count }
    requires most { count ≤ 64 }
    requires word { word < 2 ^ count }
    requires within { 8 * from + bit + count ≤ 8 * length buffer.old }
    ensures { buffer.new ≡ sealed buffer.old (8 * from + bit) (bits_of count word) }
{
    let mask = (u128::from(word) << (128 - bit - count as usize)).to_be_bytes();
    // 64 bits reach over at most nine bytes
    let end = buffer.len().min(from + 9);
    xor_bytes(&mut buffer[from..end], &mask);
}

/// XORs n bits of the buffer, from bit `first` on, with the next n keystream bits.
pub fn apply<G: Generator>(
    generator: &mut G,
    buffer: &mut [u8],
    first: usize,
    n: usize,
) -> Result<(), SpanFault>
    requires { G.sound generator.old }
    ensures answer { result
        ≡ apply_answer (G.meaning generator.old) (G.meant generator.old) buffer.old first n }
    ensures buffer { buffer.new
        ≡ apply_buffer (G.meaning generator.old) (G.meant generator.old) buffer.old first n }
    ensures after { G.meant generator.new
        ≡ apply_after (G.meaning generator.old) (G.meant generator.old) buffer.old first n }
    ensures same { G.meaning generator.new ≡ G.meaning generator.old }
    ensures kept { G.sound generator.new }
    ensures bits { result ≡ Ok tt → (i : ℕ) → i < 8 * length buffer.old
        → bit_at buffer.new i ≡ bit_at buffer.old i
        ⊕ laid first (keystream (G.meaning generator.old) (G.meant generator.old) n) i }
    ensures twice { apply_buffer (G.meaning generator.old) (G.meant generator.old) buffer.new first n
        ≡ buffer.old }
{
    // casts, here and below, since std has no `From` between `usize` and these widths
    if first as u128 + n as u128 > 8 * buffer.len() as u128 {
        return Err(SpanFault::Outside);
    }
    if n as u64 > generator.left() {
        return Err(GeneratorFault::TakeBeyond.into());
    }
    for done in (0..n).step_by(DRAW) {
        let count = (n - done).min(DRAW) as u32;
        let word = generator.take(count)?;
        // first + done may be above usize::MAX, so the byte and the bit in it are counted apart
        let bit = first % 8 + done;
        lay(buffer, first / 8 + bit / 8, bit % 8, word, count);
    }
    Ok(())
}
