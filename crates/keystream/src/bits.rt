// The bits of byte strings.
ghost use Rattle.std.specs.Prelude.{◌≡◌};
ghost use Rattle.keystream.specs.Bits.{bit_at};

/// Bit i of a byte string; false past its end.
pub fn bit(bytes: &[u8], i: usize) -> bool
    ensures { result ≡ bit_at bytes.now i }
{
    let byte = bytes.get(i / 8).copied().unwrap_or(0);
    (byte >> (7 - i % 8)) % 2 == 1
}
