// The pad of this program.
ghost use Rattle.std.specs.Prelude.{◌≡◌, ◌+◌, ◌*◌, ◌/◌, ◌%◌, map};
ghost use Rattle.std.specs.List.{range_with_len};

// Byte j is 7j + ⌊j / 64⌋ modulo 256.
pub(crate) fn pad_bytes() -> [u8; 1024]
    ensures { result ≡ map (λ j. (7 * j + j / 64) % 256) (range_with_len 0 1024) }
{
    std::array::from_fn(|j| ((7 * j + j / 64) % 256) as u8)
}
