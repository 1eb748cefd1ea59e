// What a pad has loaded: a key, a variable and a place.
ghost use Rattle.std.specs.Prelude.{◌≡◌, ◌+◌, ◌-◌, ◌^◌, ◌<◌, ◌≤◌, length, Some};
ghost use Rattle.keystream.specs.Bits.{as_number};

use crate::bits::bit;
use crate::setup::Setup;

pub(crate) const LINE_BITS: usize = 512;

pub(crate) const LONGEST: usize = 4;

// The variable is the first `count` bits of its byte. The pad's bytes are lent to each call: a stream lies in
// the pad and cannot borrow from it.
#[derive(Clone, Copy)]
pub(crate) struct Stream {
    key: u8,
    count: usize,
    variable: u8,
    place: usize,
    ghost short: { count ≤ 4 },
    ghost within: { place ≤ 512 },
}

impl Stream {
    ghost use Rattle.keystream.specs.Meaning.{keystream, moved};
    ghost use Rattle.keystream.specs.Calls.{begun};
    ghost use Rattle.keystream.specs.PadKind.{pad_bit, line_number, pad_meaning, key_of, variable_of, stream_meant};

    // The stream of a setup, from place 0 on.
    pub(crate) fn begin(setup: &Setup<'_>) -> Stream
        requires key { length setup.now.key ≡ 1 }
        requires count { setup.now.count ≤ 4 }
        ensures { stream_meant (Some result) ≡ begun setup.now }
    {
        Stream {
            key: setup.key[0],
            count: setup.count,
            variable: setup.variable.first().copied().unwrap_or(0),
            place: 0,
        }
    }

    // Keystream bits from the place up to the limit.
    pub(crate) fn left(self) -> u64
        ensures { result ≡ 512 - self.place }
    {
        (LINE_BITS - self.place) as u64
    }

    // The line of the pad that is read.
    fn line(self) -> usize
        ensures value { result ≡ line_number (variable_of self) }
        ensures bound { result < 16 }
    {
        usize::from(self.variable) >> (8 - self.count) << (LONGEST - self.count)
    }

    // The keystream bit at a place.
    fn bit(self, pad: &[u8], place: usize) -> bool
        requires { place < 2 ^ 63 }
        ensures { result ≡ pad_bit pad.now (key_of self) (variable_of self) place }
    {
        bit(pad, LINE_BITS * self.line() + place) ^ bit(&[self.key], place % 8)
    }

    // The next n keystream bits as one number, the first most significant.
    fn number(self, pad: &[u8], n: u32) -> u64
        requires { n ≤ 64 }
        ensures { result
            ≡ as_number (keystream (pad_meaning pad.now) (stream_meant (Some self)) n) }
    {
        (0..n as usize).fold(
            0,
            |word, i| word << 1 | u64::from(self.bit(pad, self.place + i)),
        )
    }

    // The same, and moves the place on by n.
    pub(crate) fn take(&mut self, pad: &[u8], n: u32) -> u64
        requires most { n ≤ 64 }
        requires within { self.old.place + n ≤ 512 }
        ensures answer { result
            ≡ as_number (keystream (pad_meaning pad.now) (stream_meant (Some self.old)) n) }
        ensures after { stream_meant (Some self.new) ≡ moved (stream_meant (Some self.old)) n }
    {
        let word = self.number(pad, n);
        self.place += n as usize;
        word
    }
}
