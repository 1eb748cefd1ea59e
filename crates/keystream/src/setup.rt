// What a generator is loaded with.
use std::marker::Model;

/// A key, and an initialisation variable as the first `count` bits of some bytes. Count and bytes are as they were
/// handed in: that they belong together is for a load to check.
#[derive(Drop)]
pub struct Setup<'a> {
    pub key: &'a [u8],
    pub count: usize,
    pub variable: &'a [u8],
}

impl<'a> Model for Setup<'a> {
    ghost use Rattle.keystream.specs.Meaning.{Given};

    ghost Value = { Given };

    ghost view = { λ setup. record {
      key = setup.key.now;
      count = setup.count;
      variable = setup.variable.now;
    } };
}
