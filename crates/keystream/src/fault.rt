// Why a call is refused: each refusal has a number and names its layer.
ghost use Rattle.std.specs.Prelude.{◌≡◌, ℕ, Some};
ghost use Rattle.std.specs.Fmt.{DisplaysOnOk};
ghost use Rattle.keystream.specs.declared.fault.Layer.{Layer};
ghost use Rattle.keystream.specs.declared.fault.SpanFault.TheVariants as spans;
ghost use Rattle.keystream.specs.Refusals.{layer_name, refusal_text, generator_number, generator_layer, pad_number, pad_layer, cap_number, cap_layer, span_number, span_layer};

use std::error::Error;
use std::fmt;

/// Where a refusal comes from: the line that was typed, the station, or the generator under it.
#[derive(Clone, Copy, PartialEq, Eq, Debug)]
pub enum Layer {
    Line,
    Station,
    Generator,
}

impl fmt::Display for Layer {
    ghost output = { λ layer. Some (layer_name layer) };

    fn fmt<W: fmt::Write>(&self, f: &mut fmt::Formatter<W>) -> fmt::Result {
        f.write_str(match self {
            Layer::Line => "line",
            Layer::Station => "station",
            Layer::Generator => "generator",
        })
    }
}

/// A refusal of any layer. Each type says its number and its layer itself, since only there its variants are known.
pub trait Refusal: Copy {
    ghost number_of: { Self → ℕ };

    ghost layer_of: { Self → Layer };

    fn number(self) -> u8
        ensures { result ≡ number_of self };

    fn layer(self) -> Layer
        ensures { result ≡ layer_of self };

    /// How each is printed: its number and its layer.
    final fn show<W: fmt::Write>(self, f: &mut fmt::Formatter<W>) -> fmt::Result
        ensures { DisplaysOnOk W.write_str_gives f.old result
            (Some (refusal_text (number_of self) (layer_of self))) f.new }
    {
        let number = self.number();
        let layer = self.layer();
        write!(f, "{number} {layer}")
    }
}

/// Why a generator refuses a load, a check or a take.
#[derive(Clone, Copy, PartialEq, Eq, Debug)]
pub enum GeneratorFault {
    KeyLength = 21,
    VariableTooLong = 22,
    VariableBytes = 23,
    TakeCount = 24,
    TakeBeyond = 25,
}

impl Refusal for GeneratorFault {
    ghost number_of = { generator_number };

    ghost layer_of = { generator_layer };

    fn number(self) -> u8 {
        self as u8
    }

    fn layer(self) -> Layer {
        match self {
            GeneratorFault::KeyLength
            | GeneratorFault::VariableTooLong
            | GeneratorFault::VariableBytes
            | GeneratorFault::TakeCount
            | GeneratorFault::TakeBeyond => Layer::Generator,
        }
    }
}

impl fmt::Display for GeneratorFault {
    ghost output = { λ fault. Some (refusal_text (generator_number fault) (generator_layer fault)) };

    fn fmt<W: fmt::Write>(&self, f: &mut fmt::Formatter<W>) -> fmt::Result {
        GeneratorFault::show(*self, f)
    }
}

impl Error for GeneratorFault {}

/// Why a pad is not made.
#[derive(Clone, Copy, PartialEq, Eq, Debug)]
pub enum PadFault {
    Length = 28,
}

impl Refusal for PadFault {
    ghost number_of = { pad_number };

    ghost layer_of = { pad_layer };

    fn number(self) -> u8 {
        self as u8
    }

    fn layer(self) -> Layer {
        match self {
            PadFault::Length => Layer::Generator,
        }
    }
}

impl fmt::Display for PadFault {
    ghost output = { λ fault. Some (refusal_text (pad_number fault) (pad_layer fault)) };

    fn fmt<W: fmt::Write>(&self, f: &mut fmt::Formatter<W>) -> fmt::Result {
        PadFault::show(*self, f)
    }
}

impl Error for PadFault {}

/// Why a cap is not put over a generator.
#[derive(Clone, Copy, PartialEq, Eq, Debug)]
pub enum CapFault {
    Limit = 29,
}

impl Refusal for CapFault {
    ghost number_of = { cap_number };

    ghost layer_of = { cap_layer };

    fn number(self) -> u8 {
        self as u8
    }

    fn layer(self) -> Layer {
        match self {
            CapFault::Limit => Layer::Generator,
        }
    }
}

impl fmt::Display for CapFault {
    ghost output = { λ fault. Some (refusal_text (cap_number fault) (cap_layer fault)) };

    fn fmt<W: fmt::Write>(&self, f: &mut fmt::Formatter<W>) -> fmt::Result {
        CapFault::show(*self, f)
    }
}

impl Error for CapFault {}

/// Why a keystream is not applied to a span of bits.
#[derive(Clone, Copy, PartialEq, Eq, Debug)]
pub enum SpanFault {
    Outside,
    Generator(GeneratorFault),
}

impl Refusal for SpanFault {
    ghost number_of = { span_number };

    ghost layer_of = { span_layer };

    fn number(self) -> u8 {
        match self {
            // a variant that holds a refusal can have no number of its own, so neither has this one
            SpanFault::Outside => 30,
            SpanFault::Generator(fault) => fault.number(),
        }
    }

    fn layer(self) -> Layer {
        match self {
            SpanFault::Outside => Layer::Generator,
            SpanFault::Generator(fault) => fault.layer(),
        }
    }
}

impl fmt::Display for SpanFault {
    ghost output = { λ fault. Some (refusal_text (span_number fault) (span_layer fault)) };

    fn fmt<W: fmt::Write>(&self, f: &mut fmt::Formatter<W>) -> fmt::Result {
        SpanFault::show(*self, f)
    }
}

impl Error for SpanFault {}

// A refusal of the generator passes up whole.
impl From<GeneratorFault> for SpanFault {
    ghost from_gives = { λ below above. above ≡ spans.Generator below };

    fn from(fault: GeneratorFault) -> SpanFault {
        Self::Generator(fault)
    }
}
