// The key and the variable of a letter, read from its lines.
ghost use Rattle.std.specs.Prelude.{◌≡◌, Some, MatchResult};
ghost use Rattle.seal.specs.declared.letter.LetterError.TheVariants.{OutOfMemory};
ghost use Rattle.seal.specs.Letters.{ReadsLetter, FailsToRead, line_name, given_of};

use keystream::setup::Setup;
use std::alloc::{AllocError, Global};
use std::fmt;

#[derive(Drop)]
pub(crate) struct Letter {
    pub(crate) key: Vec<u8>,
    pub(crate) count: usize,
    pub(crate) variable: Vec<u8>,
}

// What a line of a letter is read for.
#[derive(Clone, Copy, PartialEq, Eq, Debug)]
pub(crate) enum Line {
    Key,
    BitCount,
    Variable,
}

impl fmt::Display for Line {
    ghost output = { λ line. Some (line_name line) };

    fn fmt<W: fmt::Write>(&self, f: &mut fmt::Formatter<W>) -> fmt::Result {
        f.write_str(match self {
            Line::Key => "key",
            Line::BitCount => "bit count",
            Line::Variable => "variable",
        })
    }
}

// Why a letter is not read: its first unreadable line, or no memory.
#[derive(Clone, Copy, PartialEq, Eq, Debug)]
pub(crate) enum LetterError {
    Unreadable(Line),
    OutOfMemory(AllocError),
}

impl From<AllocError> for LetterError {
    ghost from_gives = { λ cause error. error ≡ OutOfMemory cause };

    fn from(cause: AllocError) -> LetterError {
        LetterError::OutOfMemory(cause)
    }
}

impl Letter {
    pub(crate) fn read(
        heap: Global,
        key: &str,
        count: &str,
        variable: &str,
    ) -> Result<Letter, LetterError>
        ensures { MatchResult result
            (ReadsLetter key.now count.now variable.now)
            (FailsToRead key.now count.now variable.now) }
    {
        let key = hexadecimal::read(heap, key.as_bytes())?;
        let key = key.ok_or(LetterError::Unreadable(Line::Key))?;
        let count = count.parse::<usize>();
        let count = count.map_err(|_| LetterError::Unreadable(Line::BitCount))?;
        let variable = hexadecimal::read(heap, variable.as_bytes())?;
        let variable = variable.ok_or(LetterError::Unreadable(Line::Variable))?;
        Ok(Letter {
            key,
            count,
            variable,
        })
    }

    // What a generator is loaded with.
    pub(crate) fn setup(&self) -> Setup<'_>
        ensures { result ≡ given_of self.now }
    {
        Setup {
            key: &self.key,
            count: self.count,
            variable: &self.variable,
        }
    }
}
