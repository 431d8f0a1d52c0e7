ghost use Rattle.std.specs.Prelude.{◌≡◌};

use crate::text::Text;
use thiserror::Error;

/// Want of memory.
#[derive(Debug, Clone, Copy, Error)]
#[error("out of memory")]
pub struct Memory;

/// A place in an input: the number of the file, the line, and the column in bytes, each from 1.
///
/// Line and column are 0 where a refusal speaks of a whole file, and all three where it speaks of no file.
#[derive(Debug, Clone, Copy, PartialEq, Eq)]
pub struct Place {
    pub file: u32,
    pub line: u32,
    pub column: u32,
}

/// The codes of refusals. docs/refusals.md says when each comes and which word it has.
#[derive(Debug, Clone, Copy, PartialEq, Eq)]
pub enum Code {
    /// No token begins at a byte.
    E01,
    /// No unit begins at a token.
    E02,
    /// A fault of structure.
    E03,
    /// A second definition.
    E04,
    /// A name that nothing defines.
    E05,
    /// A type that differs.
    E06,
    /// A form that is left out.
    E07,
    /// A type entry or a visibility that is malformed.
    E08,
    /// A second strong definition.
    E09,
    /// Items of one name that differ.
    E10,
    /// An identifier on variables and functions.
    E11,
    /// A limit.
    E12,
}

/// Why a text isn't taken: the code, the place, and the word that it is about.
#[derive(Debug, Drop)]
pub struct Refusal {
    pub code: Code,
    pub place: Place,
    pub word: Text,
}

/// The answers of a call that reads texts, other than its value.
#[derive(Debug, Drop, Error)]
pub enum Fault {
    #[error("refused")]
    Refused(Refusal),
    #[error("out of memory")]
    Memory,
}

impl From<Memory> for Fault {
    ghost use Rattle.ltt_base.specs.declared.refusal.Fault.{Fault};

    ghost from_gives = { λ memory fault. fault ≡ Fault.Memory };

    fn from(_memory: Memory) -> Fault {
        Fault::Memory
    }
}

/// A value with the place where its text begins.
#[derive(Drop)]
pub struct Placed<T> {
    pub place: Place,
    pub value: T,
}
