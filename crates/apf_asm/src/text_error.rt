//! Why a text is not read.

ghost use Rattle.std.specs.Prelude.{◌≡◌};
ghost use Rattle.apf_asm.specs.declared.text_error.TextError.TheVariants.{OutOfMemory};

use apf_base::OutOfMemory;
use std::alloc::{AllocError, AllocFailed};
use thiserror::Error;

/// What is wrong with a line. The first cause that holds is the one that is answered.
#[derive(Clone, Copy, Debug, PartialEq, Eq, Error)]
pub enum TextKind {
    /// A byte below 32 or above 126 stands in it.
    #[error("a byte that is not printable ASCII")]
    Ascii,
    /// No form begins with its first word.
    #[error("an unknown first word")]
    Word,
    /// It has none of the forms that begin with its first word.
    #[error("operands that do not fit the first word")]
    Operand,
}

/// Why a text is not read.
#[derive(Clone, Copy, Debug, PartialEq, Eq, Error)]
pub enum TextError {
    /// The first line that is refused, counted from 1.
    #[error("line {line}: {kind}")]
    Bad { line: u32, kind: TextKind },
    #[error("out of memory")]
    OutOfMemory,
}

impl From<OutOfMemory> for TextError {
    ghost from_gives = { λ _ e. e ≡ OutOfMemory };

    fn from(_: OutOfMemory) -> Self {
        TextError::OutOfMemory
    }
}
