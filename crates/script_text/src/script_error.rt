//! Why a script is not read.

ghost use Rattle.std.specs.Prelude.{◌≡◌};
ghost use Rattle.script_text.specs.declared.script_error.ScriptError.TheVariants.{OutOfMemory};

use apf_base::OutOfMemory;
use std::alloc::{AllocError, AllocFailed};
use thiserror::Error;

/// What is wrong with a script's line.
#[derive(Clone, Copy, Debug, PartialEq, Eq, Error)]
pub enum ScriptKind {
    /// It isn't of the form of its place.
    #[error("not of the form of its place")]
    Form,
    /// Its time is below the start, or below the time of an earlier event.
    #[error("a time below an earlier one")]
    Order,
    /// The text ends where one of the six first lines should stand.
    #[error("the end of the text before the first six lines")]
    End,
}

/// Why a script is not read.
#[derive(Clone, Copy, Debug, PartialEq, Eq, Error)]
pub enum ScriptError {
    /// The first fault in the order of lines, which are counted from 1.
    #[error("line {line}: {kind}")]
    Bad { line: u32, kind: ScriptKind },
    /// Memory ran out.
    #[error("out of memory")]
    OutOfMemory,
}

impl From<OutOfMemory> for ScriptError {
    ghost from_gives = { λ _ e. e ≡ OutOfMemory };

    fn from(_: OutOfMemory) -> Self {
        ScriptError::OutOfMemory
    }
}
