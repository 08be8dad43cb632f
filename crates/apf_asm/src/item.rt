//! What is assembled.

ghost use Rattle.std.specs.Prelude.{◌≡◌};
ghost use Rattle.apf_asm.specs.declared.item.AsmError.TheVariants.{OutOfMemory};

use apf_base::{List, OutOfMemory};
use apf_coding::Op;
use std::alloc::{AllocError, AllocFailed};
use thiserror::Error;

/// The most bytes that one item compares with.
pub const BYTES_LIMIT: usize = 65535;

/// An instruction that is spelled as it stands, with its width and its first immediate.
#[derive(Debug, Drop)]
pub struct Fixed {
    pub op: Op,
    /// 0 or 1.
    pub reg: u8,
    /// 0, 1, 2 or 4 bytes.
    pub width: u8,
    /// The first immediate, below 256 to the power of the width.
    pub imm: u32,
    /// The second immediate of a conditional jump with register 0, else 0.
    pub second: u32,
    /// The bytes that `jnebs` compares, else none.
    pub bytes: List<u8>,
}

/// Where a jump goes.
#[derive(Clone, Copy, Debug, PartialEq, Eq)]
pub enum Target {
    /// The items behind the label with this number.
    Label(u32),
    /// The code's end, where a program passes.
    Pass,
    /// One byte behind the code's end, where a program drops.
    Drop,
}

/// A jump, whose width and offset are the assembler's to find.
#[derive(Debug, Drop)]
pub struct Jump {
    /// `Jmp`, a conditional jump or `Jnebs`.
    pub op: Op,
    /// 1 where a conditional jump compares with R1, else 0.
    pub reg: u8,
    /// What a conditional jump with register 0 compares with, else 0.
    pub second: u32,
    /// The bytes that `Jnebs` compares, at least one, else none.
    pub bytes: List<u8>,
    pub to: Target,
}

/// One piece of what is assembled.
#[derive(Debug, Drop)]
pub enum Item {
    Fixed(Fixed),
    Jump(Jump),
    /// A place that jumps before it may go to. It has no bytes.
    Label(u32),
    /// A byte as it stands.
    Byte(u8),
}

/// Why items are not assembled. Items are counted from 0.
#[derive(Clone, Copy, Debug, PartialEq, Eq, Error)]
pub enum AsmError {
    /// The item is a label that stands before it too.
    #[error("item {item}: label {label} stands twice")]
    Twice { item: u32, label: u32 },
    /// The item jumps to a label that stands nowhere.
    #[error("item {item}: unknown label {label}")]
    Unknown { item: u32, label: u32 },
    /// The item jumps to a label that stands before it.
    #[error("item {item}: label {label} lies behind")]
    Backward { item: u32, label: u32 },
    /// The code would have so many bytes, which are over 65,535.
    #[error("{bytes} bytes are over 65535")]
    TooLong { bytes: u64 },
    #[error("out of memory")]
    OutOfMemory,
}

impl From<OutOfMemory> for AsmError {
    ghost from_gives = { λ _ e. e ≡ OutOfMemory };

    fn from(_: OutOfMemory) -> Self {
        AsmError::OutOfMemory
    }
}

impl From<AllocError> for AsmError {
    ghost from_gives = { λ _ e. e ≡ OutOfMemory };

    fn from(_: AllocError) -> Self {
        AsmError::OutOfMemory
    }
}

impl<T: Drop> From<AllocFailed<T>> for AsmError {
    ghost from_gives = { λ _ e. e ≡ OutOfMemory };

    fn from(_: AllocFailed<T>) -> Self {
        AsmError::OutOfMemory
    }
}
