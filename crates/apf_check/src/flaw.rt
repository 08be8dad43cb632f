//! What is wrong with a program.

ghost use Rattle.std.specs.Prelude.{◌≡◌};
ghost use Rattle.apf_check.specs.declared.flaw.CheckError.TheVariants.{OutOfMemory as NoMemory};

use std::alloc::AllocError;

/// A flaw of a program, with the place of the instruction that has it, or of the byte at which no instruction begins.
///
/// Places are counted from 0, and n is the program's length. A jump goes to the place after it plus its immediate,
/// modulo 2^32.
#[derive(Clone, Copy, Debug, PartialEq, Eq)]
pub enum Flaw {
    /// The top 5 bits of the byte there are the number of no opcode: 0, or above 23.
    Opcode(u32),
    /// The program ends before the instruction does.
    Cut(u32),
    /// `ext` with an immediate above 35.
    Extended(u32),
    /// `jnebs` with register bit 1, or with no bytes.
    Compare(u32),
    /// A jump to a place above n + 1.
    Past(u32),
    /// A jump to a place below the one after it.
    Backward(u32),
    /// A jump to a place below n at which no instruction begins.
    Inside(u32),
}

/// Why a program does not pass.
#[derive(Clone, Copy, Debug, PartialEq, Eq)]
pub enum CheckError {
    /// It has this flaw first.
    Flawed(Flaw),
    /// There is no memory for a byte a place.
    OutOfMemory,
}

impl From<AllocError> for CheckError {
    ghost from_gives = { λ _ e. e ≡ NoMemory };

    fn from(_: AllocError) -> Self {
        CheckError::OutOfMemory
    }
}
