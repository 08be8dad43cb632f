//! The commands that stand on a program alone: `exec` runs one over the frames of a capture, `asm` makes one from
//! assembler text, and `disasm` lists one.
//!
//! Each is a plan (`command_plan`): the files that it asks for, what it refuses, and the lines that it writes, in order.
#![tactic(auto)]

mod assembling;
mod execution;
mod listing;
mod report;

pub use assembling::asm;
pub use execution::exec;
pub use listing::disasm;
