//! The words of a command line, split into the command and its further words.
//!
//! Words are split exactly where the first is a command's name, the number of further words is right and none of them
//! is empty or begins with a dash. There are no options and no help command. What the further words spell isn't read.
#![tactic(auto)]

mod commands;
mod sharing;
mod splitting;
#[cfg(test)]
mod tests;
mod values;

pub use sharing::types_are_shared;
pub use splitting::split;
pub use values::{Further, Split};
