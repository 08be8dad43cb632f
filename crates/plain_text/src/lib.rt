//! What the readers of texts share: the lines of a text, and the decimal numbers that words spell.
//!
//! A line feed ends each line, and maybe not the last. A number has no sign and no leading zeros. No call takes memory.
#![tactic(auto)]

mod lines;
mod numbers;
#[cfg(test)]
mod tests;

pub use lines::first_line;
pub use numbers::read_decimal;
