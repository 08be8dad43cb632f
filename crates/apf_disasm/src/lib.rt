//! The disassembler. Each place of a code is listed once, as a part of an instruction or as a byte, and the printed
//! listing is text that is assembled to the code again.
#![tactic(auto)]

mod laws;
mod listing;
mod printing;
mod sharing;
#[cfg(test)]
mod tests;

pub use laws::{assembled_codes_are_listed, listings_are_determined};
pub use listing::{Line, list};
pub use printing::{line_text, print};
pub use sharing::types_are_shared;
