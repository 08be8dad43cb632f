//! A check of a program before it is installed: whether its form alone can make a run go wrong.
//!
//! A program that passes has as many instructions as are answered, and on whatever frame, memory and age a run of it
//! takes at most that many steps. Such a run never ends by its budget, and a fault hangs on the frame, the memory or a
//! divisor. Any other program has one first flaw. What the assembler makes of items in label form passes.
#![tactic(auto)]

mod checking;
mod flaw;
mod judging;
mod laws;
mod marking;
mod sharing;
#[cfg(test)]
mod tests;

pub use checking::{check, check_with};
pub use flaw::{CheckError, Flaw};
pub use laws::{orderly_bytes, orderly_programs_end, programs_have_one_answer};
pub use sharing::types_are_shared;
