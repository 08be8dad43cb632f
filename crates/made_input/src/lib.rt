//! Input that is made by a rule, so that anyone can try the filter on any size without a capture of their own.
//!
//! For each number there is one script and one capture. The script says what its definition says, and the capture reads
//! back without a fault, frame by frame.
#![tactic(auto)]

mod capture;
mod frames;
mod laws;
mod script;
#[cfg(test)]
mod tests;

pub use capture::{made_capture, made_head, made_record};
pub use frames::made_frame;
pub use laws::{made_captures_are_whole, made_scripts_are_scripts};
pub use script::{doze_line, made_script, opening_lines};
