//! The report of a filter: what it writes about a script over the frames of a capture, line by line.
//!
//! What stands written at each time is the text of what the script's replay tells so far. Each frame's line has the verdict,
//! the counter and the steps of the program whose code was printed last, and that code means the policy.
#![tactic(auto)]

mod events;
mod fault;
mod filtering;
mod frames;
mod laws;
mod lines;
mod replaying;
mod scripted;
mod sharing;
#[cfg(test)]
mod tests;
mod totals;
mod writing;

pub use fault::ReportFault;
pub use filtering::Filtering;
pub use laws::{gen_lines_have_one_code, reports_have_one_list_of_codes, reports_tell_their_codes};
pub use replaying::replay;
pub use scripted::{ScriptTold, take_script};
pub use sharing::types_are_shared;
pub use totals::last_lines;
