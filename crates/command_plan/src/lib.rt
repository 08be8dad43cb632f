//! What a command does, as a plan: the files that it asks for, what it refuses, and the lines that it writes, in order.
//!
//! A call that follows a plan goes over it from its root. Which causes may come then, in which order, and what stands on
//! the output after each is said once for all plans. The exit statuses and the lines that say why a command ended stand
//! here too.
#![tactic(auto)]

mod complaint;
mod desk;
mod fault;
mod records;
mod sharing;
mod steps;

pub use complaint::complain;
pub use desk::{Files, Lines};
pub use fault::{Fault, FileKind, Input, Refusal, status_of};
pub use records::{next_record, open_capture};
pub use sharing::types_are_shared;
