//! The counters of the packet filter, in the memory of 128 bytes that a program runs over.
//!
//! Each of the 28 counters is one big-endian word of the memory. Raising a counter adds one to its word, modulo 2^32,
//! and leaves all other bytes. No call takes memory or fails.
#![tactic(auto)]

mod counter;
mod laws;
mod memory;
mod sharing;
#[cfg(test)]
mod tests;

pub use counter::{COUNTER_COUNT, COUNTERS, Counter};
pub use laws::{counters_are_numbered, raising_changes_one_word, sums_add_each_counter};
pub use memory::{add_all, get, raise};
pub use sharing::types_are_shared;
