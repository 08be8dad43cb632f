//! How many bytes a program needs at most, and which advertisement records it has room for.
//!
//! A configuration and a state have a base, each record has a weight, and the records that a program takes are the
//! longest prefix of the list whose weights and base sum to at most the limit.
#![tactic(auto)]

mod choosing;
mod sharing;
mod sizes;
#[cfg(test)]
mod tests;

pub use choosing::{Fit, TooLarge, choose};
pub use sharing::types_are_shared;
pub use sizes::{base, limit, weight};
