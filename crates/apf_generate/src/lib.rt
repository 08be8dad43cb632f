//! Whole programs from the filter's configuration and state.
//!
//! A generated program means its basis: on every frame, at every age and over every memory of 128 bytes it gives the
//! policy's verdict, and raises the counters that the policy names. Its length is bounded by the basis.
#![tactic(auto)]

mod items;
mod laws;
mod program;
mod ra;
#[cfg(test)]
mod tests;

pub use laws::programs_exist;
pub use program::generate;
pub use ra::emit_ra;
