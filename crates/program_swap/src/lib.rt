//! A board: the published install in two copies, beside lanes that answer frames by it while the installer replaces it.
//!
//! A lane's answer is that of the last install that its place read then, over the lane's own counters. What it reads
//! only goes on, and reaches each token that it learnt. A refused install leaves the published one.
#![tactic(auto)]

mod again;
mod board;
mod ending;
mod gate;
mod history;
mod installer;
mod installing;
mod lane;
mod laws;
mod place;
mod rule;
mod sharing;
mod shown;
#[cfg(test)]
mod tests;
mod turn;
mod working;

pub use again::{ShareAnswers, share_again, shares_again};
pub use board::{Board, BoardError};
pub use ending::{DriveError, answer_all};
pub use gate::{Gate, NoGate};
pub use installer::{Installer, Refused, Token};
pub use lane::{Lane, LaneEnd, LearnError, NotEntered};
pub use laws::{ends_keep_order, installers_rise, lanes_keep_order, tokens_rise};
pub use place::Places;
pub use sharing::types_may_cross_threads;
