//! What a question of the policy answers.

use apf_coding::Verdict;
use data_counters::Counter;

/// What a question answers.
#[derive(Clone, Copy, Debug, PartialEq, Eq)]
pub enum Ruling {
    /// A field that it reads isn't in the frame.
    Missing,
    /// The frame's verdict, and the counter that says why.
    Says(Verdict, Counter),
    /// Nothing: the next question is asked.
    Silent,
}
