//! The state of a packet filter, and the policy that says what becomes of a frame.
//!
//! An update changes the state or is refused, and a refusal changes nothing. The policy is a list of questions on header
//! fields: the first answer is a frame's verdict, with one counter that says why, and a frame that lacks a field passes.
#![tactic(auto)]

mod arp;
mod basis;
mod config;
mod copies;
mod deciding;
mod ip4;
mod ip6;
mod laws;
mod limits;
mod link;
mod records;
mod ruling;
mod sharing;
mod state;
#[cfg(test)]
mod tests;
mod update;

pub use basis::{Answer, Basis, Chosen, Script, Timed, UpdateReply};
pub use config::Config;
pub use deciding::decide;
pub use laws::{
    arp_answers_its_frames, counters_tell_verdicts, ip4_answers_its_frames, questions_are_answered,
};
pub use limits::{
    BASE_WEIGHT, CAPACITY_LEAST, CAPACITY_MOST, COMPARISON_WEIGHT, DENIED_MOST, DENIED_WEIGHT,
    KEEPALIVE_WEIGHT, LIFETIME_WEIGHT, RECORD_WEIGHT, RECORDS_MOST, numbers_are_defined,
};
pub use sharing::types_are_shared;
pub use state::{Address, FilterState, Keepalive};
pub use update::{Changed, StateError, Update};
