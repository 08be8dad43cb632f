//! The rules for the Ethernet header and for ARP, as items.
//!
//! Each `emit` call appends a fragment that answers its questions of the policy on every frame of more than 14 bytes: it
//! goes on at label 0 to pass or at label 1 to drop, with minus four times the counter's number in R1; it stops with the
//! fault Frame where a field that is read is missing; else it goes on with what stands behind it.
#![tactic(auto)]

mod arp;
mod link;

pub use arp::emit_arp;
pub use link::emit_link;
