//! Header fields, borrowed from a frame.
//!
//! Each field is read at its place, and is `Some` exactly where all its bytes are in the frame. Nothing else of a
//! header is looked at: a caller asks for the fields that it needs, in its own order. No call takes memory.
#![tactic(auto)]

mod arp;
mod ethernet;
mod fields;
mod ipv4;
mod ipv6;
#[cfg(test)]
mod tests;

pub use arp::Arp;
pub use ethernet::Ether;
pub use fields::{number, part};
pub use ipv4::{Ip4, Tcp, Udp};
pub use ipv6::{Icmp6, Ip6};
