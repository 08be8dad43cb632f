//! Router advertisements that were seen (RFC 4861, section 4.2), and which later frames say the same.
//!
//! A record keeps an advertisement's bytes, where its lifetimes stand, and when it was last seen. A frame matches it
//! where both are equal outside the flow label, the checksum and the lifetimes. What a frame is read as, or refused for,
//! is a grammar of its options.
#![tactic(auto)]

mod laws;
mod reading;
mod record;
mod replies;
mod sharing;
mod span;
#[cfg(test)]
mod tests;

pub use laws::{
    least_is_a_lifetime, options_tile_the_frame, places_are_defined, refusals_have_causes,
    same_is_place_by_place, sections_are_unmasked,
};
pub use reading::candidate;
pub use record::Record;
pub use replies::{Held, RaReply};
pub use sharing::types_are_shared;
pub use span::{ADVERTISEMENT_LIMIT, CHECKSUM, FLOW_LABEL, OPTIONS_AT, ROUTER, RaError, Span};
