//! Items dealt to hands in turn, and what the hands keep for them, woven back into one list.
//!
//! Item k, from 1, goes to hand 1 + (k - 1) mod `count`. Weaving gives back the order of the items, whoever kept what
//! for them; the counters of all hands add up, word by word, modulo 2^32.
#![tactic(auto)]

mod hand;
mod laws;
mod share;
#[cfg(test)]
mod tests;
mod weave;

pub use hand::Hand;
pub use laws::{
    dealing_then_weaving_is_the_list, dealt_in_turn, hands_are_counted, shares_go_by_length,
    sums_are_of_all, weaving_maps,
};
pub use share::{most_of, share_of};
pub use weave::{total, woven};
