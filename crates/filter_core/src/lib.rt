//! The filter as it lives: the install that stands, the records held, the clock and the counters.
//!
//! Updates and advertisements are the steps of a filter as its definition has them, and an install's program gives each
//! frame the answer of the policy. Each install keeps a proof that its code means what it was made from.
#![tactic(auto)]

mod ending;
mod install;
mod laws;
mod living;
mod making;
mod records;
mod sharing;
mod taking;
#[cfg(test)]
mod tests;

pub use install::Install;
pub use laws::{
    answers_are_by_the_last_install, bases_are_sound, counters_count_answers,
    longest_prefix_is_chosen, programs_mean_their_basis, replays_add_up,
    steps_count_their_installs, update_replies_have_causes,
};
pub use living::{Core, StartError};
pub use sharing::types_are_shared;
pub use taking::{Taken, due, installs, passes};
