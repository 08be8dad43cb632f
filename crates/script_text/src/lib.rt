//! The texts that go into a filter and come out of it: the words of command lines and scripts, scripts, and the lines of
//! reports.
//!
//! A value has one spelling, and a word that is no spelling is refused. No call on words takes memory.
#![tactic(auto)]

mod digits;
mod ethertypes;
mod events;
mod head;
mod line_words;
mod lines;
mod numbers;
mod report;
mod script;
mod script_error;
mod script_laws;
mod sharing;
#[cfg(test)]
mod tests;
mod totals;
mod word_laws;
mod words;

pub use numbers::read_number;
pub use report::{print_frame, print_gen, print_ra, print_update};
pub use script::read_script;
pub use script_error::{ScriptError, ScriptKind};
pub use script_laws::{scripts_are_answered, texts_have_one_answer};
pub use sharing::types_are_shared;
pub use totals::{print_counter, print_total, print_totals};
pub use word_laws::words_have_one_value;
pub use words::{Endpoint, read_address, read_endpoint, read_ethertype, read_ip, read_mac};
