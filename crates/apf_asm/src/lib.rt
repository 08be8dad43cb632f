//! The assembler of the packet filter machine: instructions, jumps and labels as items, and the bytes that they come
//! to. Each jump has the least width that holds its offset, and the bytes run as the items flow. A label that is
//! unknown, stands twice or lies behind its jump is refused, and so is a code of more than 65,535 bytes.
//!
//! A rule is a list of items that goes on at label 0 or 1 with a counter's number in R1, or stops where a field is
//! missing, or goes on with what stands behind it. What it says of a frame is proved item by item.
#![tactic(auto)]

mod assembly;
mod building;
mod emitting;
mod item;
mod labels;
mod laws;
mod sharing;
mod sizes;
mod spacing;
#[cfg(test)]
mod tests;
mod text;
mod text_bytes;
mod text_error;
mod text_head;
mod text_item;
mod text_laws;
mod text_line;
mod text_number;
#[cfg(test)]
mod text_tests;

pub use assembly::{assemble, assemble_bytes};
pub use building::{count, fixed, jump, jump_if, jump_if_r1, jump_unless, load, place, to_end};
pub use emitting::Code;
pub use item::{AsmError, BYTES_LIMIT, Fixed, Item, Jump, Target};
pub use laws::{
    bytes_limit_is_defined, codes_are_at_most_wide, narrowing_comes_to_the_layout,
    refusals_are_first,
};
pub use sharing::types_are_shared;
pub use text::read_text;
pub use text_error::{TextError, TextKind};
pub use text_laws::{
    first_words_are_listed, signed_numbers_are_kept, texts_are_answered, texts_are_read_or_refused,
    words_have_one_item,
};
