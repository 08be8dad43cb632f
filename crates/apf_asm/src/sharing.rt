//! The types may be handed to and shared with other threads.

use crate::emitting::Code;
use crate::item::{AsmError, Fixed, Item, Jump, Target};
use crate::text_error::{TextError, TextKind};

fn is_shared<T: Send + Sync>() {}

/// Checks nothing when it runs: it is proved only where each type may cross threads.
pub fn types_are_shared() {
    is_shared::<Fixed>();
    is_shared::<Target>();
    is_shared::<Jump>();
    is_shared::<Item>();
    is_shared::<Code>();
    is_shared::<AsmError>();
    is_shared::<TextKind>();
    is_shared::<TextError>();
}
