//! The types may be handed to and shared with other threads.

use crate::{Held, RaError, RaReply, Record, Span};

fn is_shared<T: Send + Sync>() {}

/// Checks nothing when it runs: it is proved only where each type may cross threads.
pub fn types_are_shared() {
    is_shared::<Record>();
    is_shared::<Span>();
    is_shared::<Held>();
    is_shared::<RaReply>();
    is_shared::<RaError>();
}
