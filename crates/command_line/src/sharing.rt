//! The types may be handed to and shared with other threads.

use crate::{Further, Split};

fn is_shared<T: Send + Sync>() {}

/// Checks nothing when it runs: it is proved only where each type may cross threads.
pub fn types_are_shared() {
    is_shared::<Further<'static>>();
    is_shared::<Split<'static>>();
}
