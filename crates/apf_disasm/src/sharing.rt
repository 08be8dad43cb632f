//! The type may be handed to and shared with other threads.

use crate::listing::Line;

fn is_shared<T: Send + Sync>() {}

/// Checks nothing when it runs: it is proved only where the type may cross threads.
pub fn types_are_shared() {
    is_shared::<Line<'static>>();
}
