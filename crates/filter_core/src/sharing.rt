//! The types may be handed to and shared with other threads.

use crate::{Core, Install, StartError, Taken};

fn is_shared<T: Send + Sync>() {}

/// Checks nothing when it runs: it is proved only where each type may cross threads.
pub fn types_are_shared() {
    is_shared::<Install>();
    is_shared::<Core>();
    is_shared::<StartError>();
    is_shared::<Taken>();
}
