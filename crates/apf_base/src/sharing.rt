//! The types may be handed to and shared with other threads.

use crate::{Failed, List, OutOfMemory, ReadAllError};

fn is_shared<T: Send + Sync>() {}

/// Checks nothing when it runs: it is proved only where each type may cross threads, and a list where its items may.
pub fn types_are_shared<T: Send + Sync>() {
    is_shared::<List<T>>();
    is_shared::<Failed>();
    is_shared::<OutOfMemory>();
    is_shared::<ReadAllError>();
}
