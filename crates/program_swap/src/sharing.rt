//! The types may be handed to other threads, and tokens shared with them.

use crate::{Installer, Lane, LaneEnd, Token};

fn is_send<T: Send>() {}

fn is_shared<T: Send + Sync>() {}

/// Checks nothing when it runs: it is proved only where each type may cross threads.
pub fn types_may_cross_threads() {
    is_send::<Installer>();
    is_send::<Lane>();
    is_send::<LaneEnd>();
    is_shared::<Token>();
}
