//! The types may be handed to and shared with other threads.

use crate::{Filtering, ReportFault, ScriptTold};

fn is_shared<T: Send + Sync>() {}

/// Checks nothing when it runs: it is proved only where each type may cross threads.
pub fn types_are_shared() {
    is_shared::<Filtering>();
    is_shared::<ReportFault>();
    is_shared::<ScriptTold>();
}
