//! The types may be handed to and shared with other threads.

use crate::{
    Address, Answer, Basis, Changed, Chosen, Config, FilterState, Keepalive, Script, StateError,
    Timed, Update, UpdateReply,
};

fn is_shared<T: Send + Sync>() {}

/// Checks nothing when it runs: it is proved only where each type may cross threads.
pub fn types_are_shared() {
    is_shared::<Config>();
    is_shared::<Address>();
    is_shared::<Keepalive>();
    is_shared::<FilterState>();
    is_shared::<Update>();
    is_shared::<Changed>();
    is_shared::<StateError>();
    is_shared::<Timed>();
    is_shared::<Script>();
    is_shared::<Chosen>();
    is_shared::<Basis>();
    is_shared::<Answer>();
    is_shared::<UpdateReply>();
}
