//! Records that a filter holds, and its replies to advertisements.

use crate::record::Record;
use crate::span::RaError;

/// A record that is held, with its number: the first that was ever added has 1, and no number comes twice.
#[derive(Debug, Drop)]
pub struct Held {
    pub id: u64,
    pub advert: Record,
}

/// What came of an advertisement. The number is that of the record.
#[derive(Clone, Copy, Debug, PartialEq, Eq)]
pub enum RaReply {
    /// A record matched, and was refreshed.
    Match(u64),
    /// A record matched, and was refreshed in a new program.
    Refreshed(u64),
    /// A new record stands, in a new program.
    New(u64),
    /// No record matched, and there is no room for another.
    Full,
    /// No record matched, and the frame has a lifetime of 0.
    ZeroLifetime,
    /// The frame is refused. Want of memory is no such refusal, and is never held here.
    Bad(RaError),
}
