//! What programs are made from, and what is said of them.

use crate::{Config, FilterState, StateError, Update};
use apf_base::List;
use apf_coding::Verdict;
use data_counters::Counter;
use ra_records::Record;

/// A record of an advertisement that a program was made with.
#[derive(Debug, Drop)]
pub struct Chosen {
    /// The record's number.
    pub id: u64,
    pub advert: Record,
    /// Up to which age in seconds the program drops frames that match.
    pub hold: u32,
}

/// What a program is made from.
#[derive(Debug, Drop)]
pub struct Basis {
    pub config: Config,
    pub state: FilterState,
    /// The records, in the order in which they are asked.
    pub chosen: List<Chosen>,
}

/// A change of the state, and the second at which it is made.
#[derive(Clone, Copy, Debug, PartialEq, Eq)]
pub struct Timed {
    pub time: u32,
    pub update: Update,
}

/// A filter's configuration, the second at which it starts, and the changes of its state in order.
#[derive(Debug, Drop)]
pub struct Script {
    pub config: Config,
    pub start: u32,
    pub events: List<Timed>,
}

/// What came of a frame.
#[derive(Clone, Copy, Debug, PartialEq, Eq)]
pub struct Answer {
    /// The number of the program that answered.
    pub number: u64,
    /// The seconds since that program was made.
    pub age: u32,
    pub verdict: Verdict,
    /// The counter that was raised beside `TotalPackets`.
    pub counter: Option<Counter>,
    /// The number of instructions that took effect.
    pub steps: u32,
}

/// What came of an update.
#[derive(Clone, Copy, Debug, PartialEq, Eq)]
pub enum UpdateReply {
    /// A new program stands.
    Installed,
    /// The state was so already.
    Same,
    /// The state refuses the change.
    Refused(StateError),
    /// The bytes that the new state's program needs at least are more than the limit. State and program stay.
    NotInstalled { need: u32, limit: u32 },
}
