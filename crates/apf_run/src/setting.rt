//! What `program` generates a program for, and what `make` makes.

ghost use Rattle.std.specs.Prelude.{◌≤◌};
ghost use Rattle.policy_state.specs.Limits.{capacity_least, capacity_most};

use policy_state::Address;

/// The switches of a filter.
#[derive(Clone, Copy)]
pub struct Flags {
    /// Whether 802.3 frames are dropped.
    pub drop_802_3: bool,
    /// Whether the host dozes.
    pub doze: bool,
    /// Whether multicast is filtered.
    pub multicast: bool,
}

/// The values of `program`.
#[derive(Drop)]
pub struct ProgramWords {
    /// The host's MAC.
    pub mac: [u8; 6],
    /// The bytes that the device has for program and memory, 128 to 8192.
    pub capacity: u32,
    pub address: Option<Address>,
    pub flags: Flags,
    pub ghost least: { capacity_least ≤ capacity },
    pub ghost most: { capacity ≤ capacity_most },
}

/// What `make` writes.
#[derive(Clone, Copy)]
pub enum What {
    /// The made script.
    Script,
    /// The made capture.
    Capture,
    /// The last lines of the report of both.
    Summary,
}

/// The values of `make`.
#[derive(Drop)]
pub struct MadeWords {
    pub what: What,
    /// The number of frames, 1 to 100000.
    pub n: u32,
    pub ghost bound: { n ≤ 100000 },
}
