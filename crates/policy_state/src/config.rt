//! The configuration of a filter.

ghost use Rattle.std.specs.Prelude.{◌≤◌, length};
ghost use Rattle.policy_state.specs.Limits.{capacity_least, capacity_most, denied_most};

use apf_base::List;

/// What doesn't change while a filter runs.
///
/// Its bounds hold of every value: callers need no test of them, and a literal is refused where they don't hold.
#[derive(Debug, Drop)]
pub struct Config {
    /// The host's MAC.
    pub mac: [u8; 6],
    /// The bytes that the device has for program and memory, 128 to 8192. The memory takes 128 of them.
    pub capacity: u32,
    /// Whether 802.3 frames are dropped.
    pub drop_802_3: bool,
    /// The ethertypes whose frames are dropped, at most 32.
    pub deny: List<u16>,
    pub ghost least: { capacity_least ≤ capacity },
    pub ghost most: { capacity ≤ capacity_most },
    pub ghost few: { length deny ≤ denied_most },
}
