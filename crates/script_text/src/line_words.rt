//! What a line of a script says, by the form of its place.

ghost use Rattle.std.specs.Prelude.{◌≡◌, ◌≤◌, ◌<◌, length, IfOk, IfSome};
ghost use Rattle.std.specs.Option.{option_copied};
ghost use Rattle.apf_coding.specs.Reading.{IsReadAs};
ghost use Rattle.script_text.specs.ScriptReading.{behind, switch_of, ethertypes_of, deny_of, version_read, mac_read, capacity_read, start_read, drop_read, deny_read};
ghost use Rattle.policy_state.specs.Limits.{capacity_least, capacity_most};

use crate::numbers::read_number;
use crate::words::{read_ethertype, read_mac};
use apf_base::{List, OutOfMemory};
use policy_state::{CAPACITY_LEAST, CAPACITY_MOST};
use std::alloc::Global;

/// What stands behind a prefix.
#[tactic(auto, unfolding(crate::specs::ScriptReading::behind))]
pub(crate) fn behind<'a>(front: &[u8], line: &'a [u8]) -> Option<&'a [u8]>
    ensures { option_copied result ≡ behind front.now line.now }
{
    line.strip_prefix(front)
}

/// `on` or `off`.
#[tactic(auto, unfolding(crate::specs::ScriptReading::switch_of))]
pub(crate) fn switch(word: &[u8]) -> Option<bool>
    ensures { result ≡ switch_of word.now }
{
    match word {
        b"on" => Some(true),
        b"off" => Some(false),
        _ => None,
    }
}

/// The line `apf 1`.
#[tactic(auto, unfolding(crate::specs::ScriptReading::version_read))]
pub(crate) fn version(line: &[u8]) -> Option<()>
    ensures { result ≡ version_read line.now }
{
    match line {
        b"apf 1" => Some(()),
        _ => None,
    }
}

/// The MAC of a line `mac ..`.
#[tactic(auto, unfolding(crate::specs::ScriptReading::mac_read))]
pub(crate) fn mac(line: &[u8]) -> Option<[u8; 6]>
    ensures { result ≡ mac_read line.now }
{
    read_mac(behind(b"mac ", line)?)
}

/// The bytes of a line `capacity ..`, 128 to 8192.
#[tactic(auto, unfolding(crate::specs::ScriptReading::capacity_read))]
pub(crate) fn capacity(line: &[u8]) -> Option<u32>
    ensures exact { result ≡ capacity_read line.now }
    ensures bounds { IfSome result (λ n. (capacity_least ≤ n) × (n ≤ capacity_most)) }
{
    match read_number(behind(b"capacity ", line)?, CAPACITY_MOST)? {
        n if n >= CAPACITY_LEAST => Some(n),
        _ => None,
    }
}

/// The second of a line `start ..`.
#[tactic(auto, unfolding(crate::specs::ScriptReading::start_read))]
pub(crate) fn start(line: &[u8]) -> Option<u32>
    ensures { result ≡ start_read line.now }
{
    read_number(behind(b"start ", line)?, u32::MAX)
}

/// Whether 802.3 frames are dropped, by a line `drop802 ..`.
#[tactic(auto, unfolding(crate::specs::ScriptReading::drop_read))]
pub(crate) fn drop_802_3(line: &[u8]) -> Option<bool>
    ensures { result ≡ drop_read line.now }
{
    switch(behind(b"drop802 ", line)?)
}
