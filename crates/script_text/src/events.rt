//! The events of a script.

ghost use Rattle.std.specs.Prelude.{◌≡◌};
ghost use Rattle.script_text.specs.ScriptReading.{added_read, address_read, update_of, event_of};

use crate::line_words::{behind, switch};
use crate::numbers::read_number;
use crate::words::{cut, read_address, read_endpoint};
use policy_state::{Keepalive, Timed, Update};

/// A keepalive that was sent, behind `keepalive add`.
#[tactic(auto, unfolding(crate::specs::ScriptReading::added_read))]
fn added(text: &[u8]) -> Option<Update>
    ensures { result ≡ added_read text.now }
{
    let (slot, rest) = cut(text, b' ')?;
    let slot = read_number(slot, u32::MAX)?;
    let (local, rest) = cut(rest, b' ')?;
    let local = read_endpoint(local)?;
    let (remote, rest) = cut(rest, b' ')?;
    let remote = read_endpoint(remote)?;
    let (sequence, acknowledgement) = cut(rest, b' ')?;
    Some(Update::KeepaliveAdd {
        slot,
        sent: Keepalive {
            local: local.ip,
            local_port: local.port,
            remote: remote.ip,
            remote_port: remote.port,
            sequence: read_number(sequence, u32::MAX)?,
            acknowledgement: read_number(acknowledgement, u32::MAX)?,
        },
    })
}

/// An address or `none`.
#[tactic(auto, unfolding(crate::specs::ScriptReading::address_read))]
fn address(word: &[u8]) -> Option<Update>
    ensures { result ≡ address_read word.now }
{
    match word {
        b"none" => Some(Update::Address(None)),
        _ => Some(Update::Address(Some(read_address(word)?))),
    }
}

/// What an event changes.
#[tactic(auto, unfolding(crate::specs::ScriptReading::update_of))]
fn update(text: &[u8]) -> Option<Update>
    ensures { result ≡ update_of text.now }
{
    if let Some(on) = behind(b"multicast ", text) {
        return Some(Update::Multicast(switch(on)?));
    }
    if let Some(on) = behind(b"doze ", text) {
        return Some(Update::Doze(switch(on)?));
    }
    if let Some(word) = behind(b"address ", text) {
        return address(word);
    }
    if let Some(sent) = behind(b"keepalive add ", text) {
        return added(sent);
    }
    let slot = read_number(behind(b"keepalive remove ", text)?, u32::MAX)?;
    Some(Update::KeepaliveRemove { slot })
}

/// The event of a line.
#[tactic(auto, unfolding(crate::specs::ScriptReading::event_of))]
pub(crate) fn event(line: &[u8]) -> Option<Timed>
    ensures { result ≡ event_of line.now }
{
    let (time, text) = cut(behind(b"at ", line)?, b' ')?;
    Some(Timed {
        time: read_number(time, u32::MAX)?,
        update: update(text)?,
    })
}
