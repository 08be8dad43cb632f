//! The questions on the Ethernet header alone.

ghost use Rattle.std.specs.Prelude.{◌≡◌};
ghost use Rattle.policy_state.specs.Policy.{frames_802_3, is_denied, denied_types, link};

use crate::Basis;
use crate::ruling::Ruling;
use apf_coding::Verdict;
use data_counters::Counter;
use frame_views::Ether;

/// The broadcast MAC.
pub(crate) const BROADCAST: [u8; 6] = [0xff; 6];

/// Frames whose ethertype is a length.
fn frames_802_3(basis: &Basis, frame: &[u8]) -> Ruling
    ensures { result ≡ frames_802_3 basis.now frame.now }
{
    if !basis.config.drop_802_3 {
        return Ruling::Silent;
    }
    match Ether::new(frame).ethertype() {
        None => Ruling::Missing,
        Some(ethertype) if ethertype < 0x600 => {
            Ruling::Says(Verdict::Drop, Counter::Dropped8023Frame)
        }
        Some(_) => Ruling::Silent,
    }
}

/// Whether an ethertype is denied.
fn is_denied(deny: &[u16], ethertype: u32) -> bool
    ensures { result ≡ is_denied deny.now ethertype }
{
    deny.iter().any(|denied| ethertype == u32::from(*denied))
}

/// Denied ethertypes.
fn denied_types(basis: &Basis, frame: &[u8]) -> Ruling
    ensures { result ≡ denied_types basis.now frame.now }
{
    match Ether::new(frame).ethertype() {
        None => Ruling::Missing,
        Some(ethertype) if is_denied(basis.config.deny.as_slice(), ethertype) => {
            Ruling::Says(Verdict::Drop, Counter::DroppedEthertypeDenied)
        }
        Some(_) => Ruling::Silent,
    }
}

/// What is asked before any header is looked into.
pub(crate) fn link(basis: &Basis, frame: &[u8]) -> Ruling
    ensures { result ≡ link basis.now frame.now }
{
    match frames_802_3(basis, frame) {
        Ruling::Silent => denied_types(basis, frame),
        answer => answer,
    }
}
