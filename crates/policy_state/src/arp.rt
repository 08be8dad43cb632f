//! The questions on ARP.

ghost use Rattle.std.specs.Prelude.{◌≡◌, ◌∷◌, []};
ghost use Rattle.policy_state.specs.Asking.{first_of};
ghost use Rattle.policy_state.specs.Policy.{replies_of_no_host, unicast_replies, gratuitous_arp, arp_for_other_hosts, arp_lines, arp};

use crate::link::BROADCAST;
use crate::ruling::Ruling;
use crate::{Address, Basis};
use apf_coding::Verdict;
use data_counters::Counter;
use frame_views::{Arp, Ether};

/// The opening of a packet for Ethernet and IPv4 addresses, of 6 and 4 bytes.
const ETHERNET_AND_IPV4: [u8; 6] = [0, 1, 8, 0, 6, 4];

/// Packets that ask for no address, where the host has none.
fn gratuitous_arp(address: Option<Address>, frame: &[u8]) -> Ruling
    ensures { result ≡ gratuitous_arp address frame.now }
{
    if address.is_some() {
        return Ruling::Silent;
    }
    match Arp::new(frame).target() {
        None => Ruling::Missing,
        Some(0) => Ruling::Says(Verdict::Drop, Counter::DroppedGarpReply),
        Some(_) => Ruling::Silent,
    }
}

/// Packets that ask for another address than the host's.
fn arp_for_other_hosts(address: Option<Address>, frame: &[u8]) -> Ruling
    ensures { result ≡ arp_for_other_hosts address frame.now }
{
    let Some(own) = address else {
        return Ruling::Silent;
    };
    match Arp::new(frame).target() {
        None => Ruling::Missing,
        Some(target) if target != own.ip => {
            Ruling::Says(Verdict::Drop, Counter::DroppedArpOtherHost)
        }
        Some(_) => Ruling::Silent,
    }
}

/// Whom a packet asks for.
fn arp_target(address: Option<Address>, frame: &[u8]) -> Ruling
    ensures { result ≡ first_of (gratuitous_arp address frame.now ∷ arp_for_other_hosts address frame.now ∷ Ruling.Says Verdict.Pass Counter.PassedArp ∷ []) }
{
    let mut answer = gratuitous_arp(address, frame);
    if answer == Ruling::Silent {
        answer = arp_for_other_hosts(address, frame);
    }
    if answer == Ruling::Silent {
        answer = Ruling::Says(Verdict::Pass, Counter::PassedArp);
    }
    answer
}

/// Packets.
fn arp_lines(basis: &Basis, frame: &[u8]) -> Ruling
    ensures { result ≡ arp_lines basis.now frame.now }
{
    let packet = Arp::new(frame);
    let Some(opening) = packet.opening() else {
        return Ruling::Missing;
    };
    if opening != ETHERNET_AND_IPV4.as_slice() {
        return Ruling::Says(Verdict::Pass, Counter::PassedArpNonIpv4);
    }
    let Some(operation) = packet.operation() else {
        return Ruling::Missing;
    };
    if operation != 1 && operation != 2 {
        return Ruling::Says(Verdict::Pass, Counter::PassedArpUnknown);
    }
    if operation == 2 {
        let Some(sender) = packet.sender() else {
            return Ruling::Missing;
        };
        if sender == 0 {
            return Ruling::Says(Verdict::Drop, Counter::DroppedArpReplySpaNoHost);
        }
        let Some(mac) = Ether::new(frame).destination() else {
            return Ruling::Missing;
        };
        if mac != BROADCAST.as_slice() {
            return Ruling::Says(Verdict::Pass, Counter::PassedArpUnicastReply);
        }
    }
    arp_target(basis.state.address, frame)
}

/// ARP frames.
pub(crate) fn arp(basis: &Basis, frame: &[u8]) -> Ruling
    ensures { result ≡ arp basis.now frame.now }
{
    match Ether::new(frame).ethertype() {
        None => Ruling::Missing,
        Some(0x806) => arp_lines(basis, frame),
        Some(_) => Ruling::Silent,
    }
}
