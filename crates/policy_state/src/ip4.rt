//! The questions on IPv4.

ghost use Rattle.std.specs.Prelude.{◌≡◌, map};
ghost use Rattle.policy_state.specs.Asking.{first_of};
ghost use Rattle.policy_state.specs.Ip4.{dhcp, ip4_multicast, ip4_broadcast, net_broadcast, ip4_net_broadcast, keepalive_answer, slot_answer, keepalive_answers, natt_keepalives, ip4_to_this_host, ip4_lines};
ghost use Rattle.policy_state.specs.Policy.{ip4};

use crate::link::BROADCAST;
use crate::ruling::Ruling;
use crate::{Address, Basis, Keepalive};
use apf_coding::Verdict;
use data_counters::Counter;
use frame_views::{Ether, Ip4, Tcp, Udp, number};

/// DHCP messages to this host.
fn dhcp(basis: &Basis, frame: &[u8]) -> Ruling
    ensures { result ≡ dhcp basis.now frame.now }
{
    if !basis.state.multicast {
        return Ruling::Silent;
    }
    let packet = Ip4::new(frame);
    match packet.protocol() {
        None => return Ruling::Missing,
        Some(17) => {}
        Some(_) => return Ruling::Silent,
    }
    match packet.fragment() {
        None => return Ruling::Missing,
        Some(fragment) if fragment & 0x1fff == 0 => {}
        Some(_) => return Ruling::Silent,
    }
    let datagram = Udp::new(frame, packet.header_len());
    match datagram.destination_port() {
        None => return Ruling::Missing,
        Some(68) => {}
        Some(_) => return Ruling::Silent,
    }
    match datagram.client_mac() {
        None => Ruling::Missing,
        Some(client) if client == basis.config.mac.as_slice() => {
            Ruling::Says(Verdict::Pass, Counter::PassedDhcp)
        }
        Some(_) => Ruling::Silent,
    }
}

/// Packets to multicast addresses, whose first four bits are 1110.
fn ip4_multicast(basis: &Basis, frame: &[u8]) -> Ruling
    ensures { result ≡ ip4_multicast basis.now frame.now }
{
    if !basis.state.multicast {
        return Ruling::Silent;
    }
    match number(frame, 30, 1) {
        None => Ruling::Missing,
        Some(byte) if byte & 0xf0 == 0xe0 => {
            Ruling::Says(Verdict::Drop, Counter::DroppedIpv4Multicast)
        }
        Some(_) => Ruling::Silent,
    }
}

/// Packets to 255.255.255.255.
fn ip4_broadcast(basis: &Basis, frame: &[u8]) -> Ruling
    ensures { result ≡ ip4_broadcast basis.now frame.now }
{
    if !basis.state.multicast {
        return Ruling::Silent;
    }
    match Ip4::new(frame).destination() {
        None => Ruling::Missing,
        Some(0xffff_ffff) => Ruling::Says(Verdict::Drop, Counter::DroppedIpv4BroadcastAddr),
        Some(_) => Ruling::Silent,
    }
}

/// Packets to the broadcast address of the host's net.
fn net_broadcast(address: Option<Address>, frame: &[u8]) -> Ruling
    ensures { result ≡ net_broadcast address frame.now }
{
    let Some(own) = address else {
        return Ruling::Silent;
    };
    if own.prefix >= 31 {
        return Ruling::Silent;
    }
    match Ip4::new(frame).destination() {
        None => Ruling::Missing,
        Some(destination) if destination == own.net_broadcast() => {
            Ruling::Says(Verdict::Drop, Counter::DroppedIpv4BroadcastNet)
        }
        Some(_) => Ruling::Silent,
    }
}

/// The same, where multicast is filtered.
fn ip4_net_broadcast(basis: &Basis, frame: &[u8]) -> Ruling
    ensures { result ≡ ip4_net_broadcast basis.now frame.now }
{
    if basis.state.multicast {
        net_broadcast(basis.state.address, frame)
    } else {
        Ruling::Silent
    }
}

/// The answer to one keepalive.
fn keepalive_answer(frame: &[u8], sent: &Keepalive) -> Ruling
    ensures { result ≡ keepalive_answer frame.now sent.now }
{
    let packet = Ip4::new(frame);
    match packet.ends() {
        None => return Ruling::Missing,
        Some(ends) if ends == sent.answer_ends().as_slice() => {}
        Some(_) => return Ruling::Silent,
    }
    let Some(total) = packet.total_length() else {
        return Ruling::Missing;
    };
    let segment = Tcp::new(frame, packet.header_len());
    match segment.size_byte() {
        None => return Ruling::Missing,
        Some(size) if packet.header_len() + size / 4 == total => {}
        Some(_) => return Ruling::Silent,
    }
    match segment.opening() {
        None => Ruling::Missing,
        Some(opening) if opening == sent.answer_opening().as_slice() => {
            Ruling::Says(Verdict::Drop, Counter::DroppedIpv4KeepaliveAck)
        }
        Some(_) => Ruling::Silent,
    }
}

/// The answer to the keepalive in a slot.
fn slot_answer(frame: &[u8], slot: &Option<Keepalive>) -> Ruling
    ensures { result ≡ slot_answer frame.now slot.now }
{
    match slot {
        None => Ruling::Silent,
        Some(sent) => keepalive_answer(frame, sent),
    }
}

/// The answers to keepalives, slot by slot.
fn slots_answer(frame: &[u8], slots: &[Option<Keepalive>]) -> Ruling
    ensures { result ≡ first_of (map (slot_answer frame.now) slots.now) }
{
    for slot in slots {
        let answer = slot_answer(frame, slot);
        if answer != Ruling::Silent {
            return answer;
        }
    }
    Ruling::Silent
}

/// Answers to keepalives.
fn keepalive_answers(basis: &Basis, frame: &[u8]) -> Ruling
    ensures { result ≡ keepalive_answers basis.now frame.now }
{
    if !basis.state.holds_keepalive() {
        return Ruling::Silent;
    }
    match Ip4::new(frame).protocol() {
        None => Ruling::Missing,
        Some(6) => slots_answer(frame, basis.state.keepalives.as_slice()),
        Some(_) => Ruling::Silent,
    }
}

/// NAT keepalives over UDP (RFC 3948, section 2.3): 8 bytes of header and one of data, from port 4500.
fn natt_keepalives(frame: &[u8]) -> Ruling
    ensures { result ≡ natt_keepalives frame.now }
{
    let packet = Ip4::new(frame);
    match packet.protocol() {
        None => return Ruling::Missing,
        Some(17) => {}
        Some(_) => return Ruling::Silent,
    }
    match packet.fragment() {
        None => return Ruling::Missing,
        Some(fragment) if fragment & 0x1fff == 0 => {}
        Some(_) => return Ruling::Silent,
    }
    let datagram = Udp::new(frame, packet.header_len());
    match datagram.source_port() {
        None => return Ruling::Missing,
        Some(4500) => {}
        Some(_) => return Ruling::Silent,
    }
    match datagram.length() {
        None => return Ruling::Missing,
        Some(9) => {}
        Some(_) => return Ruling::Silent,
    }
    match datagram.first_byte() {
        None => Ruling::Missing,
        Some(0xff) => Ruling::Says(Verdict::Drop, Counter::DroppedIpv4NattKeepalive),
        Some(_) => Ruling::Silent,
    }
}

/// All other packets, where multicast is filtered.
fn ip4_to_this_host(basis: &Basis, frame: &[u8]) -> Ruling
    ensures { result ≡ ip4_to_this_host basis.now frame.now }
{
    if !basis.state.multicast {
        return Ruling::Silent;
    }
    match Ether::new(frame).destination() {
        None => Ruling::Missing,
        Some(mac) if mac == BROADCAST.as_slice() => {
            Ruling::Says(Verdict::Drop, Counter::DroppedIpv4L2Broadcast)
        }
        Some(_) => Ruling::Says(Verdict::Pass, Counter::PassedIpv4Unicast),
    }
}

/// Packets.
fn ip4_lines(basis: &Basis, frame: &[u8]) -> Ruling
    ensures { result ≡ ip4_lines basis.now frame.now }
{
    let mut answer = dhcp(basis, frame);
    if answer == Ruling::Silent {
        answer = ip4_multicast(basis, frame);
    }
    if answer == Ruling::Silent {
        answer = ip4_broadcast(basis, frame);
    }
    if answer == Ruling::Silent {
        answer = ip4_net_broadcast(basis, frame);
    }
    if answer == Ruling::Silent {
        answer = keepalive_answers(basis, frame);
    }
    if answer == Ruling::Silent {
        answer = natt_keepalives(frame);
    }
    if answer == Ruling::Silent {
        answer = ip4_to_this_host(basis, frame);
    }
    if answer == Ruling::Silent {
        answer = Ruling::Says(Verdict::Pass, Counter::PassedIpv4);
    }
    answer
}

/// IPv4 frames.
pub(crate) fn ip4(basis: &Basis, frame: &[u8]) -> Ruling
    ensures { result ≡ ip4 basis.now frame.now }
{
    match Ether::new(frame).ethertype() {
        None => Ruling::Missing,
        Some(0x800) => ip4_lines(basis, frame),
        Some(_) => Ruling::Silent,
    }
}
