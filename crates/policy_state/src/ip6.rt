//! The questions on IPv6.

ghost use Rattle.std.specs.Prelude.{◌≡◌, ◌∷◌, []};
ghost use Rattle.policy_state.specs.Asking.{first_of};
ghost use Rattle.policy_state.specs.Records.{repeated_advertisements};
ghost use Rattle.policy_state.specs.Ip6.{by_destination, echo_requests, ip6_multicast, ip6_other_than_icmp, router_solicitations, advertisements_to_link_groups, ip6_header_lines, other_icmp6, ip6_lines};
ghost use Rattle.policy_state.specs.Policy.{ip6};

use crate::Basis;
use crate::records::repeated_advertisements;
use crate::ruling::Ruling;
use apf_coding::Verdict;
use data_counters::Counter;
use frame_views::{Ether, Icmp6, Ip6, part};

/// The next header of an ICMPv6 message (RFC 4443, section 1).
const ICMP6: u32 = 58;

/// The types of ICMPv6 messages that are asked for (RFC 4443, section 4.1, and RFC 4861, sections 4.1 and 4.4).
const ECHO_REQUEST: u32 = 128;

const ROUTER_SOLICITATION: u32 = 133;

const NEIGHBOR_ADVERTISEMENT: u32 = 136;

/// ff02::/120, the groups of a link whose number has one byte, as all nodes, ff02::1 (RFC 4291, section 2.7.1).
const LINK_GROUPS: [u8; 15] = [0xff, 0x02, 0, 0, 0, 0, 0, 0, 0, 0, 0, 0, 0, 0, 0];

/// Whether a packet is multicast.
fn by_destination(frame: &[u8]) -> Ruling
    ensures { result ≡ by_destination frame.now }
{
    match Ip6::new(frame).first_byte() {
        None => Ruling::Missing,
        Some(0xff) => Ruling::Says(Verdict::Drop, Counter::DroppedIpv6Multicast),
        Some(_) => Ruling::Says(Verdict::Pass, Counter::PassedIpv6UnicastNonIcmp),
    }
}

/// Echo requests to a host that dozes. The type is read only there.
fn echo_requests(basis: &Basis, frame: &[u8]) -> Ruling
    ensures { result ≡ echo_requests basis.now frame.now }
{
    if !basis.state.doze {
        return Ruling::Silent;
    }
    match Icmp6::new(frame).kind() {
        None => Ruling::Missing,
        Some(kind) if kind == ECHO_REQUEST => by_destination(frame),
        Some(_) => Ruling::Silent,
    }
}

/// Packets other than ICMPv6, and such echo requests, where multicast is filtered.
fn ip6_multicast(basis: &Basis, frame: &[u8]) -> Ruling
    ensures { result ≡ ip6_multicast basis.now frame.now }
{
    if !basis.state.multicast {
        return Ruling::Silent;
    }
    match Ip6::new(frame).next_header() {
        None => Ruling::Missing,
        Some(next) if next == ICMP6 => echo_requests(basis, frame),
        Some(_) => by_destination(frame),
    }
}

/// Packets other than ICMPv6.
fn ip6_other_than_icmp(frame: &[u8]) -> Ruling
    ensures { result ≡ ip6_other_than_icmp frame.now }
{
    match Ip6::new(frame).next_header() {
        None => Ruling::Missing,
        Some(next) if next != ICMP6 => Ruling::Says(Verdict::Pass, Counter::PassedIpv6NonIcmp),
        Some(_) => Ruling::Silent,
    }
}

/// Router solicitations.
fn router_solicitations(frame: &[u8]) -> Ruling
    ensures { result ≡ router_solicitations frame.now }
{
    match Icmp6::new(frame).kind() {
        None => Ruling::Missing,
        Some(kind) if kind == ROUTER_SOLICITATION => {
            Ruling::Says(Verdict::Drop, Counter::DroppedIpv6RouterSolicitation)
        }
        Some(_) => Ruling::Silent,
    }
}

/// Neighbor advertisements to such a group.
fn advertisements_to_link_groups(frame: &[u8]) -> Ruling
    ensures { result ≡ advertisements_to_link_groups frame.now }
{
    let Some(kind) = Icmp6::new(frame).kind() else {
        return Ruling::Missing;
    };
    if kind != NEIGHBOR_ADVERTISEMENT {
        return Ruling::Silent;
    }
    match part(frame, 38, 15) {
        None => Ruling::Missing,
        Some(group) if group == LINK_GROUPS.as_slice() => {
            Ruling::Says(Verdict::Drop, Counter::DroppedIpv6MulticastNa)
        }
        Some(_) => Ruling::Silent,
    }
}

/// What is asked of the headers alone.
fn ip6_header_lines(basis: &Basis, frame: &[u8]) -> Ruling
    ensures { result ≡ ip6_header_lines basis.now frame.now }
{
    let mut answer = ip6_multicast(basis, frame);
    if answer == Ruling::Silent {
        answer = ip6_other_than_icmp(frame);
    }
    if answer == Ruling::Silent {
        answer = router_solicitations(frame);
    }
    if answer == Ruling::Silent {
        answer = advertisements_to_link_groups(frame);
    }
    answer
}

/// ICMPv6 messages that the headers alone don't answer.
fn other_messages(basis: &Basis, age: u32, frame: &[u8]) -> Ruling
    ensures { result ≡ first_of (repeated_advertisements basis.now age frame.now ∷ other_icmp6 ∷ []) }
{
    match repeated_advertisements(basis, age, frame) {
        Ruling::Silent => Ruling::Says(Verdict::Pass, Counter::PassedIpv6Icmp),
        answer => answer,
    }
}

/// Packets.
fn ip6_lines(basis: &Basis, age: u32, frame: &[u8]) -> Ruling
    ensures { result ≡ ip6_lines basis.now age frame.now }
{
    match ip6_header_lines(basis, frame) {
        Ruling::Silent => other_messages(basis, age, frame),
        answer => answer,
    }
}

/// IPv6 frames.
pub(crate) fn ip6(basis: &Basis, age: u32, frame: &[u8]) -> Ruling
    ensures { result ≡ ip6 basis.now age frame.now }
{
    match Ether::new(frame).ethertype() {
        None => Ruling::Missing,
        Some(0x86dd) => ip6_lines(basis, age, frame),
        Some(_) => Ruling::Silent,
    }
}
