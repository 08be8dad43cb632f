//! IPv6 packets, each cut at every length from 20 to 56 bytes.

ghost use Rattle.std.specs.Prelude.{◌≤◌, length};
ghost use Rattle.size_fit.specs.Sizes.{limit_of};
ghost use Rattle.apf_generate.specs.Sizes.{need_of};

use crate::generate;
use crate::tests::is_answered;
use apf_base::List;
use apf_coding::Verdict::{self, Drop, Pass};
use data_counters::Counter::{self, *};
use policy_state::{Basis, Config, FilterState};
use std::alloc::Global;
use std::test::Fail;

/// An echo request to ff02::1, and the message's first two bytes.
#[rattlefmt::skip]
const PACKET: [u8; 56] = [
    0x33, 0x33, 0x00, 0x00, 0x00, 0x01, // destination
    0x02, 0x00, 0x00, 0x00, 0x00, 0x99, // source
    0x86, 0xdd,                         // EtherType: IPv6
    0x60, 0x00, 0x00, 0x00,             // version, traffic class, flow label
    0x00, 0x08,                         // payload length
    58,                                 // next header: ICMPv6
    255,                                // hop limit
    0xfe, 0x80, 0, 0, 0, 0, 0, 0, 0, 0, 0, 0, 0, 0, 0, 0x99, // source
    0xff, 0x02, 0, 0, 0, 0, 0, 0, 0, 0, 0, 0, 0, 0, 0, 0x01, // destination
    128, 0,                             // type: echo request, code
];

/// The first two bytes of a destination and its last six.
type Destination = ([u8; 2], [u8; 6]);

/// ff02::1
const ALL_NODES: Destination = ([0xff, 0x02], [0, 0, 0, 0, 0, 0x01]);

/// ff02::2
const ALL_ROUTERS: Destination = ([0xff, 0x02], [0, 0, 0, 0, 0, 0x02]);

/// ff02::fb
const MDNS: Destination = ([0xff, 0x02], [0, 0, 0, 0, 0, 0xfb]);

/// ff02::1:ff00:5
const SOLICITED: Destination = ([0xff, 0x02], [0, 0x01, 0xff, 0, 0, 0x05]);

/// ff02::1:0
const GREATER: Destination = ([0xff, 0x02], [0, 0, 0, 0x01, 0, 0]);

/// ff05::1
const SITE: Destination = ([0xff, 0x05], [0, 0, 0, 0, 0, 0x01]);

/// fe80::5
const HOST: Destination = ([0xfe, 0x80], [0, 0, 0, 0, 0, 0x05]);

/// Whether multicast is filtered, and whether the host dozes.
type Setting = (bool, bool);

const ALL: &[Setting] = &[(false, false), (false, true), (true, false), (true, true)];

const UNFILTERED: &[Setting] = &[(false, false), (false, true)];

const FILTERED: &[Setting] = &[(true, false), (true, true)];

const NOT_BOTH: &[Setting] = &[(false, false), (false, true), (true, false)];

const BOTH: &[Setting] = &[(true, true)];

/// What is in the packet, the settings; the answer, and the bytes from which on it comes. Shorter packets pass.
type Row = (
    u8,
    u8,
    Destination,
    &'static [Setting],
    Verdict,
    Counter,
    usize,
);

#[rattlefmt::skip]
static ROWS: [Row; 24] = [
    (17, 128, ALL_NODES, UNFILTERED, Pass, PassedIpv6NonIcmp, 21),
    (17, 128, HOST, UNFILTERED, Pass, PassedIpv6NonIcmp, 21),
    (6, 133, MDNS, FILTERED, Drop, DroppedIpv6Multicast, 39),
    (17, 128, ALL_NODES, FILTERED, Drop, DroppedIpv6Multicast, 39),
    (17, 136, HOST, FILTERED, Pass, PassedIpv6UnicastNonIcmp, 39),
    (58, 128, ALL_NODES, NOT_BOTH, Pass, PassedIpv6Icmp, 55),
    (58, 128, HOST, NOT_BOTH, Pass, PassedIpv6Icmp, 55),
    (58, 128, ALL_NODES, BOTH, Drop, DroppedIpv6Multicast, 55),
    (58, 128, ALL_ROUTERS, BOTH, Drop, DroppedIpv6Multicast, 55),
    (58, 128, MDNS, BOTH, Drop, DroppedIpv6Multicast, 55),
    (58, 128, HOST, BOTH, Pass, PassedIpv6UnicastNonIcmp, 55),
    (58, 133, ALL_ROUTERS, ALL, Drop, DroppedIpv6RouterSolicitation, 55),
    (58, 133, HOST, ALL, Drop, DroppedIpv6RouterSolicitation, 55),
    (58, 134, ALL_NODES, ALL, Pass, PassedIpv6Icmp, 55),
    (58, 134, HOST, ALL, Pass, PassedIpv6Icmp, 55),
    (58, 135, MDNS, ALL, Pass, PassedIpv6Icmp, 55),
    (58, 135, HOST, ALL, Pass, PassedIpv6Icmp, 55),
    (58, 136, ALL_NODES, ALL, Drop, DroppedIpv6MulticastNa, 55),
    (58, 136, ALL_ROUTERS, ALL, Drop, DroppedIpv6MulticastNa, 55),
    (58, 136, MDNS, ALL, Drop, DroppedIpv6MulticastNa, 55),
    (58, 136, SOLICITED, ALL, Pass, PassedIpv6Icmp, 55),
    (58, 136, GREATER, ALL, Pass, PassedIpv6Icmp, 55),
    (58, 136, SITE, ALL, Pass, PassedIpv6Icmp, 55),
    (58, 136, HOST, ALL, Pass, PassedIpv6Icmp, 55),
];

/// The packet with other bytes.
fn packet_with(next: u8, kind: u8, destination: Destination) -> [u8; 56] {
    let mut packet = PACKET;
    packet[20] = next;
    packet[38..40].copy_from_slice(&destination.0);
    packet[48..54].copy_from_slice(&destination.1);
    packet[54] = kind;
    packet
}

/// A basis with nothing denied.
fn basis_at(alloc: Global, setting: Setting) -> Basis
    ensures { need_of result ≤ limit_of result.config }
{
    let mut state = FilterState::start();
    state.multicast = setting.0;
    state.doze = setting.1;
    Basis {
        config: Config {
            mac: [2, 0, 0, 0, 0, 1],
            capacity: 1024,
            drop_802_3: true,
            deny: List::new(alloc),
        },
        state,
        chosen: List::new(alloc),
    }
}

/// Whether each packet that is cut is answered so: it passes where it is shorter than what is needed.
fn are_answered(code: &[u8], basis: &Basis, row: &Row) -> bool
    requires { length code.now ≤ 65535 }
{
    let packet = packet_with(row.0, row.1, row.2);
    for len in 20..57 {
        let answer = if len < row.6 {
            (Pass, None)
        } else {
            (row.4, Some(row.5))
        };
        if !is_answered(code, basis, 0, &packet[..len], answer) {
            return false;
        }
    }
    true
}

/// Whether a row holds in each of its settings.
fn holds(alloc: Global, row: &Row) -> Result<bool, Fail> {
    for setting in row.3 {
        let basis = basis_at(alloc, *setting);
        let code = generate(alloc, &basis)?;
        if code.len() > 600 || !are_answered(code.as_slice(), &basis, row) {
            return Ok(false);
        }
    }
    Ok(true)
}

#[test]
fn ipv6_packets_are_answered(rt: HostRuntime) -> Result<(), Fail> {
    for (number, row) in ROWS.iter().enumerate() {
        assert!(rt; holds(rt.alloc(), row)?, "row {number}");
    }
    Ok(())
}
