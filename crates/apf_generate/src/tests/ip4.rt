//! IPv4 packets, each cut at every length from 15 to 116 bytes.

ghost use Rattle.std.specs.Prelude.{◌≤◌, length};
ghost use Rattle.apf_generate.specs.Sizes.{need_of};
ghost use Rattle.size_fit.specs.Sizes.{limit_of};

use crate::generate;
use crate::tests::is_answered;
use apf_base::List;
use apf_coding::Verdict::{self, Drop, Pass};
use data_counters::Counter::{self, *};
use policy_state::{Address, Basis, Config, FilterState, Keepalive};
use std::alloc::Global;
use std::test::Fail;

const MAC: [u8; 6] = [2, 0, 0, 0, 0, 1];

/// Bytes at a place of a packet. The others are 0.
type Bytes = (usize, &'static [u8]);

/// To this host.
#[rattlefmt::skip]
const HEADER: [u8; 14] = [
    0x02, 0x00, 0x00, 0x00, 0x00, 0x01, // destination
    0x02, 0x00, 0x00, 0x00, 0x00, 0x99, // source
    0x08, 0x00,                         // EtherType: IPv4
];

/// UDP, from the port 5000 to the port 5001.
#[rattlefmt::skip]
const DATAGRAM: &[Bytes] = &[
    (14, &[0x45]),             // version 4, a header of 5 words
    (23, &[17]),               // protocol: UDP
    (30, &[192, 168, 1, 5]),   // destination
    (34, &[0x13, 0x88]),       // source port
    (36, &[0x13, 0x89]),       // destination port
];

/// An answer to the keepalive that was sent: TCP, from 10.0.0.9 and the port 443 to 10.0.0.2 and the port 40000, with no
/// data behind its header.
#[rattlefmt::skip]
const SEGMENT: &[Bytes] = &[
    (14, &[0x45]),             // version 4, a header of 5 words
    (16, &[0x00, 0x28]),       // total length: 40
    (22, &[0x40, 0x06]),       // time to live; protocol: TCP
    (26, &[10, 0, 0, 9]),      // source
    (30, &[10, 0, 0, 2]),      // destination
    (34, &OPENING),
    (46, &[0x50, 0x10]),       // a header of 5 words; ACK
];

#[rattlefmt::skip]
const OPENING: [u8; 12] = [
    0x01, 0xbb,                // source port: 443
    0x9c, 0x40,                // destination port: 40000
    0x00, 0x00, 0x07, 0xd0,    // sequence number: 2000
    0x00, 0x00, 0x03, 0xe9,    // acknowledgement number: 1001
];

/// The same behind headers of 0, 24 and 60 bytes. Without a header the segment begins at byte 14, so that the total length
/// is the destination port, and the protocol is a byte of the acknowledgement number.
#[rattlefmt::skip]
const SEGMENT_0: &[Bytes] = &[
    (14, &[0x01, 0xbb, 0x00, 0x02, 0x00, 0x00, 0x07, 0xd0, 0x00, 0x06, 0x00, 0x00]),
    (26, &[10, 0, 0, 9]),
    (30, &[10, 0, 0, 2]),
];

#[rattlefmt::skip]
const SEGMENT_24: &[Bytes] = &[(14, &[0x46]), (16, &[0x00, 0x2c]), (23, &[6]), (26, &[10, 0, 0, 9]), (30, &[10, 0, 0, 2]), (38, &OPENING), (50, &[0x50])];

#[rattlefmt::skip]
const SEGMENT_60: &[Bytes] = &[(14, &[0x4f]), (16, &[0x00, 0x50]), (23, &[6]), (26, &[10, 0, 0, 9]), (30, &[10, 0, 0, 2]), (74, &OPENING), (86, &[0x50])];

/// DHCP to this host, behind headers of 0, 4, 20, 24 and 60 bytes: the version, the protocol, the destination, the
/// destination port and the client's MAC.
#[rattlefmt::skip]
const DHCP_0: &[Bytes] = &[(14, &[0x65]), (23, &[17]), (30, &[255, 255, 255, 255]), (16, &[0, 68]), (50, &MAC)];

#[rattlefmt::skip]
const DHCP_4: &[Bytes] = &[(14, &[0x41]), (23, &[17]), (30, &[255, 255, 255, 255]), (20, &[0, 68]), (54, &MAC)];

#[rattlefmt::skip]
const DHCP_20: &[Bytes] = &[(14, &[0x45]), (23, &[17]), (30, &[255, 255, 255, 255]), (36, &[0, 68]), (70, &MAC)];

#[rattlefmt::skip]
const DHCP_24: &[Bytes] = &[(14, &[0x46]), (23, &[17]), (30, &[255, 255, 255, 255]), (40, &[0, 68]), (74, &MAC)];

#[rattlefmt::skip]
const DHCP_60: &[Bytes] = &[(14, &[0x4f]), (23, &[17]), (30, &[255, 255, 255, 255]), (76, &[0, 68]), (110, &MAC)];

/// A NAT keepalive from the port 4500 to the port 4500, behind a header of 20 bytes.
#[rattlefmt::skip]
const NATT: &[Bytes] = &[
    (14, &[0x45]),             // version 4, a header of 5 words
    (23, &[17]),               // protocol: UDP
    (30, &[10, 0, 0, 2]),      // destination
    (34, &KEEPALIVE),
];

#[rattlefmt::skip]
const KEEPALIVE: [u8; 9] = [
    0x11, 0x94,                // source port: 4500
    0x11, 0x94,                // destination port: 4500
    0x00, 0x09,                // length: 9
    0x00, 0x00,                // checksum
    0xff,
];

/// The same behind headers of 0, 24 and 60 bytes. Without a header the checksum is the fragment's word.
#[rattlefmt::skip]
const NATT_0: &[Bytes] = &[(14, &KEEPALIVE), (23, &[17])];

#[rattlefmt::skip]
const NATT_24: &[Bytes] = &[(14, &[0x46]), (23, &[17]), (38, &KEEPALIVE)];

#[rattlefmt::skip]
const NATT_60: &[Bytes] = &[(14, &[0x4f]), (23, &[17]), (74, &KEEPALIVE)];

/// Whether multicast is filtered, and the host's address with its prefix.
type Setting = (bool, Option<Address>);

const OFF: Setting = (false, None);

const ON: Setting = (true, None);

/// 192.168.1.5
const HOST: u32 = 0xc0a8_0105;

/// 10.0.0.2
const OTHER: u32 = 0x0a00_0002;

#[rattlefmt::skip]
const ON_0: Setting = (true, Some(Address { ip: OTHER, prefix: 0 }));

#[rattlefmt::skip]
const ON_1: Setting = (true, Some(Address { ip: OTHER, prefix: 1 }));

#[rattlefmt::skip]
const ON_24: Setting = (true, Some(Address { ip: HOST, prefix: 24 }));

#[rattlefmt::skip]
const ON_30: Setting = (true, Some(Address { ip: HOST, prefix: 30 }));

#[rattlefmt::skip]
const OFF_30: Setting = (false, Some(Address { ip: HOST, prefix: 30 }));

#[rattlefmt::skip]
const ON_31: Setting = (true, Some(Address { ip: HOST, prefix: 31 }));

#[rattlefmt::skip]
const ON_32: Setting = (true, Some(Address { ip: HOST, prefix: 32 }));

const SENT: Keepalive = Keepalive {
    local: OTHER,
    local_port: 40_000,
    remote: 0x0a00_0009,
    remote_port: 443,
    sequence: 1000,
    acknowledgement: 2000,
};

/// To another port of the same host.
const BESIDE: Keepalive = Keepalive {
    local: OTHER,
    local_port: 40_000,
    remote: 0x0a00_0009,
    remote_port: 80,
    sequence: 1000,
    acknowledgement: 2000,
};

/// With the greatest sequence number.
const LAST: Keepalive = Keepalive {
    local: OTHER,
    local_port: 40_000,
    remote: 0x0a00_0009,
    remote_port: 443,
    sequence: 0xffff_ffff,
    acknowledgement: 2000,
};

/// What a segment without an IPv4 header answers.
const BARE: Keepalive = Keepalive {
    local: OTHER,
    local_port: 2,
    remote: 0x0a00_0009,
    remote_port: 443,
    sequence: 0x0005_ffff,
    acknowledgement: 2000,
};

/// The keepalives by their slots.
type Sent = &'static [Keepalive];

const NONE: Sent = &[];

const ONE: Sent = &[SENT];

const TWO: Sent = &[BESIDE, SENT];

const EIGHT: Sent = &[BESIDE, BESIDE, BESIDE, BESIDE, BESIDE, BESIDE, BESIDE, SENT];

/// The setting and the keepalives; what is in the packet, and what stands in it instead; the answer, and the bytes from
/// which on it comes. Shorter packets pass.
type Row = (
    Setting,
    Sent,
    &'static [Bytes],
    &'static [Bytes],
    Verdict,
    Counter,
    usize,
);

#[rattlefmt::skip]
static ROWS: [Row; 45] = [
    (ON, NONE, DHCP_24, &[], Pass, PassedDhcp, 80),
    (ON, NONE, DHCP_24, &[(21, &[1])], Drop, DroppedIpv4BroadcastAddr, 34),
    (ON, NONE, DHCP_24, &[(21, &[1]), (30, &[224, 0, 0, 1])], Drop, DroppedIpv4Multicast, 31),
    (ON, NONE, DHCP_24, &[(20, &[0xe0])], Pass, PassedDhcp, 80),
    (ON, NONE, DHCP_24, &[(20, &[0x10])], Drop, DroppedIpv4BroadcastAddr, 34),
    (ON, NONE, DHCP_24, &[(79, &[2])], Drop, DroppedIpv4BroadcastAddr, 80),
    (ON, NONE, DHCP_24, &[(41, &[67])], Drop, DroppedIpv4BroadcastAddr, 42),
    (ON, NONE, DHCP_24, &[(23, &[6])], Drop, DroppedIpv4BroadcastAddr, 34),
    (OFF, NONE, DHCP_24, &[], Pass, PassedIpv4, 40),
    (ON, NONE, DHCP_0, &[], Pass, PassedDhcp, 56),
    (ON, NONE, DHCP_4, &[], Drop, DroppedIpv4BroadcastAddr, 34),
    (ON, NONE, DHCP_20, &[], Pass, PassedDhcp, 76),
    (ON, NONE, DHCP_60, &[], Pass, PassedDhcp, 116),
    (ON, NONE, DATAGRAM, &[], Pass, PassedIpv4Unicast, 38),
    (ON, NONE, DATAGRAM, &[(0, &[255, 255, 255, 255, 255, 255])], Drop, DroppedIpv4L2Broadcast, 38),
    (OFF, NONE, DATAGRAM, &[(0, &[255, 255, 255, 255, 255, 255])], Pass, PassedIpv4, 36),
    (ON, NONE, DATAGRAM, &[(30, &[0xef])], Drop, DroppedIpv4Multicast, 38),
    (ON, NONE, DATAGRAM, &[(30, &[0xf0])], Pass, PassedIpv4Unicast, 38),
    (ON_30, NONE, DATAGRAM, &[(33, &[7])], Drop, DroppedIpv4BroadcastNet, 38),
    (ON_31, NONE, DATAGRAM, &[(33, &[5])], Pass, PassedIpv4Unicast, 38),
    (ON_32, NONE, DATAGRAM, &[(33, &[5])], Pass, PassedIpv4Unicast, 38),
    (OFF_30, NONE, DATAGRAM, &[(33, &[7])], Pass, PassedIpv4, 36),
    (ON_24, NONE, DATAGRAM, &[(33, &[7])], Pass, PassedIpv4Unicast, 38),
    (ON_24, NONE, DATAGRAM, &[(33, &[255])], Drop, DroppedIpv4BroadcastNet, 38),
    (ON_1, NONE, DATAGRAM, &[(30, &[127, 255, 255, 255])], Drop, DroppedIpv4BroadcastNet, 38),
    (ON_0, NONE, DATAGRAM, &[(30, &[127, 255, 255, 255])], Pass, PassedIpv4Unicast, 38),
    (ON_0, NONE, DATAGRAM, &[(30, &[255, 255, 255, 255])], Drop, DroppedIpv4BroadcastAddr, 38),
    (OFF, ONE, SEGMENT, &[], Drop, DroppedIpv4KeepaliveAck, 47),
    (OFF, ONE, SEGMENT, &[(17, &[0x29])], Pass, PassedIpv4, 47),
    (OFF, ONE, SEGMENT, &[(46, &[0x53])], Drop, DroppedIpv4KeepaliveAck, 47),
    (OFF, ONE, SEGMENT, &[(46, &[0x54])], Pass, PassedIpv4, 47),
    (OFF, ONE, SEGMENT, &[(29, &[8])], Pass, PassedIpv4, 34),
    (OFF, ONE, SEGMENT, &[(45, &[0xe8])], Pass, PassedIpv4, 47),
    (OFF, ONE, SEGMENT, &[(23, &[17])], Pass, PassedIpv4, 36),
    (OFF, NONE, SEGMENT, &[], Pass, PassedIpv4, 24),
    (OFF, &[LAST], SEGMENT, &[(42, &[0, 0, 0, 0])], Drop, DroppedIpv4KeepaliveAck, 47),
    (OFF, &[LAST], SEGMENT, &[(42, &[255, 255, 255, 255])], Pass, PassedIpv4, 47),
    (OFF, &[BARE], SEGMENT_0, &[], Drop, DroppedIpv4KeepaliveAck, 34),
    (OFF, ONE, SEGMENT_24, &[], Drop, DroppedIpv4KeepaliveAck, 51),
    (OFF, ONE, SEGMENT_60, &[], Drop, DroppedIpv4KeepaliveAck, 87),
    (OFF, TWO, SEGMENT, &[], Drop, DroppedIpv4KeepaliveAck, 47),
    (OFF, EIGHT, SEGMENT, &[], Drop, DroppedIpv4KeepaliveAck, 47),
    (OFF, EIGHT, SEGMENT, &[(35, &[22])], Pass, PassedIpv4, 47),
    (ON, ONE, SEGMENT, &[], Drop, DroppedIpv4KeepaliveAck, 47),
    (ON, ONE, SEGMENT, &[(17, &[0x29])], Pass, PassedIpv4Unicast, 47),
];

/// The same of NAT keepalives.
#[rattlefmt::skip]
static NATT_ROWS: [Row; 20] = [
    (OFF, NONE, NATT, &[], Drop, DroppedIpv4NattKeepalive, 43),
    (ON, NONE, NATT, &[], Drop, DroppedIpv4NattKeepalive, 43),
    (OFF, ONE, NATT, &[], Drop, DroppedIpv4NattKeepalive, 43),
    (ON_24, EIGHT, NATT, &[], Drop, DroppedIpv4NattKeepalive, 43),
    (OFF, NONE, NATT_0, &[], Drop, DroppedIpv4NattKeepalive, 24),
    (OFF, NONE, NATT_24, &[], Drop, DroppedIpv4NattKeepalive, 47),
    (OFF, NONE, NATT_60, &[], Drop, DroppedIpv4NattKeepalive, 83),
    (OFF, NONE, NATT, &[(23, &[6])], Pass, PassedIpv4, 24),
    (OFF, NONE, NATT, &[(21, &[1])], Pass, PassedIpv4, 24),
    (OFF, NONE, NATT, &[(20, &[0xe0])], Drop, DroppedIpv4NattKeepalive, 43),
    (OFF, NONE, NATT, &[(35, &[0x93])], Pass, PassedIpv4, 36),
    (OFF, NONE, NATT, &[(35, &[0x95])], Pass, PassedIpv4, 36),
    (OFF, NONE, NATT, &[(37, &[0x93])], Drop, DroppedIpv4NattKeepalive, 43),
    (OFF, NONE, NATT, &[(37, &[0x95])], Drop, DroppedIpv4NattKeepalive, 43),
    (OFF, NONE, NATT, &[(39, &[8])], Pass, PassedIpv4, 40),
    (OFF, NONE, NATT, &[(39, &[10])], Pass, PassedIpv4, 40),
    (OFF, NONE, NATT, &[(42, &[0xfe])], Pass, PassedIpv4, 43),
    (ON, NONE, NATT, &[(42, &[0xfe])], Pass, PassedIpv4Unicast, 43),
    (ON, NONE, NATT, &[(30, &[224])], Drop, DroppedIpv4Multicast, 38),
    (ON_24, NONE, NATT, &[(30, &[192, 168, 1, 255])], Drop, DroppedIpv4BroadcastNet, 38),
];

/// A packet's bytes. What doesn't fit is left out.
fn put(packet: &mut [u8; 116], bytes: &[Bytes]) {
    for part in bytes {
        if part.0 <= 116 && part.1.len() <= 116 - part.0 {
            packet[part.0..part.0 + part.1.len()].copy_from_slice(part.1);
        }
    }
}

/// A packet with other bytes.
fn packet_with(bytes: &[Bytes], others: &[Bytes]) -> [u8; 116] {
    let mut packet = [0; 116];
    packet[..14].copy_from_slice(&HEADER);
    put(&mut packet, bytes);
    put(&mut packet, others);
    packet
}

/// The first slots hold the keepalives.
fn slots_with(sent: &[Keepalive]) -> [Option<Keepalive>; 8] {
    let mut slots = [None; 8];
    for (slot, keepalive) in sent.iter().enumerate() {
        if slot < 8 {
            slots[slot] = Some(*keepalive);
        }
    }
    slots
}

/// A basis with nothing denied.
fn basis_at(alloc: Global, setting: Setting, keepalives: [Option<Keepalive>; 8]) -> Basis
    ensures { need_of result ≤ limit_of result.config }
{
    Basis {
        config: Config {
            mac: MAC,
            capacity: 2048,
            drop_802_3: true,
            deny: List::new(alloc),
        },
        state: FilterState {
            multicast: setting.0,
            doze: false,
            address: setting.1,
            keepalives,
        },
        chosen: List::new(alloc),
    }
}

/// Whether each packet that is cut is answered so: it passes where it is shorter than what is needed.
fn are_answered(code: &[u8], basis: &Basis, row: &Row) -> bool
    requires { length code.now ≤ 65535 }
{
    let packet = packet_with(row.2, row.3);
    for len in 15..117 {
        let answer = if len < row.6 {
            (Pass, None)
        } else {
            (row.4, Some(row.5))
        };
        if !is_answered(code, basis, 0, &packet[..len], answer) {
            return false;
        }
    }
    true
}

/// Whether a row holds. A program has at most 600 bytes, and 80 for each keepalive.
fn holds(alloc: Global, row: &Row) -> Result<bool, Fail> {
    let basis = basis_at(alloc, row.0, slots_with(row.1));
    let code = generate(alloc, &basis)?;
    let short = code.len() <= 600 + 80 * row.1.len().min(8);
    Ok(short && code.len() <= 65535 && are_answered(code.as_slice(), &basis, row))
}

#[test]
fn ipv4_packets_are_answered(rt: HostRuntime) -> Result<(), Fail> {
    for (number, row) in ROWS.iter().enumerate() {
        assert!(rt; holds(rt.alloc(), row)?, "row {number}");
    }
    Ok(())
}

#[test]
fn natt_keepalives_are_answered(rt: HostRuntime) -> Result<(), Fail> {
    for (number, row) in NATT_ROWS.iter().enumerate() {
        assert!(rt; holds(rt.alloc(), row)?, "row {number}");
    }
    Ok(())
}
