//! Router advertisements, asked of a program with two chosen records.

ghost use Rattle.std.specs.Prelude.{◌≤◌, length, IfOk};
ghost use Rattle.size_fit.specs.Sizes.{limit_of};
ghost use Rattle.apf_generate.specs.Sizes.{need_of};

use crate::generate;
use crate::tests::is_answered;
use apf_base::{List, OutOfMemory};
use apf_coding::Verdict::{self, Drop, Pass};
use data_counters::Counter::{self, *};
use policy_state::{Basis, Chosen, Config, FilterState};
use ra_records::Record;
use size_fit::{base, weight};
use std::alloc::Global;
use std::test::Fail;

#[rattlefmt::skip]
const ADVERTISEMENT: [u8; 142] = [
    0x33, 0x33, 0x00, 0x00, 0x00, 0x01,             // 0: destination
    0x02, 0x00, 0x00, 0x00, 0x00, 0x99,             // source
    0x86, 0xdd,                                     // EtherType: IPv6
    0x60, 0x00, 0x00, 0x00,                         // 14: version 6, traffic class, flow label
    0x00, 0x58, 0x3a, 0xff,                         // payload length, next header: ICMPv6, hop limit
    0xfe, 0x80, 0x00, 0x00, 0x00, 0x00, 0x00, 0x00, // 22: source
    0x00, 0x00, 0x00, 0x00, 0x00, 0x00, 0x00, 0x99,
    0xff, 0x02, 0x00, 0x00, 0x00, 0x00, 0x00, 0x00, // 38: destination, all nodes
    0x00, 0x00, 0x00, 0x00, 0x00, 0x00, 0x00, 0x01,
    0x86, 0x00, 0x00, 0x00,                         // 54: type, code, checksum
    0x40, 0x00, 0x07, 0x08,                         // 58: hop limit, flags, router lifetime: 1800
    0x00, 0x00, 0x00, 0x00, 0x00, 0x00, 0x00, 0x00, // 62: reachable time, retransmission timer
    0x01, 0x01, 0x02, 0x00, 0x00, 0x00, 0x00, 0x99, // 70: source link-layer address
    0x05, 0x01, 0x00, 0x00, 0x00, 0x00, 0x05, 0xdc, // 78: MTU
    0x03, 0x04, 0x40, 0xc0,                         // 86: prefix information of 32 bytes
    0x00, 0x27, 0x8d, 0x00, 0x00, 0x09, 0x3a, 0x80, // 90: valid and preferred lifetime: 2592000, 604800
    0x00, 0x00, 0x00, 0x00,
    0x20, 0x01, 0x0d, 0xb8, 0x00, 0x00, 0x00, 0x00,
    0x00, 0x00, 0x00, 0x00, 0x00, 0x00, 0x00, 0x00,
    0x19, 0x03, 0x00, 0x00, 0x00, 0x00, 0x07, 0x08, // 118: DNS servers of 24 bytes, lifetime: 1800
    0x20, 0x01, 0x0d, 0xb8, 0x00, 0x00, 0x00, 0x00,
    0x00, 0x00, 0x00, 0x00, 0x00, 0x00, 0x00, 0x01,
];

/// The age, how many bytes of the advertisement are left, the bytes that differ, and the answer.
type Row = (
    &'static str,
    u32,
    usize,
    &'static [(usize, u8)],
    Verdict,
    Counter,
);

// The first record is of the advertisement, with the hold 300, the second of one from another router, with the hold 100.
#[rattlefmt::skip]
static ROWS: [Row; 14] = [
    ("at the end of the hold", 300, 142, &[], Drop, DroppedRa),
    ("behind the hold", 301, 142, &[], Pass, PassedIpv6Icmp),
    ("a router lifetime of 300", 0, 142, &[(60, 0x01), (61, 0x2c)], Drop, DroppedRa),
    ("a router lifetime of 299", 0, 142, &[(60, 0x01), (61, 0x2b)], Pass, PassedIpv6Icmp),
    ("a prefix preferred for 300", 0, 142, &[(95, 0), (96, 0x01), (97, 0x2c)], Drop, DroppedRa),
    ("a prefix preferred for 299", 0, 142, &[(95, 0), (96, 0x01), (97, 0x2b)], Pass, PassedIpv6Icmp),
    ("a server for 299", 0, 142, &[(124, 0x01), (125, 0x2b)], Pass, PassedIpv6Icmp),
    ("other masked bytes", 0, 142, &[(15, 9), (16, 9), (17, 9), (56, 9), (57, 9), (90, 9)], Drop, DroppedRa),
    ("another hop limit", 0, 142, &[(21, 9)], Pass, PassedIpv6Icmp),
    ("another last byte", 0, 142, &[(141, 9)], Pass, PassedIpv6Icmp),
    ("a byte less", 0, 141, &[], Pass, PassedIpv6Icmp),
    ("of the second record", 100, 142, &[(37, 1)], Drop, DroppedRa),
    ("behind the second hold", 101, 142, &[(37, 1)], Pass, PassedIpv6Icmp),
    ("of neither record", 0, 142, &[(37, 2)], Pass, PassedIpv6Icmp),
];

/// The advertisement with some bytes changed.
fn advertisement_with(changed: &[(usize, u8)]) -> [u8; 142] {
    let mut frame = ADVERTISEMENT;
    for (place, byte) in changed {
        if *place < 142 {
            frame[*place] = *byte;
        }
    }
    frame
}

/// A basis with two records, if a device of 2,048 bytes has room for its program.
fn basis_of(alloc: Global, first: Chosen, second: Chosen) -> Result<Basis, OutOfMemory>
    ensures { IfOk result (λ basis. need_of basis ≤ limit_of basis.config) }
{
    let config = Config {
        mac: [2, 0, 0, 0, 0, 1],
        capacity: 2048,
        drop_802_3: true,
        deny: List::new(alloc),
    };
    let state = FilterState::start();
    if base(&config, &state) + weight(&first.advert) + weight(&second.advert) > 1920 {
        return Err(OutOfMemory);
    }
    let chosen = List::of(alloc, [first, second])?;
    Ok(Basis {
        config,
        state,
        chosen,
    })
}

#[test]
fn advertisements_are_answered(rt: HostRuntime) -> Result<(), Fail> {
    let other = advertisement_with(&[(37, 1)]);
    let first = Chosen {
        id: 1,
        advert: Record::read(rt.alloc(), &ADVERTISEMENT, 1000)?,
        hold: 300,
    };
    let second = Chosen {
        id: 2,
        advert: Record::read(rt.alloc(), &other, 1000)?,
        hold: 100,
    };
    let basis = basis_of(rt.alloc(), first, second)?.copy(rt.alloc())?;
    let code = generate(rt.alloc(), &basis)?;
    assert!(rt; code.len() <= 1056);
    for (row, age, len, changed, verdict, counter) in &ROWS {
        let frame = advertisement_with(changed);
        let frame = &frame[..(*len).min(142)];
        let answer = (*verdict, Some(*counter));
        let answered = is_answered(code.as_slice(), &basis, *age, frame, answer);
        assert!(rt; answered, "{row}");
    }
    Ok(())
}
