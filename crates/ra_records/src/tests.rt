use crate::*;
use apf_base::{List, OutOfMemory};
use std::alloc::Global;
use std::test::Fail;

#[rattlefmt::skip]
const ADVERTISEMENT: [u8; 142] = [
    0x33, 0x33, 0x00, 0x00, 0x00, 0x01,             // 0: destination
    0x02, 0x00, 0x00, 0x00, 0x00, 0x99,             // source
    0x86, 0xdd,                                     // EtherType: IPv6
    0x60, 0x00, 0x00, 0x00,                         // 14: version 6, traffic class, flow label
    0x00, 0x58, 0x3a, 0xff,                         // payload length, next header: ICMPv6, hop limit
    0xfe, 0x80, 0x00, 0x00, 0x00, 0x00, 0x00, 0x00, // 22: source
    0x00, 0x00, 0x00, 0x00, 0x00, 0x00, 0x00, 0x99,
    0xff, 0x02, 0x00, 0x00, 0x00, 0x00, 0x00, 0x00, // 38: destination, all nodes
    0x00, 0x00, 0x00, 0x00, 0x00, 0x00, 0x00, 0x01,
    0x86, 0x00, 0x00, 0x00,                         // 54: type, code, checksum
    0x40, 0x00, 0x07, 0x08,                         // 58: hop limit, flags, router lifetime: 1800
    0x00, 0x00, 0x00, 0x00, 0x00, 0x00, 0x00, 0x00, // 62: reachable time, retransmission timer
    0x01, 0x01, 0x02, 0x00, 0x00, 0x00, 0x00, 0x99, // 70: source link-layer address
    0x05, 0x01, 0x00, 0x00, 0x00, 0x00, 0x05, 0xdc, // 78: MTU
    0x03, 0x04, 0x40, 0xc0,                         // 86: prefix information of 32 bytes
    0x00, 0x27, 0x8d, 0x00, 0x00, 0x09, 0x3a, 0x80, // 90: valid and preferred lifetime: 2592000, 604800
    0x00, 0x00, 0x00, 0x00,
    0x20, 0x01, 0x0d, 0xb8, 0x00, 0x00, 0x00, 0x00,
    0x00, 0x00, 0x00, 0x00, 0x00, 0x00, 0x00, 0x00,
    0x19, 0x03, 0x00, 0x00, 0x00, 0x00, 0x07, 0x08, // 118: DNS servers of 24 bytes, lifetime: 1800
    0x20, 0x01, 0x0d, 0xb8, 0x00, 0x00, 0x00, 0x00,
    0x00, 0x00, 0x00, 0x00, 0x00, 0x00, 0x00, 0x01,
];

// Options that have no lifetime: an address, an MTU, a redirected header, an unknown one, and one of 16 bytes.
#[rattlefmt::skip]
const WITHOUT: [u8; 48] = [
    0x01, 0x01, 0xff, 0xff, 0xff, 0xff, 0xff, 0xff,
    0x05, 0x01, 0x00, 0x00, 0x00, 0x00, 0x00, 0x00,
    0x04, 0x01, 0x00, 0x00, 0x00, 0x00, 0x00, 0x00,
    0xff, 0x01, 0x00, 0x00, 0x00, 0x00, 0x00, 0x00,
    0x02, 0x02, 0x00, 0x00, 0x00, 0x00, 0x00, 0x00,
    0x00, 0x00, 0x00, 0x00, 0x00, 0x00, 0x00, 0x00,
];

// Routes, DNS servers and a search list, of 7, 6 and 5 seconds, and prefix information of 2^32 - 1 and of 1 second.
#[rattlefmt::skip]
const WITH: [u8; 40] = [
    0x18, 0x01, 0x00, 0x00, 0x00, 0x00, 0x00, 0x07, // 70
    0x19, 0x01, 0x00, 0x00, 0x00, 0x00, 0x00, 0x06, // 78
    0x1f, 0x01, 0x00, 0x00, 0x00, 0x00, 0x00, 0x05, // 86
    0x03, 0x02, 0x00, 0x00, 0xff, 0xff, 0xff, 0xff, // 94
    0x00, 0x00, 0x00, 0x01, 0x00, 0x00, 0x00, 0x00,
];

// Prefix information of 8 bytes.
const SHORT_PREFIX: [u8; 8] = [0x03, 0x01, 0x40, 0xc0, 0x00, 0x27, 0x8d, 0x00];

// An option of 1,440 bytes, which the bytes behind its first two belong to.
const GREATEST: [u8; 2] = [0x01, 0xb4];

/// What is read of a frame: the least lifetime, how many lifetimes and sections, and the bytes of all sections.
#[derive(Clone, Copy, Debug, PartialEq, Eq)]
struct Summary {
    least: u32,
    lifetimes: usize,
    sections: usize,
    compared: u32,
}

fn summarize(record: &Record) -> Summary {
    let mut compared = 0u32;
    for section in record.sections() {
        compared = compared.wrapping_add(section.len);
    }
    Summary {
        least: record.least(),
        lifetimes: record.lifetimes().len(),
        sections: record.sections().len(),
        compared,
    }
}

fn read_as(alloc: Global, frame: &[u8]) -> Result<Summary, RaError> {
    let record = Record::read(alloc, frame, 1000)?;
    Ok(summarize(&record))
}

/// The front of the advertisement with some bytes changed, then other bytes, then zeros.
fn frame_of(
    alloc: Global,
    keep: usize,
    changed: &[(usize, u8)],
    more: &[u8],
    zeros: usize,
) -> Result<List<u8>, OutOfMemory> {
    let mut front = ADVERTISEMENT;
    for (place, byte) in changed {
        if *place < 142 {
            front[*place] = *byte;
        }
    }
    let mut frame = List::new(alloc);
    frame.extend(&front[..keep.min(142)])?;
    frame.extend(more)?;
    for _ in 0..zeros {
        frame.push(0)?;
    }
    Ok(frame)
}

#[test]
fn frames_are_read(rt: HostRuntime) -> Result<(), Fail> {
    #[rattlefmt::skip]
    let rows: [(&str, usize, &[(usize, u8)], &[u8], usize, Result<Summary, RaError>); 23] = [
        ("whole", 142, &[], &[], 0, Ok(Summary { least: 1800, lifetimes: 4, sections: 6, compared: 123 })),
        ("no options", 70, &[], &[], 0, Ok(Summary { least: 1800, lifetimes: 1, sections: 4, compared: 63 })),
        ("other options", 70, &[], &WITHOUT, 0, Ok(Summary { least: 1800, lifetimes: 1, sections: 4, compared: 111 })),
        ("all lifetimes", 70, &[], &WITH, 0, Ok(Summary { least: 1, lifetimes: 6, sections: 8, compared: 83 })),
        ("one of two options", 78, &[], &ADVERTISEMENT[118..], 0, Ok(Summary { least: 1800, lifetimes: 2, sections: 5, compared: 91 })),
        ("several of each", 142, &[], &WITH, 0, Ok(Summary { least: 1, lifetimes: 9, sections: 10, compared: 143 })),
        ("greatest lifetimes", 142, &[(60, 255), (61, 255), (90, 255), (94, 255), (122, 255)], &[], 0, Ok(Summary { least: 65535, lifetimes: 4, sections: 6, compared: 123 })),
        ("no router", 142, &[(60, 0), (61, 0)], &[], 0, Ok(Summary { least: 0, lifetimes: 4, sections: 6, compared: 123 })),
        ("1510 bytes", 70, &[], &GREATEST, 1438, Ok(Summary { least: 1800, lifetimes: 1, sections: 4, compared: 1503 })),
        ("54 bytes", 54, &[], &[], 0, Err(RaError::NotRa)),
        ("55 bytes", 55, &[], &[], 0, Err(RaError::Short)),
        ("69 bytes", 69, &[], &[], 0, Err(RaError::Short)),
        ("71 bytes", 71, &[], &[], 0, Err(RaError::CutOption(70))),
        ("an option of no bytes", 142, &[(71, 0)], &[], 0, Err(RaError::ZeroOption(70))),
        ("141 bytes", 141, &[], &[], 0, Err(RaError::CutOption(118))),
        ("an option past the end", 142, &[(119, 255)], &[], 0, Err(RaError::CutOption(118))),
        ("prefix information of 8 bytes", 70, &[], &SHORT_PREFIX, 0, Err(RaError::ShortOption(70))),
        ("the first is told", 142, &[(71, 0), (119, 255)], &[], 0, Err(RaError::ZeroOption(70))),
        ("IPv4", 142, &[(12, 8), (13, 0)], &[], 0, Err(RaError::NotRa)),
        ("a solicitation", 142, &[(54, 133)], &[], 0, Err(RaError::NotRa)),
        ("1511 bytes", 70, &[], &GREATEST, 1439, Err(RaError::CutOption(1510))),
        ("1514 bytes", 70, &[], &GREATEST, 1442, Err(RaError::ZeroOption(1510))),
        ("1515 bytes", 142, &[], &[], 1373, Err(RaError::TooLong)),
    ];
    for (row, keep, changed, more, zeros, want) in rows {
        let frame = frame_of(rt.alloc(), keep, changed, more, zeros)?;
        assert_eq!(rt; read_as(rt.alloc(), frame.as_slice()), want, "{row}");
    }
    Ok(())
}

#[test]
fn records_match_and_expire(rt: HostRuntime) -> Result<(), Fail> {
    let variant = frame_of(rt.alloc(), 142, &[(37, 1)], &[], 0)?;
    let mut record = Record::read(rt.alloc(), variant.as_slice(), 1000)?.copy(rt.alloc())?;
    #[rattlefmt::skip]
    let rows: [(&str, usize, &[(usize, u8)], bool); 7] = [
        ("as it was", 142, &[(37, 1)], true),
        ("from another router", 142, &[], false),
        ("masked bytes", 142, &[(37, 1), (15, 9), (16, 9), (17, 9), (56, 9), (57, 9), (60, 9), (95, 9), (125, 9)], true),
        ("before the flow label", 142, &[(37, 1), (14, 9)], false),
        ("behind the flow label", 142, &[(37, 1), (18, 9)], false),
        ("another hop limit", 142, &[(37, 1), (21, 9)], false),
        ("a byte less", 141, &[(37, 1)], false),
    ];
    for (row, keep, changed, want) in rows {
        let frame = frame_of(rt.alloc(), keep, changed, &[], 0)?;
        assert_eq!(rt; record.matches(frame.as_slice()), want, "{row}");
    }
    for (now, remaining, hold) in [
        (999u32, 1800u32, 300u32),
        (1000, 1800, 300),
        (2793, 7, 1),
        (2794, 6, 1),
        (2795, 5, 0),
        (2799, 1, 0),
        (2800, 0, 0),
        (u32::MAX, 0, 0),
    ] {
        assert_eq!(rt;
            (record.remaining(now), record.hold(now)),
            (remaining, hold),
            "at {now}"
        );
    }
    let later = frame_of(rt.alloc(), 142, &[(37, 1), (60, 0)], &[], 0)?;
    assert!(rt; record.matches(later.as_slice()));
    record.refresh(later.as_slice(), 2000);
    assert_eq!(rt;
        (record.least(), record.seen(), record.bytes()[60]),
        (8, 2000, 0)
    );
    Ok(())
}
