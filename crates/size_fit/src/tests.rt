use crate::*;
use apf_base::List;
use policy_state::{Config, FilterState, Keepalive};
use ra_records::{Held, Record};
use std::test::Fail;

#[rattlefmt::skip]
const ADVERTISEMENT: [u8; 142] = [
    0x33, 0x33, 0x00, 0x00, 0x00, 0x01,             // 0: destination
    0x02, 0x00, 0x00, 0x00, 0x00, 0x99,             // source
    0x86, 0xdd,                                     // EtherType: IPv6
    0x60, 0x00, 0x00, 0x00,                         // 14: version 6, traffic class, flow label
    0x00, 0x58, 0x3a, 0xff,                         // payload length, next header: ICMPv6, hop limit
    0xfe, 0x80, 0x00, 0x00, 0x00, 0x00, 0x00, 0x00, // 22: source
    0x00, 0x00, 0x00, 0x00, 0x00, 0x00, 0x00, 0x99,
    0xff, 0x02, 0x00, 0x00, 0x00, 0x00, 0x00, 0x00, // 38: destination, all nodes
    0x00, 0x00, 0x00, 0x00, 0x00, 0x00, 0x00, 0x01,
    0x86, 0x00, 0x00, 0x00,                         // 54: type, code, checksum
    0x40, 0x00, 0x07, 0x08,                         // 58: hop limit, flags, router lifetime: 1800
    0x00, 0x00, 0x00, 0x00, 0x00, 0x00, 0x00, 0x00, // 62: reachable time, retransmission timer
    0x01, 0x01, 0x02, 0x00, 0x00, 0x00, 0x00, 0x99, // 70: source link-layer address
    0x05, 0x01, 0x00, 0x00, 0x00, 0x00, 0x05, 0xdc, // 78: MTU
    0x03, 0x04, 0x40, 0xc0,                         // 86: prefix information of 32 bytes
    0x00, 0x27, 0x8d, 0x00, 0x00, 0x09, 0x3a, 0x80, // 90: valid and preferred lifetime: 2592000, 604800
    0x00, 0x00, 0x00, 0x00,
    0x20, 0x01, 0x0d, 0xb8, 0x00, 0x00, 0x00, 0x00,
    0x00, 0x00, 0x00, 0x00, 0x00, 0x00, 0x00, 0x00,
    0x19, 0x03, 0x00, 0x00, 0x00, 0x00, 0x07, 0x08, // 118: DNS servers of 24 bytes, lifetime: 1800
    0x20, 0x01, 0x0d, 0xb8, 0x00, 0x00, 0x00, 0x00,
    0x00, 0x00, 0x00, 0x00, 0x00, 0x00, 0x00, 0x01,
];

const SENT: Keepalive = Keepalive {
    local: 0x0a00_0002,
    local_port: 40_000,
    remote: 0x0a00_0009,
    remote_port: 443,
    sequence: 1000,
    acknowledgement: 2000,
};

// The records of the advertisement without options, whole, and without options weigh 152, 272 and 152.
#[test]
fn records_are_chosen(rt: HostRuntime) -> Result<(), Fail> {
    let config = Config {
        mac: [2, 0, 0, 0, 0, 1],
        capacity: 1024,
        drop_802_3: true,
        deny: List::new(rt.alloc()),
    };
    let state = FilterState::start();
    let mut records = List::new(rt.alloc());
    for (id, keep, expected) in [(1u64, 70usize, 152u32), (2, 142, 272), (3, 70, 152)] {
        let advert = Record::read(rt.alloc(), &ADVERTISEMENT[..keep.min(142)], 1000)?;
        assert_eq!(rt; weight(&advert), expected, "record {id}");
        records.push(Held { id, advert })?;
    }
    assert!(rt; records.len() <= 32);
    for (limit, want) in [
        (
            384u32,
            Err(TooLarge {
                need: 600,
                limit: 384,
            }),
        ),
        (
            599,
            Err(TooLarge {
                need: 600,
                limit: 599,
            }),
        ),
        (600, Ok(Fit { kept: 0, need: 600 })),
        (751, Ok(Fit { kept: 0, need: 600 })),
        (752, Ok(Fit { kept: 1, need: 752 })),
        (1023, Ok(Fit { kept: 1, need: 752 })),
        (
            1024,
            Ok(Fit {
                kept: 2,
                need: 1024,
            }),
        ),
        (
            1176,
            Ok(Fit {
                kept: 3,
                need: 1176,
            }),
        ),
        (
            u32::MAX,
            Ok(Fit {
                kept: 3,
                need: 1176,
            }),
        ),
    ] {
        assert_eq!(rt;
            choose(&config, &state, records.as_slice(), limit),
            want,
            "at {limit}"
        );
    }
    Ok(())
}

#[test]
fn bases_are_summed(rt: HostRuntime) -> Result<(), Fail> {
    for (denied, kept, want) in [(0u16, 0usize, 600), (1, 0, 609), (0, 1, 680), (32, 8, 1528)] {
        let mut deny = List::new(rt.alloc());
        for ethertype in 0..denied {
            deny.push(ethertype)?;
        }
        assert!(rt; deny.len() <= 32);
        let config = Config {
            mac: [2, 0, 0, 0, 0, 1],
            capacity: 1024,
            drop_802_3: true,
            deny,
        };
        let mut state = FilterState::start();
        for slot in state.keepalives.iter_mut().take(kept) {
            *slot = Some(SENT);
        }
        assert_eq!(rt;
            base(&config, &state),
            want,
            "{denied} denied, {kept} keepalives"
        );
    }
    Ok(())
}
