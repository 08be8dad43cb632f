ghost use Rattle.std.specs.Prelude.{◌≤◌, ◌<◌, ◌-◌, ◌^◌};

use crate::{Core, StartError};
use apf_base::{List, OutOfMemory};
use apf_interp::Verdict;
use data_counters::Counter;
use policy_state::{Address, Config, Keepalive, StateError, Update, UpdateReply};
use ra_records::RaReply;
use std::alloc::Global;
use std::process::Abort;
use std::test::Fail;

#[rattlefmt::skip]
const ADVERTISEMENT: [u8; 142] = [
    0x33, 0x33, 0x00, 0x00, 0x00, 0x01,             // 0: destination
    0x02, 0x00, 0x00, 0x00, 0x00, 0x99,             // source
    0x86, 0xdd,                                     // EtherType: IPv6
    0x60, 0x00, 0x00, 0x00,                         // 14: version 6, traffic class, flow label
    0x00, 0x58, 0x3a, 0xff,                         // payload length, next header: ICMPv6, hop limit
    0xfe, 0x80, 0x00, 0x00, 0x00, 0x00, 0x00, 0x00, // 22: source
    0x00, 0x00, 0x00, 0x00, 0x00, 0x00, 0x00, 0x99,
    0xff, 0x02, 0x00, 0x00, 0x00, 0x00, 0x00, 0x00, // 38: destination, all nodes
    0x00, 0x00, 0x00, 0x00, 0x00, 0x00, 0x00, 0x01,
    0x86, 0x00, 0x00, 0x00,                         // 54: type, code, checksum
    0x40, 0x00, 0x07, 0x08,                         // 58: hop limit, flags, router lifetime: 1800
    0x00, 0x00, 0x00, 0x00, 0x00, 0x00, 0x00, 0x00, // 62: reachable time, retransmission timer
    0x01, 0x01, 0x02, 0x00, 0x00, 0x00, 0x00, 0x99, // 70: source link-layer address
    0x05, 0x01, 0x00, 0x00, 0x00, 0x00, 0x05, 0xdc, // 78: MTU
    0x03, 0x04, 0x40, 0xc0,                         // 86: prefix information of 32 bytes
    0x00, 0x27, 0x8d, 0x00, 0x00, 0x09, 0x3a, 0x80, // 90: valid and preferred lifetime: 2592000, 604800
    0x00, 0x00, 0x00, 0x00,
    0x20, 0x01, 0x0d, 0xb8, 0x00, 0x00, 0x00, 0x00,
    0x00, 0x00, 0x00, 0x00, 0x00, 0x00, 0x00, 0x00,
    0x19, 0x03, 0x00, 0x00, 0x00, 0x00, 0x07, 0x08, // 118: DNS servers of 24 bytes, lifetime: 1800
    0x20, 0x01, 0x0d, 0xb8, 0x00, 0x00, 0x00, 0x00,
    0x00, 0x00, 0x00, 0x00, 0x00, 0x00, 0x00, 0x01,
];

const SENT: Keepalive = Keepalive {
    local: 0x0a00_0002,
    local_port: 40_000,
    remote: 0x0a00_0009,
    remote_port: 443,
    sequence: 1000,
    acknowledgement: 2000,
};

fn config(alloc: Global, capacity: u32) -> Config
    requires least { 128 ≤ capacity }
    requires most { capacity ≤ 8192 }
{
    Config {
        mac: [2, 0, 0, 0, 0, 1],
        capacity,
        drop_802_3: true,
        deny: List::new(alloc),
    }
}

/// What came of a frame: its answer, the reply where it was given to be learnt, the number of the install that stands
/// then, and how many records that leaves out.
#[derive(Clone, Copy, Debug, PartialEq, Eq)]
struct Told {
    age: u32,
    counter: Option<Counter>,
    reply: Option<RaReply>,
    number: u64,
    left: usize,
}

fn passes(age: u32, reply: RaReply, number: u64, left: usize) -> Told {
    Told {
        age,
        counter: Some(Counter::PassedIpv6Icmp),
        reply: Some(reply),
        number,
        left,
    }
}

fn drops(age: u32, number: u64) -> Told {
    Told {
        age,
        counter: Some(Counter::DroppedRa),
        reply: None,
        number,
        left: 0,
    }
}

/// The advertisement from another source, with this router lifetime.
fn advertisement(source: u8, lifetime: u16) -> [u8; 142] {
    let mut frame = ADVERTISEMENT;
    frame[37] = source;
    frame[60..62].copy_from_slice(&lifetime.to_be_bytes());
    frame
}

/// Answers a frame, and gives it to be learnt where it passes.
fn take(alloc: Global, core: &mut Core, frame: &[u8; 142], second: u32) -> Result<Told, OutOfMemory>
    requires { core.old.install.number < 2 ^ 64 - 1 }
{
    let answer = core.answer(frame, second);
    let reply = if answer.verdict == Verdict::Pass {
        Some(core.advertise(alloc, frame, second)?)
    } else {
        None
    };
    let install = core.install().copy(alloc)?;
    Ok(Told {
        age: answer.age,
        counter: answer.counter,
        reply,
        number: install.number,
        left: install.left.len(),
    })
}

/// Gives frames to a core that starts at 1000: each has its second, its source and its router lifetime.
fn learns(
    rt: &impl Abort,
    alloc: Global,
    capacity: u32,
    rows: &[(u32, u8, u16, Told)],
) -> Result<(), Fail>
    requires least { 128 ≤ capacity }
    requires most { capacity ≤ 8192 }
{
    let mut core = Core::new(alloc, config(alloc, capacity), 1000)?;
    for (second, source, lifetime, want) in rows {
        assert!(rt; core.number() < u64::MAX);
        let told = take(
            alloc,
            &mut core,
            &advertisement(*source, *lifetime),
            *second,
        )?;
        assert_eq!(rt; told, *want, "source {source} at {second}");
    }
    Ok(())
}

#[test]
fn advertisements_are_refreshed_and_dropped(rt: HostRuntime) -> Result<(), Fail> {
    learns(
        &rt,
        rt.alloc(),
        2048,
        &[
            (1000, 0x99, 1800, passes(0, RaReply::New(1), 1, 0)),
            (1300, 0x99, 1800, drops(300, 1)),
            (1301, 0x99, 1800, passes(301, RaReply::Refreshed(1), 2, 0)),
            (1301, 0x98, 0, passes(0, RaReply::ZeroLifetime, 2, 0)),
        ],
    )
}

#[test]
fn advertisements_without_room_are_left(rt: HostRuntime) -> Result<(), Fail> {
    learns(
        &rt,
        rt.alloc(),
        1024,
        &[
            (1000, 0x99, 1800, passes(0, RaReply::New(1), 1, 0)),
            (1000, 0x98, 1800, passes(0, RaReply::New(2), 2, 1)),
            (1001, 0x98, 1800, passes(1, RaReply::Match(2), 2, 1)),
        ],
    )
}

#[test]
fn ten_records_are_held(rt: HostRuntime) -> Result<(), Fail> {
    learns(
        &rt,
        rt.alloc(),
        2048,
        &[
            (1000, 1, 1800, passes(0, RaReply::New(1), 1, 0)),
            (1000, 2, 1800, passes(0, RaReply::New(2), 2, 0)),
            (1000, 3, 1800, passes(0, RaReply::New(3), 3, 0)),
            (1000, 4, 1800, passes(0, RaReply::New(4), 4, 0)),
            (1000, 5, 1800, passes(0, RaReply::New(5), 5, 1)),
            (1000, 6, 1800, passes(0, RaReply::New(6), 6, 2)),
            (1000, 7, 1800, passes(0, RaReply::New(7), 7, 3)),
            (1000, 8, 1800, passes(0, RaReply::New(8), 8, 4)),
            (1000, 9, 1800, passes(0, RaReply::New(9), 9, 5)),
            (1000, 10, 1800, passes(0, RaReply::New(10), 10, 6)),
            (1000, 11, 1800, passes(0, RaReply::Full, 10, 6)),
        ],
    )
}

const ADD: Update = Update::KeepaliveAdd {
    slot: 0,
    sent: SENT,
};

#[test]
fn updates_are_answered(rt: HostRuntime) -> Result<(), Fail> {
    let far = Address {
        ip: 0x0a00_0001,
        prefix: 33,
    };
    for (capacity, update, reply, number) in [
        (
            800u32,
            ADD,
            UpdateReply::NotInstalled {
                need: 680,
                limit: 672,
            },
            0u64,
        ),
        (1024, ADD, UpdateReply::Installed, 1),
        (
            1024,
            Update::Address(Some(far)),
            UpdateReply::Refused(StateError::Prefix(33)),
            0,
        ),
        (
            1024,
            Update::KeepaliveRemove { slot: 3 },
            UpdateReply::Refused(StateError::SlotEmpty(3)),
            0,
        ),
        (1024, Update::Doze(false), UpdateReply::Same, 0),
    ] {
        let mut core = Core::new(rt.alloc(), config(rt.alloc(), capacity), 1000)?;
        assert!(rt; core.number() < u64::MAX);
        assert_eq!(rt;
            core.update(rt.alloc(), &update, 1001)?,
            reply,
            "at {capacity}"
        );
        assert_eq!(rt;
            (core.number(), core.clock()),
            (number, 1001),
            "at {capacity}"
        );
    }
    let refused = Core::new(rt.alloc(), config(rt.alloc(), 512), 1000).err();
    assert_eq!(rt;
        refused,
        Some(StartError::TooLarge {
            need: 600,
            limit: 384
        })
    );
    Ok(())
}
