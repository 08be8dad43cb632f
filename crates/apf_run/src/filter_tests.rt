//! Reports of `filter`, row by row. In a wanted line S, C, T and N stand for a size, a code, a number of steps and the number
//! of an install.

use crate::running::{calls, list_of, status, words_of};
use apf_base::{List, MemShelf, MemSink, fill};
use pcap_files::{Kind, Stamp, head, put};
use std::alloc::Global;
use std::process::Abort;
use std::test::Fail;

/// A router advertisement: prefix information, MTU, DNS servers, and the address of its router.
#[rattlefmt::skip]
const ADVERTISEMENT: [u8; 142] = [
    0x33, 0x33, 0, 0, 0, 1, // destination: all nodes
    2, 0, 0, 0, 0, 0x99, // source
    0x86, 0xdd, // EtherType: IPv6
    0x60, 0, 0, 0, 0, 0x58, 0x3a, 0xff, // version, payload length, ICMPv6, hop limit
    0xfe, 0x80, 0, 0, 0, 0, 0, 0, 0, 0, 0, 0, 0, 0, 0, 0x99, // from fe80::99
    0xff, 2, 0, 0, 0, 0, 0, 0, 0, 0, 0, 0, 0, 0, 0, 1, // to ff02::1
    0x86, 0, 0, 0, 0x40, 0, 7, 8, // router advertisement, router lifetime 1800
    0, 0, 0, 0, 0, 0, 0, 0, // reachable time, retransmission timer
    1, 1, 2, 0, 0, 0, 0, 0x99, // source link-layer address
    5, 1, 0, 0, 0, 0, 5, 0xdc, // MTU 1500
    3, 4, 0x40, 0xc0, 0, 0x27, 0x8d, 0, 0, 9, 0x3a, 0x80, 0, 0, 0, 0, // prefix information
    0x20, 1, 0x0d, 0xb8, 0, 0, 0, 0, 0, 0, 0, 0, 0, 0, 0, 0, // 2001:db8::
    0x19, 3, 0, 0, 0, 0, 7, 8, // DNS servers, lifetime 1800
    0x20, 1, 0x0d, 0xb8, 0, 0, 0, 0, 0, 0, 0, 0, 0, 0, 0, 1, // 2001:db8::1
];

/// A frame: zeros; the advertisement from fe80:: and this byte, with its router lifetime or without; or the advertisement
/// cut or filled up with zeros to so many bytes, with the type and the length of its first option.
#[derive(Clone, Copy)]
pub enum Sent {
    Zeros,
    Router(u8),
    Leaving(u8),
    Edited(usize, u8, u8),
}

const SCRIPT: &str =
    "apf 1\nmac 02:00:00:00:00:01\ncapacity 1024\nstart 1000\ndrop802 on\ndeny none\n";

const SCRIPT_512: &str =
    "apf 1\nmac 02:00:00:00:00:01\ncapacity 512\nstart 1000\ndrop802 on\ndeny none\n";

const SCRIPT_800: &str =
    "apf 1\nmac 02:00:00:00:00:01\ncapacity 800\nstart 1000\ndrop802 on\ndeny none\n";

const SCRIPT_2048: &str =
    "apf 1\nmac 02:00:00:00:00:01\ncapacity 2048\nstart 1000\ndrop802 on\ndeny none\n";

const KEEPALIVE: &str = "at 1001 keepalive add 0 10.0.0.2:40000 10.0.0.9:443 1000 2000\n";

const EVENTS: &str =
    "at 1000 address 10.0.0.1/33\nat 1000 keepalive remove 3\nat 1000 keepalive add 8 10.0.0.2:40000 10.0.0.9:443 1000 2000\nat 1000 keepalive add 0 10.0.0.2:40000 10.0.0.9:443 1000 2000\nat 1000 keepalive add 0 10.0.0.2:40001 10.0.0.9:443 1000 2000\nat 1000 doze off\n";

/// A run of `filter`: its script, its events and the bytes of a comment behind them, its frames with their seconds, how
/// many bytes the capture lacks at its end, the calls that fail (0 for none), and what is wanted. The wanted lines stand in
/// the report in this order, it has so many lines, and so many bytes are left of the file that was opened last.
#[derive(Clone, Copy)]
pub struct Row {
    pub name: &'static str,
    pub script: &'static str,
    pub events: &'static str,
    pub comment: usize,
    pub frames: &'static [(u32, Sent)],
    pub cut: usize,
    pub fetch: u64,
    pub read: u64,
    pub write: u64,
    pub status: u8,
    pub lines: &'static [&'static str],
    pub count: usize,
    pub left: usize,
    pub err: &'static str,
}

/// A capture without frames.
pub const EMPTY: Row = Row {
    name: "empty capture",
    script: SCRIPT,
    events: "",
    comment: 0,
    frames: &[],
    cut: 0,
    fetch: 0,
    read: 0,
    write: 0,
    status: 0,
    lines: &[
        "gen 0 at 1000 size S left none code C",
        "total frames 0 passed 0 dropped 0 programs 1",
    ],
    count: 2,
    left: 0,
    err: "",
};

/// A script that is refused.
const REFUSED: Row = Row {
    status: 66,
    lines: &[],
    count: 0,
    ..EMPTY
};

/// A run that ends behind its first line.
const FIRST_LINE: Row = Row {
    lines: &["gen 0 at 1000 size S left none code C"],
    count: 1,
    ..EMPTY
};

// A function, since what is proved of a test reads through each constant that it names.
fn rows() -> [Row; 19] {
    [
        EMPTY,
        Row {
            name: "a realistic advertisement",
            script: SCRIPT_2048,
            frames: &[
                (1000, Sent::Router(0x99)),
                (1300, Sent::Router(0x99)),
                (1301, Sent::Router(0x99)),
            ],
            lines: &[
                "gen 0 at 1000 size S left none code C",
                "frame 1 gen 0 age 0 pass PASSED_IPV6_ICMP steps T",
                "ra 1 new 1",
                "gen 1 at 1000 size S left none code C",
                "frame 2 gen 1 age 300 drop DROPPED_RA steps T",
                "frame 3 gen 1 age 301 pass PASSED_IPV6_ICMP steps T",
                "ra 3 refreshed 1",
                "gen 2 at 1301 size S left none code C",
                "counter TOTAL_PACKETS 3",
                "counter PASSED_IPV6_ICMP 2",
                "counter DROPPED_RA 1",
                "total frames 3 passed 2 dropped 1 programs 3",
            ],
            count: 12,
            ..EMPTY
        },
        Row {
            name: "left out by size",
            frames: &[
                (1000, Sent::Router(0x99)),
                (1000, Sent::Router(0x98)),
                (1001, Sent::Router(0x98)),
            ],
            lines: &[
                "gen 1 at 1000 size S left none code C",
                "ra 2 new 2",
                "gen 2 at 1000 size S left 2 code C",
                "frame 3 gen 2 age 1 pass PASSED_IPV6_ICMP steps T",
                "ra 3 match 2",
                "counter TOTAL_PACKETS 3",
                "counter PASSED_IPV6_ICMP 3",
                "total frames 3 passed 3 dropped 0 programs 3",
            ],
            count: 12,
            ..EMPTY
        },
        Row {
            name: "eleven advertisements",
            script: SCRIPT_2048,
            frames: &[
                (1000, Sent::Router(1)),
                (1000, Sent::Router(2)),
                (1000, Sent::Router(3)),
                (1000, Sent::Router(4)),
                (1000, Sent::Router(5)),
                (1000, Sent::Router(6)),
                (1000, Sent::Router(7)),
                (1000, Sent::Router(8)),
                (1000, Sent::Router(9)),
                (1000, Sent::Router(10)),
                (1000, Sent::Router(11)),
            ],
            lines: &[
                "ra 10 new 10",
                "gen 10 at 1000 size S left 5,6,7,8,9,10 code C",
                "ra 11 full",
                "total frames 11 passed 11 dropped 0 programs 11",
            ],
            count: 36,
            ..EMPTY
        },
        Row {
            name: "a router that leaves",
            frames: &[(1000, Sent::Leaving(0x99))],
            lines: &[
                "frame 1 gen 0 age 0 pass PASSED_IPV6_ICMP steps T",
                "ra 1 zero",
                "total frames 1 passed 1 dropped 0 programs 1",
            ],
            count: 6,
            ..EMPTY
        },
        Row {
            name: "advertisements that are refused",
            frames: &[
                (1000, Sent::Edited(69, 1, 1)),
                (1000, Sent::Edited(1515, 1, 1)),
                (1000, Sent::Edited(142, 1, 0)),
                (1000, Sent::Edited(71, 1, 1)),
                (1000, Sent::Edited(78, 3, 1)),
            ],
            lines: &[
                "frame 1 gen 0 age 0 pass PASSED_IPV6_ICMP steps T",
                "ra 1 bad short",
                "ra 2 bad too-long",
                "ra 3 bad zero-option 70",
                "ra 4 bad cut-option 70",
                "ra 5 bad short-option 70",
                "total frames 5 passed 5 dropped 0 programs 1",
            ],
            count: 14,
            ..EMPTY
        },
        Row {
            name: "a first program that doesn't fit",
            script: SCRIPT_512,
            status: 69,
            err: "apf_run: too large: need 600 limit 384\n",
            ..REFUSED
        },
        Row {
            name: "a later one that doesn't",
            script: SCRIPT_800,
            events: KEEPALIVE,
            lines: &[
                "gen 0 at 1000 size S left none code C",
                "kept at 1001 need 680 limit 672",
                "total frames 0 passed 0 dropped 0 programs 1",
            ],
            count: 3,
            ..EMPTY
        },
        Row {
            name: "events",
            events: EVENTS,
            lines: &[
                "gen 0 at 1000 size S left none code C",
                "refused at 1000 prefix 33",
                "refused at 1000 slot-empty 3",
                "refused at 1000 slot-range 8",
                "gen 1 at 1000 size S left none code C",
                "refused at 1000 slot-in-use 0",
                "same at 1000",
                "total frames 0 passed 0 dropped 0 programs 2",
            ],
            count: 8,
            ..EMPTY
        },
        Row {
            name: "a capacity that is too low",
            script: "apf 1\nmac 02:00:00:00:00:01\ncapacity 100\n",
            err: "apf_run: script: line 3: form\n",
            ..REFUSED
        },
        Row {
            name: "five lines",
            script: "apf 1\nmac 02:00:00:00:00:01\ncapacity 1024\nstart 1000\ndrop802 on\n",
            err: "apf_run: script: line 6: end\n",
            ..REFUSED
        },
        Row {
            name: "an event before the start",
            events: "at 999 doze on\n",
            err: "apf_run: script: line 7: order\n",
            ..REFUSED
        },
        Row {
            name: "the longest script",
            comment: 1_048_502,
            ..EMPTY
        },
        Row {
            name: "a script that is too long",
            comment: 1_048_503,
            status: 68,
            err: "apf_run: too long: script over 1048576\n",
            ..REFUSED
        },
        Row {
            name: "a cut capture",
            frames: &[
                (1000, Sent::Zeros),
                (1000, Sent::Zeros),
                (1000, Sent::Zeros),
            ],
            cut: 1,
            status: 65,
            lines: &[
                "gen 0 at 1000 size S left none code C",
                "frame 1 gen 0 age 0 drop DROPPED_802_3_FRAME steps T",
                "frame 2 gen 0 age 0 drop DROPPED_802_3_FRAME steps T",
            ],
            count: 3,
            err: "apf_run: capture: cut at 86\n",
            ..EMPTY
        },
        Row {
            name: "the second fetch fails",
            fetch: 2,
            status: 73,
            err: "apf_run: cannot open c\n",
            ..FIRST_LINE
        },
        Row {
            name: "the second write fails, when one record was taken",
            frames: &[
                (1000, Sent::Zeros),
                (1000, Sent::Zeros),
                (1000, Sent::Zeros),
            ],
            write: 2,
            status: 72,
            left: 62,
            err: "apf_run: write failed\n",
            ..FIRST_LINE
        },
        Row {
            name: "the read of the third record fails",
            frames: &[
                (1000, Sent::Zeros),
                (1000, Sent::Zeros),
                (1000, Sent::Zeros),
            ],
            read: 8,
            status: 71,
            lines: &[
                "gen 0 at 1000 size S left none code C",
                "frame 1 gen 0 age 0 drop DROPPED_802_3_FRAME steps T",
                "frame 2 gen 0 age 0 drop DROPPED_802_3_FRAME steps T",
            ],
            count: 3,
            left: 31,
            err: "apf_run: read failed\n",
            ..EMPTY
        },
        Row {
            name: "the first read fails",
            read: 1,
            status: 71,
            left: 74,
            err: "apf_run: read failed\n",
            ..REFUSED
        },
    ]
}

// The advertisement cut or filled up, with another first option.
fn edited(alloc: Global, length: usize, kind: u8, units: u8) -> Result<Vec<u8>, Fail> {
    let mut frame = ADVERTISEMENT;
    frame[70] = kind;
    frame[71] = units;
    let mut bytes = frame.to_vec(alloc)?;
    bytes.resize(length, 0)?;
    Ok(bytes)
}

fn frame_of(alloc: Global, sent: Sent) -> Result<Vec<u8>, Fail> {
    let (router, lifetime) = match sent {
        Sent::Zeros => return Ok(vec![in alloc; 0u8; 15]?),
        Sent::Router(router) => (router, 8),
        Sent::Leaving(router) => (router, 0),
        Sent::Edited(length, kind, units) => return edited(alloc, length, kind, units),
    };
    let mut frame = ADVERTISEMENT;
    frame[37] = router;
    if lifetime == 0 {
        frame[60] = 0;
        frame[61] = 0;
    }
    Ok(frame.to_vec(alloc)?)
}

fn capture_of(rt: &impl Abort, alloc: Global, row: &Row) -> Result<List<u8>, Fail> {
    let kind = Kind {
        big: false,
        nano: false,
    };
    let mut capture = List::new(alloc);
    head(alloc, kind, &mut capture)?;
    for (second, sent) in row.frames {
        let frame = frame_of(alloc, *sent)?;
        let stamp = Stamp {
            sec: *second,
            fraction: 0,
            original: 0,
        };
        assert!(rt; frame.len() <= 1515);
        put(alloc, kind, stamp, &frame, &mut capture)?;
    }
    let length = capture.len();
    capture.truncate(length.saturating_sub(row.cut));
    Ok(capture)
}

// S, C, T and N stand for any word.
fn is_wanted(word: &[u8], wanted: &[u8]) -> bool {
    match wanted {
        [b'S' | b'C' | b'T' | b'N'] => true,
        _ => word == wanted,
    }
}

fn is_line(line: &[u8], wanted: &str) -> bool {
    let mut words = line.split(|byte| *byte == b' ');
    for wanted in wanted.as_bytes().split(|byte| *byte == b' ') {
        let Some(word) = words.next() else {
            return false;
        };
        if !is_wanted(word, wanted) {
            return false;
        }
    }
    words.next().is_none()
}

/// The wanted lines stand in the report in their order.
pub fn check_lines(rt: &impl Abort, row: &Row, report: &[u8]) {
    let name = row.name;
    let mut left = row.lines.iter();
    let mut wanted = left.next();
    for line in report.split(|byte| *byte == b'\n') {
        if wanted.is_some_and(|wanted| is_line(line, wanted)) {
            wanted = left.next();
        }
    }
    assert!(rt; wanted.is_none(), "{name}: {wanted:?}");
    let count = report.iter().filter(|byte| **byte == b'\n').count();
    assert_eq!(rt; count, row.count, "{name}");
}

/// The files of a row: its script is `s`, and its capture `c`.
pub fn shelf_of(rt: &impl Abort, alloc: Global, row: &Row) -> Result<MemShelf, Fail> {
    let comment = vec![in alloc; b'#'; row.comment]?;
    let mut script = list_of(alloc, row.script.as_bytes())?;
    script.extend(row.events.as_bytes())?;
    script.extend(&comment)?;
    let mut shelf = MemShelf::new(
        alloc,
        4096,
        calls(alloc, row.fetch)?,
        calls(alloc, row.read)?,
    );
    shelf.add("s", script)?;
    shelf.add("c", capture_of(rt, alloc, row)?)?;
    Ok(shelf)
}

fn check_row(rt: &impl Abort, alloc: Global, row: &Row) -> Result<(), Fail> {
    let words = words_of(alloc, &["filter", "s", "c"])?;
    let mut shelf = shelf_of(rt, alloc, row)?;
    let mut out = MemSink::new(alloc, 65536, 65536, calls(alloc, row.write)?)?;
    let mut err = MemSink::new(alloc, 65536, 65536, calls(alloc, 0)?)?;
    let answer = status(alloc, &words, &mut shelf, &mut out, &mut err);
    let name = row.name;
    assert_eq!(rt; err.bytes(), row.err.as_bytes(), "{name}");
    check_lines(rt, row, out.bytes());
    assert_eq!(rt; answer, row.status, "{name}");
    // Of the file that was opened last exactly what the report stands on was taken.
    let left = fill(&mut shelf, &mut [0u8; 128])?;
    assert_eq!(rt; left, row.left, "{name}");
    Ok(())
}

#[test]
fn each_report_has_its_lines(rt: HostRuntime) -> Result<(), Fail> {
    for row in &rows() {
        check_row(&rt, rt.alloc(), row)?;
    }
    Ok(())
}
