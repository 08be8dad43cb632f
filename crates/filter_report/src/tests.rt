use crate::{Filtering, replay};
use apf_base::{List, MemShelf, MemSink};
use command_plan::{FileKind, Input, open_capture};
use pcap_files::records;
use policy_state::{Config, Script};
use std::alloc::Global;
use std::test::Fail;

/// A capture of three frames of 15 zero bytes, each at second 1000.
#[rattlefmt::skip]
const CAPTURE: [u8; 117] = [
    0xd4, 0xc3, 0xb2, 0xa1,             // 0: magic: little-endian, microseconds
    2, 0, 4, 0,                         // version 2.4
    0, 0, 0, 0, 0, 0, 0, 0, 0, 0, 4, 0, // 8: zone, accuracy, greatest length
    1, 0, 0, 0,                         // 20: link type: Ethernet
    0xe8, 3, 0, 0, 0, 0, 0, 0,          // 24: time: 1000 seconds
    15, 0, 0, 0, 15, 0, 0, 0,           // captured and original length
    0, 0, 0, 0, 0, 0, 0, 0, 0, 0, 0, 0, 0, 0, 0,
    0xe8, 3, 0, 0, 0, 0, 0, 0,          // 55: the second frame
    15, 0, 0, 0, 15, 0, 0, 0,
    0, 0, 0, 0, 0, 0, 0, 0, 0, 0, 0, 0, 0, 0, 0,
    0xe8, 3, 0, 0, 0, 0, 0, 0,          // 86: the third frame
    15, 0, 0, 0, 15, 0, 0, 0,
    0, 0, 0, 0, 0, 0, 0, 0, 0, 0, 0, 0, 0, 0, 0,
];

/// How the lines of its report begin. A code's length and a number of steps are left open.
const LINES: [&str; 7] = [
    "gen 0 at 1000 size ",
    "frame 1 gen 0 age 0 drop DROPPED_802_3_FRAME steps ",
    "frame 2 gen 0 age 0 drop DROPPED_802_3_FRAME steps ",
    "frame 3 gen 0 age 0 drop DROPPED_802_3_FRAME steps ",
    "counter TOTAL_PACKETS 3",
    "counter DROPPED_802_3_FRAME 3",
    "total frames 3 passed 0 dropped 3 programs 1",
];

fn script(alloc: Global) -> Script {
    Script {
        config: Config {
            mac: [2, 0, 0, 0, 0, 1],
            capacity: 2048,
            drop_802_3: true,
            deny: List::new(alloc),
        },
        start: 1000,
        events: List::new(alloc),
    }
}

#[test]
fn frames_are_reported(rt: HostRuntime) -> Result<(), Fail> {
    let alloc = rt.alloc();
    let mut out = MemSink::new(alloc, 100, 8192, List::new(alloc))?;
    let found = records(alloc, &CAPTURE)?;
    assert!(rt; found.list.len() < 100);
    let script = script(alloc);
    assert!(rt; script.events.len() < 100);
    let mut filtering = Filtering::begin(alloc, script, &mut out)?;
    filtering.take_all(alloc, &CAPTURE, found.list.as_slice(), &mut out)?;
    filtering.finish(alloc, &mut out)?;
    let text = str::from_utf8(out.bytes())?;
    assert_eq!(rt; text.lines().count(), LINES.len(), "{text}");
    for (line, start) in text.lines().zip(LINES) {
        assert!(rt; line.starts_with(start), "{line}");
    }
    Ok(())
}

#[test]
fn records_are_reported_as_they_come(rt: HostRuntime) -> Result<(), Fail> {
    let alloc = rt.alloc();
    let input = Input {
        kind: FileKind::Capture,
        word: 2,
    };
    let mut shelf = MemShelf::new(alloc, 7, List::new(alloc), List::new(alloc));
    shelf.add("capture", List::of(alloc, CAPTURE)?)?;
    let mut out = MemSink::new(alloc, 100, 8192, List::new(alloc))?;
    let script = script(alloc);
    assert!(rt; script.events.len() < 100);
    let filtering = Filtering::begin(alloc, script, &mut out)?;
    let reader = open_capture(&mut shelf, "capture", input)?;
    replay(alloc, filtering, reader, &mut shelf, input, &mut out)?;
    let text = str::from_utf8(out.bytes())?;
    assert_eq!(rt; text.lines().count(), LINES.len(), "{text}");
    for (line, start) in text.lines().zip(LINES) {
        assert!(rt; line.starts_with(start), "{line}");
    }
    Ok(())
}
