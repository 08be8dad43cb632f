//! Reports of `live`, row by row, and a gate that holds frames and installs.

ghost use Rattle.std.specs.Prelude.{◌≡◌, []};

use crate::filter_tests::{EMPTY, Row, Sent, check_lines, shelf_of};
use crate::running::{calls, words_of};
use crate::top_live::run_live;
use apf_base::{List, MemShelf, MemSink};
use program_swap::{Gate, LaneEnd, NoGate, Places};
use std::alloc::Global;
use std::process::Abort;
use std::sync::Wait;
use std::sync::atomic::{AtomicU64, Ordering};
use std::test::Fail;
use std::thread;
use std::thread::Threads;

const SWITCHED: &str = "at 1000 doze on\nat 1000 doze off\n";

/// A run that is refused.
const NOTHING: Row = Row {
    lines: &[],
    count: 0,
    ..EMPTY
};

const USAGE: Row = Row {
    status: 64,
    err: "apf_run: usage: exec, asm, disasm, program, filter, make or live with its words\n",
    ..NOTHING
};

// The number of lanes, and the run. A function, since what is proved of a test reads through each constant that it names.
fn rows() -> [(&'static str, Row); 14] {
    [
        (
            "2",
            Row {
                name: "a board",
                events: "at 1000 doze on\n",
                frames: &[(1000, Sent::Zeros)],
                lines: &[
                    "gen 0 at 1000 size S left none code C",
                    "gen 1 at 1000 size S left none code C",
                    "frame 1 lane 1 gen N age 0 drop DROPPED_802_3_FRAME steps T",
                    "counter TOTAL_PACKETS 1",
                    "counter DROPPED_802_3_FRAME 1",
                    "total frames 1 passed 0 dropped 1 programs 2",
                ],
                count: 6,
                ..EMPTY
            },
        ),
        (
            "2",
            Row {
                name: "frames in turn, each lane at its greatest second",
                frames: &[
                    (1005, Sent::Zeros),
                    (1001, Sent::Zeros),
                    (1002, Sent::Zeros),
                    (1003, Sent::Zeros),
                    (1009, Sent::Zeros),
                ],
                lines: &[
                    "gen 0 at 1000 size S left none code C",
                    "frame 1 lane 1 gen 0 age 5 drop DROPPED_802_3_FRAME steps T",
                    "frame 2 lane 2 gen 0 age 1 drop DROPPED_802_3_FRAME steps T",
                    "frame 3 lane 1 gen 0 age 5 drop DROPPED_802_3_FRAME steps T",
                    "frame 4 lane 2 gen 0 age 3 drop DROPPED_802_3_FRAME steps T",
                    "frame 5 lane 1 gen 0 age 9 drop DROPPED_802_3_FRAME steps T",
                    "counter TOTAL_PACKETS 5",
                    "counter DROPPED_802_3_FRAME 5",
                    "total frames 5 passed 0 dropped 5 programs 1",
                ],
                count: 9,
                ..EMPTY
            },
        ),
        (
            "16",
            Row {
                name: "more lanes than frames",
                frames: &[(1000, Sent::Router(1))],
                lines: &[
                    "gen 0 at 1000 size S left none code C",
                    "frame 1 lane 1 gen 0 age 0 pass PASSED_IPV6_ICMP steps T",
                    "counter TOTAL_PACKETS 1",
                    "counter PASSED_IPV6_ICMP 1",
                    "total frames 1 passed 1 dropped 0 programs 1",
                ],
                count: 5,
                ..EMPTY
            },
        ),
        ("1", EMPTY),
        (
            "2",
            Row {
                name: "a damaged capture",
                frames: &[(1000, Sent::Zeros)],
                cut: 1,
                status: 65,
                err: "apf_run: capture: cut at 24\n",
                ..NOTHING
            },
        ),
        (
            "2",
            Row {
                name: "an event before the start",
                events: "at 999 doze on\n",
                status: 66,
                err: "apf_run: script: line 7: order\n",
                ..NOTHING
            },
        ),
        (
            "2",
            Row {
                name: "the script can't be opened",
                fetch: 1,
                status: 73,
                err: "apf_run: cannot open s\n",
                ..NOTHING
            },
        ),
        (
            "2",
            Row {
                name: "the capture can't be opened",
                fetch: 2,
                status: 73,
                err: "apf_run: cannot open c\n",
                ..NOTHING
            },
        ),
        (
            "2",
            Row {
                name: "a read fails",
                read: 1,
                status: 71,
                err: "apf_run: read failed\n",
                ..NOTHING
            },
        ),
        (
            "2",
            Row {
                name: "a write fails",
                write: 2,
                status: 72,
                lines: &["gen 0 at 1000 size S left none code C"],
                count: 1,
                err: "apf_run: write failed\n",
                ..EMPTY
            },
        ),
        (
            "0",
            Row {
                name: "no lane",
                ..USAGE
            },
        ),
        (
            "17",
            Row {
                name: "too many lanes",
                ..USAGE
            },
        ),
        (
            "01",
            Row {
                name: "a leading zero",
                ..USAGE
            },
        ),
        (
            "",
            Row {
                name: "an empty word",
                ..USAGE
            },
        ),
    ]
}

/// The one call, of whose clauses no test needs any.
fn status<R: Threads + Wait + Sync, G: Gate>(
    rt: &R,
    alloc: Global,
    words: &[String],
    shelf: &mut MemShelf,
    out: &mut MemSink,
    err: &mut MemSink,
    gate: &G,
    ends: &mut List<LaneEnd>,
) -> u8
    requires { ends.old ≡ [] }
{
    let mut places = Places::new();
    run_live(rt, alloc, words, shelf, out, err, gate, &mut places, ends)
}

fn check_row<R: Threads + Wait + Sync + Abort>(
    rt: &R,
    alloc: Global,
    lanes: &str,
    row: &Row,
) -> Result<(), Fail> {
    let words = words_of(alloc, &["live", "s", "c", lanes])?;
    let mut shelf = shelf_of(rt, alloc, row)?;
    let mut out = MemSink::new(alloc, 65536, 65536, calls(alloc, row.write)?)?;
    let mut err = MemSink::new(alloc, 65536, 65536, calls(alloc, 0)?)?;
    let mut ends = List::new(alloc);
    let answer = status(
        rt, alloc, &words, &mut shelf, &mut out, &mut err, &NoGate, &mut ends,
    );
    let name = row.name;
    assert_eq!(rt; err.bytes(), row.err.as_bytes(), "{name}");
    check_lines(rt, row, out.bytes());
    assert_eq!(rt; answer, row.status, "{name}");
    Ok(())
}

#[test]
fn each_live_report_has_its_lines(rt: HostRuntime) -> Result<(), Fail> {
    for (lanes, row) in &rows() {
        check_row(&rt, rt.alloc(), lanes, row)?;
    }
    Ok(())
}

/// Holds the frames 1 and 2 until both are begun, install 1 is behind its call, and install 2 in its own; and install 2
/// until both frames are answered. Each is 1 once it came to this.
#[derive(Drop)]
struct Held {
    begun_1: AtomicU64,
    begun_2: AtomicU64,
    answered_1: AtomicU64,
    answered_2: AtomicU64,
    installed: AtomicU64,
    installing: AtomicU64,
    late: AtomicU64,
}

fn is_set(flag: &AtomicU64) -> bool {
    flag.load(Ordering::SeqCst) > 0
}

impl Held {
    fn new() -> Held {
        Held {
            begun_1: AtomicU64::new(0),
            begun_2: AtomicU64::new(0),
            answered_1: AtomicU64::new(0),
            answered_2: AtomicU64::new(0),
            installed: AtomicU64::new(0),
            installing: AtomicU64::new(0),
            late: AtomicU64::new(0),
        }
    }

    fn may_answer(&self) -> bool {
        is_set(&self.begun_1)
            && is_set(&self.begun_2)
            && is_set(&self.installed)
            && is_set(&self.installing)
    }

    fn hold_frame(&self) {
        for _ in 0..100_000_000u64 {
            if self.may_answer() {
                return;
            }
            thread::yield_now();
        }
        self.late.store(1, Ordering::SeqCst);
    }

    fn hold_install(&self) {
        for _ in 0..100_000_000u64 {
            if is_set(&self.answered_1) && is_set(&self.answered_2) {
                return;
            }
            thread::yield_now();
        }
        self.late.store(1, Ordering::SeqCst);
    }
}

impl Gate for Held {
    fn before_frame(&self, k: u64) {
        if k == 1 {
            self.begun_1.store(1, Ordering::SeqCst);
        } else {
            self.begun_2.store(1, Ordering::SeqCst);
        }
        self.hold_frame();
    }

    fn after_frame(&self, k: u64) {
        if k == 1 {
            self.answered_1.store(1, Ordering::SeqCst);
        } else {
            self.answered_2.store(1, Ordering::SeqCst);
        }
    }

    fn before_install(&self, number: u64) {
        if number == 2 {
            self.installing.store(1, Ordering::SeqCst);
            self.hold_install();
        }
    }

    fn after_install(&self, number: u64) {
        if number == 1 {
            self.installed.store(1, Ordering::SeqCst);
        }
    }
}

// A function, as above.
fn held_row() -> Row {
    Row {
        name: "held frames and installs",
        events: SWITCHED,
        frames: &[(1000, Sent::Zeros), (1000, Sent::Zeros)],
        lines: &[
            "gen 0 at 1000 size S left none code C",
            "gen 1 at 1000 size S left none code C",
            "gen 2 at 1000 size S left none code C",
            "frame 1 lane 1 gen 1 age 0 drop DROPPED_802_3_FRAME steps T",
            "frame 2 lane 2 gen 1 age 0 drop DROPPED_802_3_FRAME steps T",
            "counter TOTAL_PACKETS 2",
            "counter DROPPED_802_3_FRAME 2",
            "total frames 2 passed 0 dropped 2 programs 3",
        ],
        count: 8,
        ..EMPTY
    }
}

#[test]
fn lanes_and_installs_run_beside_each_other(rt: HostRuntime) -> Result<(), Fail> {
    let alloc = rt.alloc();
    let row = held_row();
    let words = words_of(alloc, &["live", "s", "c", "2"])?;
    let mut shelf = shelf_of(&rt, alloc, &row)?;
    let mut out = MemSink::new(alloc, 65536, 65536, calls(alloc, 0)?)?;
    let mut err = MemSink::new(alloc, 65536, 65536, calls(alloc, 0)?)?;
    let mut ends = List::new(alloc);
    let gate = Held::new();
    let answer = status(
        &rt, alloc, &words, &mut shelf, &mut out, &mut err, &gate, &mut ends,
    );
    assert_eq!(rt; gate.late.load(Ordering::SeqCst), 0);
    assert_eq!(rt; answer, 0);
    check_lines(&rt, &row, out.bytes());
    let counts = ends.as_slice().iter().map(|end| end.answers().len());
    assert!(rt; counts.eq([1, 1]));
    Ok(())
}
