//! Files that are refused, each for its first fault, whole and a record at a time, and files that are written and read.

ghost use Rattle.std.specs.Prelude.{◌<◌, ◌≤◌, length};

use crate::{Capture, Kind, PcapError, Placed, Records, Stamp, head, put, records};
use apf_base::{List, MemSource, OutOfMemory, Source, read_all};
use std::alloc::Global;
use std::test::Fail;

/// The magics as bytes.
const MICRO: [u8; 4] = [0xd4, 0xc3, 0xb2, 0xa1];

const NANO: [u8; 4] = [0x4d, 0x3c, 0xb2, 0xa1];

const BIG_MICRO: [u8; 4] = [0xa1, 0xb2, 0xc3, 0xd4];

const BIG_NANO: [u8; 4] = [0xa1, 0xb2, 0x3c, 0x4d];

/// Those of compressed files, and of another format.
const GZIP: [u8; 4] = [0x1f, 0x8b, 0x08, 0x00];

const ZSTD: [u8; 4] = [0x28, 0xb5, 0x2f, 0xfd];

const PCAPNG: [u8; 4] = [0x0a, 0x0d, 0x0d, 0x0a];

/// Version 2.4 and link type 1 in both orders.
const V2_4: [u8; 4] = [2, 0, 4, 0];

const BIG_V2_4: [u8; 4] = [0, 2, 0, 4];

const ETHERNET: [u8; 4] = [1, 0, 0, 0];

const BIG_ETHERNET: [u8; 4] = [0, 0, 0, 1];

/// Captured lengths of 262,144 and 262,145 bytes, without a frame.
const LONGEST: [u8; 16] = [0, 0, 0, 0, 0, 0, 0, 0, 0, 0, 4, 0, 0, 0, 4, 0];

const TOO_LONG: [u8; 16] = [0, 0, 0, 0, 0, 0, 0, 0, 1, 0, 4, 0, 1, 0, 4, 0];

const BIG_TOO_LONG: [u8; 16] = [0, 0, 0, 0, 0, 0, 0, 0, 0, 4, 0, 1, 0, 4, 0, 1];

/// Records of 15 and of 3 bytes, the second of which can be cut.
#[rattlefmt::skip]
const RECORDS: [u8; 50] = [
    0xe8, 3, 0, 0, 7, 0, 0, 0, 15, 0, 0, 0, 15, 0, 0, 0, // second 1000
    0, 0, 0, 0, 0, 0, 0, 0, 0, 0, 0, 0, 0, 0, 0,
    0xe9, 3, 0, 0, 8, 0, 0, 0, 3, 0, 0, 0, 60, 0, 0, 0,  // second 1001
    1, 2, 3,
];

/// Magic, version and link type of a file, what stands behind its header, and how many bytes of it there are; how many
/// records are found, and the fault.
type Row = (
    [u8; 4],
    [u8; 4],
    [u8; 4],
    &'static [u8],
    usize,
    usize,
    Option<PcapError>,
);

#[rattlefmt::skip]
static ROWS: [Row; 28] = [
    (MICRO, V2_4, ETHERNET, &[], 0, 0, Some(PcapError::Cut(0))),
    (GZIP, V2_4, ETHERNET, &[], 3, 0, Some(PcapError::Cut(0))),
    (MICRO, V2_4, ETHERNET, &[], 4, 0, Some(PcapError::Cut(0))),
    (GZIP, V2_4, ETHERNET, &[], 4, 0, Some(PcapError::Magic)),
    (ZSTD, V2_4, ETHERNET, &[], 24, 0, Some(PcapError::Magic)),
    (PCAPNG, V2_4, ETHERNET, &[], 24, 0, Some(PcapError::Magic)),
    (MICRO, [2, 0, 3, 0], ETHERNET, &[], 23, 0, Some(PcapError::Cut(0))),
    (MICRO, V2_4, ETHERNET, &[], 24, 0, None),
    (NANO, V2_4, ETHERNET, &[], 24, 0, None),
    (BIG_MICRO, BIG_V2_4, BIG_ETHERNET, &[], 24, 0, None),
    (BIG_NANO, BIG_V2_4, BIG_ETHERNET, &[], 24, 0, None),
    (MICRO, [2, 0, 3, 0], [105, 0, 0, 0], &[], 24, 0, Some(PcapError::Version)),
    (NANO, [1, 0, 4, 0], ETHERNET, &[], 24, 0, Some(PcapError::Version)),
    (BIG_MICRO, V2_4, BIG_ETHERNET, &[], 24, 0, Some(PcapError::Version)),
    (BIG_NANO, [0, 2, 0, 5], BIG_ETHERNET, &[], 24, 0, Some(PcapError::Version)),
    (MICRO, V2_4, [0, 0, 0, 0], &[], 24, 0, Some(PcapError::Link(0))),
    (MICRO, V2_4, [105, 0, 0, 0], &[], 24, 0, Some(PcapError::Link(105))),
    (NANO, V2_4, [1, 0, 1, 0], &[], 24, 0, Some(PcapError::Link(65537))),
    (BIG_NANO, BIG_V2_4, ETHERNET, &[], 24, 0, Some(PcapError::Link(0x0100_0000))),
    (MICRO, V2_4, ETHERNET, &LONGEST, 39, 0, Some(PcapError::Cut(24))),
    (MICRO, V2_4, ETHERNET, &LONGEST, 40, 0, Some(PcapError::Cut(24))),
    (MICRO, V2_4, ETHERNET, &TOO_LONG, 39, 0, Some(PcapError::Cut(24))),
    (MICRO, V2_4, ETHERNET, &TOO_LONG, 40, 0, Some(PcapError::TooLong(24, 262145))),
    (BIG_NANO, BIG_V2_4, BIG_ETHERNET, &BIG_TOO_LONG, 40, 0, Some(PcapError::TooLong(24, 262145))),
    (MICRO, V2_4, ETHERNET, &RECORDS, 74, 2, None),
    (NANO, V2_4, ETHERNET, &RECORDS, 73, 1, Some(PcapError::Cut(55))),
    (MICRO, V2_4, ETHERNET, &RECORDS, 70, 1, Some(PcapError::Cut(55))),
    (MICRO, V2_4, ETHERNET, &RECORDS, 55, 1, None),
];

/// The file of a row.
fn file_of(alloc: Global, row: &Row) -> Result<List<u8>, Fail> {
    let mut file = List::new(alloc);
    file.extend(&row.0)?;
    file.extend(&row.1)?;
    file.extend(&[0; 12])?;
    file.extend(&row.2)?;
    file.extend(row.3)?;
    file.truncate(row.4);
    Ok(file)
}

#[test]
fn files_are_read_up_to_their_first_fault(rt: HostRuntime) -> Result<(), Fail> {
    for (number, row) in ROWS.iter().enumerate() {
        let file = file_of(rt.alloc(), row)?;
        assert!(rt; file.len() <= 74, "row {number}");
        let found = records(rt.alloc(), file.as_slice())?;
        assert_eq!(rt;
            (found.list.len(), found.end),
            (row.5, row.6),
            "row {number}"
        );
    }
    Ok(())
}

#[test]
fn written_files_have_their_bytes(rt: HostRuntime) -> Result<(), Fail> {
    let stamp = Stamp {
        sec: 1000,
        fraction: 7,
        original: 15,
    };
    let little = Kind {
        big: false,
        nano: false,
    };
    let mut file = List::new(rt.alloc());
    head(rt.alloc(), little, &mut file)?;
    put(rt.alloc(), little, stamp, &[0; 15], &mut file)?;
    assert!(rt; file.as_slice().starts_with(&MICRO));
    assert!(rt; file.as_slice().ends_with(&RECORDS[..31]));
    assert_eq!(rt; file.len(), 55);
    Ok(())
}

/// The frames of the two records, one behind the other, and where each ends.
const FRAMES: [u8; 18] = [0, 0, 0, 0, 0, 0, 0, 0, 0, 0, 0, 0, 0, 0, 0, 1, 2, 3];

const ENDS: [usize; 3] = [0, 15, 18];

/// What a reader gives, up to a hundred records, as `records` tells it. Their frames are added to the list.
fn read_through<S: Source>(
    alloc: Global,
    src: &mut S,
    frames: &mut List<u8>,
) -> Result<Records, OutOfMemory> {
    let mut list = List::new(alloc);
    let mut reader = match Capture::start(src) {
        Ok(reader) => reader,
        Err(fault) => {
            return Ok(Records {
                kind: None,
                list,
                end: Some(fault),
            });
        }
    };
    let kind = Some(reader.kind());
    let mut frame = List::new(alloc);
    let mut at = 24u32;
    let mut end = None;
    for _ in 0..100 {
        if !reader.is_live() {
            break;
        }
        match reader.next(src, &mut frame) {
            Ok(Some(stamp)) => {
                let len = frame.len() as u32;
                list.push(Placed { stamp, at, len })?;
                frames.extend(frame.as_slice())?;
                at = at.wrapping_add(16).wrapping_add(len);
            }
            Ok(None) => {}
            Err(fault) => end = Some(fault),
        }
    }
    Ok(Records { kind, list, end })
}

/// Whether a reader gives what `records` tells of the file, and the frames of that many records. The source gives at
/// most so many bytes a read.
fn both_agree(alloc: Global, file: List<u8>, most: usize) -> Result<bool, Fail>
    requires short { length file ≤ 74 }
    requires most { 0 < most }
{
    let found = records(alloc, file.as_slice())?;
    let mut frames = List::new(alloc);
    let mut source = MemSource::new(file, most, List::new(alloc));
    let given = read_through(alloc, &mut source, &mut frames)?;
    let Some(end) = ENDS.get(found.list.len()) else {
        return Ok(false);
    };
    Ok(
        (given.kind, given.end) == (found.kind, found.end)
            && given.list.as_slice() == found.list.as_slice()
            && FRAMES.starts_with(frames.as_slice())
            && frames.len() == *end,
    )
}

#[test]
fn both_readers_agree_on_every_row(rt: HostRuntime) -> Result<(), Fail> {
    for (number, row) in ROWS.iter().enumerate() {
        for most in [1usize, 3, 74] {
            let file = file_of(rt.alloc(), row)?;
            assert!(rt; file.len() <= 74 && most > 0, "row {number}");
            assert!(rt;
                both_agree(rt.alloc(), file, most)?,
                "row {number}, {most} a read"
            );
        }
    }
    Ok(())
}

/// The file of two records.
static WHOLE: Row = (MICRO, V2_4, ETHERNET, &RECORDS, 74, 2, None);

#[test]
fn both_readers_agree_on_every_cut(rt: HostRuntime) -> Result<(), Fail> {
    for len in 0..75usize {
        let mut file = file_of(rt.alloc(), &WHOLE)?;
        file.truncate(len);
        assert!(rt; file.len() <= 74);
        assert!(rt; both_agree(rt.alloc(), file, 7)?, "cut at {len}");
    }
    Ok(())
}

#[test]
fn a_failing_read_ends_a_reader(rt: HostRuntime) -> Result<(), Fail> {
    // The first read is the file header, then two are a record; the sixth finds the end.
    for (number, found) in [(1u64, 0usize), (2, 0), (3, 0), (4, 1), (5, 1), (6, 2)] {
        let fail = List::of(rt.alloc(), [number])?;
        let mut source = MemSource::new(file_of(rt.alloc(), &WHOLE)?, 74, fail);
        let mut frames = List::new(rt.alloc());
        let given = read_through(rt.alloc(), &mut source, &mut frames)?;
        assert_eq!(rt;
            (given.list.len(), given.end),
            (found, Some(PcapError::Read)),
            "read {number}"
        );
    }
    Ok(())
}

#[test]
fn a_record_is_taken_and_no_more(rt: HostRuntime) -> Result<(), Fail> {
    let alloc = rt.alloc();
    let mut source = MemSource::new(file_of(alloc, &WHOLE)?, 7, List::new(alloc));
    let mut reader = Capture::start(&mut source)?;
    let mut frame = List::of(alloc, [9])?;
    let stamp = reader.next(&mut source, &mut frame)?;
    let first = Stamp {
        sec: 1000,
        fraction: 7,
        original: 15,
    };
    assert_eq!(rt; (stamp, reader.is_live()), (Some(first), true));
    assert_eq!(rt; *frame.as_slice(), FRAMES[..15]);
    let mut rest = List::new(alloc);
    assert_eq!(rt; read_all(alloc, &mut source, 19, &mut rest), Ok(()));
    assert_eq!(rt; *rest.as_slice(), RECORDS[31..]);
    Ok(())
}

/// Offsets of a record of 19 bytes, and how a reader refuses it there.
static PLACES: [(u32, Option<PcapError>); 2] = [
    (4_294_967_276, None),
    (4_294_967_277, Some(PcapError::Length)),
];

#[test]
fn no_record_ends_behind_the_last_offset(rt: HostRuntime) -> Result<(), Fail> {
    let kind = Kind {
        big: false,
        nano: false,
    };
    for (at, refused) in PLACES.iter() {
        let mut file = List::new(rt.alloc());
        file.extend(&RECORDS[31..])?;
        let mut source = MemSource::new(file, 7, List::new(rt.alloc()));
        let mut reader = Capture::standing(kind, *at);
        let mut frame = List::new(rt.alloc());
        let answer = reader.next(&mut source, &mut frame);
        assert_eq!(rt; answer.err(), *refused, "record at {at}");
        assert_eq!(rt; reader.is_live(), refused.is_none(), "record at {at}");
    }
    Ok(())
}
