//! The ends over the system, over readers and writers that fail, that give or take little, and that refuse a flush.

use crate::{List, OutOfMemory, ReaderSource, Sink, Source, StdSink};
use std::alloc::Global;
use std::io;
use std::io::{ErrorKind, Read, Write};
use std::test::Fail;

/// How many bytes one call moves at most, and the numbers of the read or write and of the flush that are refused.
/// Calls are counted from 1, so that 0 is none.
#[derive(Clone, Copy)]
struct Manner {
    most: usize,
    refused: u8,
    refused_flush: u8,
}

#[derive(Drop)]
struct Reader {
    bytes: &'static [u8],
    manner: Manner,
    reads: u8,
}

impl Read for Reader {
    fn read(&mut self, buf: &mut [u8]) -> io::Result<usize> {
        self.reads = self.reads.saturating_add(1);
        if self.reads == self.manner.refused {
            return Err(io::Error::from(ErrorKind::Other));
        }
        let count = self.manner.most.min(self.bytes.len()).min(buf.len());
        let (front, rest) = self.bytes.split_at(count);
        buf[..count].copy_from_slice(front);
        self.bytes = rest;
        Ok(count)
    }
}

/// Notes each call: the bytes that it takes, `!` for a refused write, `.` for a flush and `?` for a refused one.
#[derive(Drop)]
struct Writer {
    notes: List<u8>,
    manner: Manner,
    writes: u8,
    flushes: u8,
}

impl Writer {
    fn note(&mut self, bytes: &[u8]) -> io::Result<()> {
        match self.notes.extend(bytes) {
            Ok(()) => Ok(()),
            Err(_) => Err(io::Error::from(ErrorKind::OutOfMemory)),
        }
    }
}

impl Write for Writer {
    fn write(&mut self, buf: &[u8]) -> io::Result<usize> {
        self.writes = self.writes.saturating_add(1);
        if self.writes == self.manner.refused {
            self.note(b"!")?;
            return Err(io::Error::from(ErrorKind::Other));
        }
        let count = self.manner.most.min(buf.len());
        self.note(&buf[..count])?;
        Ok(count)
    }

    fn flush(&mut self) -> io::Result<()> {
        self.flushes = self.flushes.saturating_add(1);
        if self.flushes == self.manner.refused_flush {
            self.note(b"?")?;
            return Err(io::Error::from(ErrorKind::Other));
        }
        self.note(b".")
    }
}

/// What four reads of two bytes give, with `!` for a fault and `.` for the end.
struct ReadRow {
    name: &'static str,
    bytes: &'static [u8],
    manner: Manner,
    given: &'static [u8],
}

#[rattlefmt::skip]
const READS: [ReadRow; 5] = [
    ReadRow { name: "at once", bytes: b"abc", manner: Manner { most: 9, refused: 0, refused_flush: 0 }, given: b"abc.." },
    ReadRow { name: "a byte a read", bytes: b"abc", manner: Manner { most: 1, refused: 0, refused_flush: 0 }, given: b"abc." },
    ReadRow { name: "none", bytes: b"", manner: Manner { most: 9, refused: 0, refused_flush: 0 }, given: b"...." },
    ReadRow { name: "the first read is refused", bytes: b"abc", manner: Manner { most: 9, refused: 1, refused_flush: 0 }, given: b"!abc." },
    ReadRow { name: "a read in mid-stream is refused", bytes: b"abc", manner: Manner { most: 1, refused: 2, refused_flush: 0 }, given: b"a!bc" },
];

fn read_once(source: &mut ReaderSource<Reader>, given: &mut List<u8>) -> Result<(), OutOfMemory> {
    let mut buf = [0u8; 2];
    match source.read(&mut buf) {
        Ok(0) => given.push(b'.'),
        Ok(count) => given.extend(&buf[..count]),
        Err(_) => given.push(b'!'),
    }
}

fn read_row(alloc: Global, row: &ReadRow) -> Result<List<u8>, OutOfMemory> {
    let reader = Reader {
        bytes: row.bytes,
        manner: row.manner,
        reads: 0,
    };
    let mut source = ReaderSource::new(alloc, reader)?;
    let mut given = List::new(alloc);
    for _ in 0..4 {
        read_once(&mut source, &mut given)?;
    }
    Ok(given)
}

#[test]
fn readers_are_read(rt: HostRuntime) -> Result<(), Fail> {
    for row in &READS {
        let given = read_row(rt.alloc(), row)?;
        assert!(rt; given.as_slice() == row.given, "{}", row.name);
    }
    Ok(())
}

/// Whether each of three writes of `ab` is taken, and which calls the writer saw.
struct WriteRow {
    name: &'static str,
    manner: Manner,
    taken: [bool; 3],
    notes: &'static [u8],
}

#[rattlefmt::skip]
const WRITES: [WriteRow; 5] = [
    WriteRow { name: "at once", manner: Manner { most: 9, refused: 0, refused_flush: 0 }, taken: [true, true, true], notes: b"ab.ab.ab." },
    WriteRow { name: "a byte a write", manner: Manner { most: 1, refused: 0, refused_flush: 0 }, taken: [true, true, true], notes: b"a.a.a." },
    WriteRow { name: "none", manner: Manner { most: 0, refused: 0, refused_flush: 0 }, taken: [false, false, false], notes: b"" },
    WriteRow { name: "a write is refused", manner: Manner { most: 9, refused: 2, refused_flush: 0 }, taken: [true, false, true], notes: b"ab.!ab." },
    WriteRow { name: "a flush is refused", manner: Manner { most: 9, refused: 0, refused_flush: 2 }, taken: [true, false, false], notes: b"ab.ab?" },
];

fn write_row(writer: &mut Writer) -> [bool; 3] {
    let mut sink = StdSink::new(writer);
    let first = sink.write(b"ab").is_ok();
    let second = sink.write(b"ab").is_ok();
    let third = sink.write(b"ab").is_ok();
    [first, second, third]
}

#[test]
fn writers_are_written(rt: HostRuntime) {
    for row in &WRITES {
        let mut writer = Writer {
            notes: List::new(rt.alloc()),
            manner: row.manner,
            writes: 0,
            flushes: 0,
        };
        assert_eq!(rt; write_row(&mut writer), row.taken, "{}", row.name);
        assert!(rt; writer.notes.as_slice() == row.notes, "{}", row.name);
    }
}
