ghost use Rattle.std.specs.Prelude.{◌≡◌, ◌<◌, ◌≤◌, None, length, IfOk};
ghost use Rattle.std.specs.Result.{is_err};
ghost use Rattle.std.specs.Io.KnownBytes.{ReadConsumes};
ghost use Rattle.apf_base.specs.Causes.{HasCause, given_after};
ghost use Rattle.apf_base.specs.System.{failures_after};

use crate::mem_source::copy_from;
use crate::{Failed, OutOfMemory, Source};
use std::alloc::Global;
use std::io::Read;
use std::marker::Model;

/// The bytes that one read asks the reader for.
const BUFFER: usize = 65536;

/// A reader as a source, through one buffer of 64 KiB. It has left what the buffer has, and then what the reader has,
/// where the reader tells that. A read that the reader refuses counts as a fault.
#[derive(Drop)]
pub struct ReaderSource<R: Read> {
    reader: R,
    buffer: Vec<u8>,
    at: usize,
    filled: usize,
    given: u64,
    faults: u64,
}

impl<R: Read> Model for ReaderSource<R> {
    ghost use Rattle.std.specs.Prelude.{◌<◌, ◌≤◌, length, take, drop};
    ghost use Rattle.std.specs.Io.KnownBytes.{prepend_known};
    ghost use Rattle.apf_base.specs.System.{Reading};

    ghost Value = { Reading };

    ghost view = { λ s. record { left = prepend_known (drop s.at (take s.filled s.buffer.items)) (R.remaining s.reader); given = s.given; faults = s.faults; misses = 0 } };

    ghost invariant = { λ s. (s.at ≤ s.filled) × (s.filled ≤ length s.buffer.items) × (0 < length s.buffer.items) };
}

impl<R: Read> ReaderSource<R> {
    /// A source of what the reader has left. No read has failed.
    pub fn new(alloc: Global, reader: R) -> Result<Self, OutOfMemory>
    where
        R: Drop,
        ensures { IfOk result (λ source. source ≡ record { left = R.remaining reader; given = 0; faults = 0; misses = 0 }) }
    {
        let buffer = vec![in alloc; 0u8; BUFFER]?;
        Ok(ReaderSource {
            reader,
            buffer,
            at: 0,
            filled: 0,
            given: 0,
            faults: 0,
        })
    }

    /// Reads from another reader from here on. What was left of the one before is lost.
    pub fn begin(&mut self, reader: R)
    where
        R: Drop,
        ensures { self.new ≡ record self.old { left = R.remaining reader } }
    {
        self.reader = reader;
        self.at = 0;
        self.filled = 0;
    }
}

impl<R: Read> Source for ReaderSource<R> {
    ghost left = { λ s. s.left };

    ghost given = { λ s. s.given };

    ghost faults = { λ s. s.faults };

    ghost misses = { λ s. s.misses };

    ghost file = { λ _ _. None };

    fn read(&mut self, buf: &mut [u8]) -> Result<usize, Failed>
        requires { 0 < length buf.old }
        ensures bound { IfOk result (λ n. n ≤ length buf.new) }
        ensures bytes { ReadConsumes self.old.left self.new.left result buf.new }
        ensures given { self.new.given ≡ given_after self.old.given result }
        ensures cause { HasCause self.old.faults self.new.faults result }
        ensures counts { self.new.faults ≡ failures_after self.old.faults (is_err result) }
        ensures misses { self.new.misses ≡ self.old.misses }
    {
        if self.at == self.filled {
            self.at = 0;
            self.filled = 0;
            let Ok(count) = self.reader.read(&mut self.buffer) else {
                self.faults = self.faults.saturating_add(1);
                return Err(Failed);
            };
            self.filled = count;
        }
        let count = copy_from(&self.buffer[..self.filled], self.at, usize::MAX, buf);
        self.at += count;
        self.given = self.given.saturating_add(count as u64);
        Ok(count)
    }
}
