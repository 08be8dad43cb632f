ghost use Rattle.std.specs.Prelude.{◌≡◌, ◌<◌, ◌≤◌, ◌↔◌, [], Some, None, ⊤, length, IfOk, OnOk, OnErr, IsErr, IsNone, MatchOption};
ghost use Rattle.std.specs.Result.{is_err};
ghost use Rattle.std.specs.Io.KnownBytes.{ReadConsumes, Keeps, IsAtEnd};
ghost use Rattle.apf_base.specs.Causes.{HasCause, given_after};
ghost use Rattle.apf_base.specs.System.{failures_after, opened_bytes};

use crate::{Failed, OutOfMemory, ReaderSource, Shelf, Source};
use std::alloc::Global;
use std::io::Read;
use std::marker::Model;
use std::rt::Files;
use std::{fs, io};

// A file that is open, or none, which reads as an empty one.
#[derive(Drop)]
struct Opened<F: Read>(Option<F>);

impl<F: Read> Read for Opened<F> {
    ghost remaining = { λ opened. opened_bytes F.remaining opened.0 };

    fn read(&mut self, buf: &mut [u8]) -> io::Result<usize> {
        match &mut self.0 {
            Some(file) => file.read(buf),
            None => Ok(0),
        }
    }
}

/// The files of a system, of which one at a time is read, through one buffer of 64 KiB. It has left what the open file
/// has, where the system tells that, and nothing where none is open. A read that the system refuses counts as a fault,
/// a file that it doesn't open as a miss.
#[derive(Drop)]
pub struct FileShelf<'a, R: Files> {
    files: &'a R,
    source: ReaderSource<Opened<R::File>>,
    misses: u64,
}

impl<'a, R: Files> Model for FileShelf<'a, R> {
    ghost use Rattle.apf_base.specs.System.{Reading};

    ghost Value = { Reading };

    ghost view = { λ s. record { left = s.source.left; given = s.source.given; faults = s.source.faults; misses = s.misses } };
}

impl<'a, R: Files> FileShelf<'a, R> {
    /// The files that a runtime reaches. None is open yet, and nothing has failed.
    pub fn new(alloc: Global, files: &'a R) -> Result<Self, OutOfMemory>
        ensures { IfOk result (λ shelf. shelf ≡ record { left = Some []; given = 0; faults = 0; misses = 0 }) }
    {
        let source = ReaderSource::new(alloc, Opened(None))?;
        Ok(FileShelf {
            files,
            source,
            misses: 0,
        })
    }

    // Reads from this file from here on, or counts that there is none.
    fn begin(&mut self, file: Option<R::File>) -> Result<(), Failed>
        ensures left { self.new.left ≡ opened_bytes R.File.remaining file }
        ensures missed { IsErr result ↔ IsNone file }
        ensures cause { HasCause self.old.misses self.new.misses result }
        ensures counts { self.new.misses ≡ failures_after self.old.misses (is_err result) }
        ensures faults { self.new.faults ≡ self.old.faults }
        ensures given { self.new.given ≡ self.old.given }
    {
        let missed = file.is_none();
        self.source.begin(Opened(file));
        if missed {
            self.misses = self.misses.saturating_add(1);
            return Err(Failed);
        }
        Ok(())
    }
}

impl<R: Files> Source for FileShelf<'_, R> {
    ghost left = { λ s. s.left };

    ghost given = { λ s. s.given };

    ghost faults = { λ s. s.faults };

    ghost misses = { λ s. s.misses };

    ghost file = { λ _ _. None };

    fn read(&mut self, buf: &mut [u8]) -> Result<usize, Failed>
        requires { 0 < length buf.old }
        ensures bound { IfOk result (λ n. n ≤ length buf.new) }
        ensures bytes { ReadConsumes self.old.left self.new.left result buf.new }
        ensures given { self.new.given ≡ given_after self.old.given result }
        ensures cause { HasCause self.old.faults self.new.faults result }
        ensures counts { self.new.faults ≡ failures_after self.old.faults (is_err result) }
        ensures misses { self.new.misses ≡ self.old.misses }
    {
        self.source.read(buf)
    }
}

impl<R: Files> Shelf for FileShelf<'_, R> {
    ghost may = { λ _. ⊤ };

    // It tells no file, so that `ok` asks nothing; by `fresh` nothing of the file before is left. That `fs::open` opens
    // the file of this name is trusted.
    fn fetch(&mut self, name: &str) -> Result<(), Failed>
        ensures ok { OnOk result (Keeps None self.new.left) }
        ensures fresh { OnOk result ((file : R.File) × (self.new.left ≡ R.File.remaining file)) }
        ensures err { OnErr result (IsAtEnd self.new.left) }
        ensures shut { OnErr result (self.new.left ≡ Some []) }
        ensures cause { HasCause self.old.misses self.new.misses result }
        ensures counts { self.new.misses ≡ failures_after self.old.misses (is_err result) }
        ensures faults { self.new.faults ≡ self.old.faults }
        ensures given { self.new.given ≡ self.old.given }
    {
        let file = fs::open(self.files, name).ok();
        self.begin(file)
    }
}
