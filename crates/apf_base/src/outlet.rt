ghost use Rattle.std.specs.Prelude.{◌≡◌, ◌≤◌, length, IfOk, OnErr, if◌then◌else◌};
ghost use Rattle.std.specs.Io.KnownBytes.{WriteAppends, Keeps};

use std::io;
use std::io::Write;
use std::marker::Model;

/// A writer, and how many of the bytes that it took last wait for a flush. Only `flush` takes that count back to 0.
#[derive(Drop)]
pub(crate) struct Outlet<W: Write> {
    to: W,
    unflushed: usize,
}

impl<W: Write> Model for Outlet<W> {
    ghost use Rattle.apf_base.specs.System.{Writing};

    ghost Value = { Writing };

    ghost view = { λ s. record { written = W.contents s.to; unflushed = s.unflushed } };
}

impl<W: Write> Outlet<W> {
    /// A writer as it is. No byte waits.
    pub(crate) fn new(to: W) -> Self
        ensures { result ≡ record { written = W.contents to; unflushed = 0 } }
    {
        Outlet { to, unflushed: 0 }
    }

    /// How many bytes wait for a flush.
    pub(crate) fn unflushed(&self) -> usize
        ensures { result ≡ self.now.unflushed }
    {
        self.unflushed
    }

    /// Writes, where no byte waits. What is taken waits then.
    pub(crate) fn write(&mut self, piece: &[u8]) -> io::Result<usize>
        requires { self.old.unflushed ≡ 0 }
        ensures bound { IfOk result (λ n. n ≤ length piece.now) }
        ensures bytes { WriteAppends self.old.written self.new.written result piece.now }
        ensures ok { IfOk result (λ n. self.new.unflushed ≡ n) }
        ensures err { OnErr result (self.new.unflushed ≡ 0) }
    {
        let count = self.to.write(piece)?;
        self.unflushed = count;
        Ok(count)
    }

    /// Flushes, and says whether no byte waits any more. That the writer is asked to is told by no clause, since its
    /// own `flush` promises only that it keeps what it holds.
    pub(crate) fn flush(&mut self) -> bool
        ensures written { Keeps self.old.written self.new.written }
        ensures unflushed { self.new.unflushed ≡ (if result then 0 else self.old.unflushed) }
    {
        let is_out = self.to.flush().is_ok();
        if is_out {
            self.unflushed = 0;
        }
        is_out
    }
}
