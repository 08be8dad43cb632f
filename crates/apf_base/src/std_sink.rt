ghost use Rattle.std.specs.Prelude.{◌≡◌, ◌<◌, ◌≤◌, length, take, IfOk, OnOk, IsErr, IfSome, IfNone, OnSome, IsNone};
ghost use Rattle.std.specs.Result.{is_err};
ghost use Rattle.std.specs.Io.KnownBytes.{WriteAppends, Appends, Keeps};
ghost use Rattle.apf_base.specs.Causes.{HasCause};
ghost use Rattle.apf_base.specs.Memory.{one_more};
ghost use Rattle.apf_base.specs.System.{failures_after, flushed};

use crate::outlet::Outlet;
use crate::{Failed, Sink};
use std::io::Write;
use std::marker::Model;

/// A writer as a sink, as standard output or standard error. It holds what was written and flushed, where the writer
/// tells what it holds. A write that the writer refuses or of which it takes no byte, and a refused flush, count as
/// faults. After a refused flush each further write is refused.
#[derive(Drop)]
pub struct StdSink<W: Write> {
    outlet: Outlet<W>,
    faults: u64,
}

impl<W: Write> Model for StdSink<W> {
    ghost use Rattle.apf_base.specs.System.{Output};

    ghost Value = { Output };

    ghost view = { λ s. record { writing = s.outlet; faults = s.faults } };
}

impl<W: Write> StdSink<W> {
    /// A sink that holds what the writer holds. No write has failed.
    pub fn new(to: W) -> Self
        ensures value { result ≡ record { writing = record { written = W.contents to; unflushed = 0 }; faults = 0 } }
        ensures held { flushed result.writing ≡ W.contents to }
    {
        StdSink {
            outlet: Outlet::new(to),
            faults: 0,
        }
    }
}

// Writes and flushes, and says how many bytes were taken, if any were. Bytes whose flush was refused don't count.
fn write_out<W: Write>(outlet: &mut Outlet<W>, piece: &[u8]) -> Option<usize>
    ensures some { IfSome result (λ n. 0 < n) }
    ensures bound { IfSome result (λ n. n ≤ length piece.now) }
    ensures taken { IfSome result (λ n. Appends (flushed outlet.old) (flushed outlet.new) (take n piece.now)) }
    ensures kept { IfNone result (Keeps (flushed outlet.old) (flushed outlet.new)) }
    ensures flushed { OnSome result (outlet.new.unflushed ≡ 0) }
    ensures refused { 0 < outlet.old.unflushed → IsNone result × (outlet.new ≡ outlet.old) }
{
    if outlet.unflushed() > 0 {
        return None;
    }
    let count = outlet.write(piece).ok()?;
    if count == 0 || !outlet.flush() {
        return None;
    }
    Some(count)
}

impl<W: Write> Sink for StdSink<W> {
    ghost held = { λ s. flushed s.writing };

    ghost faults = { λ s. s.faults };

    fn write(&mut self, piece: &[u8]) -> Result<usize, Failed>
        requires { 0 < length piece.now }
        ensures some { IfOk result (λ n. 0 < n) }
        ensures bound { IfOk result (λ n. n ≤ length piece.now) }
        ensures bytes { WriteAppends (flushed self.old.writing) (flushed self.new.writing) result piece.now }
        ensures cause { HasCause self.old.faults self.new.faults result }
        ensures counts { self.new.faults ≡ failures_after self.old.faults (is_err result) }
        ensures flushed { OnOk result (self.new.writing.unflushed ≡ 0) }
        ensures refused { 0 < self.old.writing.unflushed → IsErr result }
        ensures stays { 0 < self.old.writing.unflushed → self.new ≡ record self.old { faults = one_more self.old.faults } }
    {
        match write_out(&mut self.outlet, piece) {
            Some(count) => Ok(count),
            None => {
                self.faults = self.faults.saturating_add(1);
                Err(Failed)
            }
        }
    }
}
