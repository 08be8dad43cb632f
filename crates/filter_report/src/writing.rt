//! Lines that go out.

ghost use Rattle.std.specs.Prelude.{◌≡◌, ◌≢◌, ◌≤◌, ◌∷◌, ℕ, OnOk, OnErr, Err};
ghost use Rattle.std.specs.List.{concat};
ghost use Rattle.apf_base.specs.Causes.{Rose};
ghost use Rattle.apf_base.specs.Streams.{AppendsAll, AppendsPart};

use crate::fault::ReportFault;
use apf_base::{List, Sink, write_all};

/// Writes lines, each as one piece.
pub(crate) fn write_lines<O: Sink>(lines: &[List<u8>], out: &mut O) -> Result<(), ReportFault>
    ensures ok { OnOk result (AppendsAll (O.held out.old) (O.held out.new) lines.now) }
    ensures err { OnErr result (result ≡ Err ReportFault.Write) }
    ensures front { OnErr result (AppendsPart (O.held out.old) (O.held out.new) (concat lines.now)) }
    ensures no_limit { (need limit : ℕ) → result ≢ Err (ReportFault.TooLarge need limit) }
    ensures write { result ≡ Err ReportFault.Write → Rose (O.faults out.old) (O.faults out.new) }
    ensures faults { O.faults out.old ≤ O.faults out.new }
{
    for line in lines {
        write_all(out, line.as_slice())?;
    }
    Ok(())
}

/// Writes a line and those behind it, each as one piece.
pub(crate) fn write_first_and_more<O: Sink>(
    first: &List<u8>,
    more: &[List<u8>],
    out: &mut O,
) -> Result<(), ReportFault>
    ensures ok { OnOk result (AppendsAll (O.held out.old) (O.held out.new) (first.now ∷ more.now)) }
    ensures err { OnErr result (result ≡ Err ReportFault.Write) }
    ensures front { OnErr result (AppendsPart (O.held out.old) (O.held out.new) (concat (first.now ∷ more.now))) }
    ensures no_limit { (need limit : ℕ) → result ≢ Err (ReportFault.TooLarge need limit) }
    ensures write { result ≡ Err ReportFault.Write → Rose (O.faults out.old) (O.faults out.new) }
    ensures faults { O.faults out.old ≤ O.faults out.new }
{
    write_all(out, first.as_slice())?;
    write_lines(more, out)
}
