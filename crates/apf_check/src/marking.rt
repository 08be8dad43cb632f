//! The places at which the instructions of a program begin.

ghost use Rattle.std.specs.Prelude.{◌≡◌, ◌≤◌, ◌<◌, None, length, IfOk, IfErr};
ghost use Rattle.apf_base.specs.Limits.{program_limit};
ghost use Rattle.apf_coding.specs.Reading.{instruction_at, cause_at};
ghost use Rattle.apf_check.specs.Orderly.{broken, IsBroken};
ghost use Rattle.apf_check.specs.Marks.{AreMarked};

use crate::flaw::Flaw;
use apf_coding::{DecodeCause, cause, decode};

/// The flaw of a place inside the program at which no instruction begins.
fn broken(code: &[u8], at: usize) -> Flaw
    requires short { length code.now ≤ program_limit }
    requires nothing { instruction_at code.now at ≡ None }
    requires inside { at < length code.now }
    ensures { result ≡ broken (cause_at code.now at) at }
{
    match cause(code, at) {
        DecodeCause::Opcode => Flaw::Opcode(at as u32),
        DecodeCause::Cut => Flaw::Cut(at as u32),
    }
}

/// Marks the places of the instructions that fill a program, and counts them.
pub(crate) fn mark(code: &[u8], marks: &mut [u8]) -> Result<u32, Flaw>
    requires short { length code.now ≤ program_limit }
    requires size { length marks.old ≡ length code.now }
    ensures marked { IfOk result (λ count. AreMarked code.now count marks.new) }
    ensures broken { IfErr result (λ flaw. IsBroken code.now flaw) }
{
    marks.fill(0);
    let mut count = 0;
    let mut at = 0;
    while let Some((_, end)) = decode(code, at) {
        marks[at] = 1;
        count += 1;
        at = end;
    }
    if at < code.len() {
        return Err(broken(code, at));
    }
    Ok(count)
}
