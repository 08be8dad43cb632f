//! The check.

ghost use Rattle.std.specs.Prelude.{◌≡◌, ◌≤◌, ℕ, List as Items, Ok, Err, length, IfOk, IfErr};
ghost use Rattle.apf_base.specs.Limits.{program_limit};
ghost use Rattle.apf_coding.specs.Run.{run};
ghost use Rattle.apf_check.specs.declared.flaw.Flaw.{Flaw as AFlaw};
ghost use Rattle.apf_check.specs.Orderly.{IsOrderly, IsFirstFlaw};
ghost use Rattle.apf_check.specs.Answers.{Answers};
ghost use Rattle.apf_check.specs.Ends.{EndsWithin};

use crate::flaw::{CheckError, Flaw};
use crate::judging::first_flaw;
use crate::marking::mark;
use std::alloc::Global;

/// The number of the instructions of an orderly program, or the first flaw of another one.
fn examine(code: &[u8], marks: &mut [u8]) -> Result<u32, Flaw>
    requires short { length code.now ≤ program_limit }
    requires size { length marks.old ≡ length code.now }
    ensures orderly { IfOk result (λ count. IsOrderly code.now count) }
    ensures flawed { IfErr result (λ flaw. IsFirstFlaw code.now flaw) }
{
    let count = mark(code, marks)?;
    match first_flaw(code, marks) {
        Some(flaw) => Err(flaw),
        None => Ok(count),
    }
}

/// `check` in memory that the caller hands in: a byte for each place of the program, whatever they hold. What they
/// hold afterwards is of no use.
pub fn check_with(code: &[u8], marks: &mut [u8]) -> Result<u32, Flaw>
    requires short { length code.now ≤ program_limit }
    requires size { length marks.old ≡ length code.now }
    // A number comes exactly where the program is orderly, and is that of its instructions.
    ensures orderly { IfOk result (λ count. IsOrderly code.now count) }
    ensures accepts { (count : ℕ) → IsOrderly code.now count → result ≡ Ok count }
    // A flaw comes exactly where the program has it first.
    ensures flawed { IfErr result (λ flaw. IsFirstFlaw code.now flaw) }
    ensures refuses { (flaw : AFlaw) → IsFirstFlaw code.now flaw → result ≡ Err flaw }
    // No run of a program that passes goes wrong by the program's form.
    ensures runs { IfOk result (λ count. (memory frame : Items ℕ) (age : ℕ) →
        EndsWithin count (run code.now memory frame age)) }
{
    examine(code, marks)
}

/// Whether the form of a program of at most 65,535 bytes can make a run go wrong: the number of its instructions, or
/// else its first flaw.
///
/// First the program has to be instructions from end to end: `Opcode` or `Cut` names the first place at which none
/// begins. Only then each instruction is asked, in order, and the first that isn't right is named.
///
/// A run of a program that passes takes at most as many steps as are answered, over every memory, frame and age. It
/// never ends by its budget, and a fault is of the kind `Frame`, `Memory` or `Division`.
///
/// It takes a byte of memory for each place of the program and goes over the program twice.
pub fn check(alloc: Global, code: &[u8]) -> Result<u32, CheckError>
    requires { length code.now ≤ program_limit }
    // A number comes exactly where the program is orderly, and is that of its instructions, but for want of memory.
    ensures orderly { IfOk result (λ count. IsOrderly code.now count) }
    ensures accepts { (count : ℕ) → IsOrderly code.now count → Answers (Ok count) result }
    // A flaw comes exactly where the program has it first, but for want of memory.
    ensures flawed { (flaw : AFlaw) → result ≡ Err (CheckError.Flawed flaw) → IsFirstFlaw code.now flaw }
    ensures refuses { (flaw : AFlaw) → IsFirstFlaw code.now flaw → Answers (Err (CheckError.Flawed flaw)) result }
    // No run of a program that passes goes wrong by the program's form.
    ensures runs { IfOk result (λ count. (memory frame : Items ℕ) (age : ℕ) →
        EndsWithin count (run code.now memory frame age)) }
{
    let mut marks = vec![in alloc; 0; code.len()]?;
    match check_with(code, marks.as_mut_slice()) {
        Ok(count) => Ok(count),
        Err(flaw) => Err(CheckError::Flawed(flaw)),
    }
}
