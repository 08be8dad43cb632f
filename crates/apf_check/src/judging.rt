//! What is asked of each instruction.

ghost use Rattle.std.specs.Prelude.{◌≡◌, ◌≤◌, ◌<◌, List as Items, length};
ghost use Rattle.apf_base.specs.Limits.{program_limit};
ghost use Rattle.apf_coding.specs.Instruction.{view};
ghost use Rattle.apf_coding.specs.Jumps.{is_jump};
ghost use Rattle.apf_check.specs.Orderly.{Part, Stand, jump_flaw, flaw_of, first_flaw};
ghost use Rattle.apf_check.specs.Marks.{is_marked};

use crate::flaw::Flaw;
use apf_coding::{Instr, Op, decode};

/// Whether an instruction jumps.
fn is_jump(op: Op) -> bool
    ensures { result ≡ is_jump op }
{
    matches!(
        op,
        Op::Jmp | Op::Jeq | Op::Jne | Op::Jgt | Op::Jlt | Op::Jset | Op::Jnebs
    )
}

/// What is wrong with where a jump goes.
fn jump_flaw(marks: &[u8], at: usize, instr: &Instr<'_>, end: usize) -> Option<Flaw>
    requires short { length marks.now ≤ program_limit }
    requires order { at < end }
    requires within { end ≤ length marks.now }
    ensures { result ≡ jump_flaw (length marks.now) (is_marked marks.now)
        (record { place = at; instruction = view instr.now; end = end }) }
{
    let place = at as u32;
    let target = (end as u32).wrapping_add(instr.imm) as usize;
    if target > marks.len() + 1 {
        Some(Flaw::Past(place))
    } else if target < end {
        Some(Flaw::Backward(place))
    } else if target < marks.len() && marks[target] == 0 {
        Some(Flaw::Inside(place))
    } else {
        None
    }
}

/// What is wrong with an instruction.
#[tactic(auto, unfolding(crate::specs::Orderly::flaw_of))]
fn flaw_of(marks: &[u8], at: usize, instr: &Instr<'_>, end: usize) -> Option<Flaw>
    requires short { length marks.now ≤ program_limit }
    requires order { at < end }
    requires within { end ≤ length marks.now }
    ensures { result ≡ flaw_of (length marks.now) (is_marked marks.now)
        (record { place = at; instruction = view instr.now; end = end }) }
{
    if instr.op == Op::Ext && instr.imm > 35 {
        Some(Flaw::Extended(at as u32))
    } else if instr.op == Op::Jnebs && (instr.reg != 0 || instr.bytes.is_empty()) {
        Some(Flaw::Compare(at as u32))
    } else if is_jump(instr.op) {
        jump_flaw(marks, at, instr, end)
    } else {
        None
    }
}

/// The flaw of the first instruction that has one, where instructions fill the program and their places are marked.
pub(crate) fn first_flaw(code: &[u8], marks: &[u8]) -> Option<Flaw>
    requires short { length code.now ≤ program_limit }
    requires size { length marks.now ≡ length code.now }
    ensures { (parts : Items Part) → Stand code.now 0 parts (length code.now) →
        result ≡ first_flaw (length code.now) (is_marked marks.now) parts }
{
    let mut at = 0;
    while let Some((instr, end)) = decode(code, at) {
        if let Some(flaw) = flaw_of(marks, at, &instr, end) {
            return Some(flaw);
        }
        at = end;
    }
    None
}
