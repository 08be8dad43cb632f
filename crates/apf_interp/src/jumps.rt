//! The rows that jump.

ghost use Rattle.std.specs.Prelude.{◌≡◌, ◌≤◌, ◌+◌, ◌%◌, if◌then◌else◌, List, ℕ, length, drop, nat_eq};
ghost use Rattle.std.specs.List.{starts_with};
ghost use Rattle.apf_base.specs.Limits.{frame_limit, program_limit};
ghost use Rattle.apf_coding.specs.Meaning.{State, Next, Jump, compare_bytes};
ghost use Rattle.apf_coding.specs.Run.{turn_of, machine_state};
ghost use Rattle.apf_interp.specs.Reads.{IsReadTo, width, compared_at};
ghost use Rattle.apf_interp.specs.Effect.{Acts, ActsOn, with_first, holds, comparison, with_bytes, bytes_comparison};

use crate::code::{Code, by_width, number_in, unsigned};
use crate::effect::{Effect, Read};
use apf_coding::{FaultKind, Machine, Op};

/// Jumps from a place, or goes on there.
#[inline(always)]
fn jump_if(taken: bool, offset: u32, end: usize) -> Effect
    requires { end ≤ program_limit }
    ensures { (s : State) → Acts result s s (turn_of end s (if taken then Jump offset else Next s)) }
{
    if taken {
        Ok((end as u32).wrapping_add(offset) as usize)
    } else {
        Ok(end)
    }
}

/// `jmp`: jumps by the first immediate.
#[inline(always)]
pub(crate) fn jump(c: &Code<'_>) -> Effect
    ensures { (s : State) → Acts result s s (with_first c.now (λ imm _. Jump imm) s) }
{
    let (offset, end) = unsigned(c, c.place + 1)?;
    jump_if(true, offset, end)
}

/// Whether a comparison holds.
#[inline(always)]
fn holds(op: Op, a: u32, b: u32) -> bool
    ensures { result ≡ holds op a b }
{
    match op {
        Op::Jeq => a == b,
        Op::Jne => a != b,
        Op::Jgt => a > b,
        Op::Jlt => a < b,
        _ => a & b != 0,
    }
}

/// What R0 is compared with, the second immediate or R1, and the place behind it.
#[inline(always)]
fn compared(c: &Code<'_>, at: usize, size: usize, m: &Machine) -> Read
    requires at { at ≤ length c.now.program.now }
    requires size { size ≤ 4 }
    ensures { IsReadTo c.now.program.now result
        (compared_at (c.now.first % 2) size (drop at c.now.program.now) m.now.r1) }
{
    if c.first % 2 == 0 {
        number_in(c.program, at, size)
    } else {
        Ok((m.r1, at))
    }
}

/// Jumps where a comparison holds. Both immediates have so many bytes.
#[inline(always)]
fn compare_at_width(op: Op, c: &Code<'_>, size: usize, m: &Machine) -> Effect
    requires size { size ≡ width c.now.first }
    requires few { size ≤ 4 }
    ensures { ActsOn result m.now m.now (comparison op c.now) }
{
    let (offset, at) = number_in(c.program, c.place + 1, size)?;
    let (y, end) = compared(c, at, size, m)?;
    jump_if(holds(op, m.r0, y), offset, end)
}

/// `jeq`, `jne`, `jgt`, `jlt`, `jset`: jumps where the comparison holds.
#[inline(always)]
pub(crate) fn compare(op: Op, c: &Code<'_>, m: &Machine) -> Effect
    ensures { ActsOn result m.now m.now (comparison op c.now) }
{
    by_width!(c.first, size => compare_at_width(op, c, size, m))
}

/// Whether bytes stand in the frame at a place.
// Not inlined: it wants many registers, which the other rows would miss.
#[inline(never)]
fn has_at(frame: &[u8], at: usize, bytes: &[u8]) -> bool
    requires { at ≤ length frame.now }
    ensures { result ≡ starts_with nat_eq (drop at frame.now) bytes.now }
{
    frame[at..].starts_with(bytes)
}

/// Jumps where the frame's bytes from R0 on are others.
#[inline(always)]
#[tactic(auto, unfolding(apf_coding::specs::Meaning::compare_bytes))]
fn jump_unless(reg: u8, bytes: &[u8], offset: u32, end: usize, frame: &[u8], m: &Machine) -> Effect
    requires frame { length frame.now ≤ frame_limit }
    requires bytes { length bytes.now ≤ program_limit }
    requires end { end ≤ program_limit }
    ensures { ActsOn result m.now m.now
        (λ s. turn_of end s (compare_bytes (with_bytes reg 0 offset bytes.now) frame.now s)) }
{
    if reg != 0 || bytes.is_empty() {
        return Err(FaultKind::Compare);
    }
    let at = m.r0 as usize;
    if frame.len() < at + bytes.len() {
        return Err(FaultKind::Frame);
    }
    jump_if(!has_at(frame, at, bytes), offset, end)
}

/// `jnebs`: jumps where the frame's bytes from R0 on aren't the counted ones.
#[inline(always)]
pub(crate) fn compare_bytes(c: &Code<'_>, frame: &[u8], m: &Machine) -> Effect
    requires { length frame.now ≤ frame_limit }
    ensures { ActsOn result m.now m.now (bytes_comparison c.now frame.now) }
{
    let (offset, at) = unsigned(c, c.place + 1)?;
    let (count, from) = unsigned(c, at)?;
    let end = from + count as usize;
    if c.program.len() < end {
        return Err(FaultKind::Cut);
    }
    jump_unless(c.first % 2, &c.program[from..end], offset, end, frame, m)
}
