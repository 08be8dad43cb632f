//! The rows that set registers and slots from numbers and from one another.

ghost use Rattle.std.specs.Prelude.{◌≡◌, ◌≤◌, ◌%◌, ◌==◌, if◌then◌else◌};
ghost use Rattle.apf_base.specs.Limits.{program_limit};
ghost use Rattle.apf_coding.specs.declared.instruction.Op.TheVariants as ops;
ghost use Rattle.apf_coding.specs.Spelling.{IsWidth};
ghost use Rattle.apf_coding.specs.Meaning.{Next, with_register, shifted, sets_r0, extended};
ghost use Rattle.apf_coding.specs.Run.{turn_of};
ghost use Rattle.apf_interp.specs.Reads.{width, plain, signed_of};
ghost use Rattle.apf_interp.specs.Effect.{ActsOn, with_first, joined, set_joined};

use crate::code::{Code, by_width, number_in, signed, signed_in, unsigned};
use crate::effect::Effect;
use crate::registers::{other, register, set_register};
use apf_coding::{FaultKind, Machine, Op};

/// R0 joined with a number. There is none where 0 divides.
#[inline(always)]
fn joined(op: Op, a: u32, x: u32) -> Option<u32>
    ensures { result ≡ joined op a x }
{
    match op {
        Op::Add => Some(a.wrapping_add(x)),
        Op::Mul => Some(a.wrapping_mul(x)),
        Op::Div if x == 0 => None,
        Op::Div => Some(a / x),
        Op::And => Some(a & x),
        _ => Some(a | x),
    }
}

/// Joins R0 with the first immediate, of so many bytes, or with R1.
#[inline(always)]
fn join_at_width(op: Op, c: &Code<'_>, size: usize, m: &mut Machine) -> Effect
    requires size { size ≡ width c.now.first }
    requires few { size ≤ 4 }
    ensures { ActsOn result m.old m.new
        (with_first c.now (λ imm s. set_joined (joined op s.r0 (if c.now.first % 2 == 0 then imm else s.r1)) s)) }
{
    let (imm, end) = number_in(c.program, c.place + 1, size)?;
    let x = if c.first % 2 == 0 { imm } else { m.r1 };
    let Some(value) = joined(op, m.r0, x) else {
        return Err(FaultKind::Division);
    };
    m.r0 = value;
    Ok(end)
}

/// `add`, `mul`, `div`, `and`, `or`: joins R0 with the first immediate or R1.
#[inline(always)]
pub(crate) fn join(op: Op, c: &Code<'_>, m: &mut Machine) -> Effect
    ensures { ActsOn result m.old m.new
        (with_first c.now (λ imm s. set_joined (joined op s.r0 (if c.now.first % 2 == 0 then imm else s.r1)) s)) }
{
    by_width!(c.first, size => join_at_width(op, c, size, m))
}

/// A word shifted left by 0 to 31, right by -1 to -31; else 0.
fn shifted(value: u32, amount: u32) -> u32
    ensures { result ≡ shifted value amount }
{
    let back = amount.wrapping_neg();
    if amount < 32 {
        value.wrapping_shl(amount)
    } else if back < 32 {
        value >> back
    } else {
        0
    }
}

/// `sh`: shifts R0 by the first immediate or R1.
#[inline(always)]
pub(crate) fn shift(c: &Code<'_>, m: &mut Machine) -> Effect
    ensures { ActsOn result m.old m.new
        (with_first c.now (λ imm s.
        sets_r0 (shifted s.r0 (if c.now.first % 2 == 0 then signed_of (width c.now.first) imm else s.r1)) s)) }
{
    let (imm, end) = signed(c, c.place + 1)?;
    m.r0 = shifted(m.r0, if c.first % 2 == 0 { imm } else { m.r1 });
    Ok(end)
}

/// Sets a register to the first immediate, of so many bytes.
#[inline(always)]
fn set_at_width(c: &Code<'_>, size: usize, m: &mut Machine) -> Effect
    requires size { size ≡ width c.now.first }
    requires is_width { IsWidth size }
    ensures { ActsOn result m.old m.new
        (with_first c.now (λ imm s. Next (with_register (c.now.first % 2) (signed_of (width c.now.first) imm) s))) }
{
    let (imm, end) = signed_in(c.program, c.place + 1, size)?;
    set_register(m, c.first % 2, imm);
    Ok(end)
}

/// `li`: sets a register to the first immediate.
#[inline(always)]
pub(crate) fn set(c: &Code<'_>, m: &mut Machine) -> Effect
    ensures { ActsOn result m.old m.new
        (with_first c.now (λ imm s. Next (with_register (c.now.first % 2) (signed_of (width c.now.first) imm) s))) }
{
    by_width!(c.first, size => set_at_width(c, size, m))
}

/// What an extended code does: slots, complement, negation, exchange and copy.
#[inline(always)]
#[tactic(auto, unfolding(apf_coding::specs::Meaning::extended))]
fn extend(reg: u8, code: u32, end: usize, m: &mut Machine) -> Effect
    requires end { end ≤ program_limit }
    ensures { ActsOn result m.old m.new (λ s. turn_of end s (extended (plain ops.Ext reg 0 code) s)) }
{
    let value = register(m, reg);
    match code {
        0..=15 => set_register(m, reg, m.slots[code as usize]),
        16..=31 => m.slots[code as usize - 16] = value,
        32 => set_register(m, reg, !value),
        33 => set_register(m, reg, value.wrapping_neg()),
        34 => {
            let first = m.r0;
            m.r0 = m.r1;
            m.r1 = first;
        }
        35 => set_register(m, reg, other(m, reg)),
        _ => return Err(FaultKind::Extended),
    }
    Ok(end)
}

/// `ext`: does what the code of the first immediate says.
#[inline(always)]
#[tactic(auto, unfolding(apf_coding::specs::Meaning::extended))]
pub(crate) fn extended(c: &Code<'_>, m: &mut Machine) -> Effect
    ensures { ActsOn result m.old m.new
        (with_first c.now (λ imm s. extended (plain ops.Ext (c.now.first % 2) 0 imm) s)) }
{
    let (code, end) = unsigned(c, c.place + 1)?;
    extend(c.first % 2, code, end, m)
}
