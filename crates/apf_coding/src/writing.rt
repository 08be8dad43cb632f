//! Instructions into bytes, and the widths of numbers.

ghost use Rattle.std.specs.Prelude.{◌≡◌, ◌≤◌, ◌++◌, ℕ, OnOk, OnErr};
ghost use Rattle.apf_coding.specs.Words.{big_endian};
ghost use Rattle.apf_coding.specs.Widths.{Holds, HoldsSigned, least_unsigned, least_signed};
ghost use Rattle.apf_coding.specs.Instruction.{view};
ghost use Rattle.apf_coding.specs.Spelling.{IsWidth, IsWellFormed, spelling, first_byte, size_of, second_of, counted_of};
ghost use Rattle.apf_coding.specs.Writing.{Extends};

use crate::instruction::{Instr, Op};
use apf_base::{List, OutOfMemory};
use std::alloc::Global;

/// Appends the big-endian bytes of a number.
#[inline(always)]
fn append_number(out: &mut List<u8>, width: u8, n: u32) -> Result<(), OutOfMemory>
    requires width { IsWidth width }
    requires fits { Holds width n }
    ensures ok { OnOk result (out.new ≡ out.old ++ big_endian width n) }
    ensures err { OnErr result (Extends out.old out.new) }
{
    match width {
        0 => Ok(()),
        1 => out.push(n as u8),
        2 => out.extend(&(n as u16).to_be_bytes()),
        _ => out.extend(&n.to_be_bytes()),
    }
}

/// The byte with the opcode, the size field and the register bit.
#[inline(always)]
fn first_byte(i: &Instr<'_>) -> u8
    requires { IsWellFormed (view i.now) }
    ensures { result ≡ first_byte (view i.now) }
{
    let size = if i.width == 4 { 3 } else { i.width };
    i.op.number() * 8 + size * 2 + i.reg
}

/// Appends the second immediate, where there is one.
#[inline(always)]
fn append_second(out: &mut List<u8>, i: &Instr<'_>) -> Result<(), OutOfMemory>
    requires { IsWellFormed (view i.now) }
    ensures ok { OnOk result (out.new ≡ out.old ++ second_of (view i.now)) }
    ensures err { OnErr result (Extends out.old out.new) }
{
    if i.op.is_conditional() && i.reg == 0 {
        append_number(out, i.width, i.second)?;
    }
    Ok(())
}

/// Appends the count and the bytes, where there are such.
#[inline(always)]
fn append_counted(out: &mut List<u8>, i: &Instr<'_>) -> Result<(), OutOfMemory>
    requires { IsWellFormed (view i.now) }
    ensures ok { OnOk result (out.new ≡ out.old ++ counted_of (view i.now)) }
    ensures err { OnErr result (Extends out.old out.new) }
{
    if i.op == Op::Jnebs {
        append_number(out, i.width, i.bytes.len() as u32)?;
        out.extend(i.bytes)?;
    }
    Ok(())
}

/// Appends the spelling. An `Err` leaves a part of it.
#[inline(always)]
fn append(out: &mut List<u8>, i: &Instr<'_>) -> Result<(), OutOfMemory>
    requires { IsWellFormed (view i.now) }
    ensures ok { OnOk result (out.new ≡ out.old ++ spelling (view i.now)) }
    ensures err { OnErr result (Extends out.old out.new) }
{
    out.push(first_byte(i))?;
    append_number(out, i.width, i.imm)?;
    append_second(out, i)?;
    append_counted(out, i)
}

/// Appends the one spelling of a well-formed instruction. Where there is no memory for it, `out`
/// stays as it was.
#[inline(always)]
pub fn encode(_alloc: Global, i: &Instr<'_>, out: &mut List<u8>) -> Result<(), OutOfMemory>
    requires { IsWellFormed (view i.now) }
    ensures ok { OnOk result (out.new ≡ out.old ++ spelling (view i.now)) }
    ensures err { OnErr result (out.new ≡ out.old) }
{
    let before = out.len();
    let result = append(out, i);
    if result.is_err() {
        out.truncate(before);
    }
    result
}

/// The least width of an unsigned number, in bytes: 0 for 0, 1 up to 255, 2 up to 65535, else 4.
pub fn least_unsigned(v: u32) -> u8
    ensures exact { result ≡ least_unsigned v }
    ensures width { IsWidth result }
    ensures holds { Holds result v }
    ensures least { (width : ℕ) → IsWidth width → Holds width v → result ≤ width }
{
    match v {
        0 => 0,
        1..=0xff => 1,
        0x100..=0xffff => 2,
        _ => 4,
    }
}

/// The least width of a signed number in two's complement, in bytes: 0 for 0, 1 for -128 to 127,
/// 2 for -32768 to 32767, else 4.
pub fn least_signed(v: i32) -> u8
    ensures exact { result ≡ least_signed v }
    ensures width { IsWidth result }
    ensures holds { HoldsSigned result v }
    ensures least { (width : ℕ) → IsWidth width → HoldsSigned width v → result ≤ width }
{
    match v {
        0 => 0,
        -0x80..=0x7f => 1,
        -0x8000..=0x7fff => 2,
        _ => 4,
    }
}
