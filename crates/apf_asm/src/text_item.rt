//! The item of a line, by its first word and its operands.

ghost use Rattle.std.specs.Prelude.{◌≡◌, ◌≤◌, [], map, IfOk};
ghost use Rattle.apf_coding.specs.Instruction.{has_second, is_counted};
ghost use Rattle.apf_coding.specs.Reading.{IsReadAs};
ghost use Rattle.apf_asm.specs.TextForms.{immediate, plain, unsigned, signed, jump, given};
ghost use Rattle.apf_asm.specs.TextReading.{slot_read, fitting, short_read, long_read, simple_read, counted_bytes, counted_read, compare_bytes_read, item_read};

use crate::text_bytes::hex_bytes;
use crate::text_head::Head;
use crate::text_number::{number, number_below, register, signed_number, target};
use crate::{Fixed, Item, Jump, Target};
use apf_base::{List, OutOfMemory};
use apf_coding::{Op, least_signed, least_unsigned};
use std::alloc::Global;

/// An instruction without a second immediate and without bytes.
fn plain(alloc: Global, op: Op, reg: u8, width: u8, imm: u32) -> Item
    ensures { result ≡ plain op reg width imm }
{
    Item::Fixed(Fixed {
        op,
        reg,
        width,
        imm,
        second: 0,
        bytes: List::new(alloc),
    })
}

/// The same with the least width of an unsigned number.
fn unsigned(alloc: Global, op: Op, reg: u8, imm: u32) -> Item
    ensures { result ≡ unsigned op reg imm }
{
    plain(alloc, op, reg, least_unsigned(imm), imm)
}

/// The bits of a signed number in its least width.
fn immediate(number: i32) -> u32
    ensures { result ≡ immediate number }
{
    let bits = number.cast_unsigned();
    match least_signed(number) {
        0 => 0,
        1 => bits & 0xff,
        2 => bits & 0xffff,
        _ => bits,
    }
}

/// The same with the least width of a signed number.
fn signed(alloc: Global, op: Op, reg: u8, number: i32) -> Item
    ensures { result ≡ signed op reg number }
{
    plain(alloc, op, reg, least_signed(number), immediate(number))
}

/// A jump without bytes.
fn jump(alloc: Global, op: Op, reg: u8, second: u32, to: Target) -> Item
    ensures { result ≡ jump op reg second [] to }
{
    Item::Jump(Jump {
        op,
        reg,
        second,
        bytes: List::new(alloc),
        to,
    })
}

/// A number of at most so many bytes.
#[tactic(auto, unfolding(crate::specs::TextReading::fitting))]
fn fitting(width: u8, word: &[u8]) -> Option<u32>
    ensures { IsReadAs (λ x. x) result (fitting width word.now) }
{
    let n = number(word)?;
    if least_unsigned(n) <= width {
        Some(n)
    } else {
        None
    }
}

/// Whether an instruction has a second immediate.
fn has_second(op: Op, reg: u8) -> bool
    ensures { result ≡ has_second op reg }
{
    matches!(op, Op::Jeq | Op::Jne | Op::Jgt | Op::Jlt | Op::Jset) && reg == 0
}

/// An extended instruction.
fn extended(alloc: Global, reg: u8, code: u32) -> Item
    ensures { result ≡ unsigned Op.Ext reg code }
{
    unsigned(alloc, Op::Ext, reg, code)
}

/// An extended instruction on a slot.
fn slot(alloc: Global, base: u8, reg: &[u8], slot: &[u8]) -> Option<Item>
    ensures { IsReadAs (λ x. x) result (slot_read base reg.now slot.now) }
{
    let reg = register(reg)?;
    let slot = number_below(16, slot)?;
    Some(extended(alloc, reg, u32::from(base) + u32::from(slot)))
}

/// An instruction with its width, without a second immediate and without counted bytes.
fn short(alloc: Global, op: Op, width: u8, reg: &[u8], imm: &[u8]) -> Option<Item>
    ensures { IsReadAs (λ x. x) result (short_read op width reg.now imm.now) }
{
    let reg = register(reg)?;
    let imm = fitting(width, imm)?;
    if has_second(op, reg) {
        None
    } else {
        Some(plain(alloc, op, reg, width, imm))
    }
}

/// An instruction with its width and a second immediate.
fn long(alloc: Global, op: Op, width: u8, reg: &[u8], imm: &[u8], second: &[u8]) -> Option<Item>
    ensures { IsReadAs (λ x. x) result (long_read op width reg.now imm.now second.now) }
{
    let reg = register(reg)?;
    let imm = fitting(width, imm)?;
    let second = fitting(width, second)?;
    if !has_second(op, reg) {
        return None;
    }
    Some(Item::Fixed(Fixed {
        op,
        reg,
        width,
        imm,
        second,
        bytes: List::new(alloc),
    }))
}

/// The item of a line without bytes.
#[tactic(auto, unfolding(crate::specs::TextReading::simple_read))]
fn simple(alloc: Global, head: Head, operands: &[&[u8]]) -> Option<Item>
    ensures { IsReadAs (λ x. x) result (simple_read head (map (λ x. x.now) operands.now)) }
{
    match (head, operands) {
        (Head::Label(n), []) => Some(Item::Label(n)),
        (Head::Load(op), [reg, n]) => Some(unsigned(alloc, op, register(reg)?, number(n)?)),
        (Head::Arithmetic(op), [b"r1"]) => Some(plain(alloc, op, 1, 0, 0)),
        (Head::Arithmetic(op), [n]) => Some(unsigned(alloc, op, 0, number(n)?)),
        (Head::Shift, [b"r1"]) => Some(plain(alloc, Op::Sh, 1, 0, 0)),
        (Head::Shift, [n]) => Some(signed(alloc, Op::Sh, 0, signed_number(n)?)),
        (Head::Signed(op), [reg, n]) => Some(signed(alloc, op, register(reg)?, signed_number(n)?)),
        (Head::Slot(base), [reg, n]) => slot(alloc, base, reg, n),
        (Head::Register(code), [reg]) => Some(extended(alloc, register(reg)?, u32::from(code))),
        (Head::Swap, []) => Some(extended(alloc, 0, 34)),
        (Head::Jump, [to]) => Some(jump(alloc, Op::Jmp, 0, 0, target(to)?)),
        (Head::Compare(op), [b"r1", to]) => Some(jump(alloc, op, 1, 0, target(to)?)),
        (Head::Compare(op), [n, to]) => Some(jump(alloc, op, 0, number(n)?, target(to)?)),
        (Head::Dotted(op, width), [reg, imm]) => short(alloc, op, width, reg, imm),
        (Head::Dotted(op, width), [reg, imm, second]) => long(alloc, op, width, reg, imm, second),
        (Head::Byte, [n]) => Some(Item::Byte(number_below(256, n)?)),
        _ => None,
    }
}

/// The counted bytes of an instruction with a width.
#[tactic(auto, unfolding(crate::specs::TextReading::counted_bytes))]
fn counted(alloc: Global, width: u8, word: &[u8]) -> Result<Option<List<u8>>, OutOfMemory>
    ensures { IfOk result (λ found. IsReadAs (λ x. x) found (counted_bytes width word.now)) }
{
    match hex_bytes(alloc, word)? {
        Some(bytes) if least_unsigned(bytes.len() as u32) <= width => Ok(Some(bytes)),
        _ => Ok(None),
    }
}

/// A byte comparison with its width.
fn dotted_compare(
    alloc: Global,
    width: u8,
    reg: &[u8],
    imm: &[u8],
    bytes: &[u8],
) -> Result<Option<Item>, OutOfMemory>
    ensures { IfOk result (λ found. IsReadAs (λ x. x) found (counted_read width reg.now imm.now bytes.now)) }
{
    let (Some(reg), Some(imm)) = (register(reg), fitting(width, imm)) else {
        return Ok(None);
    };
    let Some(bytes) = counted(alloc, width, bytes)? else {
        return Ok(None);
    };
    Ok(Some(Item::Fixed(Fixed {
        op: Op::Jnebs,
        reg,
        width,
        imm,
        second: 0,
        bytes,
    })))
}

/// A byte comparison with a target.
fn compare_bytes(alloc: Global, bytes: &[u8], to: &[u8]) -> Result<Option<Item>, OutOfMemory>
    ensures { IfOk result (λ found. IsReadAs (λ x. x) found (compare_bytes_read bytes.now to.now)) }
{
    let Some(to) = target(to) else {
        return Ok(None);
    };
    match hex_bytes(alloc, bytes)? {
        Some(bytes) if bytes.len() > 0 => Ok(Some(Item::Jump(Jump {
            op: Op::Jnebs,
            reg: 0,
            second: 0,
            bytes,
            to,
        }))),
        _ => Ok(None),
    }
}

/// The item of a line, if it is of a form of its first word.
#[tactic(auto, unfolding(crate::specs::TextReading::item_read))]
pub(crate) fn item(
    alloc: Global,
    head: Head,
    operands: &[&[u8]],
) -> Result<Option<Item>, OutOfMemory>
    ensures { IfOk result (λ found. IsReadAs (λ x. x) found (item_read head (map (λ x. x.now) operands.now))) }
{
    match head {
        Head::CompareBytes => {
            let [bytes, to] = operands else {
                return Ok(None);
            };
            compare_bytes(alloc, bytes, to)
        }
        Head::Dotted(Op::Jnebs, width) => {
            let [reg, imm, bytes] = operands else {
                return Ok(None);
            };
            dotted_compare(alloc, width, reg, imm, bytes)
        }
        _ => Ok(simple(alloc, head, operands)),
    }
}
