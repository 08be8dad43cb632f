//! Items by what they do.

ghost use Rattle.std.specs.Prelude.{◌≡◌, ◌≤◌, IfOk};
ghost use Rattle.apf_asm.specs.Building.{to_end, fixed, load, place, count, jump_if, jump_if_r1, jump, jump_unless};

use crate::item::{Fixed, Item, Jump, Target};
use apf_base::{List, OutOfMemory};
use apf_coding::{Op, Verdict};
use std::alloc::Global;

/// Where a verdict is counted: label 0 for Pass, label 1 for Drop.
pub fn to_end(verdict: Verdict) -> Target
    ensures { result ≡ to_end verdict }
{
    match verdict {
        Verdict::Pass => Target::Label(0),
        Verdict::Drop => Target::Label(1),
    }
}

/// An instruction that is no jump.
pub fn fixed(alloc: Global, op: Op, reg: u8, width: u8, imm: u32) -> Item
    ensures { result ≡ fixed op reg width imm }
{
    Item::Fixed(Fixed {
        op,
        reg,
        width,
        imm,
        second: 0,
        bytes: List::new(alloc),
    })
}

/// `ldb r0 AT`, `ldh r0 AT` or `ldw r0 AT`.
pub fn load(alloc: Global, op: Op, at: u8) -> Item
    ensures { result ≡ load op at }
{
    fixed(alloc, op, 0, 1, u32::from(at))
}

/// `li r0 AT`.
pub fn place(alloc: Global, at: u8) -> Item
    ensures { result ≡ place at }
{
    fixed(alloc, Op::Li, 0, 1, u32::from(at))
}

/// `li r1 -4N`: the counter with the number N, from 1 to 32, is the one to be raised.
pub fn count(alloc: Global, number: u8) -> Item
    requires { number ≤ 32 }
    ensures { result ≡ count number }
{
    fixed(alloc, Op::Li, 1, 1, 256 - 4 * u32::from(number))
}

/// A conditional jump that compares R0 with a number.
pub fn jump_if(alloc: Global, op: Op, number: u32, to: Target) -> Item
    ensures { result ≡ jump_if op number to }
{
    Item::Jump(Jump {
        op,
        reg: 0,
        second: number,
        bytes: List::new(alloc),
        to,
    })
}

/// A conditional jump that compares R0 with R1.
pub fn jump_if_r1(alloc: Global, op: Op, to: Target) -> Item
    ensures { result ≡ jump_if_r1 op to }
{
    Item::Jump(Jump {
        op,
        reg: 1,
        second: 0,
        bytes: List::new(alloc),
        to,
    })
}

/// `jmp TO`.
pub fn jump(alloc: Global, to: Target) -> Item
    ensures { result ≡ jump to }
{
    Item::Jump(Jump {
        op: Op::Jmp,
        reg: 0,
        second: 0,
        bytes: List::new(alloc),
        to,
    })
}

/// `jnebs BYTES TO`: a jump where the frame's bytes from R0 on are others.
pub fn jump_unless(alloc: Global, bytes: &[u8], to: Target) -> Result<Item, OutOfMemory>
    ensures { IfOk result (λ item. item ≡ jump_unless bytes.now to) }
{
    let mut expected = List::new(alloc);
    expected.extend(bytes)?;
    Ok(Item::Jump(Jump {
        op: Op::Jnebs,
        reg: 0,
        second: 0,
        bytes: expected,
        to,
    }))
}
