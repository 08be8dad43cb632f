ghost use Rattle.std.specs.Prelude.{◌≡◌, ◌<◌, ◌^◌, All, IfOk, OnOk, true, false};
ghost use Rattle.apf_coding.specs.Jumps.{is_jump};
ghost use Rattle.apf_coding.specs.Instruction.{is_counted, has_second};
ghost use Rattle.apf_asm.specs.Items.{IsItemForm};

use super::*;
use apf_base::{List, OutOfMemory};
use apf_coding::Op;
use std::alloc::Global;
use std::process::Abort;
use std::test::*;

/// Some items of a row.
#[derive(Clone, Copy)]
enum Part {
    /// So many times `li r0 1`.
    Loads(u32),
    /// `li r0 N`.
    Load(u8),
    /// `li r1 N`.
    LoadSecond(u8),
    /// `jmp T`.
    Jump(Target),
    /// `jeq N T`.
    JumpEqual(u32, Target),
    /// `jnebs x0102 T`.
    JumpUnequal(Target),
    Label(u32),
    Byte(u8),
}

fn load(alloc: Global, reg: u8, imm: u8) -> Item
    requires { reg < 2 }
    ensures { IsItemForm result }
{
    Item::Fixed(Fixed {
        op: Op::Li,
        reg,
        width: 1,
        imm: u32::from(imm),
        second: 0,
        bytes: List::new(alloc),
    })
}

fn jump(alloc: Global, op: Op, second: u32, to: Target) -> Item
    requires op { is_jump op ≡ true }
    requires counted { is_counted op ≡ false }
    requires second { has_second op 0 ≡ false → second ≡ 0 }
    ensures { IsItemForm result }
{
    Item::Jump(Jump {
        op,
        reg: 0,
        second,
        bytes: List::new(alloc),
        to,
    })
}

fn jump_unequal(alloc: Global, to: Target) -> Result<Item, OutOfMemory>
    ensures { IfOk result IsItemForm }
{
    let bytes = List::of(alloc, [1, 2])?;
    Ok(Item::Jump(Jump {
        op: Op::Jnebs,
        reg: 0,
        second: 0,
        bytes,
        to,
    }))
}

fn add_loads(alloc: Global, count: u32, items: &mut Vec<Item>) -> Result<(), OutOfMemory>
    requires { All IsItemForm items.old.items }
    ensures { OnOk result (All IsItemForm items.new.items) }
{
    for _ in 0..count {
        items.push(load(alloc, 0, 1))?;
    }
    Ok(())
}

fn add(alloc: Global, part: Part, items: &mut Vec<Item>) -> Result<(), OutOfMemory>
    requires { All IsItemForm items.old.items }
    ensures { OnOk result (All IsItemForm items.new.items) }
{
    let item = match part {
        Part::Loads(count) => return add_loads(alloc, count, items),
        Part::Load(imm) => load(alloc, 0, imm),
        Part::LoadSecond(imm) => load(alloc, 1, imm),
        Part::Jump(to) => jump(alloc, Op::Jmp, 0, to),
        Part::JumpEqual(second, to) => jump(alloc, Op::Jeq, second, to),
        Part::JumpUnequal(to) => jump_unequal(alloc, to)?,
        Part::Label(label) => Item::Label(label),
        Part::Byte(byte) => Item::Byte(byte),
    };
    items.push(item)?;
    Ok(())
}

fn items_of(alloc: Global, parts: &[Part]) -> Result<Vec<Item>, OutOfMemory>
    ensures { IfOk result (λ items. All IsItemForm items.items) }
{
    let mut items = Vec::new(alloc);
    for part in parts {
        add(alloc, *part, &mut items)?;
    }
    Ok(items)
}

fn assembled(rt: &impl Abort, alloc: Global, parts: &[Part]) -> Result<Code, AsmError> {
    let items = items_of(alloc, parts)?;
    assert!(rt; items.len() <= 1_048_576);
    assemble(alloc, items.as_slice())
}

fn bytes_alone(rt: &impl Abort, alloc: Global, parts: &[Part]) -> Result<List<u8>, AsmError> {
    let items = items_of(alloc, parts)?;
    assert!(rt; items.len() <= 1_048_576);
    assemble_bytes(alloc, items.as_slice())
}

const LABEL: Target = Target::Label(1);

/// What a list of items comes to, or what its first bytes and places are.
struct Row {
    name: &'static str,
    parts: &'static [Part],
    length: usize,
    bytes: &'static [u8],
    places: &'static [u32],
    widths: &'static [u8],
}

#[rattlefmt::skip]
const ROWS: [Row; 5] = [
    Row {
        name: "the second jump has one byte at once, and so has the first then",
        parts: &[Part::Jump(LABEL), Part::Jump(LABEL), Part::Loads(126), Part::Label(1)],
        length: 256,
        bytes: &[0x72, 0xfe, 0x72, 0xfc, 0x6a, 0x01],
        places: &[0, 2, 4, 6],
        widths: &[1, 1],
    },
    Row {
        name: "five lines",
        parts: &[
            Part::Load(5),
            Part::JumpEqual(5, LABEL),
            Part::LoadSecond(7),
            Part::Label(1),
            Part::Jump(Target::Drop),
        ],
        length: 9,
        bytes: &[0x6a, 0x05, 0x7a, 0x02, 0x05, 0x6b, 0x07, 0x72, 0x01],
        places: &[0, 2, 5, 7, 7],
        widths: &[1, 1],
    },
    Row {
        name: "an offset of 256",
        parts: &[Part::Jump(LABEL), Part::Loads(128), Part::Label(1)],
        length: 259,
        bytes: &[0x74, 0x01, 0x00, 0x6a, 0x01],
        places: &[0, 3, 5],
        widths: &[2],
    },
    Row {
        name: "a second immediate that needs two bytes",
        parts: &[Part::JumpEqual(256, Target::Pass)],
        length: 5,
        bytes: &[0x7c, 0x00, 0x00, 0x01, 0x00],
        places: &[0],
        widths: &[2],
    },
    Row {
        name: "counted bytes, and a byte as it stands",
        parts: &[Part::JumpUnequal(Target::Pass), Part::Byte(0xff)],
        length: 6,
        bytes: &[0xa2, 0x01, 0x02, 0x01, 0x02, 0xff],
        places: &[0, 5],
        widths: &[1],
    },
];

#[test]
fn rows_are_laid_out(rt: HostRuntime) -> Result<(), Fail> {
    for row in &ROWS {
        let code = assembled(&rt, rt.alloc(), row.parts)?;
        let name = row.name;
        assert_eq!(rt; code.bytes.len(), row.length, "{name}");
        assert!(rt; code.bytes.as_slice().starts_with(row.bytes), "{name}");
        assert!(rt; code.places.as_slice().starts_with(row.places), "{name}");
        assert!(rt; code.widths.as_slice() == row.widths, "{name}");
        let bytes = bytes_alone(&rt, rt.alloc(), row.parts)?;
        assert!(rt; bytes.as_slice() == code.bytes.as_slice(), "{name}");
    }
    Ok(())
}

/// How many bytes a list of items comes to, or its refusal.
struct Refusal {
    name: &'static str,
    parts: &'static [Part],
    answer: Result<usize, AsmError>,
}

#[rattlefmt::skip]
const REFUSALS: [Refusal; 11] = [
    Refusal { name: "twice", parts: &[Part::Label(1), Part::Label(1)], answer: Err(AsmError::Twice { item: 1, label: 1 }) },
    Refusal { name: "unknown", parts: &[Part::Jump(LABEL)], answer: Err(AsmError::Unknown { item: 0, label: 1 }) },
    Refusal { name: "backward", parts: &[Part::Label(1), Part::Jump(LABEL)], answer: Err(AsmError::Backward { item: 1, label: 1 }) },
    Refusal { name: "behind and ahead", parts: &[Part::Label(1), Part::Jump(LABEL), Part::Label(1)], answer: Err(AsmError::Backward { item: 1, label: 1 }) },
    Refusal { name: "twice ahead", parts: &[Part::Jump(LABEL), Part::Label(1), Part::Label(1)], answer: Err(AsmError::Twice { item: 2, label: 1 }) },
    Refusal { name: "the first of two", parts: &[Part::Jump(LABEL), Part::Label(2), Part::Label(2)], answer: Err(AsmError::Unknown { item: 0, label: 1 }) },
    Refusal { name: "directly ahead", parts: &[Part::Jump(LABEL), Part::Label(1)], answer: Ok(1) },
    Refusal { name: "at the very end", parts: &[Part::Load(1), Part::Jump(Target::Label(4294967295)), Part::Load(1), Part::Label(4294967295)], answer: Ok(6) },
    Refusal { name: "a label before what is too long", parts: &[Part::Loads(40_000), Part::Jump(LABEL)], answer: Err(AsmError::Unknown { item: 40_000, label: 1 }) },
    Refusal { name: "65,535 bytes", parts: &[Part::Jump(Target::Drop), Part::Loads(32_766)], answer: Ok(65_535) },
    Refusal { name: "65,536 bytes", parts: &[Part::Loads(32_768)], answer: Err(AsmError::TooLong { bytes: 65_536 }) },
];

#[test]
fn refusals_come_first_item_first(rt: HostRuntime) {
    for row in &REFUSALS {
        let name = row.name;
        let answer = assembled(&rt, rt.alloc(), row.parts).map(|code| code.bytes.len());
        assert_eq!(rt; answer, row.answer, "{name}");
    }
}
