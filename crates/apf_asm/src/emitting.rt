//! The bytes, places and widths of items.

ghost use Rattle.std.specs.Prelude.{◌≡◌, ◌≤◌, ◌<◌, ◌^◌, ◌++◌, ◌∷◌, [], length, All, IfOk, OnOk};
ghost use Rattle.apf_asm.specs.Items.{IsItemForm, item_limit};
ghost use Rattle.apf_asm.specs.Layout.{piece, IsFit, item_widths, item_offsets, own_width, layout};
ghost use Rattle.apf_asm.specs.Spacing.{code_length};
ghost use Rattle.apf_base.specs.Limits.{program_limit};

use crate::item::Item;
use apf_base::{List, OutOfMemory};
use apf_coding::{Instr, encode};
use std::alloc::Global;

/// What items are assembled to.
#[derive(Debug, Drop)]
pub struct Code {
    /// At most 65,535 bytes.
    pub bytes: List<u8>,
    /// For each item the place of its first byte, or where that would be.
    pub places: List<u32>,
    /// For each jump its width, in the order of the items.
    pub widths: List<u8>,
}

/// Appends an item's bytes.
fn append_piece(
    alloc: Global,
    item: &Item,
    width: u8,
    offset: u32,
    bytes: &mut List<u8>,
) -> Result<(), OutOfMemory>
    requires { IsFit item.now width offset }
    ensures { OnOk result (bytes.new ≡ bytes.old ++ piece item.now width offset) }
{
    match item {
        Item::Fixed(f) => {
            let instr = Instr {
                op: f.op,
                reg: f.reg,
                width: f.width,
                imm: f.imm,
                second: f.second,
                bytes: f.bytes.as_slice(),
            };
            encode(alloc, &instr, bytes)
        }
        Item::Jump(j) => {
            let instr = Instr {
                op: j.op,
                reg: j.reg,
                width,
                imm: offset,
                second: j.second,
                bytes: j.bytes.as_slice(),
            };
            encode(alloc, &instr, bytes)
        }
        Item::Label(_) => Ok(()),
        Item::Byte(b) => bytes.push(*b),
    }
}

/// Appends an item at the place where the bytes end.
fn append(
    alloc: Global,
    item: &Item,
    width: u8,
    offset: u32,
    code: &mut Code,
) -> Result<(), OutOfMemory>
    requires fit { IsFit item.now width offset }
    requires short { length code.old.bytes < 2 ^ 32 }
    ensures bytes { OnOk result (code.new.bytes ≡ code.old.bytes ++ piece item.now width offset) }
    ensures places { OnOk result (code.new.places ≡ code.old.places ++ length code.old.bytes ∷ []) }
    ensures widths { OnOk result (code.new.widths ≡ code.old.widths ++ own_width item.now width) }
{
    code.places.push(code.bytes.len() as u32)?;
    append_piece(alloc, item, width, offset, &mut code.bytes)?;
    if let Item::Jump(_) = item {
        code.widths.push(width)?;
    }
    Ok(())
}

/// No code yet, in lists with room for this many items and bytes.
fn with_room(alloc: Global, items: usize, bytes: usize) -> Result<Code, OutOfMemory>
    ensures bytes { IfOk result (λ code. code.bytes ≡ []) }
    ensures places { IfOk result (λ code. code.places ≡ []) }
    ensures widths { IfOk result (λ code. code.widths ≡ []) }
{
    let mut code = Code {
        bytes: List::new(alloc),
        places: List::new(alloc),
        widths: List::new(alloc),
    };
    code.bytes.reserve(bytes)?;
    code.places.reserve(items)?;
    code.widths.reserve(items)?;
    Ok(code)
}

/// The code of items with the widths and offsets of their layout, and with this number of bytes.
pub(crate) fn emit(
    alloc: Global,
    items: &[Item],
    widths: &[u8],
    offsets: &[u64],
    bytes: usize,
) -> Result<Code, OutOfMemory>
    requires forms { All IsItemForm items.now }
    requires few { length items.now ≤ item_limit }
    requires widths { widths.now ≡ item_widths items.now }
    requires offsets { offsets.now ≡ item_offsets items.now }
    requires length { bytes ≡ code_length items.now }
    requires short { code_length items.now ≤ program_limit }
    ensures bytes { IfOk result (λ code. code.bytes ≡ (layout items.now).bytes) }
    ensures places { IfOk result (λ code. code.places ≡ (layout items.now).places) }
    ensures widths { IfOk result (λ code. code.widths ≡ (layout items.now).widths) }
{
    let mut code = with_room(alloc, items.len(), bytes)?;
    for (number, item) in items.iter().enumerate() {
        append(
            alloc,
            item,
            widths[number],
            offsets[number] as u32,
            &mut code,
        )?;
    }
    Ok(code)
}

/// The bytes alone of items with the widths and offsets of their layout, with room for this many.
pub(crate) fn emit_bytes(
    alloc: Global,
    items: &[Item],
    widths: &[u8],
    offsets: &[u64],
    room: usize,
) -> Result<List<u8>, OutOfMemory>
    requires forms { All IsItemForm items.now }
    requires widths { widths.now ≡ item_widths items.now }
    requires offsets { offsets.now ≡ item_offsets items.now }
    requires short { code_length items.now ≤ program_limit }
    ensures { IfOk result (λ bytes. bytes ≡ (layout items.now).bytes) }
{
    let mut bytes = List::new(alloc);
    bytes.reserve(room)?;
    for (number, item) in items.iter().enumerate() {
        append_piece(
            alloc,
            item,
            widths[number],
            offsets[number] as u32,
            &mut bytes,
        )?;
    }
    Ok(bytes)
}
