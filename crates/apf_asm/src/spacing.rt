//! The widths and offsets of jumps.

ghost use Rattle.std.specs.Prelude.{◌≡◌, ◌≢◌, ◌^◌, ◌<◌, ◌≤◌, length, All, IfOk, IfSome, None, Ok};
ghost use Rattle.apf_asm.specs.Items.{IsItemForm, IsJumpForm, item_limit};
ghost use Rattle.apf_coding.specs.Widths.{least_unsigned};
ghost use Rattle.apf_asm.specs.Layout.{beside, width_for, item_width, item_widths, item_offsets};
ghost use Rattle.apf_asm.specs.Labels.{found};
ghost use Rattle.apf_asm.specs.Refusals.{refusal};
ghost use Rattle.apf_asm.specs.Spacing.{code_length, apart, item_far};

use crate::item::{Item, Jump, Target};
use crate::labels::Labels;
use crate::sizes::size;
use apf_base::OutOfMemory;
use apf_coding::{Op, least_unsigned};
use std::alloc::Global;

/// For each item its width and its offset, both 0 where it is no jump, and the number of bytes of all.
#[derive(Drop)]
pub(crate) struct Spacing {
    pub(crate) widths: Vec<u8>,
    pub(crate) offsets: Vec<u64>,
    pub(crate) bytes: u64,
}

/// What a jump's width has to hold beside its offset: the count of its bytes, or its second immediate.
fn beside(jump: &Jump) -> u32
    requires { IsJumpForm jump.now }
    ensures { result ≡ beside jump.now }
{
    match jump.op {
        Op::Jnebs => jump.bytes.len() as u32,
        _ => jump.second,
    }
}

/// The least width of an offset.
fn offset_width(offset: u64) -> u8
    ensures { result ≡ least_unsigned offset }
{
    // From 65,536 on every offset needs four bytes, also one that no u32 holds.
    least_unsigned(offset.min(65536) as u32)
}

/// The least width of an offset, and of what a jump has beside it.
fn width_for(jump: &Jump, offset: u64) -> u8
    requires { IsJumpForm jump.now }
    ensures { result ≡ width_for jump.now offset }
{
    offset_width(offset).max(least_unsigned(beside(jump)))
}

/// The width of an item with this offset.
fn item_width(item: &Item, offset: u64) -> u8
    requires { IsItemForm item.now }
    ensures { result ≡ item_width item.now offset }
{
    match item {
        Item::Jump(jump) => width_for(jump, offset),
        Item::Fixed(_) | Item::Label(_) | Item::Byte(_) => 0,
    }
}

/// The offset of an item, where the end is `here` bytes from the place behind it and `there` bytes from its target.
fn item_offset(item: &Item, here: u64, there: u64) -> u64
    requires order { there ≤ here }
    requires small { here < 2 ^ 40 }
    ensures { result ≡ apart item.now here there }
{
    match item {
        Item::Jump(jump) => match jump.to {
            Target::Label(_) | Target::Pass => here - there,
            Target::Drop => here - there + 1,
        },
        Item::Fixed(_) | Item::Label(_) | Item::Byte(_) => 0,
    }
}

/// How far the end is from an item's target, and 0 where it has none. None says that the item is refused: a jump whose
/// label stands nowhere behind it, or a label that stands behind it again.
fn item_far(behind: &Labels, item: &Item) -> Option<u64>
    ensures { result ≡ item_far (found behind.now.near.items behind.now.far) item.now }
{
    match item {
        Item::Jump(jump) => match jump.to {
            Target::Label(label) => behind.get(label),
            Target::Pass | Target::Drop => Some(0),
        },
        Item::Label(label) => match behind.get(*label) {
            Some(_) => None,
            None => Some(0),
        },
        Item::Fixed(_) | Item::Byte(_) => Some(0),
    }
}

/// The one layout of items, from the last item to the first. None says that one is refused for its label.
pub(crate) fn space(alloc: Global, items: &[Item]) -> Result<Option<Spacing>, OutOfMemory>
    requires forms { All IsItemForm items.now }
    requires few { length items.now ≤ item_limit }
    ensures refused { result ≡ Ok None → refusal items.now ≢ None }
    ensures labels { IfOk result (λ found. IfSome found (λ spacing. refusal items.now ≡ None)) }
    ensures widths { IfOk result (λ found. IfSome found (λ spacing. spacing.widths.items ≡ item_widths items.now)) }
    ensures offsets { IfOk result (λ found. IfSome found (λ spacing. spacing.offsets.items ≡ item_offsets items.now)) }
    ensures bytes { IfOk result (λ found. IfSome found (λ spacing. spacing.bytes ≡ code_length items.now)) }
{
    let mut widths = vec![in alloc; 0; items.len()]?;
    let mut offsets = vec![in alloc; 0; items.len()]?;
    // How far the end is from each label behind the item, and from the place behind it.
    let mut behind = Labels::new(alloc, items.len())?;
    let mut here = 0;
    for number in (0..items.len()).rev() {
        let item = &items[number];
        let Some(there) = item_far(&behind, item) else {
            return Ok(None);
        };
        let offset = item_offset(item, here, there);
        let width = item_width(item, offset);
        offsets[number] = offset;
        widths[number] = width;
        behind.note(item, here)?;
        here += size(item, width);
    }
    Ok(Some(Spacing {
        widths,
        offsets,
        bytes: here,
    }))
}
