//! The assembler.

ghost use Rattle.std.specs.Prelude.{◌≡◌, ◌≤◌, ◌⊎◌, ℕ, length, All, IfOk, IfErr, OnOk, Some, None};
ghost use Rattle.apf_asm.specs.Items.{IsItemForm, IsLabelForm, item_limit};
ghost use Rattle.apf_asm.specs.Layout.{item_widths, item_offsets, layout};
ghost use Rattle.apf_asm.specs.Refusals.{refusal, answer, ExactlyWhere, IsOverlong};
ghost use Rattle.apf_asm.specs.Correct.{RunsAs};
ghost use Rattle.apf_asm.specs.Spacing.{code_length};
ghost use Rattle.apf_base.specs.Limits.{program_limit};

use crate::emitting::{Code, emit, emit_bytes};
use crate::item::{AsmError, Item};
use crate::labels::first_refusal;
use crate::spacing::{Spacing, space};
use apf_base::{List, PROGRAM_LIMIT};
use std::alloc::Global;

/// The spacing of items, or why they are refused.
fn lay_out(alloc: Global, items: &[Item]) -> Result<Spacing, AsmError>
    requires few { length items.now ≤ item_limit }
    requires forms { All IsItemForm items.now }
    ensures widths { IfOk result (λ spacing. spacing.widths.items ≡ item_widths items.now) }
    ensures offsets { IfOk result (λ spacing. spacing.offsets.items ≡ item_offsets items.now) }
    ensures bytes { IfOk result (λ spacing. spacing.bytes ≡ code_length items.now) }
    ensures short { IfOk result (λ spacing. spacing.bytes ≤ program_limit) }
    ensures ok { OnOk result (answer items.now ≡ None) }
    ensures err { IfErr result (λ e. (e ≡ AsmError.OutOfMemory) ⊎ (answer items.now ≡ Some e)) }
{
    let Some(spacing) = space(alloc, items)? else {
        return Err(first_refusal(alloc, items));
    };
    if spacing.bytes > PROGRAM_LIMIT as u64 {
        return Err(AsmError::TooLong {
            bytes: spacing.bytes,
        });
    }
    Ok(spacing)
}

/// Assembles items, with the one answer that they have where there is memory.
fn assemble_items(alloc: Global, items: &[Item]) -> Result<Code, AsmError>
    requires few { length items.now ≤ item_limit }
    requires forms { All IsItemForm items.now }
    ensures bytes { IfOk result (λ code. code.bytes ≡ (layout items.now).bytes) }
    ensures places { IfOk result (λ code. code.places ≡ (layout items.now).places) }
    ensures widths { IfOk result (λ code. code.widths ≡ (layout items.now).widths) }
    ensures ok { OnOk result (answer items.now ≡ None) }
    ensures err { IfErr result (λ e. (e ≡ AsmError.OutOfMemory) ⊎ (answer items.now ≡ Some e)) }
{
    let spacing = lay_out(alloc, items)?;
    let room = spacing.bytes as usize;
    Ok(emit(alloc, items, &spacing.widths, &spacing.offsets, room)?)
}

/// The bytes of items, with the one answer that they have where there is memory.
fn bytes_of_items(alloc: Global, items: &[Item]) -> Result<List<u8>, AsmError>
    requires few { length items.now ≤ item_limit }
    requires forms { All IsItemForm items.now }
    ensures bytes { IfOk result (λ bytes. bytes ≡ (layout items.now).bytes) }
    ensures ok { OnOk result (answer items.now ≡ None) }
    ensures err { IfErr result (λ e. (e ≡ AsmError.OutOfMemory) ⊎ (answer items.now ≡ Some e)) }
{
    let spacing = lay_out(alloc, items)?;
    let room = spacing.bytes as usize;
    Ok(emit_bytes(alloc, items, &spacing.widths, &spacing.offsets, room)?)
}

/// The code of items, at most 1,048,576 of them, each well formed with at most 65,535 bytes.
///
/// A jump has the least width that holds its offset and its second immediate or count, which is what jumps of four
/// bytes come to when they are narrowed until nothing changes. Offsets depend on later items alone, so one pass from
/// the last item to the first finds them all. Where no item is a byte and no fixed item jumps, the code runs over every
/// frame as the items flow.
///
/// `Twice`, `Unknown` and `Backward` name the first item that is refused. `TooLong` comes where none is and the code
/// would have more than 65,535 bytes.
pub fn assemble(alloc: Global, items: &[Item]) -> Result<Code, AsmError>
    requires few { length items.now ≤ item_limit }
    requires forms { All IsItemForm items.now }
    // The code is the one layout of the items.
    ensures bytes { IfOk result (λ code. code.bytes ≡ (layout items.now).bytes) }
    ensures places { IfOk result (λ code. code.places ≡ (layout items.now).places) }
    ensures widths { IfOk result (λ code. code.widths ≡ (layout items.now).widths) }
    // In label form its bytes run as the items flow.
    ensures runs { IfOk result (λ code. IsLabelForm items.now → RunsAs items.now code.bytes code.places) }

    // Each refusal comes exactly where it stands first, but for want of memory.
    ensures twice { (item label : ℕ) →
        ExactlyWhere (refusal items.now ≡ Some (AsmError.Twice item label)) result (AsmError.Twice item label) }
    ensures unknown { (item label : ℕ) →
        ExactlyWhere (refusal items.now ≡ Some (AsmError.Unknown item label)) result (AsmError.Unknown item label) }
    ensures backward { (item label : ℕ) →
        ExactlyWhere (refusal items.now ≡ Some (AsmError.Backward item label)) result (AsmError.Backward item label) }
    ensures too_long { (bytes : ℕ) → ExactlyWhere (IsOverlong items.now bytes) result (AsmError.TooLong bytes) }
    // Every answer is that of the definition, but for want of memory.
    ensures ok { OnOk result (answer items.now ≡ None) }
    ensures err { IfErr result (λ e. (e ≡ AsmError.OutOfMemory) ⊎ (answer items.now ≡ Some e)) }
{
    assemble_items(alloc, items)
}

/// The bytes of items, as `assemble` gives them, without their places and widths.
pub fn assemble_bytes(alloc: Global, items: &[Item]) -> Result<List<u8>, AsmError>
    requires few { length items.now ≤ item_limit }
    requires forms { All IsItemForm items.now }
    // The code is the one layout of the items.
    ensures bytes { IfOk result (λ bytes. bytes ≡ (layout items.now).bytes) }

    // Each refusal comes exactly where it stands first, but for want of memory.
    ensures twice { (item label : ℕ) →
        ExactlyWhere (refusal items.now ≡ Some (AsmError.Twice item label)) result (AsmError.Twice item label) }
    ensures unknown { (item label : ℕ) →
        ExactlyWhere (refusal items.now ≡ Some (AsmError.Unknown item label)) result (AsmError.Unknown item label) }
    ensures backward { (item label : ℕ) →
        ExactlyWhere (refusal items.now ≡ Some (AsmError.Backward item label)) result (AsmError.Backward item label) }
    ensures too_long { (bytes : ℕ) → ExactlyWhere (IsOverlong items.now bytes) result (AsmError.TooLong bytes) }
    // Every answer is that of the definition, but for want of memory.
    ensures ok { OnOk result (answer items.now ≡ None) }
    ensures err { IfErr result (λ e. (e ≡ AsmError.OutOfMemory) ⊎ (answer items.now ≡ Some e)) }
{
    bytes_of_items(alloc, items)
}
