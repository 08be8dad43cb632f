//! Laws over the definitions, each the contract of an empty function.

ghost use Rattle.std.specs.Prelude.{◌≡◌, ◌<◌, ℕ, List, Result, slice_index, All, None, count_by};
ghost use Rattle.apf_coding.specs.Run.{run};
ghost use Rattle.apf_asm.specs.declared.item.Item.{Item};
ghost use Rattle.apf_asm.specs.Items.{IsItemForm, IsLabelForm};
ghost use Rattle.apf_asm.specs.Layout.{layout};
ghost use Rattle.apf_asm.specs.Refusals.{answer};
ghost use Rattle.apf_check.specs.declared.flaw.Flaw.{Flaw};
ghost use Rattle.apf_check.specs.Orderly.{IsOrderly, IsAnswer};
ghost use Rattle.apf_check.specs.Assembled.{HasKnownExt, is_instruction};
ghost use Rattle.apf_check.specs.Ends.{EndsWithin};

/// A program is orderly with one number of instructions, or it has one first flaw, and never both.
pub fn programs_have_one_answer()
    ensures some { (program : List ℕ) → ((k : ℕ) → slice_index program k < 256) →
        (answer : Result ℕ Flaw) × IsAnswer program answer }
    ensures one { (program : List ℕ) (first second : Result ℕ Flaw) →
        IsAnswer program first → IsAnswer program second → first ≡ second }
{}

/// A run of an orderly program takes at most as many steps as it has instructions, never ends by its budget, and has
/// no fault but of the kinds Frame, Memory and Division.
pub fn orderly_programs_end()
    ensures { (program memory frame : List ℕ) (age count : ℕ) → IsOrderly program count →
        EndsWithin count (run program memory frame age) }
{}

/// Where items in label form are refused for no cause, and each ext has an immediate of at most 35, their bytes are
/// orderly, and each item that isn't a label is one of the instructions.
pub fn orderly_bytes()
    ensures { (items : List Item) → All IsItemForm items → IsLabelForm items → All HasKnownExt items →
        answer items ≡ None → IsOrderly (layout items).bytes (count_by is_instruction items) }
{}
