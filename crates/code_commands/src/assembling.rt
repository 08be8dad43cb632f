//! `asm`: the code of assembler text.
#![tactic(auto, using(command_plan::proofs::Rules::following, command_plan::proofs::Rules::fetching))]

ghost use Rattle.std.specs.Prelude.{◌≡◌, ◌≤◌, length, All, IfOk};
ghost use Rattle.apf_asm.specs.Items.{IsItemForm, item_limit};
ghost use Rattle.apf_asm.specs.TextReading.{text_answer};
ghost use Rattle.command_plan.specs.Follows.{Follows, Thinks, stage};
ghost use Rattle.command_plan.specs.Plan.{MayFetch};
ghost use Rattle.code_commands.specs.Asm.{asm_plan, assembles, reads_code, reads_items};
ghost use Rattle.apf_base.specs.Limits.{text_limit};

use apf_asm::{AsmError, Item, TextError, assemble_bytes, read_text};
use apf_base::{List, Shelf, Sink, Source};
use command_plan::{Fault, FileKind, Files, Input, Lines, Refusal};
use std::alloc::Global;

/// The file of assembler text.
const TEXT: Input = Input {
    kind: FileKind::Text,
    word: 1,
};

// The items of a text.
fn items_of(alloc: Global, text: &[u8]) -> Result<List<Item>, Fault>
    requires { length text.now ≤ text_limit }
    ensures items { Thinks (reads_items (text_answer text.now)) result }
    ensures few { IfOk result (λ items. length items ≤ item_limit) }
    ensures forms { IfOk result (λ items. All IsItemForm items) }
{
    match read_text(alloc, text) {
        Ok(items) => Ok(items),
        Err(TextError::Bad { line, kind }) => Err(Fault::Refused(Refusal::BadText { line, kind })),
        Err(TextError::OutOfMemory) => Err(Fault::OutOfMemory),
    }
}

// The code of items.
fn code_of(alloc: Global, items: &[Item]) -> Result<List<u8>, Fault>
    requires few { length items.now ≤ item_limit }
    requires forms { All IsItemForm items.now }
    ensures { Thinks (assembles items.now) result }
{
    match assemble_bytes(alloc, items) {
        Ok(bytes) => Ok(bytes),
        Err(AsmError::Twice { item, label }) => Err(Fault::Refused(Refusal::Twice { item, label })),
        Err(AsmError::Unknown { item, label }) => {
            Err(Fault::Refused(Refusal::Unknown { item, label }))
        }
        Err(AsmError::Backward { item, label }) => {
            Err(Fault::Refused(Refusal::Backward { item, label }))
        }
        Err(AsmError::TooLong { .. }) => Err(Fault::Refused(Refusal::CodeTooLong)),
        Err(AsmError::OutOfMemory) => Err(Fault::OutOfMemory),
    }
}

// The code of a text.
fn assembled(alloc: Global, text: &[u8]) -> Result<List<u8>, Fault>
    requires { length text.now ≤ text_limit }
    ensures { Thinks (reads_code text.now) result }
{
    let items = items_of(alloc, text)?;
    code_of(alloc, items.as_slice())
}

/// Assembles a text, and writes the bytes of the program as one piece.
pub fn asm<H: Files, O: Lines>(
    alloc: Global,
    text: &str,
    shelf: &mut H,
    out: &mut O,
) -> Result<(), Fault>
    requires { MayFetch H.may (asm_plan text.now) }
    ensures plan { Follows (asm_plan text.now) (stage (H.seen shelf.old) (O.seen out.old))
        (stage (H.seen shelf.new) (O.seen out.new)) result }
{
    let bytes = shelf.ask(alloc, text, TEXT)?;
    let code = assembled(alloc, bytes.as_slice())?;
    out.say(code.as_slice())
}
