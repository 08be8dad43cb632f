//! A text, line by line.

ghost use Rattle.std.specs.Prelude.{◌≡◌, ◌<◌, ◌≤◌, ◌∷◌, ◌⊎◌, ℕ, List as Items, length, All, IfOk, Ok, Err};
ghost use Rattle.apf_asm.specs.declared.item.Item.{Item};
ghost use Rattle.apf_asm.specs.Items.{IsItemForm, item_limit};
ghost use Rattle.apf_asm.specs.declared.text_error.TextKind.{TextKind};
ghost use Rattle.plain_text.specs.Lines.{lines_of};
ghost use Rattle.apf_asm.specs.TextLines.{TextReads, TextRefuses};
ghost use Rattle.apf_asm.specs.TextAnswers.{AddsItem, AnswersAs};
ghost use Rattle.apf_asm.specs.TextReading.{line_answer, text_answer};
ghost use Rattle.apf_base.specs.Limits.{text_limit};

use crate::Item;
use crate::text_error::TextError;
use crate::text_line::{Refusal, line_item};
use apf_base::List;
use plain_text::first_line;
use std::alloc::Global;

/// Adds what a line stands for to the items. The line has this number.
fn add_line(
    alloc: Global,
    number: u32,
    line: &[u8],
    items: &mut List<Item>,
) -> Result<(), TextError>
    ensures { AddsItem result number (line_answer line.now) items.old items.new }
{
    match line_item(alloc, line) {
        Ok(Some(item)) => {
            items.push(item)?;
            Ok(())
        }
        Ok(None) => Ok(()),
        Err(Refusal::Kind(kind)) => Err(TextError::Bad { line: number, kind }),
        Err(Refusal::OutOfMemory) => Err(TextError::OutOfMemory),
    }
}

fn read_lines(alloc: Global, text: &[u8]) -> Result<List<Item>, TextError>
    requires { length text.now ≤ text_limit }
    ensures { AnswersAs result (text_answer text.now) }
{
    let mut items = List::new(alloc);
    let mut number = 0;
    let mut rest = text;
    while !rest.is_empty() {
        let (line, after) = first_line(rest);
        number += 1;
        add_line(alloc, number, line, &mut items)?;
        rest = after;
    }
    Ok(items)
}

/// The items that a text stands for, in the order of its lines, or its first refused line.
pub fn read_text(alloc: Global, text: &[u8]) -> Result<List<Item>, TextError>
    requires { length text.now ≤ text_limit }
    // What is answered is what the text stands for.
    ensures found { IfOk result (λ items. TextReads text.now items) }
    ensures only { (items : Items Item) → TextReads text.now items → (result ≡ Ok items) ⊎ (result ≡ Err TextError.OutOfMemory) }
    // The line that is named is the first that is refused.
    ensures named { (line : ℕ) (kind : TextKind) → result ≡ Err (TextError.Bad line kind) → TextRefuses text.now line kind }
    ensures refused { (line : ℕ) (kind : TextKind) → TextRefuses text.now line kind → (result ≡ Err (TextError.Bad line kind)) ⊎ (result ≡ Err TextError.OutOfMemory) }
    // By a function that computes.
    ensures exact { AnswersAs result (text_answer text.now) }
    // The items can be assembled.
    ensures forms { IfOk result (λ items. All IsItemForm items) }
    ensures few { IfOk result (λ items. length items ≤ item_limit) }
{
    read_lines(alloc, text)
}
