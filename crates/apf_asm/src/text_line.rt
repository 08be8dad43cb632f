//! A line of a text, and what it stands for.

ghost use Rattle.std.specs.Prelude.{◌≡◌, ◌++◌, ◌∷◌, map, IfOk, None, Ok};
ghost use Rattle.std.specs.List.{list_all};
ghost use Rattle.apf_asm.specs.declared.text_line.Refusal.TheVariants.{OutOfMemory};
ghost use Rattle.apf_asm.specs.TextLines.{is_printable, without_comment, words_in};
ghost use Rattle.apf_asm.specs.TextAnswers.{Answers};
ghost use Rattle.apf_asm.specs.TextReading.{words_answer, line_answer};

use crate::Item;
use crate::text_error::TextKind;
use crate::text_head::head_of;
use crate::text_item::item;
use apf_base::OutOfMemory;
use std::alloc::{AllocError, Global};

/// Why a line stands for nothing.
#[derive(Clone, Copy, Debug)]
pub(crate) enum Refusal {
    Kind(TextKind),
    OutOfMemory,
}

impl From<OutOfMemory> for Refusal {
    ghost from_gives = { λ _ e. e ≡ OutOfMemory };

    fn from(_: OutOfMemory) -> Self {
        Refusal::OutOfMemory
    }
}

impl From<AllocError> for Refusal {
    ghost from_gives = { λ _ e. e ≡ OutOfMemory };

    fn from(_: AllocError) -> Self {
        Refusal::OutOfMemory
    }
}

fn is_printable(line: &[u8]) -> bool
    ensures { result ≡ list_all is_printable line.now }
{
    line.iter().all(|b| matches!(*b, b' '..=b'~'))
}

fn without_comment(line: &[u8]) -> &[u8]
    ensures { result.now ≡ without_comment line.now }
{
    match line.iter().position(|b| *b == b';') {
        Some(at) => &line[..at],
        None => line,
    }
}

fn words(alloc: Global, line: &[u8]) -> Result<Vec<&[u8]>, AllocError>
    ensures { IfOk result (λ words. map (λ x. x.now) words.items ≡ words_in line.now) }
{
    without_comment(line)
        .split(|b| *b == b' ')
        .filter(|word| !word.is_empty())
        .collect(alloc)
}

/// What words stand for.
#[tactic(auto, unfolding(crate::specs::TextReading::words_answer))]
fn words_item(alloc: Global, words: &[&[u8]]) -> Result<Option<Item>, Refusal>
    ensures { Answers result (words_answer (map (λ x. x.now) words.now)) }
{
    let [word, operands @ ..] = words else {
        return Ok(None);
    };
    let Some(head) = head_of(word) else {
        return Err(Refusal::Kind(TextKind::Word));
    };
    match item(alloc, head, operands)? {
        Some(item) => Ok(Some(item)),
        None => Err(Refusal::Kind(TextKind::Operand)),
    }
}

/// What a line stands for: an item, or nothing.
#[tactic(auto, unfolding(crate::specs::TextReading::line_answer))]
pub(crate) fn line_item(alloc: Global, line: &[u8]) -> Result<Option<Item>, Refusal>
    ensures { Answers result (line_answer line.now) }
{
    if !is_printable(line) {
        return Err(Refusal::Kind(TextKind::Ascii));
    }
    words_item(alloc, &words(alloc, line)?)
}
