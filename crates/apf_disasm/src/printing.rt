//! The text of a listing.

ghost use Rattle.std.specs.Prelude.{◌≡◌, ◌≤◌, ◌++◌, length, string_bytes, All, OnOk, OnErr, IfOk, map, List as Items, ℕ};
ghost use Rattle.std.specs.List.{join_with_byte};
ghost use Rattle.apf_coding.specs.Instruction.{view, has_second, is_counted};
ghost use Rattle.apf_coding.specs.Spelling.{IsWellFormed};
ghost use Rattle.apf_coding.specs.Writing.{Extends};
ghost use Rattle.apf_asm.specs.TextForms.{Dotted, words_of};
ghost use Rattle.apf_disasm.specs.Listing.{entry_of};
ghost use Rattle.apf_disasm.specs.Printing.{AppendsListing, IsReadable, line_text, listing_text};
ghost use Rattle.apf_disasm.specs.ReadingBack.{ReadsBack};
ghost use Rattle.apf_base.specs.Limits.{program_limit, text_limit};

use crate::listing::{Line, list};
use apf_base::{List, OutOfMemory};
use apf_coding::{Instr, Op};
use std::alloc::{AllocError, Global};

/// Whether an instruction has a second immediate.
fn has_second(i: &Instr<'_>) -> bool
    ensures { result ≡ has_second i.now.op i.now.reg }
{
    matches!(i.op, Op::Jeq | Op::Jne | Op::Jgt | Op::Jlt | Op::Jset) && i.reg == 0
}

/// Whether an instruction has counted bytes.
fn is_counted(i: &Instr<'_>) -> bool
    ensures { result ≡ is_counted i.now.op }
{
    matches!(i.op, Op::Jnebs)
}

/// The words of an instruction, one space apart.
fn instruction_words(alloc: Global, i: &Instr<'_>) -> Result<String, AllocError>
    requires { IsWellFormed (view i.now) }
    ensures { IfOk result (λ words. string_bytes words ≡ join_with_byte 32 (words_of (Dotted (view i.now)))) }
{
    let (name, width, reg, imm) = (i.op.name(), i.width, i.reg, i.imm);
    let front = format!(in alloc; "{name}.{width} r{reg} {imm}")?;
    if has_second(i) {
        let second = i.second;
        format!(in alloc; "{front} {second}")
    } else if is_counted(i) {
        let bytes = hex::encode(alloc, i.bytes)?;
        format!(in alloc; "{front} x{bytes}")
    } else {
        Ok(front)
    }
}

/// The text of a line, with its line feed, as it stands in a listing. Each line of a listing is readable.
pub fn line_text(alloc: Global, line: &Line<'_>) -> Result<String, AllocError>
    requires { IsReadable line.now }
    ensures { IfOk result (λ text. string_bytes text ≡ line_text (entry_of line.now)) }
{
    match line {
        Line::Op { at, instr } => {
            let words = instruction_words(alloc, instr)?;
            format!(in alloc; "{words} ; at {at}\n")
        }
        Line::Byte { at, value } => format!(in alloc; ".byte {value} ; at {at}\n"),
    }
}

/// Appends the texts of lines. An `Err` leaves a part of them.
fn append_lines(alloc: Global, lines: &[Line<'_>], out: &mut List<u8>) -> Result<(), OutOfMemory>
    requires { All IsReadable lines.now }
    ensures ok { OnOk result (out.new ≡ out.old ++ listing_text (map entry_of lines.now)) }
    ensures err { OnErr result (Extends out.old out.new) }
{
    for line in lines {
        let text = line_text(alloc, line)?;
        out.extend(text.as_bytes())?;
    }
    Ok(())
}

fn append(alloc: Global, code: &[u8], out: &mut List<u8>) -> Result<(), OutOfMemory>
    requires { length code.now ≤ program_limit }
    ensures ok { OnOk result (AppendsListing code.now out.old out.new) }
    ensures err { OnErr result (Extends out.old out.new) }
{
    let lines = list(alloc, code)?;
    append_lines(alloc, lines.as_slice(), out)
}

/// Appends the text of a code's listing, a line for each entry. An `Err` changes nothing.
pub fn print(alloc: Global, code: &[u8], out: &mut List<u8>) -> Result<(), OutOfMemory>
    requires { length code.now ≤ program_limit }
    // What is appended is the text of the listing.
    ensures ok { OnOk result (AppendsListing code.now out.old out.new) }
    ensures err { OnErr result (out.new ≡ out.old) }
    // It is read as items that are assembled to the code.
    ensures reads_back { OnOk result ((text : Items ℕ) → out.new ≡ out.old ++ text → ReadsBack text code.now) }
    // A code of at most 40,000 bytes has a listing that can be read.
    ensures short { OnOk result ((text : Items ℕ) → out.new ≡ out.old ++ text → length code.now ≤ 40000 → length text ≤ text_limit) }
{
    let before = out.len();
    let result = append(alloc, code, out);
    if result.is_err() {
        out.truncate(before);
    }
    result
}
