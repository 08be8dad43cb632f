//! The one line that says why a command ended before its end.

ghost use Rattle.std.specs.Prelude.{◌≡◌, ◌≤◌, ◌⊎◌, [], map, OnOk, OnErr, slice_index_or};
ghost use Rattle.std.specs.List.{concat};
ghost use Rattle.std.specs.Fmt.{decimal};
ghost use Rattle.std.specs.Io.KnownBytes.{Appends};
ghost use Rattle.apf_base.specs.Causes.{Rose, HasCause};
ghost use Rattle.apf_base.specs.Streams.{AppendsFront};
ghost use Rattle.command_line.specs.Lines.{texts};
ghost use Rattle.command_plan.specs.Status.{text_kind_word, script_word, capture_words, refusal_words, fault_words, fault_name, pair_words, line_words, limit_words, capture_numbers, refusal_numbers, fault_numbers, fault_head, fault_line};

use crate::fault::{Fault, FileKind, Refusal};
use apf_asm::TextKind;
use apf_base::{Failed, Sink, write_all};
use itoa::Buffer;
use pcap_files::PcapError;
use script_text::ScriptKind;

fn kind_word(kind: TextKind) -> &'static str
    ensures { result.now ≡ text_kind_word kind }
{
    match kind {
        TextKind::Ascii => "ascii",
        TextKind::Word => "word",
        TextKind::Operand => "operand",
    }
}

fn script_word(kind: ScriptKind) -> &'static str
    ensures { result.now ≡ script_word kind }
{
    match kind {
        ScriptKind::Form => "form",
        ScriptKind::Order => "order",
        ScriptKind::End => "end",
    }
}

fn word_at(words: &[String], at: usize) -> &str
    ensures { result.now ≡ slice_index_or (texts words.now) at [] }
{
    match words.get(at) {
        Some(word) => word.as_str(),
        None => "",
    }
}

fn capture_words(fault: PcapError) -> &'static str
    ensures { result.now ≡ capture_words fault }
{
    match fault {
        PcapError::Magic => "capture: magic",
        PcapError::Version => "capture: version",
        PcapError::Link(_) => "capture: link ",
        PcapError::Cut(_) => "capture: cut at ",
        PcapError::TooLong(_, _) => "capture: too long at ",
        PcapError::Length => "capture: length",
        PcapError::Read => "capture: read failed",
        PcapError::OutOfMemory => "capture: out of memory",
    }
}

fn refusal_words(refusal: Refusal) -> &'static str
    ensures { result.now ≡ refusal_words refusal }
{
    match refusal {
        Refusal::BadCapture(fault) => capture_words(fault),
        Refusal::BadScript { .. } => "script: line ",
        Refusal::BadText { .. } => "text: line ",
        Refusal::Twice { .. } | Refusal::Unknown { .. } | Refusal::Backward { .. } => "asm: item ",
        Refusal::TooLong(_) | Refusal::CodeTooLong => "too long: ",
        Refusal::TooLarge { .. } => "too large: need ",
    }
}

fn fault_words(fault: Fault) -> &'static str
    ensures { result.now ≡ fault_words fault }
{
    match fault {
        Fault::Usage => "usage: exec, asm, disasm, program, filter, make or live with its words",
        Fault::Refused(refusal) => refusal_words(refusal),
        Fault::OutOfMemory => "out of memory",
        Fault::Read(_) => "read failed",
        Fault::Write => "write failed",
        Fault::Open(_) => "cannot open ",
        Fault::Board => "board refused",
    }
}

fn fault_name(fault: Fault, words: &[String]) -> &str
    ensures { result.now ≡ fault_name fault (texts words.now) }
{
    match fault {
        Fault::Refused(Refusal::TooLong(input)) => input.kind.name(),
        Fault::Refused(Refusal::CodeTooLong) => FileKind::Program.name(),
        Fault::Open(input) => word_at(words, input.word),
        _ => "",
    }
}

// Writes pieces, one behind another.
fn write_parts<E: Sink>(err: &mut E, parts: &[&str]) -> Result<(), Failed>
    ensures ok { OnOk result (Appends (E.held err.old) (E.held err.new) (concat (map (λ part. part.now) parts.now))) }
    ensures err { OnErr result
        (AppendsFront (E.held err.old) (E.held err.new) (concat (map (λ part. part.now) parts.now))) }
    ensures cause { HasCause (E.faults err.old) (E.faults err.new) result }
{
    for part in parts {
        write_all(err, part.as_bytes())?;
    }
    Ok(())
}

// Writes two numbers, with the words between and behind them.
#[tactic(auto, unfolding(crate::specs::Status::pair_words))]
fn write_pair<E: Sink>(
    err: &mut E,
    first: u32,
    between: &str,
    second: u32,
    behind: &str,
) -> Result<(), Failed>
    ensures ok { OnOk result
        (Appends (E.held err.old) (E.held err.new) (pair_words first between.now second behind.now)) }
    ensures err { OnErr result
        (AppendsFront (E.held err.old) (E.held err.new) (pair_words first between.now second behind.now)) }
    ensures cause { HasCause (E.faults err.old) (E.faults err.new) result }
{
    let mut digits = Buffer::new();
    let mut more_digits = Buffer::new();
    write_parts(
        err,
        &[
            digits.format(first),
            between,
            more_digits.format(second),
            behind,
        ],
    )
}

// Writes the number of a line and what is wrong with it.
#[tactic(auto, unfolding(crate::specs::Status::line_words))]
fn write_bad_line<E: Sink>(err: &mut E, line: u32, kind: &str) -> Result<(), Failed>
    ensures ok { OnOk result (Appends (E.held err.old) (E.held err.new) (line_words line kind.now)) }
    ensures err { OnErr result (AppendsFront (E.held err.old) (E.held err.new) (line_words line kind.now)) }
    ensures cause { HasCause (E.faults err.old) (E.faults err.new) result }
{
    let mut digits = Buffer::new();
    write_parts(err, &[digits.format(line), ": ", kind])
}

// Writes the most that there may be.
#[tactic(auto, unfolding(crate::specs::Status::limit_words))]
fn write_limit<E: Sink>(err: &mut E, limit: usize) -> Result<(), Failed>
    ensures ok { OnOk result (Appends (E.held err.old) (E.held err.new) (limit_words limit)) }
    ensures err { OnErr result (AppendsFront (E.held err.old) (E.held err.new) (limit_words limit)) }
    ensures cause { HasCause (E.faults err.old) (E.faults err.new) result }
{
    let mut digits = Buffer::new();
    write_parts(err, &[" over ", digits.format(limit)])
}

// Writes one number.
fn write_number<E: Sink>(err: &mut E, number: u32) -> Result<(), Failed>
    ensures ok { OnOk result (Appends (E.held err.old) (E.held err.new) (decimal number)) }
    ensures err { OnErr result (AppendsFront (E.held err.old) (E.held err.new) (decimal number)) }
    ensures cause { HasCause (E.faults err.old) (E.faults err.new) result }
{
    let mut digits = Buffer::new();
    write_all(err, digits.format(number).as_bytes())
}

// Writes the numbers of a capture's fault.
fn write_capture_numbers<E: Sink>(err: &mut E, fault: PcapError) -> Result<(), Failed>
    ensures ok { OnOk result (Appends (E.held err.old) (E.held err.new) (capture_numbers fault)) }
    ensures err { OnErr result (AppendsFront (E.held err.old) (E.held err.new) (capture_numbers fault)) }
    ensures cause { HasCause (E.faults err.old) (E.faults err.new) result }
{
    match fault {
        PcapError::Link(number) | PcapError::Cut(number) => write_number(err, number),
        PcapError::TooLong(at, len) => write_pair(err, at, ": ", len, ""),
        _ => Ok(()),
    }
}

// Writes the numbers of a refusal. They are printed on the stack, so that it takes no memory.
fn write_refusal_numbers<E: Sink>(err: &mut E, refusal: Refusal) -> Result<(), Failed>
    ensures ok { OnOk result (Appends (E.held err.old) (E.held err.new) (refusal_numbers refusal)) }
    ensures err { OnErr result (AppendsFront (E.held err.old) (E.held err.new) (refusal_numbers refusal)) }
    ensures cause { HasCause (E.faults err.old) (E.faults err.new) result }
{
    match refusal {
        Refusal::BadCapture(fault) => write_capture_numbers(err, fault),
        Refusal::BadScript { line, kind } => write_bad_line(err, line, script_word(kind)),
        Refusal::BadText { line, kind } => write_bad_line(err, line, kind_word(kind)),
        Refusal::Twice { item, label } => write_pair(err, item, ": label L", label, " twice"),
        Refusal::Unknown { item, label } => write_pair(err, item, ": unknown label L", label, ""),
        Refusal::Backward { item, label } => write_pair(err, item, ": backward label L", label, ""),
        Refusal::TooLong(input) => write_limit(err, input.kind.limit()),
        Refusal::CodeTooLong => write_limit(err, FileKind::Program.limit()),
        Refusal::TooLarge { need, limit } => write_pair(err, need, " limit ", limit, ""),
    }
}

// Writes the numbers of a fault, if it has some.
fn write_numbers<E: Sink>(err: &mut E, fault: Fault) -> Result<(), Failed>
    ensures ok { OnOk result (Appends (E.held err.old) (E.held err.new) (fault_numbers fault)) }
    ensures err { OnErr result (AppendsFront (E.held err.old) (E.held err.new) (fault_numbers fault)) }
    ensures cause { HasCause (E.faults err.old) (E.faults err.new) result }
{
    match fault {
        Fault::Refused(refusal) => write_refusal_numbers(err, refusal),
        _ => Ok(()),
    }
}

// Writes the first words of the line.
#[tactic(auto, unfolding(crate::specs::Status::fault_head))]
fn write_head<E: Sink>(err: &mut E, fault: Fault, words: &[String]) -> Result<(), Failed>
    ensures ok { OnOk result (Appends (E.held err.old) (E.held err.new) (fault_head fault (texts words.now))) }
    ensures err { OnErr result (AppendsFront (E.held err.old) (E.held err.new) (fault_head fault (texts words.now))) }
    ensures cause { HasCause (E.faults err.old) (E.faults err.new) result }
{
    write_all(err, b"apf_run: ")?;
    write_all(err, fault_words(fault).as_bytes())?;
    write_all(err, fault_name(fault, words).as_bytes())
}

// Writes the whole line.
#[tactic(auto, unfolding(crate::specs::Status::fault_line))]
fn write_fault<E: Sink>(err: &mut E, fault: Fault, words: &[String]) -> Result<(), Failed>
    ensures ok { OnOk result (Appends (E.held err.old) (E.held err.new) (fault_line fault (texts words.now))) }
    ensures err { OnErr result (AppendsFront (E.held err.old) (E.held err.new) (fault_line fault (texts words.now))) }
    ensures cause { HasCause (E.faults err.old) (E.faults err.new) result }
{
    write_head(err, fault, words)?;
    write_numbers(err, fault)?;
    write_all(err, b"\n")
}

/// Writes the line of a fault. A fault of the sink cuts it short.
pub fn complain<E: Sink>(fault: Fault, words: &[String], err: &mut E)
    ensures line { let line = fault_line fault (texts words.now) in
        Appends (E.held err.old) (E.held err.new) line
        ⊎ (Rose (E.faults err.old) (E.faults err.new) × AppendsFront (E.held err.old) (E.held err.new) line) }
    ensures faults { E.faults err.old ≤ E.faults err.new }
{
    let _ = write_fault(err, fault, words);
}
