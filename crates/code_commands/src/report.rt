//! The lines that `exec` writes.

ghost use Rattle.std.specs.Prelude.{◌≡◌, IfOk, string_bytes};
ghost use Rattle.code_commands.specs.ExecText.{fault_kind_word, exec_frame_line, memory_line};

use apf_base::OutOfMemory;
use apf_interp::{FaultKind, Outcome, Why};
use std::alloc::Global;

fn kind_word(kind: FaultKind) -> &'static str
    ensures { result.now ≡ fault_kind_word kind }
{
    match kind {
        FaultKind::Place => "place",
        FaultKind::Opcode => "opcode",
        FaultKind::Cut => "cut",
        FaultKind::Extended => "extended",
        FaultKind::Frame => "frame",
        FaultKind::Memory => "memory",
        FaultKind::Division => "division",
        FaultKind::Compare => "compare",
    }
}

/// The line of a frame: its number and how the run on it ended.
#[tactic(auto, unfolding(crate::specs::ExecText::exec_frame_line, apf_coding::specs::Verdicts::verdict_word))]
pub fn frame_line(alloc: Global, number: u64, outcome: Outcome) -> Result<String, OutOfMemory>
    ensures { IfOk result (λ line. string_bytes line ≡ exec_frame_line number outcome) }
{
    let verdict = outcome.verdict.name();
    let steps = outcome.steps;
    let line = match outcome.why {
        Why::Short => format!(in alloc; "frame {number} {verdict} short steps {steps}\n"),
        Why::Reached => format!(in alloc; "frame {number} {verdict} reached steps {steps}\n"),
        Why::Budget => format!(in alloc; "frame {number} {verdict} budget steps {steps}\n"),
        Why::Fault { kind, at } => {
            let kind = kind_word(kind);
            format!(in alloc; "frame {number} {verdict} fault {kind} at {at} steps {steps}\n")
        }
    }?;
    Ok(line)
}

/// The line of a memory: two hexadecimal digits a byte.
#[tactic(auto, unfolding(crate::specs::ExecText::memory_line))]
pub fn memory_line(alloc: Global, memory: &[u8]) -> Result<String, OutOfMemory>
    ensures { IfOk result (λ line. string_bytes line ≡ memory_line memory.now) }
{
    let digits = hex::encode(alloc, memory)?;
    let line = format!(in alloc; "memory {digits}\n")?;
    Ok(line)
}
