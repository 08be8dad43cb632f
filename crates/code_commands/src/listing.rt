//! `disasm`: the listing of a program.
#![tactic(auto, using(command_plan::proofs::Rules::following, command_plan::proofs::Rules::fetching))]

ghost use Rattle.std.specs.Prelude.{◌≡◌, ◌≤◌, length, map, All};
ghost use Rattle.apf_disasm.specs.Listing.{entry_of};
ghost use Rattle.apf_disasm.specs.Printing.{IsReadable, line_text};
ghost use Rattle.command_plan.specs.Follows.{Follows, Writes, stage};
ghost use Rattle.command_plan.specs.Plan.{MayFetch, says};
ghost use Rattle.code_commands.specs.Disasm.{disasm_plan, lists};
ghost use Rattle.apf_base.specs.Limits.{program_limit};

use crate::execution::PROGRAM;
use apf_base::{Shelf, Sink, Source};
use apf_disasm::{Line, line_text, list};
use command_plan::{Fault, Files, Lines};
use std::alloc::Global;

// Writes the lines of a listing.
fn write_lines<O: Lines>(alloc: Global, lines: &[Line<'_>], out: &mut O) -> Result<(), Fault>
    requires { All IsReadable lines.now }
    ensures { Writes (says (map (λ line. line_text (entry_of line)) lines.now))
        (O.seen out.old) (O.seen out.new) result }
{
    for line in lines {
        let text = line_text(alloc, line)?;
        out.say(text.as_bytes())?;
    }
    Ok(())
}

// Lists a program, and writes the lines.
fn write_listing<O: Lines>(alloc: Global, program: &[u8], out: &mut O) -> Result<(), Fault>
    requires { length program.now ≤ program_limit }
    ensures { Writes (lists program.now) (O.seen out.old) (O.seen out.new) result }
{
    let lines = list(alloc, program)?;
    write_lines(alloc, lines.as_slice(), out)
}

/// Writes the listing of a program, a line for each instruction and for each byte at which none begins.
pub fn disasm<H: Files, O: Lines>(
    alloc: Global,
    program: &str,
    shelf: &mut H,
    out: &mut O,
) -> Result<(), Fault>
    requires { MayFetch H.may (disasm_plan program.now) }
    ensures plan { Follows (disasm_plan program.now) (stage (H.seen shelf.old) (O.seen out.old))
        (stage (H.seen shelf.new) (O.seen out.new)) result }
{
    let code = shelf.ask(alloc, program, PROGRAM)?;
    write_listing(alloc, code.as_slice(), out)
}
