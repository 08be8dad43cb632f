//! `filter`: the report of a script over a capture.
#![tactic(auto, using(command_plan::proofs::Rules::following, command_plan::proofs::Rules::fetching))]

ghost use Rattle.std.specs.Prelude.{◌≡◌, ◌≤◌, ◌<◌, ◌^◌, ◌∷◌, [], ℕ, List as Items, length, IfOk};
ghost use Rattle.apf_generate.specs.Ranges.{IsScript};
ghost use Rattle.command_plan.specs.Follows.{Follows, Thinks, Writes, answer, stage};
ghost use Rattle.command_plan.specs.Plan.{MayFetch};
ghost use Rattle.filter_report.specs.Streaming.{HasBegun};
ghost use Rattle.apf_run.specs.Filter.{begins, filter_plan, filters, reads_script};
ghost use Rattle.apf_base.specs.Limits.{script_limit};

use apf_base::{Shelf, Sink, Source};
use command_plan::{Fault, FileKind, Files, Input, Lines, Refusal, open_capture};
use filter_report::{Filtering, replay};
use policy_state::Script;
use script_text::{ScriptError, read_script};
use std::alloc::Global;

/// The file of a script.
pub(crate) const SCRIPT: Input = Input {
    kind: FileKind::Script,
    word: 1,
};

/// The file of a capture.
pub(crate) const CAPTURE: Input = Input {
    kind: FileKind::Capture,
    word: 2,
};

// The script of a text.
pub(crate) fn script_of(alloc: Global, text: &[u8]) -> Result<Script, Fault>
    requires { length text.now ≤ script_limit }
    ensures script { Thinks (reads_script text.now) result }
    ensures sound { IfOk result IsScript }
    ensures few_events { IfOk result (λ script. length script.events < 2 ^ 32) }
{
    match read_script(alloc, text) {
        Ok(script) => Ok(script),
        Err(ScriptError::Bad { line, kind }) => {
            Err(Fault::Refused(Refusal::BadScript { line, kind }))
        }
        Err(ScriptError::OutOfMemory) => Err(Fault::OutOfMemory),
    }
}

// Makes the first install of a script, and writes its line.
fn begin<O: Lines>(alloc: Global, script: Script, out: &mut O) -> Result<Filtering, Fault>
    requires sound { IsScript script }
    requires few_events { length script.events < 2 ^ 32 }
    ensures begun { (line : Items ℕ)
        × Writes (begins script) (O.seen out.old) (O.seen out.new) (answer (λ _. line) result)
        × IfOk result (λ f. HasBegun script f (line ∷ [])) }
    ensures none { IfOk result (λ f. f.frames ≡ 0) }
{
    let filtering = Filtering::begin(alloc, script, out)?;
    Ok(filtering)
}

// Makes the first install of a script, writes its line, and then opens the capture and filters it.
fn filter_by<H: Files, O: Lines>(
    alloc: Global,
    script: Script,
    capture: &str,
    shelf: &mut H,
    out: &mut O,
) -> Result<(), Fault>
    requires may { MayFetch H.may (filters script capture.now) }
    requires sound { IsScript script }
    requires few_events { length script.events < 2 ^ 32 }
    ensures { Follows (filters script capture.now) (stage (H.seen shelf.old) (O.seen out.old))
        (stage (H.seen shelf.new) (O.seen out.new)) result }
{
    let filtering = begin(alloc, script, out)?;
    let reader = open_capture(shelf, capture, CAPTURE)?;
    replay(alloc, filtering, reader, shelf, CAPTURE, out)
}

/// Filters a capture by a script, and writes the report, a line at a time.
///
/// The line of the first install goes out before the capture is opened, and the lines of each record before the next one
/// is taken. A damaged capture has the lines of its whole records before the fault.
pub fn filter<H: Files, O: Lines>(
    alloc: Global,
    script: &str,
    capture: &str,
    shelf: &mut H,
    out: &mut O,
) -> Result<(), Fault>
    requires { MayFetch H.may (filter_plan script.now capture.now) }
    ensures { Follows (filter_plan script.now capture.now) (stage (H.seen shelf.old) (O.seen out.old))
        (stage (H.seen shelf.new) (O.seen out.new)) result }
{
    let text = shelf.ask(alloc, script, SCRIPT)?;
    let script = script_of(alloc, text.as_slice())?;
    filter_by(alloc, script, capture, shelf, out)
}
