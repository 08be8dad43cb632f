//! A script, line by line.

ghost use Rattle.std.specs.Prelude.{◌≡◌, ◌≤◌, ◌⊎◌, ℕ, length, IfOk, Ok, Err};
ghost use Rattle.policy_state.specs.declared.basis.Script.{Script as ScriptValue};
ghost use Rattle.script_text.specs.declared.script_error.ScriptKind.{ScriptKind as KindValue};
ghost use Rattle.script_text.specs.ScriptLines.{contents_of};
ghost use Rattle.script_text.specs.Scripts.{IsScriptText};
ghost use Rattle.script_text.specs.ScriptFaults.{ScriptRefuses};
ghost use Rattle.script_text.specs.ScriptReading.{left, event_answer, events_from, script_answer, ReadsAs};
ghost use Rattle.apf_base.specs.Limits.{script_limit};

use crate::events::event;
use crate::head::read_head;
use crate::lines::Lines;
use crate::script_error::{ScriptError, ScriptKind};
use apf_base::List;
use policy_state::{Script, Timed};
use std::alloc::Global;

/// The event of a line with a number, where the latest time before it is known.
fn event_at(latest: u32, number: u32, line: &[u8]) -> Result<Timed, ScriptError>
    ensures { result ≡ event_answer latest (number, line.now) }
{
    let kind = match event(line) {
        Some(event) if event.time >= latest => return Ok(event),
        Some(_) => ScriptKind::Order,
        None => ScriptKind::Form,
    };
    Err(ScriptError::Bad { line: number, kind })
}

/// The events of the lines that are left, none of which is earlier than the start.
fn read_events(alloc: Global, start: u32, lines: &mut Lines<'_>) -> Result<List<Timed>, ScriptError>
    ensures { ReadsAs (λ events. events) result (events_from start (left lines.old)) }
{
    let mut events = List::new(alloc);
    let mut latest = start;
    while let Some(line) = lines.next_line() {
        let event = event_at(latest, lines.number, line)?;
        latest = event.time;
        events.push(event)?;
    }
    Ok(events)
}

fn read_lines(alloc: Global, text: &[u8]) -> Result<Script, ScriptError>
    requires { length text.now ≤ script_limit }
    ensures { ReadsAs contents_of result (script_answer text.now) }
{
    let mut lines = Lines::new(text);
    let (config, start) = read_head(alloc, &mut lines)?;
    let events = read_events(alloc, start, &mut lines)?;
    Ok(Script {
        config,
        start,
        events,
    })
}

/// The script of a text, or the first fault in the order of its lines.
///
/// A script has lines that a line feed ends; the last may lack it. Lines that are empty or begin with `#` are skipped and
/// counted. The first six other lines name the format, the MAC, the capacity, the start, whether 802.3 frames are dropped
/// and the denied ethertypes. Each further line is an event. The grammar is in `docs/SCRIPT.md`.
pub fn read_script(alloc: Global, text: &[u8]) -> Result<Script, ScriptError>
    requires { length text.now ≤ script_limit }
    // What is answered is what the text says.
    ensures found { IfOk result (λ script. IsScriptText text.now script) }
    ensures only { (script : ScriptValue) → IsScriptText text.now script → (result ≡ Ok script) ⊎ (result ≡ Err ScriptError.OutOfMemory) }
    // The fault that is named is the first.
    ensures named { (line : ℕ) (kind : KindValue) → result ≡ Err (ScriptError.Bad line kind) → ScriptRefuses text.now line kind }
    ensures refused { (line : ℕ) (kind : KindValue) → ScriptRefuses text.now line kind → (result ≡ Err (ScriptError.Bad line kind)) ⊎ (result ≡ Err ScriptError.OutOfMemory) }
    // Each event has a line.
    ensures few { IfOk result (λ script. length script.events ≤ length text.now) }
    // By a function that computes.
    ensures exact { ReadsAs contents_of result (script_answer text.now) }
{
    read_lines(alloc, text)
}
