//! The first six lines of a script.

ghost use Rattle.std.specs.Prelude.{◌≡◌, ◌≤◌, [], ◌∷◌, length, IfOk, IfErr};
ghost use Rattle.script_text.specs.declared.script_error.ScriptError.TheVariants.{Bad};
ghost use Rattle.script_text.specs.declared.script_error.ScriptKind.TheVariants.{Form, End};
ghost use Rattle.script_text.specs.ScriptReading.{left, end_line, first, first_six, head_contents, ReadsAs, version_read, mac_read, capacity_read, start_read, drop_read, deny_read};
ghost use Rattle.policy_state.specs.Limits.{capacity_least, capacity_most, denied_most};

use crate::ethertypes::deny;
use crate::line_words::{capacity, drop_802_3, mac, start, version};
use crate::lines::Lines;
use crate::script_error::{ScriptError, ScriptKind};
use apf_base::List;
use policy_state::Config;
use std::alloc::Global;

/// The fault of a line that isn't of the form of its place.
fn form(lines: &Lines<'_>) -> ScriptError
    ensures { result ≡ Bad lines.now.number Form }
{
    ScriptError::Bad {
        line: lines.number,
        kind: ScriptKind::Form,
    }
}

/// The next line that isn't skipped. Without one the text ends too early.
fn next<'a>(lines: &mut Lines<'a>) -> Result<&'a [u8], ScriptError>
    ensures line { IfOk result (λ line. left lines.old ≡ (lines.new.number, line.now) ∷ left lines.new) }
    ensures none { IfErr result (λ e. (left lines.old ≡ []) × (e ≡ Bad (end_line lines.old) End)) }
    ensures end { end_line lines.new ≡ end_line lines.old }
{
    match lines.next_line() {
        Some(line) => Ok(line),
        None => Err(ScriptError::Bad {
            line: lines.number + 1,
            kind: ScriptKind::End,
        }),
    }
}

fn version_line(lines: &mut Lines<'_>) -> Result<(), ScriptError>
    ensures line { ReadsAs (λ version. (version, left lines.new)) result (first version_read (end_line lines.old) (left lines.old)) }
    ensures end { end_line lines.new ≡ end_line lines.old }
{
    let line = next(lines)?;
    match version(line) {
        Some(()) => Ok(()),
        None => Err(form(lines)),
    }
}

fn mac_line(lines: &mut Lines<'_>) -> Result<[u8; 6], ScriptError>
    ensures line { ReadsAs (λ mac. (mac, left lines.new)) result (first mac_read (end_line lines.old) (left lines.old)) }
    ensures end { end_line lines.new ≡ end_line lines.old }
{
    let line = next(lines)?;
    match mac(line) {
        Some(mac) => Ok(mac),
        None => Err(form(lines)),
    }
}

fn capacity_line(lines: &mut Lines<'_>) -> Result<u32, ScriptError>
    ensures line { ReadsAs (λ capacity. (capacity, left lines.new)) result (first capacity_read (end_line lines.old) (left lines.old)) }
    ensures bounds { IfOk result (λ capacity. (capacity_least ≤ capacity) × (capacity ≤ capacity_most)) }
    ensures end { end_line lines.new ≡ end_line lines.old }
{
    let line = next(lines)?;
    match capacity(line) {
        Some(capacity) => Ok(capacity),
        None => Err(form(lines)),
    }
}

fn start_line(lines: &mut Lines<'_>) -> Result<u32, ScriptError>
    ensures line { ReadsAs (λ start. (start, left lines.new)) result (first start_read (end_line lines.old) (left lines.old)) }
    ensures end { end_line lines.new ≡ end_line lines.old }
{
    let line = next(lines)?;
    match start(line) {
        Some(start) => Ok(start),
        None => Err(form(lines)),
    }
}

fn drop_line(lines: &mut Lines<'_>) -> Result<bool, ScriptError>
    ensures line { ReadsAs (λ dropped. (dropped, left lines.new)) result (first drop_read (end_line lines.old) (left lines.old)) }
    ensures end { end_line lines.new ≡ end_line lines.old }
{
    let line = next(lines)?;
    match drop_802_3(line) {
        Some(dropped) => Ok(dropped),
        None => Err(form(lines)),
    }
}

fn deny_line(alloc: Global, lines: &mut Lines<'_>) -> Result<List<u16>, ScriptError>
    ensures line { ReadsAs (λ deny. (deny, left lines.new)) result (first deny_read (end_line lines.old) (left lines.old)) }
    ensures few { IfOk result (λ deny. length deny ≤ denied_most) }
    ensures end { end_line lines.new ≡ end_line lines.old }
{
    let line = next(lines)?;
    match deny(alloc, line)? {
        Some(deny) => Ok(deny),
        None => Err(form(lines)),
    }
}

/// What the first six lines say: the configuration and the start.
pub(crate) fn read_head(alloc: Global, lines: &mut Lines<'_>) -> Result<(Config, u32), ScriptError>
    ensures { ReadsAs (λ head. (head_contents head.0 head.1, left lines.new)) result (first_six (end_line lines.old) (left lines.old)) }
{
    version_line(lines)?;
    let mac = mac_line(lines)?;
    let capacity = capacity_line(lines)?;
    let start = start_line(lines)?;
    let drop_802_3 = drop_line(lines)?;
    let deny = deny_line(alloc, lines)?;
    let config = Config {
        mac,
        capacity,
        drop_802_3,
        deny,
    };
    Ok((config, start))
}
