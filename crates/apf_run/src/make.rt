//! `make`: input that is made by a rule, and what the filter does with it.
#![tactic(auto, using(command_plan::proofs::Rules::following, command_plan::proofs::Rules::meaning))]

ghost use Rattle.std.specs.Prelude.{◌≡◌, ◌≢◌, ◌≤◌, ◌<◌, ◌^◌, ◌/◌, ◌+◌, ◌-◌, ◌∷◌, [], ℕ, map, length, IfOk, Err, None};
ghost use Rattle.std.specs.List.{range_with_len};
ghost use Rattle.made_input.specs.MadeCaptures.{made_kind, made_record};
ghost use Rattle.made_input.specs.MadeScripts.{doze_line, ended, made_contents, opening};
ghost use Rattle.pcap_files.specs.Writing.{head_bytes};
ghost use Rattle.script_text.specs.ScriptLines.{contents_of};
ghost use Rattle.command_plan.specs.Follows.{Shelving, Writes, stage};
ghost use Rattle.command_plan.specs.Meaning.{Does};
ghost use Rattle.command_plan.specs.Plan.{says};
ghost use Rattle.apf_run.specs.Make.{HasBegunMade, HasEndedMade, make_meaning, make_plan, makes};
ghost use Rattle.apf_run.specs.Settings.{making_of};

use crate::setting::{MadeWords, What};
use crate::words::made_words;
use apf_base::{Failed, OutOfMemory, Sink};
use command_plan::{Fault, Lines};
use filter_report::{Filtering, ReportFault};
use made_input::{doze_line, made_capture, made_head, made_record, made_script, opening_lines};
use pcap_files::records;
use policy_state::Script;
use script_text::{ScriptError, read_script};
use std::alloc::Global;

/// A sink that takes everything, and tells nothing.
#[derive(Drop)]
struct Nowhere;

impl Sink for Nowhere {
    ghost held = { λ _. None };

    ghost faults = { λ _. 0 };

    fn write(&mut self, piece: &[u8]) -> Result<usize, Failed> {
        Ok(piece.len())
    }
}

// The made script, as it is read.
fn read_made(alloc: Global, n: u32) -> Result<Script, OutOfMemory>
    requires { n ≤ 100000 }
    ensures script { IfOk result (λ script. contents_of script ≡ made_contents n) }
    ensures few_events { IfOk result (λ script. length script.events < 2 ^ 32) }
{
    let text = made_script(alloc, n)?;
    match read_script(alloc, text.as_slice()) {
        Ok(script) => Ok(script),
        Err(ScriptError::OutOfMemory) => Err(OutOfMemory),
        Err(ScriptError::Bad { .. }) => unreachable!(),
    }
}

// The filter of the made script, which has made its first install.
fn begun(alloc: Global, n: u32) -> Result<Filtering, ReportFault>
    requires { n ≤ 100000 }
    ensures ok { IfOk result (HasBegunMade n) }
    ensures none { IfOk result (λ f. f.frames ≡ 0) }
    ensures no_limit { (need limit : ℕ) → result ≢ Err (ReportFault.TooLarge need limit) }
    ensures no_write { result ≢ Err ReportFault.Write }
{
    let mut nowhere = Nowhere;
    let script = read_made(alloc, n)?;
    Filtering::begin(alloc, script, &mut nowhere)
}

// The filter that took all of the made script and the made capture.
fn replayed(alloc: Global, n: u32) -> Result<Filtering, ReportFault>
    requires { n ≤ 100000 }
    ensures ok { IfOk result (HasEndedMade n) }
    ensures no_limit { (need limit : ℕ) → result ≢ Err (ReportFault.TooLarge need limit) }
    ensures no_write { result ≢ Err ReportFault.Write }
{
    let mut nowhere = Nowhere;
    let bytes = made_capture(alloc, n)?;
    let found = records(alloc, bytes.as_slice())?;
    let mut filtering = begun(alloc, n)?;
    filtering.take_all(alloc, bytes.as_slice(), found.list.as_slice(), &mut nowhere)?;
    filtering.take_rest(alloc, &mut nowhere)?;
    Ok(filtering)
}

// Writes the lines that each made script begins with.
fn write_opening<O: Lines>(out: &mut O) -> Result<(), Fault>
    ensures { Writes (says (map ended opening)) (O.seen out.old) (O.seen out.new) result }
{
    for line in opening_lines() {
        out.say(line.as_bytes())?;
    }
    Ok(())
}

// Writes the lines of so many changes of the doze.
fn write_changes<O: Lines>(alloc: Global, changes: u32, out: &mut O) -> Result<(), Fault>
    requires { changes ≤ 10000 }
    ensures { Writes (says (map (λ j. ended (doze_line j)) (range_with_len 1 changes)))
        (O.seen out.old) (O.seen out.new) result }
{
    for j in 1..changes + 1 {
        let line = doze_line(alloc, j)?;
        out.say(line.as_bytes())?;
    }
    Ok(())
}

// Writes the made script, a line a piece.
fn write_script<O: Lines>(alloc: Global, n: u32, out: &mut O) -> Result<(), Fault>
    requires { n ≤ 100000 }
    ensures { Writes (makes What.Script n) (O.seen out.old) (O.seen out.new) result }
{
    write_opening(out)?;
    write_changes(alloc, n / 10, out)
}

// Writes the records of so many made frames.
fn write_records<O: Lines>(alloc: Global, n: u32, out: &mut O) -> Result<(), Fault>
    requires { n ≤ 100000 }
    ensures { Writes (says (map made_record (range_with_len 1 n))) (O.seen out.old) (O.seen out.new) result }
{
    for k in 1..n + 1 {
        let record = made_record(alloc, k)?;
        out.say(record.as_slice())?;
    }
    Ok(())
}

// Writes the made capture: the file header and each record a piece.
fn write_capture<O: Lines>(alloc: Global, n: u32, out: &mut O) -> Result<(), Fault>
    requires { n ≤ 100000 }
    ensures { Writes (makes What.Capture n) (O.seen out.old) (O.seen out.new) result }
{
    let head = made_head(alloc)?;
    out.say(head.as_slice())?;
    write_records(alloc, n, out)
}

// Filters the made script and the made capture in memory, and writes the counters and the totals.
fn write_summary<O: Lines>(alloc: Global, n: u32, out: &mut O) -> Result<(), Fault>
    requires { n ≤ 100000 }
    ensures { Writes (makes What.Summary n) (O.seen out.old) (O.seen out.new) result }
{
    let filtering = replayed(alloc, n)?;
    filtering.write_totals(alloc, out)?;
    Ok(())
}

// Writes what is asked for.
fn write_made<O: Lines>(alloc: Global, values: &MadeWords, out: &mut O) -> Result<(), Fault>
    ensures { Writes (make_plan (making_of values.now)) (O.seen out.old) (O.seen out.new) result }
{
    match values.what {
        What::Script => write_script(alloc, values.n, out),
        What::Capture => write_capture(alloc, values.n, out),
        What::Summary => write_summary(alloc, values.n, out),
    }
}

/// Writes the made script of a number, a line a piece; the made capture, its header and each record a piece; or the last
/// lines of the report of both, which are the counters that aren't 0 and the totals.
pub fn make<O: Lines>(alloc: Global, what: &str, n: &str, out: &mut O) -> Result<(), Fault>
    ensures { (shelf : Shelving) → Does (make_meaning what.now n.now)
        (stage shelf (O.seen out.old)) (stage shelf (O.seen out.new)) result }
{
    match made_words(what, n) {
        Some(values) => write_made(alloc, &values, out),
        None => Err(Fault::Usage),
    }
}
