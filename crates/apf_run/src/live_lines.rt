//! The lines of `live`.

ghost use Rattle.std.specs.Prelude.{◌≡◌, ◌≤◌, ◌<◌, ◌∷◌, [], length, map, IfOk};
ghost use Rattle.command_plan.specs.Follows.{Writes};
ghost use Rattle.command_plan.specs.Plan.{says};
ghost use Rattle.filter_core.specs.Lanes.{codes_of};
ghost use Rattle.filter_report.specs.Live.{lane_line, lane_lines, live_lines, passed_of};
ghost use Rattle.filter_report.specs.Scripted.{HasTold, events_told};
ghost use Rattle.policy_state.specs.declared.basis.Script.{Script};

use apf_base::{List, MEMORY_SIZE, OutOfMemory, Sink};
use apf_coding::Verdict;
use command_plan::{Fault, Lines};
use filter_report::{ScriptTold, last_lines};
use policy_state::Answer;
use script_text::print_frame;
use std::alloc::Global;

// Writes lines that are made.
fn say_all<O: Lines>(lines: &[List<u8>], out: &mut O) -> Result<(), Fault>
    ensures { Writes (says (map (λ line. line) lines.now)) (O.seen out.old) (O.seen out.new) result }
{
    for line in lines {
        out.say(line.as_slice())?;
    }
    Ok(())
}

// The line of the answer to frame k, with the number of its lane.
fn lane_line(alloc: Global, lanes: u32, k: u64, answer: &Answer) -> Result<List<u8>, OutOfMemory>
    requires lanes { 0 < lanes }
    requires lanes_most { lanes ≤ 16 }
    requires k { 1 ≤ k }
    ensures { IfOk result (λ line. line ≡ lane_line lanes k answer.now) }
{
    let lane = 1 + (k - 1) % u64::from(lanes);
    let mut line = List::new(alloc);
    print_frame(alloc, k, Some(lane as u32), answer, &mut line)?;
    Ok(line)
}

// Writes the lines of the answers, in the frames' order.
fn say_answers<O: Lines>(
    alloc: Global,
    lanes: u32,
    answers: &[Answer],
    out: &mut O,
) -> Result<(), Fault>
    requires lanes { 0 < lanes }
    requires lanes_most { lanes ≤ 16 }
    ensures { Writes (says (lane_lines lanes 1 answers.now)) (O.seen out.old) (O.seen out.new) result }
{
    for (index, answer) in answers.iter().enumerate() {
        let line = lane_line(alloc, lanes, index as u64 + 1, answer)?;
        out.say(line.as_slice())?;
    }
    Ok(())
}

// How many of the answers pass.
fn passed_of(answers: &[Answer]) -> u64
    ensures passed { result ≡ passed_of answers.now }
    ensures most { result ≤ length answers.now }
{
    answers
        .iter()
        .filter(|answer| answer.verdict == Verdict::Pass)
        .count() as u64
}

// Writes the lines of a live run: those of the script, those of the answers, the counters of all lanes and the totals.
pub(crate) fn say_live<O: Lines>(
    alloc: Global,
    told: &ScriptTold,
    lanes: u32,
    answers: &[Answer],
    sum: &[u8; MEMORY_SIZE],
    out: &mut O,
) -> Result<(), Fault>
    requires lanes { 0 < lanes }
    requires lanes_most { lanes ≤ 16 }
    ensures { (script : Script) → HasTold script told.now.installs told.now.lines
        → Writes (says (live_lines (events_told script) told.now.installs lanes answers.now sum.now))
        (O.seen out.old) (O.seen out.new) result }
{
    say_all(told.lines.as_slice(), out)?;
    say_answers(alloc, lanes, answers, out)?;
    let frames = answers.len() as u64;
    let installs = told.installs.len() as u64;
    let last = last_lines(alloc, sum, frames, passed_of(answers), installs)?;
    say_all(last.as_slice(), out)
}
