//! The last lines: the counters and the totals.

ghost use Rattle.std.specs.Prelude.{◌≡◌, ◌≤◌, ◌++◌, OnOk, IfOk};
ghost use Rattle.script_text.specs.Report.{counter_line, total_line};
ghost use Rattle.filter_report.specs.Text.{lines_of_counter, last_lines};

use apf_base::{List, MEMORY_SIZE, OutOfMemory};
use data_counters::{COUNTERS, Counter, get};
use script_text::{print_counter, print_total};
use std::alloc::Global;

/// Adds the line of a counter that isn't 0.
#[tactic(auto, unfolding(script_text::specs::Report::counter_line))]
fn add_counter(
    alloc: Global,
    memory: &[u8; MEMORY_SIZE],
    counter: Counter,
    lines: &mut List<List<u8>>,
) -> Result<(), OutOfMemory>
    ensures { OnOk result (lines.new ≡ lines.old ++ lines_of_counter memory.now counter) }
{
    if get(memory, counter) == 0 {
        return Ok(());
    }
    let mut line = List::new(alloc);
    print_counter(alloc, memory, counter, &mut line)?;
    lines.push(line)
}

/// The last lines of a report: those of the counters that aren't 0, by their numbers, and the line of the totals, which
/// are the frames, how many of them passed, and the installs. It fails only where memory ends.
pub fn last_lines(
    alloc: Global,
    memory: &[u8; MEMORY_SIZE],
    frames: u64,
    passed: u64,
    installs: u64,
) -> Result<List<List<u8>>, OutOfMemory>
    requires { passed ≤ frames }
    ensures { IfOk result (λ lines. lines ≡ last_lines memory.now frames passed installs) }
{
    let mut lines = List::new(alloc);
    for counter in &COUNTERS {
        add_counter(alloc, memory, *counter, &mut lines)?;
    }
    let mut line = List::new(alloc);
    print_total(alloc, frames, passed, installs, &mut line)?;
    lines.push(line)?;
    Ok(lines)
}
