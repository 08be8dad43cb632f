//! The last lines of a report: the counters that aren't 0, and the totals.

ghost use Rattle.std.specs.Prelude.{◌≡◌, ◌++◌, ◌≤◌, OnOk, OnErr, IfOk, string_bytes};
ghost use Rattle.script_text.specs.Report.{counter_line, counter_lines, total_line, totals_lines};

use apf_base::{List, MEMORY_SIZE, OutOfMemory};
use data_counters::{COUNTERS, Counter, get};
use std::alloc::{AllocError, Global};

/// Adds the line of a counter that isn't 0.
#[tactic(auto, unfolding(crate::specs::Report::counter_line))]
fn add_counter(
    text: &mut String,
    memory: &[u8; MEMORY_SIZE],
    counter: Counter,
) -> Result<(), AllocError>
    ensures { OnOk result (string_bytes text.new ≡ string_bytes text.old ++ counter_line memory.now counter) }
{
    let value = get(memory, counter);
    if value != 0 {
        let name = counter.name();
        write!(text, "counter {name} {value}\n")?;
    }
    Ok(())
}

fn counter_texts(alloc: Global, memory: &[u8; MEMORY_SIZE]) -> Result<String, AllocError>
    ensures { IfOk result (λ text. string_bytes text ≡ counter_lines memory.now) }
{
    let mut text = String::new(alloc);
    for counter in &COUNTERS {
        add_counter(&mut text, memory, *counter)?;
    }
    Ok(text)
}

#[tactic(auto, unfolding(crate::specs::Report::total_line))]
fn add_total(text: &mut String, frames: u64, passed: u64, programs: u64) -> Result<(), AllocError>
    requires { passed ≤ frames }
    ensures { OnOk result (string_bytes text.new ≡ string_bytes text.old ++ total_line frames passed programs) }
{
    let dropped = frames - passed;
    write!(
        text,
        "total frames {frames} passed {passed} dropped {dropped} programs {programs}\n"
    )?;
    Ok(())
}

/// Appends a line for each counter of a memory that isn't 0, by their numbers, and then the totals: the frames, how many
/// of them passed and how many were dropped, and the programs that were installed.
pub fn print_totals(
    alloc: Global,
    memory: &[u8; MEMORY_SIZE],
    frames: u64,
    passed: u64,
    programs: u64,
    out: &mut List<u8>,
) -> Result<(), OutOfMemory>
    requires { passed ≤ frames }
    ensures ok { OnOk result (out.new ≡ out.old ++ totals_lines memory.now frames passed programs) }
    ensures err { OnErr result (out.new ≡ out.old) }
{
    let mut text = counter_texts(alloc, memory)?;
    add_total(&mut text, frames, passed, programs)?;
    out.extend(text.as_bytes())
}

/// Appends the line of a counter of a memory, or nothing where it is 0.
pub fn print_counter(
    alloc: Global,
    memory: &[u8; MEMORY_SIZE],
    counter: Counter,
    out: &mut List<u8>,
) -> Result<(), OutOfMemory>
    ensures ok { OnOk result (out.new ≡ out.old ++ counter_line memory.now counter) }
    ensures err { OnErr result (out.new ≡ out.old) }
{
    let mut text = String::new(alloc);
    add_counter(&mut text, memory, counter)?;
    out.extend(text.as_bytes())
}

/// Appends the last line: the frames, how many of them passed and how many were dropped, and the programs that were
/// installed.
pub fn print_total(
    alloc: Global,
    frames: u64,
    passed: u64,
    programs: u64,
    out: &mut List<u8>,
) -> Result<(), OutOfMemory>
    requires { passed ≤ frames }
    ensures ok { OnOk result (out.new ≡ out.old ++ total_line frames passed programs) }
    ensures err { OnErr result (out.new ≡ out.old) }
{
    let mut text = String::new(alloc);
    add_total(&mut text, frames, passed, programs)?;
    out.extend(text.as_bytes())
}
