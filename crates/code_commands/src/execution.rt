//! `exec`: a program over the frames of a capture.
#![tactic(auto, using(command_plan::proofs::Rules::following, command_plan::proofs::Rules::meaning, command_plan::proofs::Rules::fetching))]

ghost use Rattle.std.specs.Prelude.{◌≡◌, ◌≤◌, ℕ, List as Items, Option, IfSome, IsTrue, length};
ghost use Rattle.apf_base.specs.Limits.{program_limit};
ghost use Rattle.hex.specs.Hex.{IsBytes};
ghost use Rattle.pcap_files.specs.Stream.{Told};
ghost use Rattle.command_plan.specs.Follows.{Follows, stage};
ghost use Rattle.command_plan.specs.Meaning.{Does, MayFetchFor};
ghost use Rattle.command_plan.specs.Plan.{MayFetch, MayTell};
ghost use Rattle.command_plan.specs.Records.{HasOpened};
ghost use Rattle.code_commands.specs.Exec.{exec_meaning, exec_plan, runs_over};

use crate::report::{frame_line, memory_line};
use apf_base::{List, MEMORY_SIZE, Shelf, Sink, Source};
use apf_interp::interpret;
use command_plan::{Fault, FileKind, Files, Input, Lines, next_record, open_capture};
use pcap_files::Capture;
use script_text::read_number;
use std::alloc::Global;

/// The file of a program, which is the first that a command names.
pub(crate) const PROGRAM: Input = Input {
    kind: FileKind::Program,
    word: 1,
};

/// The file of a capture, which is the second that a command names.
const CAPTURE: Input = Input {
    kind: FileKind::Capture,
    word: 2,
};

// Runs the program over the records of a capture as they come in: it takes a record, writes the line of its frame, and
// takes the next. Behind the last one it writes the memory.
fn run_over<H: Files, O: Lines>(
    alloc: Global,
    program: &[u8],
    mut reader: Capture,
    age: u32,
    shelf: &mut H,
    out: &mut O,
) -> Result<(), Fault>
    requires program { length program.now ≤ program_limit }
    requires live { IsTrue reader.live }
    requires place { reader.at ≡ 24 }
    ensures { (bytes : Option (Items ℕ)) → HasOpened bytes (H.left shelf.old) reader → IfSome bytes IsBytes
        → (found : Told) × MayTell bytes found
        × Follows (runs_over program.now found age) (stage (H.seen shelf.old) (O.seen out.old))
        (stage (H.seen shelf.new) (O.seen out.new)) result }
{
    let mut memory = [0u8; MEMORY_SIZE];
    let mut frame = List::new(alloc);
    let mut number = 1u64;
    while let Some(_stamp) = next_record(&mut reader, shelf, CAPTURE, &mut frame)? {
        let outcome = interpret(program, &mut memory, frame.as_slice(), age);
        let line = frame_line(alloc, number, outcome)?;
        out.say(line.as_bytes())?;
        number += 1;
    }
    let line = memory_line(alloc, &memory)?;
    out.say(line.as_bytes())
}

// Runs the program of a file over the capture of another.
fn exec_at<H: Files, O: Lines>(
    alloc: Global,
    program: &str,
    capture: &str,
    age: u32,
    shelf: &mut H,
    out: &mut O,
) -> Result<(), Fault>
    requires { MayFetch H.may (exec_plan program.now capture.now age) }
    ensures { Follows (exec_plan program.now capture.now age) (stage (H.seen shelf.old) (O.seen out.old))
        (stage (H.seen shelf.new) (O.seen out.new)) result }
{
    let code = shelf.ask(alloc, program, PROGRAM)?;
    let reader = open_capture(shelf, capture, CAPTURE)?;
    run_over(alloc, code.as_slice(), reader, age, shelf, out)
}

/// Runs a program over a capture at an age in seconds, and writes a line for each frame as its record comes in, and then
/// the memory. The frames before the first fault of a damaged capture have their lines.
pub fn exec<H: Files, O: Lines>(
    alloc: Global,
    program: &str,
    capture: &str,
    age: &str,
    shelf: &mut H,
    out: &mut O,
) -> Result<(), Fault>
    requires { MayFetchFor H.may (exec_meaning program.now capture.now age.now) }
    ensures plan { Does (exec_meaning program.now capture.now age.now) (stage (H.seen shelf.old) (O.seen out.old))
        (stage (H.seen shelf.new) (O.seen out.new)) result }
{
    match read_number(age.as_bytes(), u32::MAX) {
        Some(age) => exec_at(alloc, program, capture, age, shelf, out),
        None => Err(Fault::Usage),
    }
}
