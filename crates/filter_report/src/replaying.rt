//! A replay whose frames come in as the records of a capture are taken.

ghost use Rattle.std.specs.Prelude.{◌≡◌, ◌∷◌, [], ℕ, List as Items, Option, IfSome, IsTrue};
ghost use Rattle.hex.specs.Hex.{IsBytes};
ghost use Rattle.pcap_files.specs.Stream.{Told};
ghost use Rattle.policy_state.specs.declared.basis.Script.{Script as ScriptValue};
ghost use Rattle.command_plan.specs.Follows.{Follows, stage};
ghost use Rattle.command_plan.specs.Plan.{MayTell};
ghost use Rattle.command_plan.specs.Records.{HasOpened};
ghost use Rattle.filter_report.specs.Streaming.{HasBegun, replays};

use crate::filtering::Filtering;
use apf_base::List;
use command_plan::{Fault, Files, Input, Lines, next_record};
use pcap_files::Capture;
use std::alloc::Global;

/// Filters a capture as its records come in: it takes a record, writes its lines, and takes the next one. Behind the
/// last record it takes the events that are left, and writes the counters and the totals.
///
/// The capture was opened by `open_capture`, and the filter has made its first install and taken no frame yet. A
/// capture that is refused has the lines of its whole records before.
pub fn replay<H: Files, O: Lines>(
    alloc: Global,
    mut filtering: Filtering,
    mut reader: Capture,
    shelf: &mut H,
    input: Input,
    out: &mut O,
) -> Result<(), Fault>
    requires live { IsTrue reader.live }
    requires place { reader.at ≡ 24 }
    requires none { filtering.frames ≡ 0 }
    // Where the bytes of the file are told, these are what the capture tells.
    ensures { (script : ScriptValue) (line : Items ℕ) (bytes : Option (Items ℕ)) → HasBegun script filtering (line ∷ [])
        → HasOpened bytes (H.left shelf.old) reader → IfSome bytes IsBytes
        → (found : Told) × MayTell bytes found
        × Follows (replays input script line found) (stage (H.seen shelf.old) (O.seen out.old))
        (stage (H.seen shelf.new) (O.seen out.new)) result }
{
    // One list holds each frame in turn.
    let mut frame = List::new(alloc);
    'records: while let Some(stamp) = next_record(&mut reader, shelf, input, &mut frame)? {
        filtering.take_record(alloc, stamp.sec, frame.as_slice(), out)?;
    }
    filtering.finish(alloc, out)?;
    Ok(())
}
