//! A capture that a command takes a record at a time.

ghost use Rattle.std.specs.Prelude.{◌≡◌, ◌≤◌, length, IfOk, IfErr, IfSome, IsTrue, OnOk, None, Ok};
ghost use Rattle.std.specs.Io.KnownBytes.{IsAtEnd};
ghost use Rattle.apf_base.specs.Causes.{Rose};
ghost use Rattle.apf_base.specs.Limits.{frame_limit};
ghost use Rattle.hex.specs.Hex.{IsBytes};
ghost use Rattle.pcap_files.specs.Stream.{rest_of, told_end};
ghost use Rattle.command_plan.specs.Records.{HasOpened, OpeningFails, HandsOut, IfGiven, NextFails, capture_fault};

use crate::fault::{Fault, Input, Refusal};
use crate::steps::are_bytes;
use apf_base::{List, Shelf, Source};
use pcap_files::{Capture, PcapError, Stamp};

// What a capture's fault is to a command.
fn fault_of(fault: PcapError, input: Input) -> Fault
    ensures { result ≡ capture_fault input fault }
{
    match fault {
        PcapError::Read => Fault::Read(input),
        PcapError::OutOfMemory => Fault::OutOfMemory,
        fault => Fault::Refused(Refusal::BadCapture(fault)),
    }
}

/// Opens the capture of this name, and takes its file header. `Open` where it could not be opened, `Read` where a read
/// of it failed; it is refused where the header is.
pub fn open_capture<H: Shelf>(shelf: &mut H, name: &str, input: Input) -> Result<Capture, Fault>
    requires { H.may name.now }
    ensures live { IfOk result (λ reader. IsTrue reader.live) }
    ensures place { IfOk result (λ reader. reader.at ≡ 24) }
    ensures opened { IfOk result (HasOpened (H.file shelf.old name.now) (H.left shelf.new)) }
    ensures bytes { OnOk result (IfSome (H.file shelf.old name.now) IsBytes) }
    ensures err { IfErr result (OpeningFails input (H.file shelf.old name.now)) }
    ensures read { (which : Input) → result ≡ Err (Fault.Read which) → Rose (H.faults shelf.old) (H.faults shelf.new) }
    ensures open { (which : Input) → result ≡ Err (Fault.Open which) → Rose (H.misses shelf.old) (H.misses shelf.new) }
    ensures faults { H.faults shelf.old ≤ H.faults shelf.new }
    ensures misses { H.misses shelf.old ≤ H.misses shelf.new }
    ensures files { H.file shelf.new ≡ H.file shelf.old }
{
    let Ok(()) = shelf.fetch(name) else {
        return Err(Fault::Open(input));
    };
    match Capture::start(shelf) {
        Ok(reader) => Ok(reader),
        Err(fault) => Err(fault_of(fault, input)),
    }
}

/// Takes the next record of the capture that `open_capture` opened, and no byte behind it: its stamp, or None where no
/// byte is left. Its frame, of at most 262,144 bytes, takes the place of what the list held.
///
/// `Read` where a read failed; else the capture is refused by its first fault, if it has one there, and `OutOfMemory`
/// comes where there is no memory for the frame.
pub fn next_record<H: Shelf>(
    reader: &mut Capture,
    shelf: &mut H,
    input: Input,
    frame: &mut List<u8>,
) -> Result<Option<Stamp>, Fault>
    requires { IsTrue reader.old.live }
    ensures given { IfGiven result (HandsOut reader.old reader.new (H.left shelf.old) (H.left shelf.new) frame.new) }
    ensures live { IfGiven result (λ _. IsTrue reader.new.live) }
    ensures inside { reader.new.at ≤ 4294967295 }
    ensures bytes { IsBytes frame.new }
    ensures bound { length frame.new ≤ frame_limit }
    ensures end { result ≡ Ok None → IfSome (H.left shelf.old) (λ bytes. rest_of reader.old bytes ≡ told_end None) }
    ensures whole { result ≡ Ok None → IsAtEnd (H.left shelf.new) }
    ensures err { IfErr result (NextFails input reader.old (H.left shelf.old)) }
    ensures read { (which : Input) → result ≡ Err (Fault.Read which) → Rose (H.faults shelf.old) (H.faults shelf.new) }
    ensures faults { H.faults shelf.old ≤ H.faults shelf.new }
    ensures misses { H.misses shelf.new ≡ H.misses shelf.old }
    ensures files { H.file shelf.new ≡ H.file shelf.old }
{
    let answer = reader.next(shelf, frame);
    are_bytes(frame.as_slice());
    match answer {
        Ok(stamp) => Ok(stamp),
        Err(fault) => Err(fault_of(fault, input)),
    }
}
