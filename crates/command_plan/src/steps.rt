//! The steps of a command: each follows the plan of one node.

ghost use Rattle.std.specs.Prelude.{◌≡◌, ◌≤◌, ◌<◌, ◌∷◌, [], length, IfSome, IfOk, IfErr, OnOk};
ghost use Rattle.std.specs.Io.KnownBytes.{IsAtEnd};
ghost use Rattle.apf_base.specs.Causes.{Rose};
ghost use Rattle.hex.specs.Hex.{IsBytes};
ghost use Rattle.command_plan.specs.Files.{FileFails, file_limit};
ghost use Rattle.command_plan.specs.Follows.{Reads, Writes, shelving, sinking};
ghost use Rattle.command_plan.specs.Plan.{asks, says};

use crate::fault::{Fault, Input, Refusal};
use apf_base::{List, ReadAllError, Shelf, Sink, Source, read_all, write_all};
use std::alloc::Global;

// What a slice of bytes holds is bytes.
pub(crate) fn are_bytes(bytes: &[u8])
    ensures { IsBytes bytes.now }
{
    let _ = bytes;
}

// All bytes of a file, which is to have no more than its kind allows.
fn read_file<H: Shelf>(
    alloc: Global,
    shelf: &mut H,
    name: &str,
    input: Input,
) -> Result<List<u8>, Fault>
    requires { H.may name.now }
    ensures ok { IfOk result (λ bytes. IfSome (H.file shelf.old name.now) (λ told. bytes ≡ told)) }
    ensures fits { IfOk result (λ bytes. length bytes ≤ file_limit input.kind) }
    ensures bytes { IfOk result IsBytes }
    ensures whole { OnOk result (IsAtEnd (H.left shelf.new)) }
    ensures err { IfErr result
        (FileFails input (IfSome (H.file shelf.old name.now) (λ told. file_limit input.kind < length told))) }
    ensures read { (which : Input) → result ≡ Err (Fault.Read which) → Rose (H.faults shelf.old) (H.faults shelf.new) }
    ensures open { (which : Input) → result ≡ Err (Fault.Open which) → Rose (H.misses shelf.old) (H.misses shelf.new) }
    ensures faults { H.faults shelf.old ≤ H.faults shelf.new }
    ensures misses { H.misses shelf.old ≤ H.misses shelf.new }
    ensures files { H.file shelf.new ≡ H.file shelf.old }
{
    if shelf.fetch(name).is_err() {
        return Err(Fault::Open(input));
    }
    let mut bytes = List::new(alloc);
    match read_all(alloc, shelf, input.kind.limit(), &mut bytes) {
        Ok(()) => {
            are_bytes(bytes.as_slice());
            Ok(bytes)
        }
        Err(ReadAllError::TooLong) => Err(Fault::Refused(Refusal::TooLong(input))),
        Err(ReadAllError::Read) => Err(Fault::Read(input)),
        Err(ReadAllError::OutOfMemory) => Err(Fault::OutOfMemory),
    }
}

/// All bytes of the file of this name, which is to have no more than its kind allows.
pub(crate) fn ask<H: Shelf>(
    alloc: Global,
    shelf: &mut H,
    name: &str,
    input: Input,
) -> Result<List<u8>, Fault>
    requires { H.may name.now }
    ensures { Reads (asks input name.now)
        (shelving (H.file shelf.old) (H.left shelf.old) (H.faults shelf.old) (H.misses shelf.old))
        (shelving (H.file shelf.new) (H.left shelf.new) (H.faults shelf.new) (H.misses shelf.new)) result }
{
    read_file(alloc, shelf, name, input)
}

/// Writes a line, as one piece.
pub(crate) fn say<O: Sink>(out: &mut O, line: &[u8]) -> Result<(), Fault>
    ensures { Writes (says (line.now ∷ []))
        (sinking (O.held out.old) (O.faults out.old)) (sinking (O.held out.new) (O.faults out.new)) result }
{
    match write_all(out, line) {
        Ok(()) => Ok(()),
        Err(_) => Err(Fault::Write),
    }
}
