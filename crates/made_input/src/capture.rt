//! The made capture.

ghost use Rattle.std.specs.Prelude.{◌≡◌, ◌≤◌, ◌++◌, OnOk, IfOk};
ghost use Rattle.pcap_files.specs.Writing.{head_bytes};
ghost use Rattle.made_input.specs.MadeCaptures.{made_kind, made_record, made_capture};

use crate::frames::made_frame;
use apf_base::{List, OutOfMemory};
use pcap_files::{Kind, Stamp, head, put};
use std::alloc::Global;

/// Little-endian, with microseconds.
const KIND: Kind = Kind {
    big: false,
    nano: false,
};

/// Adds the record of a frame.
fn add_record(alloc: Global, k: u32, out: &mut List<u8>) -> Result<(), OutOfMemory>
    requires { k ≤ 100000 }
    ensures { OnOk result (out.new ≡ out.old ++ made_record k) }
{
    let frame = made_frame(alloc, k)?;
    let stamp = Stamp {
        sec: 1000 + k,
        fraction: 0,
        original: frame.len() as u32,
    };
    put(alloc, KIND, stamp, frame.as_slice(), out)
}

/// The file header of the made captures: little-endian, with microseconds.
pub fn made_head(alloc: Global) -> Result<List<u8>, OutOfMemory>
    ensures { IfOk result (λ bytes. bytes ≡ head_bytes made_kind) }
{
    let mut bytes = List::new(alloc);
    head(alloc, KIND, &mut bytes)?;
    Ok(bytes)
}

/// The record of the kth frame, which comes at second 1000 + k.
pub fn made_record(alloc: Global, k: u32) -> Result<List<u8>, OutOfMemory>
    requires { k ≤ 100000 }
    ensures { IfOk result (λ bytes. bytes ≡ made_record k) }
{
    let mut bytes = List::new(alloc);
    add_record(alloc, k, &mut bytes)?;
    Ok(bytes)
}

/// The made capture of a number n: little-endian, with microseconds, and the made frames from 1 to n, of which frame k
/// comes at second 1000 + k.
pub fn made_capture(alloc: Global, n: u32) -> Result<List<u8>, OutOfMemory>
    requires { n ≤ 100000 }
    ensures { IfOk result (λ bytes. bytes ≡ made_capture n) }
{
    let mut bytes = made_head(alloc)?;
    for k in 1..n + 1 {
        add_record(alloc, k, &mut bytes)?;
    }
    Ok(bytes)
}
