//! File headers and records as bytes.

ghost use Rattle.std.specs.Prelude.{◌≡◌, [], ◌≤◌, ◌++◌, length, IfOk, OnOk, OnErr, Some, None};
ghost use Rattle.pcap_files.specs.Capture.{capture};
ghost use Rattle.pcap_files.specs.Writing.{head_bytes, record_bytes, faultless, IsStampInRange, IsAdded};
ghost use Rattle.apf_base.specs.Limits.{frame_limit};

use crate::kinds::{Kind, Stamp};
use crate::numbers::{add_half, add_word};
use crate::reading::{ETHERNET, MICROSECONDS, NANOSECONDS};
use apf_base::{FRAME_LIMIT, List, OutOfMemory};
use std::alloc::Global;

/// A file header. Its snapshot length is the most bytes of a frame.
fn head_bytes(alloc: Global, kind: Kind) -> Result<List<u8>, OutOfMemory>
    ensures { IfOk result (λ bytes. bytes ≡ head_bytes kind) }
{
    let magic = if kind.nano { NANOSECONDS } else { MICROSECONDS };
    let mut bytes = List::new(alloc);
    add_word(kind.big, magic, &mut bytes)?;
    add_half(kind.big, 2, &mut bytes)?;
    add_half(kind.big, 4, &mut bytes)?;
    add_word(kind.big, 0, &mut bytes)?;
    add_word(kind.big, 0, &mut bytes)?;
    add_word(kind.big, FRAME_LIMIT, &mut bytes)?;
    add_word(kind.big, ETHERNET, &mut bytes)?;
    Ok(bytes)
}

/// A record.
fn record_bytes(
    alloc: Global,
    big: bool,
    stamp: Stamp,
    frame: &[u8],
) -> Result<List<u8>, OutOfMemory>
    requires { length frame.now ≤ frame_limit }
    ensures bytes { IfOk result (λ bytes. bytes ≡ record_bytes big stamp frame.now) }
    ensures range { IfOk result (λ bytes. IsStampInRange stamp) }
{
    let mut bytes = List::new(alloc);
    add_word(big, stamp.sec, &mut bytes)?;
    add_word(big, stamp.fraction, &mut bytes)?;
    add_word(big, frame.len() as u32, &mut bytes)?;
    add_word(big, stamp.original, &mut bytes)?;
    bytes.extend(frame)?;
    Ok(bytes)
}

/// Appends a file header: version 2.4, the snapshot length 262,144 and the link type of Ethernet.
///
/// After an error nothing has changed.
pub fn head(alloc: Global, kind: Kind, out: &mut List<u8>) -> Result<(), OutOfMemory>
    ensures ok { OnOk result (out.new ≡ out.old ++ head_bytes kind) }
    // Alone it is a capture of this kind that has no record yet.
    ensures reads_back { OnOk result (out.old ≡ [] → capture out.new ≡ faultless kind []) }
    ensures err { OnErr result (out.new ≡ out.old) }
{
    out.append(head_bytes(alloc, kind)?)
}

/// Appends a record.
///
/// After an error nothing has changed.
pub fn put(
    alloc: Global,
    kind: Kind,
    stamp: Stamp,
    frame: &[u8],
    out: &mut List<u8>,
) -> Result<(), OutOfMemory>
    requires { length frame.now ≤ frame_limit }
    ensures ok { OnOk result (out.new ≡ out.old ++ record_bytes kind.big stamp frame.now) }
    // A capture of this kind without a fault has one record more, with this stamp and this frame.
    ensures reads_back { OnOk result ((capture out.old).kind ≡ Some kind → (capture out.old).end ≡ None → length out.new ≤ 4294967295 → IsAdded kind stamp frame.now out.old out.new) }
    ensures err { OnErr result (out.new ≡ out.old) }
{
    out.append(record_bytes(alloc, kind.big, stamp, frame)?)
}
