//! A capture that is read from a source, a record at a time.

ghost use Rattle.std.specs.Prelude.{◌≡◌, ◌≢◌, ◌≤◌, ◌+◌, ◌++◌, [], length, false, IsTrue, IfOk, OnOk};
ghost use Rattle.apf_base.specs.Causes.{HasCause, Rose};
ghost use Rattle.apf_base.specs.Limits.{frame_limit};
ghost use Rattle.pcap_files.specs.Stream.{TakesFrame, TakesRecord, TakesBytes, TakesAtMost, TakesIt};
ghost use Rattle.pcap_files.specs.Stream.{Starts, Gives, IsNextAnswer, is_handed, IfHanded};

use crate::fault::PcapError;
use crate::kinds::{Kind, Placed, Stamp};
use crate::reading::{HEAD, RECORD_HEAD, head_of, promised};
use apf_base::{Failed, List, Source, fill};
use std::marker::Model;

/// A capture that is being read: its kind, the offset in the file of the byte that comes next (24 behind the file
/// header, at most 4,294,967,295), and whether more may come. It doesn't hold the source.
#[derive(Debug, Drop)]
pub struct Capture {
    kind: Kind,
    at: u32,
    live: bool,
}

impl Model for Capture {
    ghost use Rattle.pcap_files.specs.Stream.{Reader};

    ghost Value = { Reader };

    ghost view = { λ c. record { kind = c.kind; at = c.at; live = c.live } };
}

impl Capture {
    /// Takes the file header, which is the first 24 bytes that the source gives, and begins to read the file.
    ///
    /// A read that fails ends the call (`Read`). Else the header is refused where the source has fewer than 4 bytes
    /// (`Cut`), another magic (`Magic`), fewer than 24 bytes (`Cut`), another version than 2.4 (`Version`) or another
    /// link type than Ethernet (`Link`). The first of these that holds is told. No memory is taken.
    pub fn start<S: Source>(src: &mut S) -> Result<Capture, PcapError>
        ensures starts { Starts (S.left src.old) (S.left src.new) result }
        ensures taken { OnOk result (TakesBytes 24 (S.left src.old) (S.left src.new)) }
        ensures most { TakesAtMost 24 (S.left src.old) (S.left src.new) }
        ensures given { S.given src.new ≤ S.given src.old + 24 }
        ensures live { IfOk result (λ reader. IsTrue reader.live) }
        ensures place { IfOk result (λ reader. reader.at ≡ 24) }
        ensures read { result ≡ Err PcapError.Read → Rose (S.faults src.old) (S.faults src.new) }
        ensures no_memory { result ≢ Err PcapError.OutOfMemory }
        ensures faults { S.faults src.old ≤ S.faults src.new }
        ensures misses { S.misses src.new ≡ S.misses src.old }
        ensures files { S.file src.new ≡ S.file src.old }
    {
        let mut file_head = [0u8; HEAD];
        let count = fill(src, &mut file_head)?;
        let kind = head_of(&file_head[..count])?;
        Ok(Capture {
            kind,
            at: HEAD as u32,
            live: true,
        })
    }

    /// A reader that stands at this offset, as it would behind so many bytes.
    #[cfg(test)]
    pub(crate) fn standing(kind: Kind, at: u32) -> Capture
        ensures place { result.at ≡ at }
        ensures live { IsTrue result.live }
    {
        Capture {
            kind,
            at,
            live: true,
        }
    }

    /// Whether more records may come: so it is at the start and after each record, but not after the end or an error.
    pub fn is_live(&self) -> bool
        ensures { result ≡ self.now.live }
    {
        self.live
    }

    /// How the file is written.
    pub fn kind(&self) -> Kind
        ensures { result ≡ self.now.kind }
    {
        self.kind
    }

    /// Takes the next record from the source that `start` was given, and no byte behind it. The answer is its stamp, or
    /// None where no byte is left. Its frame, of at most 262,144 bytes, takes the place of what the list held, so that
    /// a list that is handed in again needs memory only for a frame that is longer than all before. After another
    /// answer the list holds any bytes.
    ///
    /// A read that fails ends the call (`Read`). Else a record is refused where its header is cut (`Cut`), its frame
    /// has more than 262,144 bytes (`TooLong`), it ends behind the offset 4,294,967,295 (`Length`), its frame is cut
    /// (`Cut`) or there is no memory for its frame (`OutOfMemory`). The first of these that holds is told.
    pub fn next<S: Source>(
        &mut self,
        src: &mut S,
        into: &mut List<u8>,
    ) -> Result<Option<Stamp>, PcapError>
        requires { IsTrue self.old.live }
        ensures gives { Gives self.old self.new (S.left src.old) (S.left src.new) into.new result }
        // Where no read failed and there was memory, the answer is the one that the bytes have.
        ensures exact { IsNextAnswer self.old (S.left src.old) result }
        ensures taken { IfHanded result (TakesIt self.old (S.left src.old) (S.left src.new) into.new) }
        ensures most { TakesAtMost (16 + frame_limit) (S.left src.old) (S.left src.new) }
        ensures given { S.given src.new ≤ S.given src.old + (16 + frame_limit) }
        ensures place { IfHanded result (λ _. self.new.at ≡ self.old.at + (16 + length into.new)) }
        ensures stays { is_handed result ≡ false → self.new.at ≡ self.old.at }
        ensures inside { self.new.at ≤ 4294967295 }
        ensures live { self.new.live ≡ is_handed result }
        ensures kind { self.new.kind ≡ self.old.kind }
        ensures bound { length into.new ≤ frame_limit }
        ensures read { result ≡ Err PcapError.Read → Rose (S.faults src.old) (S.faults src.new) }
        ensures faults { S.faults src.old ≤ S.faults src.new }
        ensures misses { S.misses src.new ≡ S.misses src.old }
        ensures files { S.file src.new ≡ S.file src.old }
    {
        // A call that ends early leaves it so.
        self.live = false;
        let Some(placed) = take_record(self.kind.big, self.at, src, into)? else {
            return Ok(None);
        };
        self.at += RECORD_HEAD as u32 + placed.len;
        self.live = true;
        Ok(Some(placed.stamp))
    }
}

/// The bytes of a frame that are taken at once.
const CHUNK: usize = 2048;

/// What was taken of a frame: all of it, less of it than there should be, or all of it without the memory to hold it.
#[derive(Clone, Copy)]
enum Frame {
    Whole,
    Cut,
    NoMemory,
}

/// Adds bytes where all those before them were added, and says whether all of them are there.
fn keep(whole: bool, bytes: &[u8], into: &mut List<u8>) -> bool
    ensures before { IsTrue result → IsTrue whole }
    ensures kept { IsTrue result → into.new ≡ into.old ++ bytes.now }
    ensures bound { length into.new ≤ length into.old + length bytes.now }
{
    if !whole {
        return false;
    }
    match into.extend(bytes) {
        Ok(()) => true,
        Err(_) => false,
    }
}

/// Takes so many bytes into an empty list. Where memory is short they are taken none the less, so that a frame that is
/// cut is told before want of memory.
fn take_frame<S: Source>(src: &mut S, len: usize, into: &mut List<u8>) -> Result<Frame, Failed>
    requires { into.old ≡ [] }
    ensures taken { IfOk result (λ taken. TakesFrame len (S.left src.old) (S.left src.new) into.new taken) }
    ensures most { TakesAtMost len (S.left src.old) (S.left src.new) }
    ensures given { S.given src.new ≤ S.given src.old + len }
    ensures bound { length into.new ≤ len }
    ensures cause { HasCause (S.faults src.old) (S.faults src.new) result }
    ensures misses { S.misses src.new ≡ S.misses src.old }
    ensures files { S.file src.new ≡ S.file src.old }
{
    let mut chunk = [0u8; CHUNK];
    let mut rest = len;
    let mut whole = true;
    while rest > 0 {
        let want = rest.min(CHUNK);
        let count = fill(src, &mut chunk[..want])?;
        whole = keep(whole, &chunk[..count], into);
        if count < want {
            return Ok(Frame::Cut);
        }
        rest -= count;
    }
    if whole {
        Ok(Frame::Whole)
    } else {
        Ok(Frame::NoMemory)
    }
}

/// Takes the record at this offset, if a byte is left.
fn take_record<S: Source>(
    big: bool,
    at: u32,
    src: &mut S,
    into: &mut List<u8>,
) -> Result<Option<Placed>, PcapError>
    ensures taken { TakesRecord big at (S.left src.old) (S.left src.new) into.new result }
    ensures most { TakesAtMost (16 + frame_limit) (S.left src.old) (S.left src.new) }
    ensures given { S.given src.new ≤ S.given src.old + (16 + frame_limit) }
    ensures read { result ≡ Err PcapError.Read → Rose (S.faults src.old) (S.faults src.new) }
    ensures bound { length into.new ≤ frame_limit }
    ensures faults { S.faults src.old ≤ S.faults src.new }
    ensures misses { S.misses src.new ≡ S.misses src.old }
    ensures files { S.file src.new ≡ S.file src.old }
{
    into.clear();
    let mut head = [0u8; RECORD_HEAD];
    let count = fill(src, &mut head)?;
    if count == 0 {
        return Ok(None);
    }
    let placed = promised(big, at, &head[..count])?;
    match take_frame(src, placed.len as usize, into)? {
        Frame::Whole => Ok(Some(placed)),
        Frame::Cut => Err(PcapError::Cut(at)),
        Frame::NoMemory => Err(PcapError::OutOfMemory),
    }
}
