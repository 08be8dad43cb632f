//! Records of advertisements.

ghost use Rattle.std.specs.Prelude.{◌≡◌, ◌≢◌, List, IfOk, Ok, Err, true, length};
ghost use Rattle.ra_records.specs.Advert.{Advert, IsHeld, IsSound, advert, same, sections, least, remaining, hold};

use crate::reading::{are_equal, least_in, read_lifetimes, read_sections};
use crate::span::{RaError, Span};
use apf_base::{List, OutOfMemory};
use std::alloc::Global;
use std::marker::Model;

/// A router advertisement that was seen. Times and lifetimes are in seconds.
#[derive(Debug, Drop)]
pub struct Record {
    bytes: List<u8>,
    sections: List<Span>,
    lifetimes: List<Span>,
    least: u32,
    seen: u32,
}

impl Model for Record {
    ghost Value = { Advert };

    ghost view = { λ r. record { bytes = r.bytes; lifetimes = r.lifetimes; seen = r.seen } };

    ghost invariant = { λ r. IsHeld r.bytes r.lifetimes r.sections r.least };
}

fn copied<T: Copy + Drop>(alloc: Global, items: &[T]) -> Result<List<T>, OutOfMemory>
    ensures { IfOk result (λ xs. xs ≡ items.now) }
{
    let mut list = List::new(alloc);
    list.extend(items)?;
    Ok(list)
}

fn copy_into(frame: &[u8], bytes: &mut [u8])
    requires { length frame.now ≡ length bytes.old }
    ensures { bytes.new ≡ frame.now }
{
    bytes.copy_from_slice(frame);
}

impl Record {
    /// The record of a frame that is seen at the second `now`.
    ///
    /// It is refused where it is no router advertisement, then by its length, then by its first option that is refused.
    /// Memory may run out at any place.
    pub fn read(alloc: Global, frame: &[u8], now: u32) -> Result<Record, RaError>
        ensures { result ≢ Err RaError.OutOfMemory → result ≡ advert frame.now now }
    {
        let lifetimes = match read_lifetimes(alloc, frame) {
            Ok(lifetimes) => lifetimes,
            Err(e) => return Err(e),
        };
        let sections = read_sections(alloc, lifetimes.as_slice(), frame.len() as u32)?;
        let least = least_in(frame, lifetimes.as_slice());
        let bytes = copied(alloc, frame)?;
        Ok(Record {
            bytes,
            sections,
            lifetimes,
            least,
            seen: now,
        })
    }

    /// Whether a frame says the same: it is as long, and equal outside the masked ranges.
    pub fn matches(&self, frame: &[u8]) -> bool
        ensures { result ≡ same self.now frame.now }
    {
        frame.len() == self.bytes.len()
            && are_equal(frame, self.bytes.as_slice(), self.sections.as_slice())
    }

    /// Takes the bytes and the lifetimes of a frame that matches, as seen at the second `now`.
    pub fn refresh(&mut self, frame: &[u8], now: u32)
        requires { same self.old frame.now ≡ true }
        ensures value { self.new ≡ record self.old { bytes = frame.now; seen = now } }
        ensures read { advert frame.now now ≡ Ok self.new }
    {
        copy_into(frame, self.bytes.as_mut_slice());
        self.least = least_in(frame, self.lifetimes.as_slice());
        self.seen = now;
    }

    /// The least lifetime.
    pub fn least(&self) -> u32
        ensures { result ≡ least self.now }
    {
        self.least
    }

    /// The second at which it was last seen.
    pub fn seen(&self) -> u32
        ensures { result ≡ self.now.seen }
    {
        self.seen
    }

    /// What is left of the least lifetime at the second `now`: 0 once it is expired.
    pub fn remaining(&self, now: u32) -> u32
        ensures { result ≡ remaining self.now now }
    {
        self.least.saturating_sub(now.saturating_sub(self.seen))
    }

    /// For how many seconds a filter may drop frames that match: a sixth of what is left, rounded down.
    pub fn hold(&self, now: u32) -> u32
        ensures { result ≡ hold self.now now }
    {
        self.remaining(now) / 6
    }

    /// The bytes of the frame that was last seen.
    pub fn bytes(&self) -> &[u8]
        ensures value { result.now ≡ self.now.bytes }
        ensures read { advert self.now.bytes self.now.seen ≡ Ok self.now }
    {
        self.bytes.as_slice()
    }

    /// The nonempty ranges that aren't masked, in order.
    pub fn sections(&self) -> &[Span]
        ensures value { result.now ≡ sections self.now }
        ensures sound { IsSound self.now.bytes self.now.lifetimes }
    {
        self.sections.as_slice()
    }

    /// The ranges of all lifetimes, in order.
    pub fn lifetimes(&self) -> &[Span]
        ensures value { result.now ≡ self.now.lifetimes }
        ensures sound { IsSound self.now.bytes self.now.lifetimes }
    {
        self.lifetimes.as_slice()
    }

    /// An equal record.
    pub fn copy(&self, alloc: Global) -> Result<Record, OutOfMemory>
        ensures { IfOk result (λ r. r ≡ self.now) }
    {
        let bytes = copied(alloc, self.bytes.as_slice())?;
        let sections = copied(alloc, self.sections.as_slice())?;
        let lifetimes = copied(alloc, self.lifetimes.as_slice())?;
        Ok(Record {
            bytes,
            sections,
            lifetimes,
            least: self.least,
            seen: self.seen,
        })
    }
}
