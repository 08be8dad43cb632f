//! The steps of a replay: the events that are due, what is learnt from a frame, and both about one frame.

ghost use Rattle.std.specs.Prelude.{◌≡◌, ◌≤◌, ◌<◌, ◌+◌, ◌-◌, ◌^◌, ◌&&◌, ℕ, length, take, drop, fold, max, IfOk, OnOk, OnErr};
ghost use Rattle.ra_records.specs.Advert.{candidate};
ghost use Rattle.filter_core.specs.Calls.{advert_installs};
ghost use Rattle.filter_core.specs.Replay.{Course, after_event, after_due, after_arrival, is_due, passes};
ghost use Rattle.filter_core.specs.Standing.{filter_of};
ghost use Rattle.filter_core.specs.Taking.{Learns, TellsFrame};
ghost use Rattle.apf_base.specs.Limits.{frame_limit};

use crate::living::Core;
use apf_base::OutOfMemory;
use apf_coding::Verdict;
use policy_state::{Answer, Timed};
use ra_records::{RaReply, candidate};
use std::alloc::Global;

/// Whether an event is due at a second.
fn is_due(event: &Timed, second: u32) -> bool
    ensures { result ≡ is_due second event.now }
{
    event.time <= second
}

/// How many events at the front are due at a second.
pub fn due(events: &[Timed], second: u32) -> usize
    ensures due { (c : Course) → after_due second c events.now ≡ record (fold after_event c (take result events.now)) { events = drop result events.now } }
    ensures most { result ≤ length events.now }
{
    let mut count = 0;
    for event in events {
        if !is_due(event, second) {
            return count;
        }
        count += 1;
    }
    count
}

/// Whether a frame with this verdict passes.
pub fn passes(verdict: Verdict) -> bool
    ensures { result ≡ passes verdict }
{
    match verdict {
        Verdict::Pass => true,
        Verdict::Drop => false,
    }
}

/// Whether there is a new install with this reply: with `New` and `Refreshed` alone.
pub fn installs(reply: &RaReply) -> bool
    ensures { result ≡ advert_installs reply.now }
{
    match reply {
        RaReply::New(_) | RaReply::Refreshed(_) => true,
        RaReply::Match(_) | RaReply::Full | RaReply::ZeroLifetime | RaReply::Bad(_) => false,
    }
}

/// Whether a frame is learnt from: it passes, and may be an advertisement.
fn is_learnt(verdict: Verdict, frame: &[u8]) -> bool
    ensures { result ≡ (passes verdict && candidate frame.now) }
{
    passes(verdict) && candidate(frame)
}

/// What a frame came to: how many events were taken before it, its answer, and the reply where it was learnt from.
#[derive(Clone, Copy, Debug, PartialEq, Eq)]
pub struct Taken {
    pub events: usize,
    pub answer: Answer,
    pub reply: Option<RaReply>,
}

impl Core {
    /// Learns from a frame that was answered so: it is given to `advertise` exactly where it passed and may be a router
    /// advertisement.
    ///
    /// The reply is that of `advertise`. There is none where the frame isn't learnt from, and then nothing changes. Want of
    /// memory moves the clock alone.
    pub fn learn(
        &mut self,
        alloc: Global,
        frame: &[u8],
        now: u32,
        answer: &Answer,
    ) -> Result<Option<RaReply>, OutOfMemory>
        requires number { self.old.install.number < 2 ^ 64 - 1 }
        requires frame { length frame.now ≤ frame_limit }
        ensures ok { IfOk result (λ reply.
            Learns (passes answer.now.verdict && candidate frame.now) frame.now now self.old reply self.new) }
        ensures err { OnErr result (self.new ≡ record self.old { clock = max self.old.clock now }) }
    {
        if !is_learnt(answer.verdict, frame) {
            return Ok(None);
        }
        let reply = self.advertise(alloc, frame, now)?;
        Ok(Some(reply))
    }

    // Takes events, one after another, each at its own time.
    fn catch_up(&mut self, alloc: Global, events: &[Timed]) -> Result<(), OutOfMemory>
        requires { self.old.install.number + length events.now < 2 ^ 64 - 1 }
        ensures filter { (c : Course) → c.filter ≡ filter_of self.old → OnOk result (filter_of self.new ≡ (fold after_event c events.now).filter) }
        ensures memory { self.new.memory ≡ self.old.memory }
        ensures stays { self.new.install.number ≡ self.old.install.number → self.new.install ≡ self.old.install }
        ensures number { self.new.install.number ≤ self.old.install.number + length events.now }
    {
        for event in events {
            self.update(alloc, &event.update, event.time)?;
        }
        Ok(())
    }

    /// Takes a frame that comes at a second: first the events at the front that are due then, each at its own time, then
    /// the answer, then what is learnt from it.
    ///
    /// The events are those that weren't taken before, and what is told of the frame is what a replay tells. Where memory
    /// runs out, events may have been taken and the frame answered, and nothing tells which.
    pub fn take(
        &mut self,
        alloc: Global,
        events: &[Timed],
        second: u32,
        frame: &[u8],
    ) -> Result<Taken, OutOfMemory>
        requires number { self.old.install.number + length events.now < 2 ^ 64 - 1 }
        requires frame { length frame.now ≤ frame_limit }
        ensures left { (c : Course)
            → IfOk result (λ t. drop t.events events.now ≡ (after_due second c events.now).events) }
        ensures most { IfOk result (λ t. t.events ≤ length events.now) }
        ensures filter { (c : Course) → c.filter ≡ filter_of self.old → c.events ≡ events.now
            → IfOk result (λ t. filter_of self.new ≡ (after_arrival c (record { second = second; frame = frame.now })).filter) }
        ensures told { (c : Course) → c.filter ≡ filter_of self.old → c.events ≡ events.now
            → IfOk result (λ t. TellsFrame c second frame.now self.old self.new t) }
        ensures number { self.new.install.number ≤ self.old.install.number + length events.now + 1 }
    {
        let count = due(events, second);
        let (front, _) = events.split_at(count);
        self.catch_up(alloc, front)?;
        let answer = self.answer(frame, second);
        let reply = self.learn(alloc, frame, second, &answer)?;
        Ok(Taken {
            events: count,
            answer,
            reply,
        })
    }
}
