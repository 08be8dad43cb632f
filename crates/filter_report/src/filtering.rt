//! A filter that reports as it goes.

ghost use Rattle.std.specs.Prelude.{◌≡◌, ◌≢◌, ◌≤◌, ◌<◌, ◌+◌, ◌^◌, ◌∷◌, [], ◌++◌, ℕ, List as Items, length, map, fold, All, IfOk, IfErr, OnOk, OnErr, Err};
ghost use Rattle.std.specs.Io.KnownBytes.{Keeps};
ghost use Rattle.std.specs.List.{concat};
ghost use Rattle.apf_base.specs.Causes.{Rose};
ghost use Rattle.apf_base.specs.Streams.{AppendsAll, AppendsPart};
ghost use Rattle.filter_core.specs.Replay.{Course, after_arrival, after_due, after_frame, begun, finished, totals};
ghost use Rattle.pcap_files.specs.Capture.{frame_of, IsWithin};
ghost use Rattle.policy_state.specs.States.{start};
ghost use Rattle.size_fit.specs.Sizes.{base, limit_of};
ghost use Rattle.filter_report.specs.Along.{InCourse, IsFirstCore};
ghost use Rattle.filter_core.specs.Arrivals.{arrivals_of};
ghost use Rattle.filter_report.specs.Lines.{Adds, BreaksOff};
ghost use Rattle.filter_report.specs.Text.{with_one, entry_lines};
ghost use Rattle.filter_report.specs.Report.{Leads, Tells, ended};
ghost use Rattle.apf_base.specs.Limits.{frame_limit};

use crate::events::take_events;
use crate::fault::ReportFault;
use crate::frames::frame_lines;
use crate::lines::gen_line;
use crate::totals::last_lines;
use crate::writing::{write_first_and_more, write_lines};
use apf_base::{List, Sink};
use filter_core::{Core, StartError, due};
use pcap_files::{Placed, frame_at};
use policy_state::{Config, Script, Timed};
use std::alloc::Global;
use std::marker::Model;

/// A filter under a script that writes its report line by line: its core, the events of the script and how many of them
/// were taken, and how many frames were taken and how many of them passed.
///
/// After an error it is good for nothing more.
#[derive(Debug, Drop)]
pub struct Filtering {
    core: Core,
    events: List<Timed>,
    taken: usize,
    frames: u64,
    passed: u64,
}

impl Model for Filtering {
    ghost use Rattle.std.specs.Prelude.{◌≤◌, ◌<◌, ◌+◌, ◌^◌, length, drop};
    ghost use Rattle.filter_report.specs.Along.{Reporting};

    ghost Value = { Reporting };

    ghost view = { λ f. record { core = f.core; left = drop f.taken f.events; frames = f.frames; passed = f.passed } };

    ghost invariant = { λ f. (f.taken ≤ length f.events) × (f.passed ≤ f.frames) × (f.frames < 2 ^ 31) × (f.core.install.number ≤ f.taken + f.frames) × (length f.events < 2 ^ 32) };
}

/// The core at its start.
pub(crate) fn start_core(alloc: Global, config: Config, now: u32) -> Result<Core, ReportFault>
    ensures along { IfOk result (λ core. IsFirstCore config now core) }
    ensures too_large { (need limit : ℕ) → result ≡ Err (ReportFault.TooLarge need limit) → (limit < need) × (need ≡ base config start) × (limit ≡ limit_of config) }
    ensures fits { limit_of config < base config start → result ≡ Err (ReportFault.TooLarge (base config start) (limit_of config)) }
    ensures no_write { result ≢ Err ReportFault.Write }
{
    match Core::new(alloc, config, now) {
        Ok(core) => Ok(core),
        Err(StartError::TooLarge { need, limit }) => Err(ReportFault::TooLarge { need, limit }),
        Err(StartError::OutOfMemory) => Err(ReportFault::OutOfMemory),
    }
}

/// One more where this is so.
fn with_one(one: bool, count: u64) -> u64
    requires { count < 2 ^ 63 }
    ensures value { result ≡ with_one one count }
    ensures most { result ≤ count + 1 }
{
    if one { count + 1 } else { count }
}

impl Filtering {
    /// Makes the first install of a script, and writes its line.
    ///
    /// The script has fewer than 2^32 events. `TooLarge` comes exactly where the base of the first state is more than the
    /// limit, and `OutOfMemory` where memory runs out. Nothing is written in these cases.
    pub fn begin<O: Sink>(
        alloc: Global,
        script: Script,
        out: &mut O,
    ) -> Result<Filtering, ReportFault>
        requires few_events { length script.events < 2 ^ 32 }
        ensures ok { IfOk result (λ f. Adds (λ lines. lines ≡ []) (InCourse (begun script) f []) (O.held out.old) (O.held out.new)) }
        ensures front { result ≡ Err ReportFault.Write → BreaksOff ReportFault.Write (λ lines. lines ≡ []) (Leads (begun script).told []) (O.held out.old) (O.held out.new) }
        ensures none { IfOk result (λ f. f.frames ≡ 0) }
        ensures quiet { OnErr result (result ≢ Err ReportFault.Write → Keeps (O.held out.old) (O.held out.new)) }
        ensures too_large { (need limit : ℕ) → result ≡ Err (ReportFault.TooLarge need limit)
            → (limit < need) × (need ≡ base script.config start) × (limit ≡ limit_of script.config) }
        ensures fits { limit_of script.config < base script.config start
            → result ≡ Err (ReportFault.TooLarge (base script.config start) (limit_of script.config)) }
        ensures write { result ≡ Err ReportFault.Write → Rose (O.faults out.old) (O.faults out.new) }
        ensures faults { O.faults out.old ≤ O.faults out.new }
    {
        let core = start_core(alloc, script.config, script.start)?;
        let line = gen_line(alloc, core.install())?;
        write_lines(&[line], out)?;
        Ok(Filtering {
            core,
            events: script.events,
            taken: 0,
            frames: 0,
            passed: 0,
        })
    }

    // Takes the events that are due at a second.
    fn take_due<O: Sink>(
        &mut self,
        alloc: Global,
        second: u32,
        out: &mut O,
    ) -> Result<(), ReportFault>
        ensures ok { (c : Course) (frames : Items (Items ℕ))
            → OnOk result (Adds (InCourse c self.old frames) (InCourse (after_due second c c.events) self.new frames) (O.held out.old) (O.held out.new)) }
        ensures err { (c : Course) (frames : Items (Items ℕ))
            → IfErr result (λ fault. BreaksOff fault (InCourse c self.old frames) (Leads (after_due second c c.events).told frames) (O.held out.old) (O.held out.new)) }
        ensures frames { self.new.frames ≡ self.old.frames }
        ensures no_limit { (need limit : ℕ) → result ≢ Err (ReportFault.TooLarge need limit) }
        ensures write { result ≡ Err ReportFault.Write → Rose (O.faults out.old) (O.faults out.new) }
        ensures faults { O.faults out.old ≤ O.faults out.new }
    {
        let (_, left) = self.events.as_slice().split_at(self.taken);
        let count = due(left, second);
        let (events, _) = left.split_at(count);
        self.taken += count;
        take_events(alloc, &mut self.core, events, out)
    }

    // Takes a frame.
    fn take_frame<O: Sink>(
        &mut self,
        alloc: Global,
        second: u32,
        frame: &[u8],
        out: &mut O,
    ) -> Result<(), ReportFault>
        requires few { self.old.frames + 1 < 2 ^ 31 }
        requires frame { length frame.now ≤ frame_limit }
        ensures ok { (c : Course) (frames : Items (Items ℕ))
            → OnOk result (Adds (InCourse c self.old frames) (InCourse (after_frame c (record { second = second; frame = frame.now })) self.new (frames ++ frame.now ∷ [])) (O.held out.old) (O.held out.new)) }
        ensures err { (c : Course) (frames : Items (Items ℕ))
            → IfErr result (λ fault. BreaksOff fault (InCourse c self.old frames) (Leads (after_frame c (record { second = second; frame = frame.now })).told (frames ++ frame.now ∷ [])) (O.held out.old) (O.held out.new)) }
        ensures frames { self.new.frames ≡ self.old.frames + 1 }
        ensures no_limit { (need limit : ℕ) → result ≢ Err (ReportFault.TooLarge need limit) }
        ensures write { result ≡ Err ReportFault.Write → Rose (O.faults out.old) (O.faults out.new) }
        ensures faults { O.faults out.old ≤ O.faults out.new }
    {
        self.frames += 1;
        let done = frame_lines(alloc, &mut self.core, self.frames, second, frame)?;
        self.passed = with_one(done.passed, self.passed);
        write_first_and_more(&done.line, done.more.as_slice(), out)
    }

    /// Takes a record: the events that are due at its second, then its frame, and what is learnt from it. Each line is
    /// written as one piece.
    pub fn take_record<O: Sink>(
        &mut self,
        alloc: Global,
        second: u32,
        frame: &[u8],
        out: &mut O,
    ) -> Result<(), ReportFault>
        requires few { self.old.frames + 1 < 2 ^ 31 }
        requires frame { length frame.now ≤ frame_limit }
        ensures ok { (c : Course) (frames : Items (Items ℕ))
            → OnOk result (Adds (InCourse c self.old frames) (InCourse (after_arrival c (record { second = second; frame = frame.now })) self.new (frames ++ frame.now ∷ [])) (O.held out.old) (O.held out.new)) }
        ensures err { (c : Course) (frames : Items (Items ℕ))
            → IfErr result (λ fault. BreaksOff fault (InCourse c self.old frames) (Leads (after_arrival c (record { second = second; frame = frame.now })).told (frames ++ frame.now ∷ [])) (O.held out.old) (O.held out.new)) }
        ensures frames { OnOk result (self.new.frames ≡ self.old.frames + 1) }
        ensures no_limit { (need limit : ℕ) → result ≢ Err (ReportFault.TooLarge need limit) }
        ensures write { result ≡ Err ReportFault.Write → Rose (O.faults out.old) (O.faults out.new) }
        ensures faults { O.faults out.old ≤ O.faults out.new }
    {
        self.take_due(alloc, second, out)?;
        self.take_frame(alloc, second, frame, out)
    }

    /// Takes records of a capture that is in memory, one after another.
    pub fn take_all<O: Sink>(
        &mut self,
        alloc: Global,
        capture: &[u8],
        records: &[Placed],
        out: &mut O,
    ) -> Result<(), ReportFault>
        requires within { All (IsWithin (length capture.now)) records.now }
        requires few { self.old.frames + length records.now < 2 ^ 31 }
        ensures ok { (c : Course) (frames : Items (Items ℕ))
            → OnOk result (Adds (InCourse c self.old frames)
            (InCourse (fold after_arrival c (arrivals_of capture.now records.now)) self.new (frames ++ map (frame_of capture.now) records.now))
            (O.held out.old) (O.held out.new)) }
        ensures err { (c : Course) (frames : Items (Items ℕ))
            → IfErr result (λ fault. BreaksOff fault (InCourse c self.old frames)
            (Leads (fold after_arrival c (arrivals_of capture.now records.now)).told (frames ++ map (frame_of capture.now) records.now))
            (O.held out.old) (O.held out.new)) }
        ensures frames { OnOk result (self.new.frames ≡ self.old.frames + length records.now) }
        ensures no_limit { (need limit : ℕ) → result ≢ Err (ReportFault.TooLarge need limit) }
        ensures write { result ≡ Err ReportFault.Write → Rose (O.faults out.old) (O.faults out.new) }
        ensures faults { O.faults out.old ≤ O.faults out.new }
    {
        for placed in records {
            let frame = frame_at(capture, placed);
            self.take_record(alloc, placed.stamp.sec, frame, out)?;
        }
        Ok(())
    }

    /// Takes the events that are left. None is left then.
    pub fn take_rest<O: Sink>(&mut self, alloc: Global, out: &mut O) -> Result<(), ReportFault>
        ensures ok { (c : Course) (frames : Items (Items ℕ))
            → OnOk result (Adds (InCourse c self.old frames) (InCourse (finished c) self.new frames) (O.held out.old) (O.held out.new)) }
        ensures err { (c : Course) (frames : Items (Items ℕ))
            → IfErr result (λ fault. BreaksOff fault (InCourse c self.old frames) (Leads (finished c).told frames) (O.held out.old) (O.held out.new)) }
        ensures left { self.new.left ≡ [] }
        ensures frames { self.new.frames ≡ self.old.frames }
        ensures no_limit { (need limit : ℕ) → result ≢ Err (ReportFault.TooLarge need limit) }
        ensures write { result ≡ Err ReportFault.Write → Rose (O.faults out.old) (O.faults out.new) }
        ensures faults { O.faults out.old ≤ O.faults out.new }
    {
        let (_, left) = self.events.as_slice().split_at(self.taken);
        self.taken = self.events.len();
        take_events(alloc, &mut self.core, left, out)
    }

    /// Writes the counters that aren't 0, and the totals of what was taken so far.
    ///
    /// Nothing is written where memory runs out.
    pub fn write_totals<O: Sink>(&self, alloc: Global, out: &mut O) -> Result<(), ReportFault>
        ensures ok { (c : Course) (frames lines : Items (Items ℕ)) → InCourse c self.now frames lines
            → OnOk result (AppendsAll (O.held out.old) (O.held out.new) (entry_lines [] [] (totals c.told))) }
        ensures front { (c : Course) (frames lines : Items (Items ℕ)) → InCourse c self.now frames lines
            → result ≡ Err ReportFault.Write → AppendsPart (O.held out.old) (O.held out.new) (concat (entry_lines [] [] (totals c.told))) }
        ensures quiet { OnErr result (result ≢ Err ReportFault.Write → Keeps (O.held out.old) (O.held out.new)) }
        ensures no_limit { (need limit : ℕ) → result ≢ Err (ReportFault.TooLarge need limit) }
        ensures write { result ≡ Err ReportFault.Write → Rose (O.faults out.old) (O.faults out.new) }
        ensures faults { O.faults out.old ≤ O.faults out.new }
    {
        let installs = self.core.number() + 1;
        let lines = last_lines(
            alloc,
            self.core.memory(),
            self.frames,
            self.passed,
            installs,
        )?;
        write_lines(lines.as_slice(), out)
    }

    /// Takes the events that are left, and writes the counters that aren't 0 and the totals.
    pub fn finish<O: Sink>(mut self, alloc: Global, out: &mut O) -> Result<(), ReportFault>
        ensures ok { (c : Course) (frames : Items (Items ℕ))
            → OnOk result (Adds (InCourse c self frames) (Tells (ended c) frames) (O.held out.old) (O.held out.new)) }
        ensures err { (c : Course) (frames : Items (Items ℕ))
            → IfErr result (λ fault. BreaksOff fault (InCourse c self frames) (Leads (ended c) frames) (O.held out.old) (O.held out.new)) }
        ensures no_limit { (need limit : ℕ) → result ≢ Err (ReportFault.TooLarge need limit) }
        ensures write { result ≡ Err ReportFault.Write → Rose (O.faults out.old) (O.faults out.new) }
        ensures faults { O.faults out.old ≤ O.faults out.new }
    {
        self.take_rest(alloc, out)?;
        self.write_totals(alloc, out)
    }
}
