//! Events of a script, and their lines.

ghost use Rattle.std.specs.Prelude.{◌≡◌, ◌≢◌, ◌≤◌, ◌<◌, ◌+◌, ◌-◌, ◌^◌, ◌∷◌, [], ◌++◌, ℕ, List as Items, length, fold, IfOk, IfErr, OnOk, Err};
ghost use Rattle.apf_base.specs.Causes.{Rose};
ghost use Rattle.filter_core.specs.Replay.{Course, after_event};
ghost use Rattle.filter_report.specs.Along.{Along};
ghost use Rattle.filter_report.specs.Lines.{Adds, BreaksOff};
ghost use Rattle.filter_report.specs.Report.{Leads};

use crate::fault::ReportFault;
use crate::lines::{gen_line, update_line};
use crate::writing::write_lines;
use apf_base::{List, OutOfMemory, Sink};
use filter_core::Core;
use policy_state::{Timed, UpdateReply};
use std::alloc::Global;

/// Takes an event, and gives its line.
fn event_line(alloc: Global, core: &mut Core, event: &Timed) -> Result<List<u8>, OutOfMemory>
    requires { core.old.install.number < 2 ^ 64 - 1 }
    ensures along { (c : Course) (frames lines : Items (Items ℕ)) → Along c core.old frames lines
        → IfOk result (λ line. Along (after_event c event.now) core.new frames (lines ++ line ∷ [])) }
    ensures number { core.new.install.number ≤ core.old.install.number + 1 }
{
    match core.update(alloc, &event.update, event.time)? {
        UpdateReply::Installed => gen_line(alloc, core.install()),
        reply => update_line(alloc, &reply, core.clock()),
    }
}

/// Takes an event, and writes its line.
fn take_event<O: Sink>(
    alloc: Global,
    core: &mut Core,
    event: &Timed,
    out: &mut O,
) -> Result<(), ReportFault>
    requires { core.old.install.number < 2 ^ 64 - 1 }
    ensures ok { (c : Course) (frames : Items (Items ℕ))
        → OnOk result (Adds (Along c core.old frames) (Along (after_event c event.now) core.new frames) (O.held out.old) (O.held out.new)) }
    ensures err { (c : Course) (frames : Items (Items ℕ))
        → IfErr result (λ fault. BreaksOff fault (Along c core.old frames) (Leads (after_event c event.now).told frames) (O.held out.old) (O.held out.new)) }
    ensures no_limit { (need limit : ℕ) → result ≢ Err (ReportFault.TooLarge need limit) }
    ensures write { result ≡ Err ReportFault.Write → Rose (O.faults out.old) (O.faults out.new) }
    ensures faults { O.faults out.old ≤ O.faults out.new }
    ensures number { core.new.install.number ≤ core.old.install.number + 1 }
{
    let line = event_line(alloc, core, event)?;
    write_lines(&[line], out)
}

/// Takes events, one after another, and writes their lines.
pub(crate) fn take_events<O: Sink>(
    alloc: Global,
    core: &mut Core,
    events: &[Timed],
    out: &mut O,
) -> Result<(), ReportFault>
    requires { core.old.install.number + length events.now < 2 ^ 64 - 1 }
    ensures ok { (c : Course) (frames : Items (Items ℕ))
        → OnOk result (Adds (Along c core.old frames) (Along (fold after_event c events.now) core.new frames) (O.held out.old) (O.held out.new)) }
    ensures err { (c : Course) (frames : Items (Items ℕ))
        → IfErr result (λ fault. BreaksOff fault (Along c core.old frames) (Leads (fold after_event c events.now).told frames) (O.held out.old) (O.held out.new)) }
    ensures no_limit { (need limit : ℕ) → result ≢ Err (ReportFault.TooLarge need limit) }
    ensures write { result ≡ Err ReportFault.Write → Rose (O.faults out.old) (O.faults out.new) }
    ensures faults { O.faults out.old ≤ O.faults out.new }
    ensures number { core.new.install.number ≤ core.old.install.number + length events.now }
{
    for event in events {
        take_event(alloc, core, event, out)?;
    }
    Ok(())
}
