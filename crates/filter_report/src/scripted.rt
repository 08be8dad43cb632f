//! The events of a script alone, without a frame between them.

ghost use Rattle.std.specs.Prelude.{◌≡◌, ◌≢◌, ◌≤◌, ◌<◌, ◌+◌, ◌-◌, ◌^◌, ◌∷◌, [], ◌++◌, ℕ, length, fold, IfOk, OnOk, Err};
ghost use Rattle.filter_core.specs.Replay.{Course, after_event};
ghost use Rattle.policy_state.specs.States.{start};
ghost use Rattle.script_text.specs.Report.{gen_line as line_of_install};
ghost use Rattle.size_fit.specs.Sizes.{base, limit_of};
ghost use Rattle.filter_report.specs.Scripted.{HasListed, HasTold};

use crate::fault::ReportFault;
use crate::filtering::start_core;
use crate::lines::{gen_line, update_line};
use apf_base::{List, OutOfMemory};
use filter_core::{Core, Install};
use policy_state::{Script, Timed, UpdateReply};
use std::alloc::Global;

/// The installs of a script in their order, and its lines: that of the first install, and one for each event.
#[derive(Debug, Drop)]
pub struct ScriptTold {
    pub installs: List<Install>,
    pub lines: List<List<u8>>,
}

impl ScriptTold {
    /// Adds an equal install, and its line.
    fn add_install(&mut self, alloc: Global, install: &Install) -> Result<(), OutOfMemory>
        ensures installs { OnOk result (self.new.installs ≡ self.old.installs ++ install.now ∷ []) }
        ensures lines { let i = install.now in
            OnOk result (self.new.lines ≡ self.old.lines ++ line_of_install i.number i.at i.left i.code ∷ []) }
    {
        self.lines.push(gen_line(alloc, install)?)?;
        self.installs.push(install.copy(alloc)?)
    }

    /// Takes an event, and adds its line, and its install where there is one.
    fn take_event(
        &mut self,
        alloc: Global,
        core: &mut Core,
        event: &Timed,
    ) -> Result<(), OutOfMemory>
        requires { core.old.install.number < 2 ^ 64 - 1 }
        ensures ok { (c : Course) → HasListed c core.old self.old.installs self.old.lines
            → OnOk result (HasListed (after_event c event.now) core.new self.new.installs self.new.lines) }
        ensures number { core.new.install.number ≤ core.old.install.number + 1 }
    {
        match core.update(alloc, &event.update, event.time)? {
            UpdateReply::Installed => self.add_install(alloc, core.install()),
            reply => self.lines.push(update_line(alloc, &reply, core.clock())?),
        }
    }

    /// Takes events, one after another.
    fn take_events(
        &mut self,
        alloc: Global,
        core: &mut Core,
        events: &[Timed],
    ) -> Result<(), OutOfMemory>
        requires { core.old.install.number + length events.now < 2 ^ 64 - 1 }
        ensures { (c : Course) → HasListed c core.old self.old.installs self.old.lines
            → OnOk result (HasListed (fold after_event c events.now) core.new self.new.installs self.new.lines) }
    {
        for event in events {
            self.take_event(alloc, core, event)?;
        }
        Ok(())
    }
}

/// Takes the events of a script, one after another, and no frame.
///
/// The script has fewer than 2^32 events. `TooLarge` comes exactly where the base of the first state is more than the
/// limit, and `OutOfMemory` where memory runs out.
pub fn take_script(alloc: Global, script: Script) -> Result<ScriptTold, ReportFault>
    requires few_events { length script.events < 2 ^ 32 }
    ensures told { IfOk result (λ told. HasTold script told.installs told.lines) }
    ensures too_large { (need limit : ℕ) → result ≡ Err (ReportFault.TooLarge need limit)
        → (limit < need) × (need ≡ base script.config start) × (limit ≡ limit_of script.config) }
    ensures fits { limit_of script.config < base script.config start
        → result ≡ Err (ReportFault.TooLarge (base script.config start) (limit_of script.config)) }
    ensures no_write { result ≢ Err ReportFault.Write }
{
    let mut core = start_core(alloc, script.config, script.start)?;
    let mut told = ScriptTold {
        installs: List::new(alloc),
        lines: List::new(alloc),
    };
    told.add_install(alloc, core.install())?;
    told.take_events(alloc, &mut core, script.events.as_slice())?;
    Ok(told)
}
