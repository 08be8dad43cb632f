//! The core: one install after another, and frames between them.

ghost use Rattle.std.specs.Prelude.{◌≡◌, ◌≤◌, ◌<◌, ◌^◌, ◌-◌, ◌↔◌, ℕ, length, replicate, max, IfOk, OnErr, Err, Ok};
ghost use Rattle.std.specs.Option.{unwrap_or};
ghost use Rattle.policy_state.specs.States.{start};
ghost use Rattle.size_fit.specs.Sizes.{base, limit_of};
ghost use Rattle.filter_core.specs.Calls.{Goes, Renews, update_installs, advert_installs};
ghost use Rattle.filter_core.specs.Coded.{IsAnswer};
ghost use Rattle.filter_core.specs.Records.{match_of};
ghost use Rattle.filter_core.specs.Standing.{filter_of};
ghost use Rattle.filter_core.specs.Steps.{first, with_state, updated, seen_again, seen_first, by_match, advertised};
ghost use Rattle.policy_state.specs.Limits.{records_most};
ghost use Rattle.apf_base.specs.Limits.{frame_limit, memory_size};

use crate::ending::is_ending;
use crate::install::Install;
use crate::making::{make_install, make_next};
use crate::records::{match_of, move_to_front, standing};
use apf_base::{List, MEMORY_SIZE, OutOfMemory};
use policy_state::{Answer, Changed, Config, FilterState, RECORDS_MOST, Update, UpdateReply};
use ra_records::{Held, RaError, RaReply, Record};
use size_fit::{base, limit};
use std::alloc::Global;
use std::marker::Model;

/// Why a core can't begin.
#[derive(Clone, Copy, Debug, PartialEq, Eq)]
pub enum StartError {
    /// The bytes that the first program needs at least are more than the limit, which is the capacity less 128.
    TooLarge { need: u32, limit: u32 },
    OutOfMemory,
}

/// A filter: the install that stands, at most ten records of advertisements, a clock, and the counters.
#[derive(Debug, Drop)]
pub struct Core {
    install: Install,
    held: List<Held>,
    added: u64,
    clock: u32,
    memory: [u8; MEMORY_SIZE],
}

impl Model for Core {
    ghost use Rattle.std.specs.Prelude.{◌≤◌, length};
    ghost use Rattle.policy_state.specs.Limits.{records_most};
    ghost use Rattle.filter_core.specs.Standing.{Standing};

    ghost Value = { Standing };

    ghost view = { λ c. record { install = c.install; held = c.held; added = c.added; clock = c.clock; memory = c.memory } };

    ghost invariant = { λ c. (length c.held ≤ records_most) × (c.added ≤ c.install.number) };
}

impl Core {
    /// A filter at its start, at the second `now`: install 0, no records, and counters of zeros.
    pub fn new(alloc: Global, config: Config, now: u32) -> Result<Core, StartError>
        ensures filter { IfOk result (λ core. filter_of core ≡ first config now) }
        ensures memory { IfOk result (λ core. core.memory ≡ replicate memory_size 0) }
        ensures too_large { (need limit : ℕ) → (result ≡ Err (StartError.TooLarge need limit)) ↔ ((limit < need) × (need ≡ base config start) × (limit ≡ limit_of config)) }
    {
        let state = FilterState::start();
        let need = base(&config, &state);
        let limit = limit(&config);
        if need > limit {
            return Err(StartError::TooLarge { need, limit });
        }
        let held = List::new(alloc);
        match make_install(alloc, 0, now, config, state, held.as_slice()) {
            Ok(install) => Ok(Core {
                install,
                held,
                added: 0,
                clock: now,
                memory: [0; MEMORY_SIZE],
            }),
            Err(_) => Err(StartError::OutOfMemory),
        }
    }

    /// Answers a frame that comes at the second `now`: the clock moves, and the install's program runs over the counters.
    pub fn answer(&mut self, frame: &[u8], now: u32) -> Answer
        requires { length frame.now ≤ frame_limit }
        ensures answer { IsAnswer self.old.install frame.now (max self.old.clock now) self.old.memory result self.new.memory }
        ensures clock { self.new.clock ≡ max self.old.clock now }
        ensures install { self.new.install ≡ self.old.install }
        ensures held { self.new.held ≡ self.old.held }
        ensures added { self.new.added ≡ self.old.added }
    {
        self.clock = self.clock.max(now);
        self.install.answer(frame, self.clock, &mut self.memory)
    }

    // These records take the place of those that are held, where there are some.
    fn hold(&mut self, records: Option<List<Held>>)
        requires { length (unwrap_or records self.old.held) ≤ records_most }
        ensures { self.new ≡ record self.old { held = unwrap_or records self.old.held } }
    {
        if let Some(records) = records {
            self.held = records;
        }
    }

    // Another state: where its base doesn't fit, nothing changes.
    fn set_state(&mut self, alloc: Global, state: FilterState) -> Result<UpdateReply, OutOfMemory>
        requires { self.old.install.number < 2 ^ 64 - 1 }
        ensures ok { IfOk result (λ reply. Goes update_installs self.old (with_state (filter_of self.old) state) reply self.new) }
        ensures err { OnErr result (self.new ≡ self.old) }
    {
        let need = base(&self.install.basis.config, &state);
        let limit = limit(&self.install.basis.config);
        if need > limit {
            return Ok(UpdateReply::NotInstalled { need, limit });
        }
        let (install, held) = make_next(
            alloc,
            &self.install,
            self.clock,
            state,
            self.held.as_slice(),
        )?;
        self.install = install;
        self.hold(held);
        Ok(UpdateReply::Installed)
    }

    fn make_update(
        &mut self,
        alloc: Global,
        u: &Update,
        now: u32,
    ) -> Result<UpdateReply, OutOfMemory>
        requires { self.old.install.number < 2 ^ 64 - 1 }
        ensures ok { IfOk result (λ reply. Goes update_installs self.old (updated (filter_of self.old) u.now now) reply self.new) }
        ensures err { OnErr result (self.new ≡ record self.old { clock = max self.old.clock now }) }
    {
        self.clock = self.clock.max(now);
        let mut state = self.install.basis.state;
        match state.apply(u) {
            Err(refusal) => Ok(UpdateReply::Refused(refusal)),
            Ok(Changed::No) => Ok(UpdateReply::Same),
            Ok(Changed::Yes) => self.set_state(alloc, state),
        }
    }

    /// Makes a change of the state at the second `now`.
    ///
    /// A change that the state takes is followed by a new install, unless the state was so already or the base of the new
    /// state is more than the limit. A refusal, `Same` and `NotInstalled` move the clock alone, and so does want of memory.
    pub fn update(
        &mut self,
        alloc: Global,
        u: &Update,
        now: u32,
    ) -> Result<UpdateReply, OutOfMemory>
        requires { self.old.install.number < 2 ^ 64 - 1 }
        ensures reply { IfOk result (λ reply. reply ≡ (updated (filter_of self.old) u.now now).1) }
        ensures filter { IfOk result (λ _. filter_of self.new ≡ (updated (filter_of self.old) u.now now).0) }
        ensures install { IfOk result (λ reply. Renews (update_installs reply) self.old.install self.new.install) }
        ensures memory { self.new.memory ≡ self.old.memory }
        ensures err { OnErr result (self.new ≡ record self.old { clock = max self.old.clock now }) }
    {
        self.make_update(alloc, u, now)
    }

    // A record that was seen again: it goes to the front, and a new program is made where the old one ends soon.
    fn see_again(
        &mut self,
        alloc: Global,
        records: List<Held>,
        place: usize,
        seen: Record,
    ) -> Result<RaReply, OutOfMemory>
        requires number { self.old.install.number < 2 ^ 64 - 1 }
        requires few { length records ≤ records_most }
        requires place { place < length records }
        ensures ok { IfOk result (λ reply. Goes advert_installs self.old (seen_again (record (filter_of self.old) { held = records }) seen place) reply self.new) }
        ensures err { OnErr result (self.new ≡ self.old) }
    {
        let (id, records) = move_to_front(alloc, records, place, seen)?;
        if !is_ending(&self.install, self.clock) {
            self.held = records;
            return Ok(RaReply::Match(id));
        }
        let (install, held) = make_next(
            alloc,
            &self.install,
            self.clock,
            self.install.basis.state,
            records.as_slice(),
        )?;
        self.install = install;
        self.held = held.unwrap_or(records);
        Ok(RaReply::Refreshed(id))
    }

    // A record that isn't held yet: it goes last, and a new program is made, unless ten are held or it has no time.
    fn see_first(
        &mut self,
        alloc: Global,
        mut records: List<Held>,
        advert: Record,
    ) -> Result<RaReply, OutOfMemory>
        requires number { self.old.install.number < 2 ^ 64 - 1 }
        requires few { length records ≤ records_most }
        ensures ok { IfOk result (λ reply. Goes advert_installs self.old (seen_first (record (filter_of self.old) { held = records }) advert) reply self.new) }
        ensures err { OnErr result (self.new ≡ self.old) }
    {
        if records.len() >= RECORDS_MOST {
            self.held = records;
            return Ok(RaReply::Full);
        }
        if advert.least() == 0 {
            self.held = records;
            return Ok(RaReply::ZeroLifetime);
        }
        let id = self.added + 1;
        records.push(Held { id, advert })?;
        let (install, held) = make_next(
            alloc,
            &self.install,
            self.clock,
            self.install.basis.state,
            records.as_slice(),
        )?;
        self.install = install;
        self.held = held.unwrap_or(records);
        self.added = id;
        Ok(RaReply::New(id))
    }

    fn read_advertisement(
        &mut self,
        alloc: Global,
        frame: &[u8],
        now: u32,
    ) -> Result<RaReply, OutOfMemory>
        requires { self.old.install.number < 2 ^ 64 - 1 }
        ensures ok { IfOk result (λ reply. Goes advert_installs self.old (advertised (filter_of self.old) frame.now now) reply self.new) }
        ensures err { OnErr result (self.new ≡ record self.old { clock = max self.old.clock now }) }
    {
        self.clock = self.clock.max(now);
        let advert = match Record::read(alloc, frame, self.clock) {
            Ok(advert) => advert,
            Err(RaError::OutOfMemory) => return Err(OutOfMemory),
            Err(refusal) => return Ok(RaReply::Bad(refusal)),
        };
        let records = standing(alloc, self.held.as_slice(), self.clock)?;
        match match_of(frame, records.as_slice()) {
            Some(place) => self.see_again(alloc, records, place, advert),
            None => self.see_first(alloc, records, advert),
        }
    }

    /// Learns from a frame that comes at the second `now`, if it is a router advertisement.
    ///
    /// A frame that is refused, as `Bad`, moves the clock alone. Else the expired records go. The first record that the
    /// frame matches is refreshed and moves to the front, and a new install stands where the old one's end is below the
    /// clock and 30. Without such a record the reply is `Full` where ten stand, then `ZeroLifetime` where a lifetime is 0,
    /// and else the record goes last, in a new install. Want of memory moves the clock alone.
    pub fn advertise(
        &mut self,
        alloc: Global,
        frame: &[u8],
        now: u32,
    ) -> Result<RaReply, OutOfMemory>
        requires number { self.old.install.number < 2 ^ 64 - 1 }
        requires frame { length frame.now ≤ frame_limit }
        ensures reply { IfOk result (λ reply. reply ≡ (advertised (filter_of self.old) frame.now now).1) }
        ensures filter { IfOk result (λ _. filter_of self.new ≡ (advertised (filter_of self.old) frame.now now).0) }
        ensures install { IfOk result (λ reply. Renews (advert_installs reply) self.old.install self.new.install) }
        ensures memory { self.new.memory ≡ self.old.memory }
        ensures err { OnErr result (self.new ≡ record self.old { clock = max self.old.clock now }) }
    {
        self.read_advertisement(alloc, frame, now)
    }

    /// The install that stands.
    pub fn install(&self) -> &Install
        ensures { result.now ≡ self.now.install }
    {
        &self.install
    }

    /// The number of the install that stands.
    pub fn number(&self) -> u64
        ensures { result ≡ self.now.install.number }
    {
        self.install.number
    }

    /// The greatest second so far.
    pub fn clock(&self) -> u32
        ensures { result ≡ self.now.clock }
    {
        self.clock
    }

    /// The counters.
    pub fn memory(&self) -> &[u8; MEMORY_SIZE]
        ensures { result.now ≡ self.now.memory }
    {
        &self.memory
    }

    /// The records that are held, in order. Expired ones stand here until a call lets them go.
    pub fn held(&self) -> &[Held]
        ensures value { result.now ≡ self.now.held }
        ensures most { length result.now ≤ records_most }
    {
        self.held.as_slice()
    }
}
