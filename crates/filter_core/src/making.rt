//! Making an install.

ghost use Rattle.std.specs.Prelude.{◌≡◌, ◌≤◌, ◌<◌, ◌+◌, ◌-◌, ◌^◌, length, map, IfOk};
ghost use Rattle.std.specs.Option.{unwrap_or};
ghost use Rattle.size_fit.specs.Sizes.{base, limit_of};
ghost use Rattle.filter_core.specs.Coded.{plain};
ghost use Rattle.filter_core.specs.Installs.{install_of, chosen_at};
ghost use Rattle.filter_core.specs.Records.{standing, ids_of};
ghost use Rattle.policy_state.specs.Limits.{records_most};

use crate::install::Install;
use crate::records::{all_stand, standing};
use apf_base::{List, OutOfMemory};
use apf_generate::generate;
use policy_state::{Basis, Chosen, Config, FilterState};
use ra_records::Held;
use size_fit::{choose, limit};
use std::alloc::Global;

/// Copies of the records, each with its hold.
fn choose_all(alloc: Global, records: &[Held], now: u32) -> Result<List<Chosen>, OutOfMemory>
    ensures { IfOk result (λ list. list ≡ map (chosen_at now) records.now) }
{
    let mut list = List::new(alloc);
    for held in records {
        list.push(Chosen {
            id: held.id,
            advert: held.advert.copy(alloc)?,
            hold: held.advert.hold(now),
        })?;
    }
    Ok(list)
}

/// The ids of records.
fn ids(alloc: Global, records: &[Held]) -> Result<List<u64>, OutOfMemory>
    ensures { IfOk result (λ list. list ≡ ids_of records.now) }
{
    let mut list = List::new(alloc);
    for held in records {
        list.push(held.id)?;
    }
    Ok(list)
}

/// An install of these records. The state's base fits, so that each choice has room.
pub(crate) fn make_install(
    alloc: Global,
    number: u64,
    now: u32,
    config: Config,
    state: FilterState,
    records: &[Held],
) -> Result<Install, OutOfMemory>
    requires few { length records.now ≤ records_most }
    requires fits { base config state ≤ limit_of config }
    ensures install { IfOk result (λ install. plain install ≡ install_of number now config state records.now) }
    ensures number { IfOk result (λ install. install.number ≡ number) }
{
    let limit = limit(&config);
    let Ok(fit) = choose(&config, &state, records, limit) else {
        unreachable!()
    };
    let (front, rest) = records.split_at(fit.kept);
    let chosen = choose_all(alloc, front, now)?;
    let left = ids(alloc, rest)?;
    let basis = Basis {
        config,
        state,
        chosen,
    };
    let code = generate(alloc, &basis)?;
    Ok(Install {
        number,
        at: now,
        basis,
        left,
        code,
    })
}

/// The install that comes after another, with a state and of the records that aren't expired. These come beside it where
/// some are, so that nothing is copied where none is.
pub(crate) fn make_next(
    alloc: Global,
    old: &Install,
    now: u32,
    state: FilterState,
    records: &[Held],
) -> Result<(Install, Option<List<Held>>), OutOfMemory>
    requires few { length records.now ≤ records_most }
    requires number { old.now.number < 2 ^ 64 - 1 }
    requires fits { base old.now.basis.config state ≤ limit_of old.now.basis.config }
    ensures install { IfOk result (λ next. plain next.0 ≡ install_of (old.now.number + 1) now old.now.basis.config state (standing now records.now)) }
    ensures number { IfOk result (λ next. next.0.number ≡ old.now.number + 1) }
    ensures held { IfOk result (λ next. unwrap_or next.1 records.now ≡ standing now records.now) }
    ensures few { IfOk result (λ next. length (unwrap_or next.1 records.now) ≤ length records.now) }
{
    let number = old.number + 1;
    let config = old.basis.config.copy(alloc)?;
    if all_stand(records, now) {
        let install = make_install(alloc, number, now, config, state, records)?;
        return Ok((install, None));
    }
    let held = standing(alloc, records, now)?;
    let install = make_install(alloc, number, now, config, state, held.as_slice())?;
    Ok((install, Some(held)))
}
