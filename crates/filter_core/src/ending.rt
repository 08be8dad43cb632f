//! When an install ends.

ghost use Rattle.std.specs.Prelude.{◌≡◌, ◌≤◌, length};
ghost use Rattle.filter_core.specs.Coded.{plain};
ghost use Rattle.filter_core.specs.Installs.{lesser, least_hold, end_of};
ghost use Rattle.filter_core.specs.Steps.{is_ending};

use crate::install::Install;
use policy_state::Chosen;

/// The lesser of a number and one that may be there.
fn lesser(n: u32, other: Option<u32>) -> u32
    ensures { result ≡ lesser n other }
{
    match other {
        Some(m) => n.min(m),
        None => n,
    }
}

/// The least hold of chosen records.
fn least_hold(chosen: &[Chosen]) -> Option<u32>
    ensures { result ≡ least_hold chosen.now }
{
    let mut least = None;
    for one in chosen {
        least = Some(lesser(one.hold, least));
    }
    least
}

/// Whether an install ends within 30 seconds.
pub(crate) fn is_ending(install: &Install, clock: u32) -> bool
    ensures { result ≡ is_ending clock (end_of (plain install.now)) }
{
    match least_hold(install.basis.chosen.as_slice()) {
        Some(hold) => u64::from(install.at) + u64::from(hold) < u64::from(clock) + 30,
        None => false,
    }
}
