//! An item that counts.

ghost use Rattle.std.specs.Prelude.{◌≡◌};
ghost use Rattle.apf_asm.specs.Building.{count};
ghost use Rattle.data_counters.specs.Counters.{number_of};

use apf_asm::{Item, count};
use data_counters::Counter;
use std::alloc::Global;

/// R1 says that a counter is to be raised, by its number.
pub(crate) fn counting(alloc: Global, counter: Counter) -> Item
    ensures { result ≡ count (number_of counter) }
{
    count(alloc, counter.number())
}
