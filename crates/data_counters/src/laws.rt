//! Laws over the counters and their memory, each the contract of an empty function.

ghost use Rattle.std.specs.Prelude.{◌≡◌, ◌≢◌, ◌+◌, ◌%◌, ◌^◌, ◌<◌, ◌≤◌, ◌⊎◌, ℕ, List, Some, All, length, slice_index};
ghost use Rattle.data_counters.specs.declared.counter.Counter.{Counter};
ghost use Rattle.data_counters.specs.Counters.{number_of, counter_of, counter_count, all_counters};
ghost use Rattle.data_counters.specs.Memory.{place_of, value_of, raised, AddsWords};
ghost use Rattle.apf_base.specs.Limits.{memory_size};

use crate::{COUNTER_COUNT, COUNTERS};

/// The table of the code is that of the definitions. The counter of a number is the one that has this number.
pub fn counters_are_numbered()
    ensures count { COUNTER_COUNT ≡ counter_count }
    ensures all { COUNTERS ≡ all_counters }
    ensures number { (c : Counter) → counter_of (number_of c) ≡ Some c }
    ensures counter { (c : Counter) (n : ℕ) → counter_of n ≡ Some c → number_of c ≡ n }
{}

/// Raising a counter adds one to it. Each other counter holds what it held, and each byte beside the counter's four stays.
pub fn raising_changes_one_word()
    ensures same { (c : Counter) (memory : List ℕ) → length memory ≡ memory_size → value_of c (raised c memory) ≡ (value_of c memory + 1) % 2 ^ 32 }
    ensures others { (c d : Counter) (memory : List ℕ) → length memory ≡ memory_size → c ≢ d → value_of d (raised c memory) ≡ value_of d memory }
    ensures bytes { (c : Counter) (memory : List ℕ) (k : ℕ) → length memory ≡ memory_size → (k < place_of c) ⊎ (place_of c + 4 ≤ k) → slice_index (raised c memory) k ≡ slice_index memory k }
    ensures length { (c : Counter) (memory : List ℕ) → length memory ≡ memory_size → length (raised c memory) ≡ memory_size }
{}

/// In a sum of memories each counter is the sum of the counters, and there is one such sum.
pub fn sums_add_each_counter()
    ensures counters { (c : Counter) (old from new : List ℕ) → AddsWords old from new → value_of c new ≡ (value_of c old + value_of c from) % 2 ^ 32 }
    ensures one { (old from new other : List ℕ) → AddsWords old from new → AddsWords old from other → length new ≡ memory_size → length other ≡ memory_size → All (λ b. b < 256) new → All (λ b. b < 256) other → new ≡ other }
{}
