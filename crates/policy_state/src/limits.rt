//! The bounds of a configuration, and what the parts of a program weigh.

ghost use Rattle.std.specs.Prelude.{◌≡◌};
ghost use Rattle.policy_state.specs.Limits.{capacity_least, capacity_most, denied_most, records_most};
ghost use Rattle.policy_state.specs.Weights.{base_weight, denied_weight, keepalive_weight, record_weight, comparison_weight, lifetime_weight};

use apf_base::MEMORY_SIZE;

/// The least bytes of a device for program and memory: those of the memory.
pub const CAPACITY_LEAST: u32 = MEMORY_SIZE as u32;

/// The most bytes of a device for program and memory.
pub const CAPACITY_MOST: u32 = 8192;

/// The most ethertypes that are denied.
pub const DENIED_MOST: usize = 32;

/// The most records of advertisements that are held.
pub const RECORDS_MOST: usize = 10;

/// The bytes of the base of each program.
pub const BASE_WEIGHT: u32 = 600;

/// The bytes that each denied ethertype adds to the base.
pub const DENIED_WEIGHT: u32 = 9;

/// The bytes that each keepalive adds to the base.
pub const KEEPALIVE_WEIGHT: u32 = 80;

/// The bytes of a record, without its comparisons and lifetimes.
pub const RECORD_WEIGHT: u32 = 29;

/// The bytes of a comparison of a record, beside those that are compared.
pub const COMPARISON_WEIGHT: u32 = 12;

/// The bytes of a lifetime of a record.
pub const LIFETIME_WEIGHT: u32 = 12;

/// The limits and weights of the code are those of the definitions.
pub fn numbers_are_defined()
    ensures capacity_least { CAPACITY_LEAST ≡ capacity_least }
    ensures capacity_most { CAPACITY_MOST ≡ capacity_most }
    ensures denied { DENIED_MOST ≡ denied_most }
    ensures records { RECORDS_MOST ≡ records_most }
    ensures base_weight { BASE_WEIGHT ≡ base_weight }
    ensures denied_weight { DENIED_WEIGHT ≡ denied_weight }
    ensures keepalive_weight { KEEPALIVE_WEIGHT ≡ keepalive_weight }
    ensures record_weight { RECORD_WEIGHT ≡ record_weight }
    ensures comparison_weight { COMPARISON_WEIGHT ≡ comparison_weight }
    ensures lifetime_weight { LIFETIME_WEIGHT ≡ lifetime_weight }
{}
