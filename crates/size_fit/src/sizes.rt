//! The bytes of a program, part by part.

ghost use Rattle.std.specs.Prelude.{◌≡◌, ◌≤◌, ◌+◌, ◌*◌, length, is_some};
ghost use Rattle.std.specs.List.{sum_by, count_by};
ghost use Rattle.policy_state.specs.Limits.{denied_most};
ghost use Rattle.size_fit.specs.Sizes.{base, base_for, limit_of, section_weight, weight};

use apf_base::MEMORY_SIZE;
use policy_state::{
    BASE_WEIGHT, COMPARISON_WEIGHT, Config, DENIED_WEIGHT, FilterState, KEEPALIVE_WEIGHT,
    LIFETIME_WEIGHT, RECORD_WEIGHT,
};
use ra_records::{Record, Span};

/// The bytes that a program needs without records: 600, and 9 for each denied ethertype and 80 for each keepalive.
pub fn base(config: &Config, s: &FilterState) -> u32
    ensures value { result ≡ base config.now s.now }
    ensures most { result ≤ base_for denied_most 8 }
{
    BASE_WEIGHT + DENIED_WEIGHT * config.deny.len() as u32 + KEEPALIVE_WEIGHT * s.count_keepalives()
}

/// The bytes that a device has for a program: its capacity less those of the memory.
pub fn limit(config: &Config) -> u32
    ensures value { result ≡ limit_of config.now }
    ensures most { result ≤ config.now.capacity }
{
    config.capacity - MEMORY_SIZE as u32
}

fn sections_weight(sections: &[Span]) -> u32
    requires { sum_by section_weight sections.now ≤ 20000 }
    ensures { result ≡ sum_by section_weight sections.now }
{
    let mut sum = 0;
    for section in sections {
        sum += COMPARISON_WEIGHT + section.len;
    }
    sum
}

/// The bytes that a program needs for a record: 29, and 12 and its length for each section, and 12 for each lifetime.
pub fn weight(r: &Record) -> u32
    ensures value { result ≡ weight r.now }
    ensures most { result ≤ 30000 }
{
    RECORD_WEIGHT + sections_weight(r.sections()) + LIFETIME_WEIGHT * r.lifetimes().len() as u32
}
