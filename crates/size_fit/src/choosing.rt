//! Which records a program has room for.

ghost use Rattle.std.specs.Prelude.{◌≡◌, ◌≤◌, ◌<◌, ◌↔◌, length, take, IfOk, IfErr, IsErr};
ghost use Rattle.size_fit.specs.Sizes.{base};
ghost use Rattle.size_fit.specs.Choosing.{IsLongestThatFits, need_with};

use crate::sizes::{base, weight};
use policy_state::{Config, FilterState};
use ra_records::Held;

/// How many records fit, and what a program with them needs, in bytes.
#[derive(Clone, Copy, Debug, PartialEq, Eq)]
pub struct Fit {
    pub kept: usize,
    pub need: u32,
}

/// The base alone needs more bytes than the limit.
#[derive(Clone, Copy, Debug, PartialEq, Eq)]
pub struct TooLarge {
    pub need: u32,
    pub limit: u32,
}

/// The longest prefix of the records whose weights and base sum to at most the limit, in bytes.
///
/// The records are taken in their order: behind one that doesn't fit none is taken.
pub fn choose(
    config: &Config,
    s: &FilterState,
    records: &[Held],
    limit: u32,
) -> Result<Fit, TooLarge>
    requires { length records.now ≤ 32 }
    ensures kept { IfOk result (λ fit. IsLongestThatFits (base config.now s.now) limit records.now fit.kept) }
    ensures need { IfOk result (λ fit. fit.need ≡ need_with (base config.now s.now) (take fit.kept records.now)) }
    ensures too_large { IsErr result ↔ (limit < base config.now s.now) }
    ensures numbers { IfErr result (λ e. e ≡ record { need = base config.now s.now; limit = limit }) }
{
    let need = base(config, s);
    if need > limit {
        return Err(TooLarge { need, limit });
    }
    Ok(longest(need, records, limit))
}

// The records are taken one by one, as long as the next one fits.
fn longest(need: u32, records: &[Held], limit: u32) -> Fit
    requires { need ≤ limit }
    ensures kept { IsLongestThatFits need limit records.now result.kept }
    ensures need { result.need ≡ need_with need (take result.kept records.now) }
{
    let mut fit = Fit { kept: 0, need };
    for held in records {
        let more = weight(&held.advert);
        if more > limit - fit.need {
            return fit;
        }
        fit.kept += 1;
        fit.need += more;
    }
    fit
}
