//! A list of ethertypes.

ghost use Rattle.std.specs.Prelude.{◌≡◌, IfOk, IfSome, ◌≤◌, length};
ghost use Rattle.std.specs.Option.{option_map, option_copied};
ghost use Rattle.apf_coding.specs.Reading.{IsReadAs};
ghost use Rattle.script_text.specs.ScriptReading.{first_ethertype, ethertypes_of, few_of, deny_of, deny_read};
ghost use Rattle.policy_state.specs.Limits.{denied_most};

use crate::line_words::behind;
use crate::words::read_ethertype;
use apf_base::{List, OutOfMemory};
use policy_state::DENIED_MOST;
use std::alloc::Global;

/// The first of ethertypes with commas between them, and what stands behind its comma.
#[tactic(auto, unfolding(crate::specs::ScriptReading::first_ethertype))]
fn first_ethertype(text: &[u8]) -> Option<(u16, Option<&[u8]>)>
    ensures { option_map (λ found. (found.0, option_copied found.1)) result ≡ first_ethertype text.now }
{
    match text {
        [_, _, _, _] => Some((read_ethertype(text)?, None)),
        [_, _, _, _, b',', rest @ ..] => Some((read_ethertype(&text[..4])?, Some(rest))),
        _ => None,
    }
}

/// At most 32 ethertypes with commas between them.
fn ethertypes(alloc: Global, word: &[u8]) -> Result<Option<List<u16>>, OutOfMemory>
    ensures read { IfOk result (λ found. IsReadAs (λ x. x) found (few_of (ethertypes_of word.now))) }
    ensures few { IfOk result (λ found. IfSome found (λ deny. length deny ≤ denied_most)) }
{
    let mut deny = List::new(alloc);
    let mut rest = Some(word);
    while let Some(text) = rest {
        if deny.len() == DENIED_MOST {
            return Ok(None);
        }
        let Some((ethertype, more)) = first_ethertype(text) else {
            return Ok(None);
        };
        deny.push(ethertype)?;
        rest = more;
    }
    Ok(Some(deny))
}

/// `none`, or at most 32 ethertypes.
#[tactic(auto, unfolding(crate::specs::ScriptReading::deny_of))]
fn denied(alloc: Global, word: &[u8]) -> Result<Option<List<u16>>, OutOfMemory>
    ensures read { IfOk result (λ found. IsReadAs (λ x. x) found (deny_of word.now)) }
    ensures few { IfOk result (λ found. IfSome found (λ deny. length deny ≤ denied_most)) }
{
    match word {
        b"none" => Ok(Some(List::new(alloc))),
        _ => ethertypes(alloc, word),
    }
}

/// The ethertypes of a line `deny ..`.
#[tactic(auto, unfolding(crate::specs::ScriptReading::deny_read))]
pub(crate) fn deny(alloc: Global, line: &[u8]) -> Result<Option<List<u16>>, OutOfMemory>
    ensures read { IfOk result (λ found. IsReadAs (λ x. x) found (deny_read line.now)) }
    ensures few { IfOk result (λ found. IfSome found (λ deny. length deny ≤ denied_most)) }
{
    match behind(b"deny ", line) {
        Some(word) => denied(alloc, word),
        None => Ok(None),
    }
}
