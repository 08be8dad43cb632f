//! Words of a line that are bytes.

ghost use Rattle.std.specs.Prelude.{◌≡◌, ◌≤◌, length, IfOk, IfSome};
ghost use Rattle.std.specs.List.{list_any};
ghost use Rattle.apf_coding.specs.Reading.{IsReadAs};
ghost use Rattle.apf_asm.specs.TextReading.{is_upper, bytes_of, hex_of};
ghost use Rattle.apf_asm.specs.Items.{bytes_limit};

use crate::item::BYTES_LIMIT;
use apf_base::{List, OutOfMemory};
use hex::FromHexError;
use std::alloc::Global;

fn has_upper(digits: &[u8]) -> bool
    ensures { result ≡ list_any is_upper digits.now }
{
    digits.iter().any(|c| c.is_ascii_uppercase())
}

/// The bytes that lower-case digits stand for, two a byte, if there are at most 65,535.
#[tactic(auto, unfolding(crate::specs::TextReading::bytes_of))]
fn bytes_of(alloc: Global, digits: &[u8]) -> Result<Option<List<u8>>, OutOfMemory>
    ensures read { IfOk result (λ found. IsReadAs (λ x. x) found (bytes_of digits.now)) }
    ensures few { IfOk result (λ found. IfSome found (λ bytes. length bytes ≤ bytes_limit)) }
{
    if has_upper(digits) {
        return Ok(None);
    }
    match hex::decode(alloc, digits) {
        Ok(decoded) if decoded.len() <= BYTES_LIMIT => {
            let mut bytes = List::new(alloc);
            bytes.extend(&decoded)?;
            Ok(Some(bytes))
        }
        Err(FromHexError::OutOfMemory) => Err(OutOfMemory),
        _ => Ok(None),
    }
}

/// The bytes of a word of digits behind an `x`.
#[tactic(auto, unfolding(crate::specs::TextReading::hex_of))]
pub(crate) fn hex_bytes(alloc: Global, word: &[u8]) -> Result<Option<List<u8>>, OutOfMemory>
    ensures read { IfOk result (λ found. IsReadAs (λ x. x) found (hex_of word.now)) }
    ensures few { IfOk result (λ found. IfSome found (λ bytes. length bytes ≤ bytes_limit)) }
{
    match word {
        [b'x', digits @ ..] => bytes_of(alloc, digits),
        _ => Ok(None),
    }
}
