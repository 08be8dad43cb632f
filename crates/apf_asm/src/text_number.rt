//! Words of a line that are numbers, registers and targets.

ghost use Rattle.std.specs.Prelude.{◌≡◌, ◌≤◌};
ghost use Rattle.apf_coding.specs.Reading.{IsReadAs};
ghost use Rattle.apf_asm.specs.TextReading.{word_number, signed_of, register_of, target_of, below};

use crate::Target;
use plain_text::read_decimal;

/// A decimal number without leading zeros.
pub(crate) fn number(word: &[u8]) -> Option<u32>
    ensures { IsReadAs (λ x. x) result (word_number word.now) }
{
    read_decimal(word, u32::MAX)
}

/// A decimal number that may begin with `-`. There is no `-0`.
#[tactic(auto, unfolding(crate::specs::TextReading::signed_of))]
pub(crate) fn signed_number(word: &[u8]) -> Option<i32>
    ensures { IsReadAs (λ x. x) result (signed_of word.now) }
{
    match word {
        [b'-', digits @ ..] => match number(digits)? {
            0 => None,
            n => i32::try_from(-i64::from(n)).ok(),
        },
        _ => i32::try_from(number(word)?).ok(),
    }
}

/// A number below a bound of at most 256.
#[tactic(auto, unfolding(crate::specs::TextReading::below))]
pub(crate) fn number_below(bound: u16, word: &[u8]) -> Option<u8>
    requires { bound ≤ 256 }
    ensures { IsReadAs (λ x. x) result (below bound word.now) }
{
    match number(word)? {
        n if n < u32::from(bound) => Some(n as u8),
        _ => None,
    }
}

/// `r0` or `r1`.
#[tactic(auto, unfolding(crate::specs::TextReading::register_of))]
pub(crate) fn register(word: &[u8]) -> Option<u8>
    ensures { IsReadAs (λ x. x) result (register_of word.now) }
{
    match word {
        b"r0" => Some(0),
        b"r1" => Some(1),
        _ => None,
    }
}

/// `pass`, `drop` or a label.
#[tactic(auto, unfolding(crate::specs::TextReading::target_of))]
pub(crate) fn target(word: &[u8]) -> Option<Target>
    ensures { IsReadAs (λ x. x) result (target_of word.now) }
{
    match word {
        b"pass" => Some(Target::Pass),
        b"drop" => Some(Target::Drop),
        [b'L', digits @ ..] => Some(Target::Label(number(digits)?)),
        _ => None,
    }
}
