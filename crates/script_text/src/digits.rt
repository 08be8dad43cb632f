//! Lower-case hexadecimal digits.

ghost use Rattle.std.specs.Prelude.{◌≡◌, ◌<◌, IfSome};
ghost use Rattle.script_text.specs.WordReading.{digit_of, byte_of};

/// The value of a digit.
#[tactic(auto, unfolding(crate::specs::WordReading::digit_of))]
fn digit(c: u8) -> Option<u8>
    ensures exact { result ≡ digit_of c }
    ensures small { IfSome result (λ value. value < 16) }
{
    match c {
        b'0'..=b'9' => Some(c - b'0'),
        b'a'..=b'f' => Some(c - b'a' + 10),
        _ => None,
    }
}

/// The byte of two digits.
#[tactic(auto, unfolding(crate::specs::WordReading::byte_of))]
pub(crate) fn byte(high: u8, low: u8) -> Option<u8>
    ensures { result ≡ byte_of high low }
{
    let high = digit(high)?;
    let low = digit(low)?;
    Some(16 * high + low)
}
