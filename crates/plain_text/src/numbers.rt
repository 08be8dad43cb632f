//! Decimal numbers.

ghost use Rattle.std.specs.Prelude.{◌≡◌, ◌≤◌, ℕ, IfSome, Some};
ghost use Rattle.std.specs.Char.{is_ascii_digit};
ghost use Rattle.std.specs.List.{list_all};
ghost use Rattle.plain_text.specs.Numbers.{WritesNumber, is_numeral, number_within};

fn are_digits(word: &[u8]) -> bool
    ensures { result ≡ list_all is_ascii_digit word.now }
{
    word.iter().all(|c| c.is_ascii_digit())
}

/// Whether all bytes are digits, and the first is no surplus zero.
fn is_numeral(word: &[u8]) -> bool
    ensures { result ≡ is_numeral word.now }
{
    match word {
        [] | [b'0', _, ..] => false,
        _ => are_digits(word),
    }
}

fn number(word: &[u8]) -> Option<u32>
    ensures { result ≡ number_within 4294967295 word.now }
{
    if !is_numeral(word) {
        return None;
    }
    str::from_utf8(word).ok()?.parse().ok()
}

fn number_in(word: &[u8], limit: u32) -> Option<u32>
    ensures { result ≡ number_within limit word.now }
{
    match number(word) {
        Some(n) if n <= limit => Some(n),
        _ => None,
    }
}

/// The number that a word writes, where that is at most the limit: decimal digits, without a sign and without leading
/// zeros.
pub fn read_decimal(word: &[u8], limit: u32) -> Option<u32>
    ensures found { IfSome result (λ n. WritesNumber limit word.now n) }
    ensures only { (n : ℕ) → WritesNumber limit word.now n → result ≡ Some n }
    // By a function that computes.
    ensures exact { result ≡ number_within limit word.now }
{
    number_in(word, limit)
}
