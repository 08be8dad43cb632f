//! Decimal numbers.

ghost use Rattle.std.specs.Prelude.{◌≡◌, ◌≤◌, ℕ, IfSome, IsNone, Some, ◌↔◌};
ghost use Rattle.plain_text.specs.Numbers.{WritesNumber};
ghost use Rattle.plain_text.specs.Numbers.{number_within};

use plain_text::read_decimal;

/// The decimal number that a word spells, where it is at most the limit. It has no sign and no leading zeros.
pub fn read_number(word: &[u8], limit: u32) -> Option<u32>
    ensures found { IfSome result (λ n. WritesNumber limit word.now n) }
    ensures only { (n : ℕ) → WritesNumber limit word.now n → result ≡ Some n }
    ensures none { IsNone result ↔ ((n : ℕ) → ¬ WritesNumber limit word.now n) }
    // By a function that computes.
    ensures exact { result ≡ number_within limit word.now }
{
    read_decimal(word, limit)
}
