//! The lines of a text.

ghost use Rattle.std.specs.Prelude.{◌≡◌, ◌==◌, ◌∷◌, ◌<◌, length};
ghost use Rattle.std.specs.List.{after_first};
ghost use Rattle.plain_text.specs.Lines.{lines_of};

/// The first line, without its line feed, and the text behind it, which is shorter. Condition: the text isn't empty.
pub fn first_line(text: &[u8]) -> (&[u8], &[u8])
    requires { 0 < length text.now }
    ensures lines { lines_of text.now ≡ result.0.now ∷ lines_of result.1.now }
    ensures rest { result.1.now ≡ after_first (λ b. b == 10) text.now }
    ensures shorter { length result.1.now < length text.now }
{
    match text.iter().position(|b| *b == b'\n') {
        Some(at) => (&text[..at], &text[at + 1..]),
        None => (text, &[]),
    }
}
