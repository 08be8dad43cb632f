//! Numbers and bytes at a place of a frame.

ghost use Rattle.std.specs.Prelude.{◌≡◌, ◌≤◌, ◌⊎◌, length};
ghost use Rattle.std.specs.Option.{option_copied};
ghost use Rattle.frame_views.specs.Fields.{bytes_value, field, part};

/// The bytes from a place on.
#[tactic(auto, unfolding(crate::specs::Fields::part))]
pub fn part(frame: &[u8], at: u32, len: u32) -> Option<&[u8]>
    ensures { option_copied result ≡ part frame.now at len }
{
    let at = at as usize;
    let end = at + len as usize;
    if frame.len() < end {
        None
    } else {
        Some(&frame[at..end])
    }
}

/// The big-endian number in the one, two or four bytes from a place on.
#[tactic(auto, unfolding(crate::specs::Fields::part, crate::specs::Fields::field))]
pub fn number(frame: &[u8], at: u32, width: u32) -> Option<u32>
    requires { (width ≡ 1) ⊎ ((width ≡ 2) ⊎ (width ≡ 4)) }
    ensures { result ≡ field frame.now at width }
{
    let bytes = part(frame, at, width)?;
    Some(value(bytes))
}

/// The big-endian value of at most four bytes.
fn value(bytes: &[u8]) -> u32
    requires { length bytes.now ≤ 4 }
    ensures { result ≡ bytes_value bytes.now }
{
    match bytes {
        [] => 0,
        [a] => u32::from_be_bytes([0, 0, 0, *a]),
        [a, b] => u32::from_be_bytes([0, 0, *a, *b]),
        [a, b, c] => u32::from_be_bytes([0, *a, *b, *c]),
        [a, b, c, d, ..] => u32::from_be_bytes([*a, *b, *c, *d]),
    }
}
