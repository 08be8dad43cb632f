use crate::{first_line, read_decimal};
use std::process::Abort;

#[test]
fn words_are_numbers(rt: HostRuntime) {
    for (word, limit, number) in [
        ("0", 0, Some(0)),
        ("255", 255, Some(255)),
        ("256", 255, None),
        ("4294967295", u32::MAX, Some(u32::MAX)),
        ("4294967296", u32::MAX, None),
        ("00", 9, None),
        ("", 9, None),
        ("-1", 9, None),
        ("+1", 9, None),
    ] {
        assert_eq!(rt; read_decimal(word.as_bytes(), limit), number, "{word}");
    }
}

#[test]
fn lines_end_with_a_line_feed(rt: HostRuntime) {
    assert_eq!(rt; first_line(b"a\nb\n"), (b"a".as_slice(), b"b\n".as_slice()));
    assert_eq!(rt; first_line(b"\na"), (b"".as_slice(), b"a".as_slice()));
    assert_eq!(rt; first_line(b"a"), (b"a".as_slice(), b"".as_slice()));
}
