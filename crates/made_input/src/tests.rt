//! What is made, against the bytes and lines of the format.

use crate::{made_capture, made_frame, made_script};
use pcap_files::records;
use std::test::Fail;

/// The made script of 25.
const SCRIPT: &str = "apf 1
mac 02:00:00:00:00:01
capacity 2048
start 1000
drop802 on
deny 88a2
at 1000 multicast on
at 1000 address 192.168.1.5/24
at 1010 doze on
at 1020 doze off
";

/// The header of a little-endian file with microseconds.
#[rattlefmt::skip]
const HEAD: [u8; 24] = [
    0xd4, 0xc3, 0xb2, 0xa1, 2, 0, 4, 0, 0, 0, 0, 0,
    0, 0, 0, 0, 0, 0, 4, 0, 1, 0, 0, 0,
];

/// The first six frames in hexadecimal, field by field.
#[rattlefmt::skip]
static FRAMES: [&[&str]; 6] = [
    &[
        "020000000001", "020000000099", "0800",
        "4500001c", "00000000", "40110000", "c0a80109", "c0a80105",
        "1388", "1389", "0008", "0000",
    ],
    &[
        "ffffffffffff", "020000000099", "0800",
        "4500001c", "00000000", "40110000", "c0a80109", "c0a801ff",
        "1388", "1389", "0008", "0000",
    ],
    &[
        "333300000001", "020000000099", "86dd",
        "60000000", "0058", "3a", "ff", "fe800000000000000000000000000000", "ff020000000000000000000000000001",
        "8600", "0000", "4000", "0708", "00000000", "00000000",
        "0101", "020000000099",
        "0501", "0000", "000005dc",
        "0304", "40c0", "00278d00", "00093a80", "00000000", "20010db8000000000000000000000000",
        "1903", "0000", "00000708", "20010db8000000000000000000000001",
    ],
    &[
        "ffffffffffff", "020000000099", "88a2",
        "0000000000000000000000000000000000000000000000",
        "0000000000000000000000000000000000000000000000",
    ],
    &[
        "3333000000fb", "020000000099", "86dd",
        "60000000", "0008", "11", "ff", "fe800000000000000000000000000099", "ff0200000000000000000000000000fb",
        "14e9", "14e9", "0008", "0000",
    ],
    &[
        "ffffffffffff", "020000000099", "0806",
        "0001", "0800", "06", "04", "0001",
        "020000000099", "c0a80109", "000000000000", "c0a80106",
    ],
];

/// Later frames, and what stands at a place of each.
static LATER: [(u32, usize, u8); 5] = [
    (9, 37, 1),
    (15, 37, 2),
    (21, 37, 0),
    (252, 41, 252),
    (258, 41, 2),
];

#[test]
fn frames_have_the_bytes_of_the_table(rt: HostRuntime) -> Result<(), Fail> {
    for (at, fields) in FRAMES.iter().enumerate() {
        let frame = made_frame(rt.alloc(), at as u32 + 1)?;
        let mut expected = String::new(rt.alloc());
        for field in *fields {
            expected.push_str(field)?;
        }
        assert_eq!(rt;
            hex::encode(rt.alloc(), frame.as_slice())?,
            expected,
            "frame {at}"
        );
    }
    for (k, place, byte) in LATER {
        let frame = made_frame(rt.alloc(), k)?;
        assert_eq!(rt; frame.get(place), Some(&byte), "frame {k}");
    }
    Ok(())
}

#[test]
fn files_have_their_lines_and_records(rt: HostRuntime) -> Result<(), Fail> {
    let script = made_script(rt.alloc(), 25)?;
    assert_eq!(rt; script.as_slice(), SCRIPT.as_bytes());
    let file = made_capture(rt.alloc(), 6)?;
    assert!(rt; file.len() <= 1000 && file.as_slice().starts_with(&HEAD));
    let found = records(rt.alloc(), file.as_slice())?;
    assert_eq!(rt; (found.list.len(), found.end), (6, None));
    for (at, placed) in found.list.as_slice().iter().enumerate() {
        assert_eq!(rt; placed.stamp.sec as usize, 1001 + at);
    }
    Ok(())
}
