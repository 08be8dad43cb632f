//! Codes with their listings, which are assembled to the codes again.

use crate::{list, print};
use apf_asm::{assemble, read_text};
use apf_base::List;
use std::test::Fail;

#[rattlefmt::skip]
const CUT: [u8; 6] = [
    0xa2, 0x01, 0x04, 0x00, // four counted bytes, of which three follow
    0x72, 0x01,             // jmp
];

const CUT_LISTING: &str = "\
.byte 162 ; at 0
.byte 1 ; at 1
.byte 4 ; at 2
.byte 0 ; at 3
jmp.1 r0 1 ; at 4
";

const WIDE: [u8; 5] = [0x6e, 0x00, 0x00, 0x00, 0x01];

const WIDE_LISTING: &str = "li.4 r0 1 ; at 0\n";

#[rattlefmt::skip]
const PARTS: [u8; 13] = [
    0xa2, 0x01, 0x02, 0x01, 0x0f, // jnebs with two bytes
    0x7a, 0x02, 0x05,             // jeq with a second immediate
    0x7b, 0x02,                   // jeq with R1
    0xa0,                         // jnebs without bytes
    0x00, 0xc0,                   // numbers of no opcode
];

const PARTS_LISTING: &str = "\
jnebs.1 r0 1 x010f ; at 0
jeq.1 r0 2 5 ; at 5
jeq.1 r1 2 ; at 8
jnebs.0 r0 0 x ; at 10
.byte 0 ; at 11
.byte 192 ; at 12
";

#[test]
fn listings_are_assembled_again(rt: HostRuntime) -> Result<(), Fail> {
    let rows: [(&[u8], &str); 4] = [
        (&[], ""),
        (&CUT, CUT_LISTING),
        (&WIDE, WIDE_LISTING),
        (&PARTS, PARTS_LISTING),
    ];
    for (code, listing) in rows {
        assert!(rt; code.len() <= 65535);
        let lines = list(rt.alloc(), code)?;
        assert_eq!(rt; lines.len(), listing.lines().count(), "{listing}");
        let mut text = List::new(rt.alloc());
        print(rt.alloc(), code, &mut text)?;
        assert!(rt; text.as_slice() == listing.as_bytes(), "{listing}");
        assert!(rt; text.len() <= 1_048_576);
        let items = read_text(rt.alloc(), text.as_slice())?;
        let assembled = assemble(rt.alloc(), items.as_slice())?;
        assert!(rt; assembled.bytes.as_slice() == code, "{listing}");
    }
    Ok(())
}
