//! Programs with their answers.

use super::*;
use std::test::Fail;

/// What the row is about, a program, and its answer.
type Row = (&'static str, &'static [u8], Result<u32, Flaw>);

#[rattlefmt::skip]
const ROWS: [Row; 29] = [
    ("the empty program", &[], Ok(0)),
    ("no opcode 0", &[0x00], Err(Flaw::Opcode(0))),
    ("no opcode 24", &[0x6a, 0x01, 0xc0], Err(Flaw::Opcode(2))),
    ("ext 35", &[0xaa, 0x23], Ok(1)),
    ("ext 36", &[0xaa, 0x24], Err(Flaw::Extended(0))),
    ("jmp to n", &[0x72, 0x00], Ok(1)),
    ("jmp to n + 1", &[0x72, 0x01], Ok(1)),
    ("jmp to n + 2", &[0x72, 0x02], Err(Flaw::Past(0))),
    ("jmp to 2^32 - 1", &[0x76, 0xff, 0xff, 0xff, 0xfa], Err(Flaw::Past(0))),
    ("jmp round to 0", &[0x76, 0xff, 0xff, 0xff, 0xfb], Err(Flaw::Backward(0))),
    ("jmp round to before its end", &[0x76, 0xff, 0xff, 0xff, 0xff], Err(Flaw::Backward(0))),
    ("jmp round into an instruction", &[0x6a, 0x01, 0x76, 0xff, 0xff, 0xff, 0xfa], Err(Flaw::Backward(2))),
    ("jmp to an instruction", &[0x72, 0x02, 0x6a, 0x01, 0x6a, 0x01], Ok(3)),
    ("jmp into an instruction", &[0x72, 0x01, 0x6a, 0x01], Err(Flaw::Inside(0))),
    ("jmp to the bytes of jnebs", &[0x72, 0x03, 0xa2, 0x00, 0x01, 0x07], Err(Flaw::Inside(0))),
    ("jeq to n + 1, behind its second", &[0x7a, 0x01, 0x05], Ok(1)),
    ("jeq to n + 2, behind its second", &[0x7a, 0x02, 0x05], Err(Flaw::Past(0))),
    ("jeq r1 to n + 1, without a second", &[0x7b, 0x01], Ok(1)),
    ("jnebs to n + 1, behind its bytes", &[0xa2, 0x01, 0x02, 0x07, 0x08], Ok(1)),
    ("jnebs to n + 2, behind its bytes", &[0xa2, 0x02, 0x02, 0x07, 0x08], Err(Flaw::Past(0))),
    ("jnebs of register 1", &[0xa3, 0x00, 0x01, 0x00], Err(Flaw::Compare(0))),
    ("jnebs of no bytes", &[0xa2, 0x00, 0x00], Err(Flaw::Compare(0))),
    ("jnebs of no bytes to n + 2", &[0xa2, 0x02, 0x00], Err(Flaw::Compare(0))),
    ("jnebs with a count past the end", &[0xa2, 0x00, 0x03, 0x07, 0x08], Err(Flaw::Cut(0))),
    ("jnebs with the greatest count", &[0xa6, 0, 0, 0, 0, 0xff, 0xff, 0xff, 0xff, 0x07], Err(Flaw::Cut(0))),
    ("no opcode behind ext 36", &[0xaa, 0x24, 0x00], Err(Flaw::Opcode(2))),
    ("a cut li behind ext 36", &[0xaa, 0x24, 0x6a], Err(Flaw::Cut(2))),
    ("a far jmp behind ext 36", &[0xaa, 0x24, 0x72, 0x02], Err(Flaw::Extended(0))),
    ("ext 36 behind a far jmp", &[0x72, 0x04, 0xaa, 0x24], Err(Flaw::Past(0))),
];

#[test]
fn programs_are_answered(rt: HostRuntime) -> Result<(), Fail> {
    for (name, code, answer) in ROWS {
        assert!(rt; code.len() <= 65_535);
        let answer = answer.map_err(CheckError::Flawed);
        assert_eq!(rt; check(rt.alloc(), code), answer, "{name}");
    }
    Ok(())
}

/// The first byte of each instruction with immediates of four bytes, and the number of its bytes.
#[rattlefmt::skip]
const WIDE: [(u8, usize); 23] = [
    (0x0e, 5), (0x16, 5), (0x1e, 5),                                  // ldb, ldh, ldw
    (0x26, 5), (0x2e, 5), (0x36, 5),                                  // ldbx, ldhx, ldwx
    (0x3e, 5), (0x46, 5), (0x4e, 5), (0x56, 5), (0x5e, 5), (0x66, 5), // add, mul, div, and, or, sh
    (0x6e, 5),                                                        // li
    (0x76, 5),                                                        // jmp
    (0x7e, 9), (0x86, 9), (0x8e, 9), (0x96, 9), (0x9e, 9),            // jeq, jne, jgt, jlt, jset
    (0xa6, 11),                                                       // jnebs of two bytes
    (0xae, 5),                                                        // ext
    (0xb6, 5), (0xbe, 5),                                             // lddw, stdw
];

#[test]
fn each_instruction_may_be_cut_at_each_byte(rt: HostRuntime) -> Result<(), Fail> {
    for (first, length) in WIDE {
        // The immediate 0, the second immediate or count 2, two bytes.
        let code = [first, 0, 0, 0, 0, 0, 0, 0, 2, 7, 8];
        for end in 1..=length {
            assert!(rt; end <= code.len());
            let answer = if end < length {
                Err(CheckError::Flawed(Flaw::Cut(0)))
            } else {
                Ok(1)
            };
            assert_eq!(rt; check(rt.alloc(), &code[..end]), answer, "{first} {end}");
        }
    }
    Ok(())
}

/// `jmp.1` to the end, twice, and then 126 times `li.1 r0 1`; and the longest program, of `ldb.0`.
#[test]
fn long_programs_are_answered(rt: HostRuntime) -> Result<(), Fail> {
    let mut code = [0x01; 256];
    for place in (0..256).step_by(2) {
        code[place] = if place < 4 { 0x72 } else { 0x6a };
    }
    code[1] = 0xfe;
    code[3] = 0xfc;
    assert_eq!(rt; check(rt.alloc(), &code), Ok(128));
    let longest = vec![in rt.alloc(); 0x08; 65_535]?;
    assert_eq!(rt; check(rt.alloc(), &longest), Ok(65_535));
    Ok(())
}
