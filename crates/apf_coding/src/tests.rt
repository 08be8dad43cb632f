//! Instructions of each form of spelling, there and back.

use super::*;
use apf_base::List;
use std::test::Fail;

/// Bytes, and the instruction that they are the spelling of: opcode, register bit, width, first
/// and second immediate, counted bytes.
type Row = (&'static [u8], Op, u8, u8, u32, u32, &'static [u8]);

#[rattlefmt::skip]
const ROWS: [Row; 8] = [
    (&[0x48],                         Op::Div,   0, 0, 0,           0, &[]),
    (&[0x12, 0x0c],                   Op::Ldh,   0, 1, 12,          0, &[]),
    (&[0xb4, 0xff, 0x7c],             Op::Lddw,  0, 2, 0xff7c,      0, &[]),
    (&[0x76, 0xff, 0xff, 0xff, 0xfb], Op::Jmp,   0, 4, 0xffff_fffb, 0, &[]),
    (&[0x7a, 0x02, 0x05],             Op::Jeq,   0, 1, 2,           5, &[]), // a second immediate
    (&[0x7b, 0x02],                   Op::Jeq,   1, 1, 2,           0, &[]), // none with register 1
    (&[0xa2, 0x01, 0x02, 0x00, 0x01], Op::Jnebs, 0, 1, 1,           0, &[0, 1]),
    (&[0xa3, 0x01, 0x00],             Op::Jnebs, 1, 1, 1,           0, &[]),
];

#[test]
fn instructions_come_back(rt: HostRuntime) -> Result<(), Fail> {
    for (code, op, reg, width, imm, second, bytes) in ROWS {
        let (instr, end) = decode(code, 0).ok_or("no instruction")?;
        let want = Instr {
            op,
            reg,
            width,
            imm,
            second,
            bytes,
        };
        assert_eq!(rt; (instr, end), (want, code.len()));
        let mut out = List::new(rt.alloc());
        encode(rt.alloc(), &instr, &mut out)?;
        assert_eq!(rt; out.as_slice(), code, "{op:?}");
    }
    Ok(())
}
