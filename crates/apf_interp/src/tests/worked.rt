//! Worked runs, over a memory of 128 bytes that are 0 but for the last one.

use apf_coding::FaultKind::{Compare, Cut, Division, Extended, Frame, Memory, Opcode, Place};
use apf_coding::Verdict::{self, Drop, Pass};
use apf_coding::Why::{self, Budget, Fault, Reached, Short};

const Z14: [u8; 14] = [0; 14];

const Z15: [u8; 15] = [0; 15];

const COUNTING: [u8; 15] = [0, 1, 2, 3, 4, 5, 6, 7, 8, 9, 10, 11, 12, 13, 14];

const WITH_55: [u8; 15] = [0, 0, 0, 0, 0, 0, 0, 0, 0, 0, 0, 0, 0x55, 0, 0];

const WITH_46: [u8; 15] = [0, 0, 0, 0, 0, 0, 0, 0, 0, 0, 0, 0, 0, 0, 0x46];

const WITH_66: [u8; 15] = [0, 0, 0, 0, 0, 0, 0, 0, 0, 0, 0, 0, 0, 0, 0x66];

/// A program, the frame, the age, the last byte of the memory; the verdict, the steps, why the run
/// ended, the last byte of the memory then.
type Row = (&'static str, &'static [u8], u32, u8, Verdict, u32, Why, u8);

#[rattlefmt::skip]
pub static WORKED: [Row; 38] = [
    ("", &Z15, 0, 0, Pass, 0, Reached, 0),
    ("", &Z14, 0, 0, Pass, 0, Short, 0),
    ("7201", &Z15, 0, 0, Drop, 1, Reached, 0),
    ("70", &Z15, 0, 0, Pass, 1, Reached, 0),
    ("7202", &Z15, 0, 0, Pass, 1, Fault { kind: Place, at: 4 }, 0),
    ("76fffffffb", &Z15, 0, 0, Pass, 5, Budget, 0),
    ("b2fc7a0107", &Z15, 0, 7, Drop, 2, Reached, 7),
    ("b2fc7a0107", &Z15, 0, 8, Pass, 2, Reached, 8),
    ("b280", &Z15, 0, 0, Pass, 1, Reached, 0),
    ("b4ff7c", &Z15, 0, 0, Pass, 0, Fault { kind: Memory, at: 0 }, 0),
    ("48", &Z15, 0, 0, Pass, 0, Fault { kind: Division, at: 0 }, 0),
    ("6a0162207a0100", &Z15, 0, 0, Drop, 3, Reached, 0),
    ("6aff62e07a0100", &Z15, 0, 0, Drop, 3, Reached, 0),
    ("6a01621f7e0000000180000000", &Z15, 0, 0, Drop, 3, Reached, 0),
    ("6bfe220e7a0155", &WITH_55, 0, 0, Drop, 3, Reached, 0),
    ("0a0f", &Z15, 0, 0, Pass, 0, Fault { kind: Frame, at: 0 }, 0),
    ("a201020001", &COUNTING, 0, 0, Pass, 1, Reached, 0),
    ("a201020002", &COUNTING, 0, 0, Drop, 1, Reached, 0),
    ("a20100", &COUNTING, 0, 0, Pass, 0, Fault { kind: Compare, at: 0 }, 0),
    ("a3010100", &COUNTING, 0, 0, Pass, 0, Fault { kind: Compare, at: 0 }, 0),
    ("a2010300", &COUNTING, 0, 0, Pass, 0, Fault { kind: Cut, at: 0 }, 0),
    ("aa24", &COUNTING, 0, 0, Pass, 0, Fault { kind: Extended, at: 0 }, 0),
    ("00", &COUNTING, 0, 0, Pass, 0, Fault { kind: Opcode, at: 0 }, 0),
    ("c0", &COUNTING, 0, 0, Pass, 0, Fault { kind: Opcode, at: 0 }, 0),
    ("aa0d7a0118", &WITH_46, 0, 0, Drop, 2, Reached, 0),
    ("aa0d7a0118", &WITH_66, 0, 0, Pass, 2, Reached, 0),
    ("aa0f8a010a", &Z15, 10, 0, Pass, 2, Reached, 0),
    ("aa0f8a010a", &Z15, 11, 0, Drop, 2, Reached, 0),
    ("6a05aa2372010a", &Z15, 0, 0, Pass, 3, Reached, 0),
    ("b6ffffffff", &Z15, 0, 0, Pass, 0, Fault { kind: Memory, at: 0 }, 0),
    ("7efffffff700000000", &Z15, 0, 0, Pass, 9, Budget, 0),
    ("76ffffffff", &Z15, 0, 0, Pass, 1, Fault { kind: Opcode, at: 4 }, 0),
    ("72ff", &Z15, 0, 0, Pass, 1, Fault { kind: Place, at: 257 }, 0),
    ("ba00", &Z15, 0, 0, Pass, 0, Fault { kind: Memory, at: 0 }, 0),
    ("a4", &Z15, 0, 0, Pass, 0, Fault { kind: Cut, at: 0 }, 0),
    ("b2fc3a01bafc", &Z15, 0, 0, Pass, 3, Reached, 1),
    ("6a2abafc48", &Z15, 0, 0, Pass, 2, Fault { kind: Division, at: 4 }, 42),
    ("3a0196fffffff5000000077201", &Z15, 0, 0, Pass, 13, Budget, 0),
];
