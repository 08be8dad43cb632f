//! Every opcode at each width and with each register bit, on one frame and one memory.

#[rattlefmt::skip]
pub const FRAME: [u8; 20] = [
    0x02, 0x00, 0x00, 0x00, 0x00, 0x01, // destination
    0x02, 0x00, 0x00, 0x00, 0x00, 0x99, // source
    0x08, 0x00,                         // EtherType: IPv4
    0x46, 0x00,                         // version 4, a header of 24 bytes
    0xf1, 0xe2, 0xd3, 0xc4,
];

#[rattlefmt::skip]
pub const MEMORY: [u8; 16] = [
    0x00, 0x11, 0x22, 0x33,
    0x44, 0x55, 0x66, 0x77,
    0x88, 0x99, 0xaa, 0xbb,
    0xcc, 0xdd, 0xee, 0xff,
];

pub const AGE: u32 = 7;

/// How the run ends and after how many steps, a fault also at which place; the program; what is tried.
///
/// A program that ends in `drop` drops the frame only where the result is right: `7e00000001` and four
/// bytes jump to Drop where R0 is their number, after `aa23` where R1 is. `7201` at the end drops what
/// comes to it.
#[rattlefmt::skip]
pub const ROWS: &str = "\
drop 2 | 08 7e0000000100000002 | ldb.0 r0 0
drop 3 | 09 aa23 7e0000000100000002 | ldb.0 r1 0
drop 2 | 0a13 7e00000001000000c4 | ldb.1 r0 19
drop 3 | 0b13 aa23 7e00000001000000c4 | ldb.1 r1 19
drop 2 | 0c000e 7e0000000100000046 | ldb.2 r0 14
drop 3 | 0d000e aa23 7e0000000100000046 | ldb.2 r1 14
drop 2 | 0e0000000c 7e0000000100000008 | ldb.4 r0 12
drop 3 | 0f0000000c aa23 7e0000000100000008 | ldb.4 r1 12
drop 2 | 10 7e0000000100000200 | ldh.0 r0 0
drop 3 | 11 aa23 7e0000000100000200 | ldh.0 r1 0
drop 2 | 1212 7e000000010000d3c4 | ldh.1 r0 18
drop 3 | 1312 aa23 7e000000010000d3c4 | ldh.1 r1 18
drop 2 | 14000e 7e0000000100004600 | ldh.2 r0 14
drop 3 | 15000e aa23 7e0000000100004600 | ldh.2 r1 14
drop 2 | 160000000c 7e0000000100000800 | ldh.4 r0 12
drop 3 | 170000000c aa23 7e0000000100000800 | ldh.4 r1 12
drop 2 | 18 7e0000000102000000 | ldw.0 r0 0
drop 3 | 19 aa23 7e0000000102000000 | ldw.0 r1 0
drop 2 | 1a10 7e00000001f1e2d3c4 | ldw.1 r0 16
drop 3 | 1b10 aa23 7e00000001f1e2d3c4 | ldw.1 r1 16
drop 2 | 1c000e 7e000000014600f1e2 | ldw.2 r0 14
drop 3 | 1d000e aa23 7e000000014600f1e2 | ldw.2 r1 14
drop 2 | 1e0000000c 7e0000000108004600 | ldw.4 r0 12
drop 3 | 1f0000000c aa23 7e0000000108004600 | ldw.4 r1 12
frame 0 0 | 0a14 | ldb.1 r0 past the end
frame 0 0 | 0d0100 | ldb.2 r1 past the end
frame 0 0 | 0effffffff | ldb.4 r0 past the end
frame 0 0 | 1213 | ldh.1 r0 past the end
frame 0 0 | 150100 | ldh.2 r1 past the end
frame 0 0 | 16ffffffff | ldh.4 r0 past the end
frame 0 0 | 1a11 | ldw.1 r0 past the end
frame 0 0 | 1d0100 | ldw.2 r1 past the end
frame 0 0 | 1effffffff | ldw.4 r0 past the end
drop 3 | 6f00000013 20 7e00000001000000c4 | ldbx.0 r0 0 at 19
drop 4 | 6f00000013 21 aa23 7e00000001000000c4 | ldbx.0 r1 0 at 19
drop 3 | 6ffffffffe 220e 7e0000000100000008 | ldbx.1 r0 14 at -2
drop 4 | 6ffffffffe 230e aa23 7e0000000100000008 | ldbx.1 r1 14 at -2
drop 3 | 6fffffff00 240100 7e0000000100000002 | ldbx.2 r0 256 at -256
drop 4 | 6fffffff00 250100 aa23 7e0000000100000002 | ldbx.2 r1 256 at -256
drop 3 | 6f00000014 26ffffffff 7e00000001000000c4 | ldbx.4 r0 -1 at 20
drop 4 | 6f00000014 27ffffffff aa23 7e00000001000000c4 | ldbx.4 r1 -1 at 20
drop 3 | 6f00000012 28 7e000000010000d3c4 | ldhx.0 r0 0 at 18
drop 4 | 6f00000012 29 aa23 7e000000010000d3c4 | ldhx.0 r1 0 at 18
drop 3 | 6ffffffffe 2a0e 7e0000000100000800 | ldhx.1 r0 14 at -2
drop 4 | 6ffffffffe 2b0e aa23 7e0000000100000800 | ldhx.1 r1 14 at -2
drop 3 | 6fffffff00 2c0100 7e0000000100000200 | ldhx.2 r0 256 at -256
drop 4 | 6fffffff00 2d0100 aa23 7e0000000100000200 | ldhx.2 r1 256 at -256
drop 3 | 6f00000013 2effffffff 7e000000010000d3c4 | ldhx.4 r0 -1 at 19
drop 4 | 6f00000013 2fffffffff aa23 7e000000010000d3c4 | ldhx.4 r1 -1 at 19
drop 3 | 6f00000010 30 7e00000001f1e2d3c4 | ldwx.0 r0 0 at 16
drop 4 | 6f00000010 31 aa23 7e00000001f1e2d3c4 | ldwx.0 r1 0 at 16
drop 3 | 6ffffffffe 320e 7e0000000108004600 | ldwx.1 r0 14 at -2
drop 4 | 6ffffffffe 330e aa23 7e0000000108004600 | ldwx.1 r1 14 at -2
drop 3 | 6fffffff00 340100 7e0000000102000000 | ldwx.2 r0 256 at -256
drop 4 | 6fffffff00 350100 aa23 7e0000000102000000 | ldwx.2 r1 256 at -256
drop 3 | 6f00000011 36ffffffff 7e00000001f1e2d3c4 | ldwx.4 r0 -1 at 17
drop 4 | 6f00000011 37ffffffff aa23 7e00000001f1e2d3c4 | ldwx.4 r1 -1 at 17
frame 1 5 | 6f00000014 21 | ldbx.0 r1 past the end
frame 1 5 | 6f00000013 2201 | ldbx.1 r0 past the end
frame 1 5 | 6ffffffffe 250001 | ldbx.2 r1 past the end
frame 1 5 | 6f00000001 26fffffffe | ldbx.4 r0 past the end
frame 1 5 | 6f00000013 29 | ldhx.0 r1 past the end
frame 1 5 | 6f00000012 2a01 | ldhx.1 r0 past the end
frame 1 5 | 6ffffffffe 2d0001 | ldhx.2 r1 past the end
frame 1 5 | 6f00000001 2efffffffe | ldhx.4 r0 past the end
frame 1 5 | 6f00000011 31 | ldwx.0 r1 past the end
frame 1 5 | 6f00000010 3201 | ldwx.1 r0 past the end
frame 1 5 | 6ffffffffe 350001 | ldwx.2 r1 past the end
frame 1 5 | 6f00000001 36fffffffe | ldwx.4 r0 past the end
drop 3 | 6ef00d5eed 38 7e00000001f00d5eed | add.0 r0 0
drop 4 | 6ef00d5eed 6f00c0ffee 39 7e00000001f0ce5edb | add.0 r1
drop 3 | 6ef00d5eed 3ac8 7e00000001f00d5fb5 | add.1 r0 200
drop 4 | 6ef00d5eed 6f00c0ffee 3bc8 7e00000001f0ce5edb | add.1 r1
drop 3 | 6ef00d5eed 3c8421 7e00000001f00de30e | add.2 r0 33825
drop 4 | 6ef00d5eed 6f00c0ffee 3d8421 7e00000001f0ce5edb | add.2 r1
drop 3 | 6ef00d5eed 3efedcba98 7e00000001eeea1985 | add.4 r0 4275878552
drop 4 | 6ef00d5eed 6f00c0ffee 3ffedcba98 7e00000001f0ce5edb | add.4 r1
drop 3 | 6ef00d5eed 40 7e0000000100000000 | mul.0 r0 0
drop 4 | 6ef00d5eed 6f00c0ffee 41 7e00000001afbc5356 | mul.0 r1
drop 3 | 6ef00d5eed 42c8 7e000000018a722928 | mul.1 r0 200
drop 4 | 6ef00d5eed 6f00c0ffee 43c8 7e00000001afbc5356 | mul.1 r1
drop 3 | 6ef00d5eed 448421 7e00000001d6ab708d | mul.2 r0 33825
drop 4 | 6ef00d5eed 6f00c0ffee 458421 7e00000001afbc5356 | mul.2 r1
drop 3 | 6ef00d5eed 46fedcba98 7e00000001f8948eb8 | mul.4 r0 4275878552
drop 4 | 6ef00d5eed 6f00c0ffee 47fedcba98 7e00000001afbc5356 | mul.4 r1
drop 4 | 6ef00d5eed 6f00c0ffee 49 7e000000010000013e | div.0 r1
drop 3 | 6ef00d5eed 4ac8 7e0000000101334450 | div.1 r0 200
drop 4 | 6ef00d5eed 6f00c0ffee 4bc8 7e000000010000013e | div.1 r1
drop 3 | 6ef00d5eed 4c8421 7e000000010001d11a | div.2 r0 33825
drop 4 | 6ef00d5eed 6f00c0ffee 4d8421 7e000000010000013e | div.2 r1
drop 3 | 6ef00d5eed 4efedcba98 7e0000000100000000 | div.4 r0 4275878552
drop 4 | 6ef00d5eed 6f00c0ffee 4ffedcba98 7e000000010000013e | div.4 r1
drop 3 | 6ef00d5eed 50 7e0000000100000000 | and.0 r0 0
drop 4 | 6ef00d5eed 6f00c0ffee 51 7e0000000100005eec | and.0 r1
drop 3 | 6ef00d5eed 52c8 7e00000001000000c8 | and.1 r0 200
drop 4 | 6ef00d5eed 6f00c0ffee 53c8 7e0000000100005eec | and.1 r1
drop 3 | 6ef00d5eed 548421 7e0000000100000421 | and.2 r0 33825
drop 4 | 6ef00d5eed 6f00c0ffee 558421 7e0000000100005eec | and.2 r1
drop 3 | 6ef00d5eed 56fedcba98 7e00000001f00c1a88 | and.4 r0 4275878552
drop 4 | 6ef00d5eed 6f00c0ffee 57fedcba98 7e0000000100005eec | and.4 r1
drop 3 | 6ef00d5eed 58 7e00000001f00d5eed | or.0 r0 0
drop 4 | 6ef00d5eed 6f00c0ffee 59 7e00000001f0cdffef | or.0 r1
drop 3 | 6ef00d5eed 5ac8 7e00000001f00d5eed | or.1 r0 200
drop 4 | 6ef00d5eed 6f00c0ffee 5bc8 7e00000001f0cdffef | or.1 r1
drop 3 | 6ef00d5eed 5c8421 7e00000001f00ddeed | or.2 r0 33825
drop 4 | 6ef00d5eed 6f00c0ffee 5d8421 7e00000001f0cdffef | or.2 r1
drop 3 | 6ef00d5eed 5efedcba98 7e00000001feddfefd | or.4 r0 4275878552
drop 4 | 6ef00d5eed 6f00c0ffee 5ffedcba98 7e00000001f0cdffef | or.4 r1
division 1 5 | 6ef00d5eed 48 | div.0 r0
division 1 5 | 6ef00d5eed 49 | div.0 r1 of R1 = 0
division 1 5 | 6ef00d5eed 4bc8 | div.1 r1 of R1 = 0
division 1 5 | 6ef00d5eed 4d8421 | div.2 r1 of R1 = 0
division 1 5 | 6ef00d5eed 4ffedcba98 | div.4 r1 of R1 = 0
division 0 0 | 4e00000000 | div.4 r0 0
drop 3 | 6ef00d5eed 60 7e00000001f00d5eed | sh.0 r0 0
drop 3 | 6ef00d5eed 6201 7e00000001e01abdda | sh.1 r0 1
drop 3 | 6ef00d5eed 621f 7e0000000180000000 | sh.1 r0 31
drop 3 | 6ef00d5eed 6220 7e0000000100000000 | sh.1 r0 32
drop 3 | 6ef00d5eed 627f 7e0000000100000000 | sh.1 r0 127
drop 3 | 6ef00d5eed 62ff 7e000000017806af76 | sh.1 r0 -1
drop 3 | 6ef00d5eed 62e1 7e0000000100000001 | sh.1 r0 -31
drop 3 | 6ef00d5eed 62e0 7e0000000100000000 | sh.1 r0 -32
drop 3 | 6ef00d5eed 6280 7e0000000100000000 | sh.1 r0 -128
drop 3 | 6ef00d5eed 640004 7e0000000100d5eed0 | sh.2 r0 4
drop 3 | 6ef00d5eed 64fffc 7e000000010f00d5ee | sh.2 r0 -4
drop 3 | 6ef00d5eed 640100 7e0000000100000000 | sh.2 r0 256
drop 3 | 6ef00d5eed 648000 7e0000000100000000 | sh.2 r0 -32768
drop 3 | 6ef00d5eed 660000001f 7e0000000180000000 | sh.4 r0 31
drop 3 | 6ef00d5eed 6600000020 7e0000000100000000 | sh.4 r0 32
drop 3 | 6ef00d5eed 66ffffffe1 7e0000000100000001 | sh.4 r0 -31
drop 3 | 6ef00d5eed 66ffffffe0 7e0000000100000000 | sh.4 r0 -32
drop 3 | 6ef00d5eed 6680000000 7e0000000100000000 | sh.4 r0 -2147483648
drop 4 | 6ef00d5eed 6f0000001f 61 7e0000000180000000 | sh.0 r1 by 31
drop 4 | 6ef00d5eed 6f00000020 6305 7e0000000100000000 | sh.1 r1 by 32
drop 4 | 6ef00d5eed 6fffffffe1 650005 7e0000000100000001 | sh.2 r1 by -31
drop 4 | 6ef00d5eed 6fffffffe0 6700000005 7e0000000100000000 | sh.4 r1 by -32
drop 4 | 6ef00d5eed 6f80000000 61 7e0000000100000000 | sh.0 r1 by -2147483648
drop 4 | 6ef00d5eed 6f00000000 6305 7e00000001f00d5eed | sh.1 r1 by 0
drop 4 | 6ef00d5eed 6f7fffffff 650005 7e0000000100000000 | sh.2 r1 by 2147483647
drop 4 | 6ef00d5eed 6f00000004 6700000005 7e0000000100d5eed0 | sh.4 r1 by 4
drop 3 | 6e00000009 68 7e0000000100000000 | li.0 r0 0
drop 4 | 6f00000009 69 aa23 7e0000000100000000 | li.0 r1 0
drop 3 | 6e00000009 6a7f 7e000000010000007f | li.1 r0 127
drop 3 | 6e00000009 6a80 7e00000001ffffff80 | li.1 r0 -128
drop 4 | 6f00000009 6b7f aa23 7e000000010000007f | li.1 r1 127
drop 4 | 6f00000009 6b80 aa23 7e00000001ffffff80 | li.1 r1 -128
drop 3 | 6e00000009 6c7fff 7e0000000100007fff | li.2 r0 32767
drop 3 | 6e00000009 6c8000 7e00000001ffff8000 | li.2 r0 -32768
drop 4 | 6f00000009 6d7fff aa23 7e0000000100007fff | li.2 r1 32767
drop 4 | 6f00000009 6d8000 aa23 7e00000001ffff8000 | li.2 r1 -32768
drop 3 | 6e00000009 6e7fffffff 7e000000017fffffff | li.4 r0 2147483647
drop 3 | 6e00000009 6e80000000 7e0000000180000000 | li.4 r0 -2147483648
drop 4 | 6f00000009 6f7fffffff aa23 7e000000017fffffff | li.4 r1 2147483647
drop 4 | 6f00000009 6f80000000 aa23 7e0000000180000000 | li.4 r1 -2147483648
drop 2 | 70 7201 | jmp.0 r0 0
drop 2 | 71 7201 | jmp.0 r1 0
drop 2 | 7203 000000 7201 | jmp.1 r0 3
drop 2 | 7303 000000 7201 | jmp.1 r1 3
drop 2 | 740003 000000 7201 | jmp.2 r0 3
drop 2 | 750003 000000 7201 | jmp.2 r1 3
drop 2 | 7600000003 000000 7201 | jmp.4 r0 3
drop 2 | 7700000003 000000 7201 | jmp.4 r1 3
drop 3 | 7205 7600000006 76fffffff6 | jmp.4 r0 back
drop 2 | 78 7201 | jeq.0 r0
drop 2 | 79 7201 | jeq.0 r1
drop 2 | 6e000000c8 7a01c8 | jeq.1 r0, taken
drop 3 | 6e000000c8 7a02c9 7201 | jeq.1 r0, not taken
drop 3 | 6e000000c8 6f000000c8 7b01 | jeq.1 r1, taken
drop 4 | 6e000000c8 6f000000c9 7b02 7201 | jeq.1 r1, not taken
drop 2 | 6e00009c40 7c00019c40 | jeq.2 r0, taken
drop 3 | 6e00009c3f 7c00029c40 7201 | jeq.2 r0, not taken
drop 3 | 6e00009c40 6f00009c40 7d0001 | jeq.2 r1, taken
drop 4 | 6e00009c3f 6f00009c40 7d0002 7201 | jeq.2 r1, not taken
drop 2 | 6e80000000 7e0000000180000000 | jeq.4 r0, taken
drop 3 | 6e00000000 7e0000000280000000 7201 | jeq.4 r0, not taken
drop 3 | 6e80000000 6f80000000 7f00000001 | jeq.4 r1, taken
drop 4 | 6e00000000 6f80000000 7f00000002 7201 | jeq.4 r1, not taken
drop 2 | 80 7201 | jne.0 r0
drop 2 | 81 7201 | jne.0 r1
drop 2 | 6e000000c8 8201c9 | jne.1 r0, taken
drop 3 | 6e000000c8 8202c8 7201 | jne.1 r0, not taken
drop 3 | 6e000000c8 6f000000c9 8301 | jne.1 r1, taken
drop 4 | 6e000000c8 6f000000c8 8302 7201 | jne.1 r1, not taken
drop 2 | 6e00009c3f 8400019c40 | jne.2 r0, taken
drop 3 | 6e00009c40 8400029c40 7201 | jne.2 r0, not taken
drop 3 | 6e00009c3f 6f00009c40 850001 | jne.2 r1, taken
drop 4 | 6e00009c40 6f00009c40 850002 7201 | jne.2 r1, not taken
drop 2 | 6e00000000 860000000180000000 | jne.4 r0, taken
drop 3 | 6e80000000 860000000280000000 7201 | jne.4 r0, not taken
drop 3 | 6e00000000 6f80000000 8700000001 | jne.4 r1, taken
drop 4 | 6e80000000 6f80000000 8700000002 7201 | jne.4 r1, not taken
drop 2 | 88 7201 | jgt.0 r0
drop 2 | 89 7201 | jgt.0 r1
drop 2 | 6e000000c9 8a01c8 | jgt.1 r0, taken
drop 3 | 6e000000c8 8a02c8 7201 | jgt.1 r0, not taken
drop 3 | 6e000000c9 6f000000c8 8b01 | jgt.1 r1, taken
drop 4 | 6e000000c8 6f000000c8 8b02 7201 | jgt.1 r1, not taken
drop 2 | 6e00009c41 8c00019c40 | jgt.2 r0, taken
drop 3 | 6e00009c3f 8c00029c40 7201 | jgt.2 r0, not taken
drop 3 | 6e00009c41 6f00009c40 8d0001 | jgt.2 r1, taken
drop 4 | 6e00009c3f 6f00009c40 8d0002 7201 | jgt.2 r1, not taken
drop 2 | 6e80000000 8e000000017fffffff | jgt.4 r0, taken
drop 3 | 6e7fffffff 8e0000000280000000 7201 | jgt.4 r0, not taken
drop 3 | 6e80000000 6f7fffffff 8f00000001 | jgt.4 r1, taken
drop 4 | 6e7fffffff 6f80000000 8f00000002 7201 | jgt.4 r1, not taken
drop 2 | 90 7201 | jlt.0 r0
drop 2 | 91 7201 | jlt.0 r1
drop 2 | 6e000000c7 9201c8 | jlt.1 r0, taken
drop 3 | 6e000000c8 9202c8 7201 | jlt.1 r0, not taken
drop 3 | 6e000000c7 6f000000c8 9301 | jlt.1 r1, taken
drop 4 | 6e000000c8 6f000000c8 9302 7201 | jlt.1 r1, not taken
drop 2 | 6e00009c3f 9400019c40 | jlt.2 r0, taken
drop 3 | 6e00009c41 9400029c40 7201 | jlt.2 r0, not taken
drop 3 | 6e00009c3f 6f00009c40 950001 | jlt.2 r1, taken
drop 4 | 6e00009c41 6f00009c40 950002 7201 | jlt.2 r1, not taken
drop 2 | 6e7fffffff 960000000180000000 | jlt.4 r0, taken
drop 3 | 6e80000000 96000000027fffffff 7201 | jlt.4 r0, not taken
drop 3 | 6e7fffffff 6f80000000 9700000001 | jlt.4 r1, taken
drop 4 | 6e80000000 6f7fffffff 9700000002 7201 | jlt.4 r1, not taken
drop 2 | 98 7201 | jset.0 r0
drop 2 | 99 7201 | jset.0 r1
drop 2 | 6e00000081 9a0180 | jset.1 r0, taken
drop 3 | 6e0000007f 9a0280 7201 | jset.1 r0, not taken
drop 3 | 6e00000081 6f00000080 9b01 | jset.1 r1, taken
drop 4 | 6e0000007f 6f00000080 9b02 7201 | jset.1 r1, not taken
drop 2 | 6e00008000 9c0001ffff | jset.2 r0, taken
drop 3 | 6effff0000 9c0002ffff 7201 | jset.2 r0, not taken
drop 3 | 6e00008000 6f0000ffff 9d0001 | jset.2 r1, taken
drop 4 | 6effff0000 6f0000ffff 9d0002 7201 | jset.2 r1, not taken
drop 2 | 6effffffff 9e0000000180000000 | jset.4 r0, taken
drop 3 | 6e7fffffff 9e0000000280000000 7201 | jset.4 r0, not taken
drop 3 | 6effffffff 6f80000000 9f00000001 | jset.4 r1, taken
drop 4 | 6e7fffffff 6f80000000 9f00000002 7201 | jset.4 r1, not taken
drop 3 | 6effffffff 9b02 7201 | jset.1 r1 of R1 = 0, not taken
place 1 4 | 7202 | jmp.1 r0 two past
place 1 5 | 740002 | jmp.2 r0 two past
place 1 7 | 7600000002 | jmp.4 r0 two past
place 1 4 | 7302 | jmp.1 r1 two past
place 1 5 | 750002 | jmp.2 r1 two past
place 1 7 | 7700000002 | jmp.4 r1 two past
place 2 16 | 6e80000000 7e0000000280000000 | jeq.4 r0 two past
place 2 16 | 6e00000000 860000000280000000 | jne.4 r0 two past
place 2 16 | 6e80000000 8e000000027fffffff | jgt.4 r0 two past
place 2 16 | 6e7fffffff 960000000280000000 | jlt.4 r0 two past
place 2 16 | 6effffffff 9e0000000280000000 | jset.4 r0 two past
drop 3 | 6e0000000e a202034600f1 7201 | jnebs.1 r0, equal
drop 2 | 6e0000000e a201034600f0 | jnebs.1 r0, others
drop 3 | 6e0000000e a4000200034600f1 7201 | jnebs.2 r0, equal
drop 2 | 6e0000000e a4000100034600f0 | jnebs.2 r0, others
drop 3 | 6e0000000e a600000002000000034600f1 7201 | jnebs.4 r0, equal
drop 2 | 6e0000000e a600000001000000034600f0 | jnebs.4 r0, others
drop 3 | 6e00000012 a20202d3c4 7201 | jnebs.1 r0 to the last byte
drop 2 | a2021402000000000102000000009908004600f1e2d3c4 7201 | jnebs.1 r0, all of the frame
compare 0 0 | a20100 | jnebs.1 r0, no bytes
compare 0 0 | a3010102 | jnebs.1 r1
compare 0 0 | a400010000 | jnebs.2 r0, no bytes
compare 0 0 | a50001000102 | jnebs.2 r1
compare 0 0 | a60000000100000000 | jnebs.4 r0, no bytes
compare 0 0 | a7000000010000000102 | jnebs.4 r1
compare 0 0 | a0 | jnebs.0 r0
compare 0 0 | a1 | jnebs.0 r1
frame 1 5 | 6e00000013 a20102c400 | jnebs.1 r0 past the end
frame 1 5 | 6effffffff a2010100 | jnebs.1 r0 past all
compare 1 5 | 6effffffff a20100 | jnebs.1 r0, no bytes past all
drop 3 | 6e00000009 a8 7e0000000100000000 | ext.0 r0 0
drop 4 | 6f00000009 a9 aa23 7e0000000100000000 | ext.0 r1 0
drop 2 | aa00 7e0000000100000000 | ext.1 r0 0
drop 3 | ab00 aa23 7e0000000100000000 | ext.1 r1 0
drop 2 | aa0a 7e0000000100000000 | ext.1 r0 10
drop 2 | aa0b 7e000000010000000b | ext.1 r0 11
drop 2 | aa0c 7e000000010000001b | ext.1 r0 12
drop 2 | aa0d 7e0000000100000018 | ext.1 r0 13
drop 2 | aa0e 7e0000000100000014 | ext.1 r0 14
drop 3 | ab0e aa23 7e0000000100000014 | ext.1 r1 14
drop 2 | aa0f 7e0000000100000007 | ext.1 r0 15
drop 3 | ab0f aa23 7e0000000100000007 | ext.1 r1 15
drop 4 | 6ef00d5eed aa10 aa00 7e00000001f00d5eed | ext.1 r0 16
drop 4 | 6ff00d5eed ab1f aa0f 7e00000001f00d5eed | ext.1 r1 31
drop 4 | 6ef00d5eed ac001f aa0f 7e00000001f00d5eed | ext.2 r0 31
drop 4 | 6ff00d5eed ad0010 aa00 7e00000001f00d5eed | ext.2 r1 16
drop 4 | 6ef00d5eed ae0000001d aa0d 7e00000001f00d5eed | ext.4 r0 29
drop 4 | 6ff00d5eed af0000001d aa0d 7e00000001f00d5eed | ext.4 r1 29
drop 3 | 6ef00d5eed aa20 7e000000010ff2a112 | ext.1 r0 32
drop 4 | 6ff00d5eed ab20 aa23 7e000000010ff2a112 | ext.1 r1 32
drop 3 | 6ef00d5eed ac0021 7e000000010ff2a113 | ext.2 r0 33
drop 4 | 6ff00d5eed ad0021 aa23 7e000000010ff2a113 | ext.2 r1 33
drop 3 | 6ef00d5eed ae00000020 7e000000010ff2a112 | ext.4 r0 32
drop 4 | 6ff00d5eed af00000020 aa23 7e000000010ff2a112 | ext.4 r1 32
drop 3 | 6ef00d5eed aa21 7e000000010ff2a113 | ext.1 r0 33
drop 4 | 6ff00d5eed ab21 aa23 7e000000010ff2a113 | ext.1 r1 33
drop 2 | aa21 7e0000000100000000 | ext.1 r0 33 of 0
drop 4 | 6ef00d5eed 6f00c0ffee aa22 7e0000000100c0ffee | ext.1 r0 34, R0
drop 5 | 6ef00d5eed 6f00c0ffee aa22 aa23 7e00000001f00d5eed | ext.1 r0 34, R1
drop 4 | 6ef00d5eed 6f00c0ffee ad0022 7e0000000100c0ffee | ext.2 r1 34, R0
drop 5 | 6ef00d5eed 6f00c0ffee ad0022 aa23 7e00000001f00d5eed | ext.2 r1 34, R1
drop 4 | 6ef00d5eed 6f00c0ffee ae00000022 7e0000000100c0ffee | ext.4 r0 34, R0
drop 5 | 6ef00d5eed 6f00c0ffee ae00000022 aa23 7e00000001f00d5eed | ext.4 r0 34, R1
drop 4 | 6ef00d5eed 6f00c0ffee aa23 7e0000000100c0ffee | ext.1 r0 35
drop 5 | 6ef00d5eed 6f00c0ffee ab23 aa23 7e00000001f00d5eed | ext.1 r1 35
drop 4 | 6ef00d5eed 6f00c0ffee ac0023 7e0000000100c0ffee | ext.2 r0 35
drop 5 | 6ef00d5eed 6f00c0ffee ad0023 aa23 7e00000001f00d5eed | ext.2 r1 35
drop 4 | 6ef00d5eed 6f00c0ffee ae00000023 7e0000000100c0ffee | ext.4 r0 35
drop 5 | 6ef00d5eed 6f00c0ffee af00000023 aa23 7e00000001f00d5eed | ext.4 r1 35
extended 0 0 | ab24 | ext.1 r1 36
extended 0 0 | abff | ext.1 r1 255
extended 0 0 | ac0024 | ext.2 r0 36
extended 0 0 | ac0110 | ext.2 r0 272
extended 0 0 | ae00000024 | ext.4 r0 36
extended 0 0 | aeffffffff | ext.4 r0 4294967295
drop 2 | b2fc 7e00000001ccddeeff | lddw.1 r0 -4
drop 3 | b3fc aa23 7e00000001ccddeeff | lddw.1 r1 -4
drop 2 | b4fff0 7e0000000100112233 | lddw.2 r0 -16
drop 3 | b5fff0 aa23 7e0000000100112233 | lddw.2 r1 -16
drop 2 | b6fffffff9 7e0000000199aabbcc | lddw.4 r0 -7
drop 3 | b7fffffff9 aa23 7e0000000199aabbcc | lddw.4 r1 -7
drop 3 | 6f0000000f b0 7e0000000100112233 | lddw.0 r0 the first
drop 3 | 6f0000001b b0 7e00000001ccddeeff | lddw.0 r0 the last
drop 3 | 6fffffffff b600000014 7e0000000100112233 | lddw.4 r0 over 2^32
drop 3 | 6ffffffff8 b2fc 7e0000000144556677 | lddw.1 r0 of a negative register
drop 4 | 6e00000011 b1 aa23 7e0000000100112233 | lddw.0 r1 the first
drop 4 | 6e0000001d b1 aa23 7e00000001ccddeeff | lddw.0 r1 the last
drop 4 | 6effffffff b700000016 aa23 7e0000000100112233 | lddw.4 r1 over 2^32
drop 4 | 6efffffff8 b3fc aa23 7e0000000144556677 | lddw.1 r1 of a negative register
drop 4 | 6e01020304 bafc b2fc 7e0000000101020304 | stdw.1 r0 -4
drop 5 | 6f01020304 bbfc 6f00000000 b2fc 7e0000000101020304 | stdw.1 r1 -4
drop 4 | 6e01020304 bcfff0 b2f0 7e0000000101020304 | stdw.2 r0 -16
drop 5 | 6f01020304 bdfff0 6f00000000 b2f0 7e0000000101020304 | stdw.2 r1 -16
drop 4 | 6e01020304 befffffff9 b2f9 7e0000000101020304 | stdw.4 r0 -7
drop 5 | 6f01020304 bffffffff9 6f00000000 b2f9 7e0000000101020304 | stdw.4 r1 -7
drop 6 | 6e01020304 6f0000001b b8 6f00000000 b2f0 7e0000000101020304 | stdw.0 r0 the first
drop 6 | 6e01020304 6f00000027 b8 6f00000000 b2fc 7e0000000101020304 | stdw.0 r0 the last
drop 6 | 6f01020304 6e0000001b b9 6f00000000 b2f0 7e0000000101020304 | stdw.0 r1 the first
drop 6 | 6f01020304 6e00000027 b9 6f00000000 b2fc 7e0000000101020304 | stdw.0 r1 the last
drop 4 | 6e01020304 baf8 b2f7 7e0000000177010203 | stdw.1 r0, the bytes before
drop 4 | 6e01020304 baf8 b2f9 7e00000001020304cc | stdw.1 r0, the bytes after
memory 1 5 | 6f00000005 b0 | lddw.0 r0 before
memory 1 5 | 6f00000013 b0 | lddw.0 r0 past
memory 1 5 | 6e00000005 b1 | lddw.0 r1 before
memory 1 5 | 6e00000013 b1 | lddw.0 r1 past
memory 0 0 | b2fd | lddw.1 r0 -3
memory 0 0 | b4ffef | lddw.2 r0 -17
memory 0 0 | b6ffffffff | lddw.4 r0 -1
memory 0 0 | b280 | lddw.1 r0 -128
memory 0 0 | b48000 | lddw.2 r0 -32768
memory 0 0 | b67fffffff | lddw.4 r0 2147483647
memory 0 0 | b680000000 | lddw.4 r0 -2147483648
memory 0 0 | bafd | stdw.1 r0 -3
memory 0 0 | bdffef | stdw.2 r1 -17
memory 0 0 | beffffffff | stdw.4 r0 -1
memory 0 0 | bf7fffffff | stdw.4 r1 2147483647
memory 0 0 | be80000000 | stdw.4 r0 -2147483648
memory 0 0 | b8 | stdw.0 r0
memory 0 0 | b9 | stdw.0 r1
drop 13 | 3a01 96fffffff500000006 7201 | the last step of the budget
opcode 0 0 | 00 | no opcode
opcode 0 0 | 07 | no opcode
opcode 0 0 | c0 | no opcode
opcode 0 0 | ff | no opcode
cut 0 0 | 0a | cut in the first immediate
cut 0 0 | 0c00 | cut in the first immediate
cut 0 0 | 0e000000 | cut in the first immediate
cut 0 0 | 7a01 | cut in the second immediate
cut 0 0 | 7c000100 | cut in the second immediate
cut 0 0 | 7e00000001000000 | cut in the second immediate
cut 0 0 | a201 | cut in the count
cut 0 0 | a5000100 | cut in the count
cut 0 0 | a20102ff | cut in the bytes
cut 0 0 | a600000001ffffffffff | cut in the bytes
cut 1 1 | 68 0a | cut at the last place
";
