//! The examples that `docs/MACHINE.md` prints: a program, and what it comes to on its frame and memory.

#[rattlefmt::skip]
pub const EXAMPLES: &str = "\
0a0e | R0 = 00000046
120c | R0 = 00000800
1a10 | R0 = f1e2d3c4
6bfe 220e | R0 = 00000008
6b02 2a0e | R0 = 0000f1e2
6bf2 320e | R0 = 02000000
6a05 3a03 | R0 = 00000008
6a05 4203 | R0 = 0000000f
6a11 4a05 | R0 = 00000003
6a0f 5236 | R0 = 00000006
6a09 5a06 | R0 = 0000000f
6a01 6204 | R0 = 00000010
6afe | R0 = fffffffe
7201 | drop
6a05 7a0105 | drop
6a05 820105 | pass
6a05 8a0104 | drop
6a05 920105 | pass
6a05 9a0104 | drop
6a0c a201020806 | drop
aa0e | R0 = 00000014
b2fc | R0 = ccddeeff
6a2a bafc 68 b2fc | R0 = 0000002a
ab0e | R1 = 00000014
6a05 aa10 ab00 | R1 = 00000005
6a05 aa20 | R0 = fffffffa
6a05 aa21 | R0 = fffffffb
6a05 aa22 | R1 = 00000005
6a05 ab23 | R1 = 00000005
aa24 | fault Extended
aa0b | R0 = 00000002
aa0c | R0 = 00000012
aa0d | R0 = 00000018
aa0f | R0 = 00000007
b2f0 | R0 = 00112233
6b03 b0 | R0 = 00112233
6a80 | R0 = ffffff80
6c0080 | R0 = 00000080
6e00000080 | R0 = 00000080
0a14 | fault Frame
48 | fault Division
00 | fault Opcode
0a | fault Cut
b2fd | fault Memory
a20100 | fault Compare
7202 | fault Place
70 | pass
";
