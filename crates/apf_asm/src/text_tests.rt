//! Lines of each form, and lines with each kind of damage.

use crate::{Item, TextError, TextKind, read_text};
use apf_base::List;
use std::alloc::{AllocError, Global};
use std::process::Abort;
use std::test::Fail;

/// An item in one line: an instruction by opcode, register, width, immediates and bytes, a jump by opcode, register,
/// second immediate, bytes and target.
fn shown(alloc: Global, item: &Item) -> Result<String, AllocError> {
    match item {
        Item::Fixed(f) => {
            let (op, reg, width, imm, second) = (f.op, f.reg, f.width, f.imm, f.second);
            let bytes = f.bytes.as_slice();
            format!(in alloc; "{op:?} {reg} {width} {imm} {second} {bytes:?}")
        }
        Item::Jump(j) => {
            let (op, reg, second, to) = (j.op, j.reg, j.second, j.to);
            let bytes = j.bytes.as_slice();
            format!(in alloc; "{op:?} {reg} {second} {bytes:?} {to:?}")
        }
        Item::Label(n) => format!(in alloc; "label {n}"),
        Item::Byte(b) => format!(in alloc; "byte {b}"),
    }
}

/// Lines of each form, the ends of ranges and widths as they are given. A comment has the item.
const FORMS: &str = "\
L5: ; label 5
ldb r0 12 ; Ldb 0 1 12 0 []
ldh r1 0 ; Ldh 1 0 0 0 []
ldw r0 255 ; Ldw 0 1 255 0 []
ldbx r0 256 ; Ldbx 0 2 256 0 []
ldhx r1 65535 ; Ldhx 1 2 65535 0 []
ldwx r0 65536 ; Ldwx 0 4 65536 0 []
add 5 ; Add 0 1 5 0 []
add r1 ; Add 1 0 0 0 []
mul 0 ; Mul 0 0 0 0 []
div 300 ; Div 0 2 300 0 []
and 4294967295 ; And 0 4 4294967295 0 []
or r1 ; Or 1 0 0 0 []
sh -2 ; Sh 0 1 254 0 []
sh r1 ; Sh 1 0 0 0 []
li r1 -4 ; Li 1 1 252 0 []
lddw r0 -4 ; Lddw 0 1 252 0 []
stdw r0 0 ; Stdw 0 0 0 0 []
ldm r0 15 ; Ext 0 1 15 0 []
ldm r1 0 ; Ext 1 0 0 0 []
stm r0 15 ; Ext 0 1 31 0 []
not r0 ; Ext 0 1 32 0 []
neg r1 ; Ext 1 1 33 0 []
swap ; Ext 0 1 34 0 []
move r0 ; Ext 0 1 35 0 []
jmp L5 ; Jmp 0 0 [] Label(5)
jmp pass ; Jmp 0 0 [] Pass
jeq 17 L5 ; Jeq 0 17 [] Label(5)
jeq r1 drop ; Jeq 1 0 [] Drop
jne 0 pass ; Jne 0 0 [] Pass
jgt 4294967295 L0 ; Jgt 0 4294967295 [] Label(0)
jlt r1 L4294967295 ; Jlt 1 0 [] Label(4294967295)
jset 8 drop ; Jset 0 8 [] Drop
jnebs x0102 L5 ; Jnebs 0 0 [1, 2] Label(5)
jnebs xaf pass ; Jnebs 0 0 [175] Pass
li.1 r0 254 ; Li 0 1 254 0 []
.byte 162 ; byte 162
L0: ; label 0
L4294967295: ; label 4294967295
li r0 0 ; Li 0 0 0 0 []
li r0 127 ; Li 0 1 127 0 []
li r0 128 ; Li 0 2 128 0 []
li r0 -128 ; Li 0 1 128 0 []
li r0 -129 ; Li 0 2 65407 0 []
li r0 32768 ; Li 0 4 32768 0 []
li r0 -32769 ; Li 0 4 4294934527 0 []
li r0 2147483647 ; Li 0 4 2147483647 0 []
li r0 -2147483648 ; Li 0 4 2147483648 0 []
.byte 255 ; byte 255
li.4 r0 1 ; Li 0 4 1 0 []
jmp.1 r1 1 ; Jmp 1 1 1 0 []
jeq.1 r0 5 0 ; Jeq 0 1 5 0 []
jeq.2 r1 5 ; Jeq 1 2 5 0 []
jnebs.1 r1 2 x0102 ; Jnebs 1 1 2 0 [1, 2]
jnebs.0 r0 0 x ; Jnebs 0 0 0 0 []
ext.0 r1 0 ; Ext 1 0 0 0 []

  ; an empty line and one of blanks
   
  li   r1  -4  ;; swap ; Li 1 1 252 0 []
not r0; Ext 0 1 32 0 []
";

/// A program.
const PROGRAM: &str = "\
li r0 5 ; Li 0 1 5 0 []
jeq 5 L1 ; Jeq 0 5 [] Label(1)
li r1 7 ; Li 1 1 7 0 []
L1: ; label 1
jmp drop ; Jmp 0 0 [] Drop";

/// Lines whose first word begins no form.
const WORDS: &str = "\
foo r0
swapp
Swap
LDB r0 12
Ldb r0 12
ext r0 1
byte 1
.bytes 1
.byte.1 1
li. r0 1
li.3 r0 1
li.8 r0 1
li.01 r0 1
foo.1 r0 1
ldm.1 r0 1
L5
L:
L05:
L-1:
L+1:
L4294967296:
L5:L6:
l5:
foo r9
";

/// Lines whose first word begins a form, and that have none.
const OPERANDS: &str = "\
L5: swap
L5: :
ldb
ldb r0
ldb 12 r0
ldb r0 1 2
ldb r2 12
ldb R0 12
ldb r0 012
ldb r0 00
ldb r0 +12
ldb r0 -1
ldb r0 1x
ldb r0 4294967296
ldb r0 18446744073709551617
add
add r0
add R1
add -5
add 5 6
add 4294967296
sh
sh -0
sh -
sh --2
sh -02
sh 2147483648
sh -2147483649
sh r0
li -4
li r1 -0
li r1 -4 5
lddw r0 2147483648
stdw r0 -2147483649
ldm r0 16
ldm r0 -1
stm r0
stm 15 r0
not
neg r0 r1
swap r0
move 0
jmp
jmp L
jmp l5
jmp L05
jmp L5:
jmp L4294967296
jmp Pass
jmp 5
jeq L5
jeq 17
jeq r0 L5
jeq -1 L5
jset 17 L5 5
jnebs x L5
jnebs x010 L5
jnebs x0A L5
jnebs x0g L5
jnebs 0102 L5
jnebs x0102
li.0 r0 1
li.1 r0 256
li.2 r0 65536
li.4 r0 4294967296
li.1 r0 -1
li.1 r0 1 2
jeq.1 r0 5
jeq.1 r0 5 256
jeq.1 r1 5 0
jnebs.1 r0 1
jnebs.0 r0 0 x01
.byte 256
";

/// Bytes that are not printable, and texts of several lines.
const TEXTS: [(&str, u32, TextKind); 10] = [
    ("ldb\tr0 12", 1, TextKind::Ascii),
    ("swap\r\nswap\n", 1, TextKind::Ascii),
    ("\t", 1, TextKind::Ascii),
    ("swap ; \x7f", 1, TextKind::Ascii),
    ("swap ; é", 1, TextKind::Ascii),
    ("foo\x00", 1, TextKind::Ascii),
    ("swap\n\n; x\nfoo\nswap r0\n", 4, TextKind::Word),
    ("swap\nswap r0", 2, TextKind::Operand),
    ("swap ; a comment\nfoo", 2, TextKind::Word),
    ("L5:\n\n\n\n\x1f", 5, TextKind::Ascii),
];

fn read(rt: &(impl Abort + AllocGlobal), text: &str) -> Result<List<Item>, TextError> {
    assert!(rt; text.len() <= 1048576);
    read_text(rt.alloc(), text.as_bytes())
}

/// The comment of a line that is not empty, if it has an item.
fn wanted(line: &str) -> Option<&str> {
    let (words, comment) = line.rsplit_once("; ")?;
    if words.trim().is_empty() {
        return None;
    }
    Some(comment)
}

#[test]
fn reads_each_form(rt: HostRuntime) -> Result<(), Fail> {
    for text in [FORMS, PROGRAM] {
        let items = read(&rt, text)?;
        let mut items = items.as_slice().iter();
        for line in text.lines() {
            let Some(wanted) = wanted(line) else {
                continue;
            };
            let item = items.next().ok_or("an item")?;
            assert_eq!(rt; shown(rt.alloc(), item)?.as_str(), wanted, "{line}");
        }
        assert!(rt; items.next().is_none());
    }
    for text in ["", "\n", "  \n;\n\n"] {
        assert_eq!(rt; read(&rt, text)?.len(), 0, "{text}");
    }
    Ok(())
}

/// Stops where an answer is not this line and kind.
fn expect_refusal(rt: &(impl Abort + AllocGlobal), text: &str, line: u32, kind: TextKind) {
    match read(rt, text) {
        Err(
            TextError::Bad {
                line: at,
                kind: cause,
            },
        ) => {
            assert_eq!(rt; (at, cause), (line, kind), "{text}");
        }
        other => panic!(rt; "{text}: {other:?}"),
    }
}

#[test]
fn names_the_first_refused_line(rt: HostRuntime) {
    for line in WORDS.lines() {
        expect_refusal(&rt, line, 1, TextKind::Word);
    }
    for line in OPERANDS.lines() {
        expect_refusal(&rt, line, 1, TextKind::Operand);
    }
    for (text, line, kind) in TEXTS {
        expect_refusal(&rt, text, line, kind);
    }
}
