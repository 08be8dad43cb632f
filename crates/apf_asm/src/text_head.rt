//! The first word of a line.

ghost use Rattle.std.specs.Prelude.{◌≡◌};
ghost use Rattle.apf_coding.specs.Reading.{IsReadAs};
ghost use Rattle.apf_asm.specs.TextReading.{op_named, width_of, op_head, other_head, dotted_head, head_from, head_of};

use crate::text_number::number;
use apf_coding::Op;

/// What the first word of a line says of the rest.
#[derive(Clone, Copy, Debug)]
pub(crate) enum Head {
    /// `L5:`
    Label(u32),
    /// `ldb`, `ldh`, `ldw`, `ldbx`, `ldhx`, `ldwx`: a register and a number.
    Load(Op),
    /// `add`, `mul`, `div`, `and`, `or`: a number or `r1`.
    Arithmetic(Op),
    /// `sh`: a signed number or `r1`.
    Shift,
    /// `li`, `lddw`, `stdw`: a register and a signed number.
    Signed(Op),
    /// `ldm`, `stm`: a register and a slot, whose code is this and the slot.
    Slot(u8),
    /// `not`, `neg`, `move`: a register. This is the code.
    Register(u8),
    /// `swap`
    Swap,
    /// `jmp`: a target.
    Jump,
    /// `jeq`, `jne`, `jgt`, `jlt`, `jset`: a number or `r1`, and a target.
    Compare(Op),
    /// `jnebs`: bytes and a target.
    CompareBytes,
    /// `li.1`: an opcode and a width.
    Dotted(Op, u8),
    /// `.byte`: a number.
    Byte,
}

#[rattlefmt::skip]
const OPS: [Op; 23] = [
    Op::Ldb, Op::Ldh, Op::Ldw, Op::Ldbx, Op::Ldhx, Op::Ldwx,
    Op::Add, Op::Mul, Op::Div, Op::And, Op::Or, Op::Sh, Op::Li,
    Op::Jmp, Op::Jeq, Op::Jne, Op::Jgt, Op::Jlt, Op::Jset, Op::Jnebs,
    Op::Ext, Op::Lddw, Op::Stdw,
];

/// The opcode of a name.
#[tactic(auto, unfolding(crate::specs::TextReading::op_named))]
fn op_named(name: &[u8]) -> Option<Op>
    ensures { result ≡ op_named name.now }
{
    OPS.iter().copied().find(|op| op.name().as_bytes() == name)
}

/// The width of a digit.
fn width_of(digit: u8) -> Option<u8>
    ensures { result ≡ width_of digit }
{
    match digit {
        b'0' => Some(0),
        b'1' => Some(1),
        b'2' => Some(2),
        b'4' => Some(4),
        _ => None,
    }
}

/// What an opcode's name says of a line. The name `ext` begins none.
fn op_head(op: Op) -> Option<Head>
    ensures { result ≡ op_head op }
{
    match op {
        Op::Ldb | Op::Ldh | Op::Ldw | Op::Ldbx | Op::Ldhx | Op::Ldwx => Some(Head::Load(op)),
        Op::Add | Op::Mul | Op::Div | Op::And | Op::Or => Some(Head::Arithmetic(op)),
        Op::Sh => Some(Head::Shift),
        Op::Li | Op::Lddw | Op::Stdw => Some(Head::Signed(op)),
        Op::Jmp => Some(Head::Jump),
        Op::Jeq | Op::Jne | Op::Jgt | Op::Jlt | Op::Jset => Some(Head::Compare(op)),
        Op::Jnebs => Some(Head::CompareBytes),
        Op::Ext => None,
    }
}

/// What a name that is no opcode's says of a line.
#[tactic(auto, unfolding(crate::specs::TextReading::other_head))]
fn other_head(word: &[u8]) -> Option<Head>
    ensures { IsReadAs (λ x. x) result (other_head word.now) }
{
    match word {
        b"ldm" => Some(Head::Slot(0)),
        b"stm" => Some(Head::Slot(16)),
        b"not" => Some(Head::Register(32)),
        b"neg" => Some(Head::Register(33)),
        b"swap" => Some(Head::Swap),
        b"move" => Some(Head::Register(35)),
        b".byte" => Some(Head::Byte),
        _ => None,
    }
}

/// What an opcode's name, a dot and a width say.
fn dotted_head(name: &[u8], digit: u8) -> Option<Head>
    ensures { IsReadAs (λ x. x) result (dotted_head name.now digit) }
{
    Some(Head::Dotted(op_named(name)?, width_of(digit)?))
}

/// What a name says of a line.
fn name_head(word: &[u8]) -> Option<Head>
    ensures { IsReadAs (λ x. x) result (head_from (op_named word.now) word.now) }
{
    match op_named(word) {
        Some(op) => op_head(op),
        None => other_head(word),
    }
}

/// What the first word of a line says, if it is known.
#[tactic(auto, unfolding(crate::specs::TextReading::head_of))]
pub(crate) fn head_of(word: &[u8]) -> Option<Head>
    ensures { IsReadAs (λ x. x) result (head_of word.now) }
{
    match word {
        [b'L', digits @ .., b':'] => Some(Head::Label(number(digits)?)),
        [name @ .., b'.', digit] => dotted_head(name, *digit),
        _ => name_head(word),
    }
}
