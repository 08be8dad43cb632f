//! The numbers of the opcodes, as patterns.

use apf_coding::Op;

pub(crate) const LDB: u8 = Op::Ldb as u8;

pub(crate) const LDH: u8 = Op::Ldh as u8;

pub(crate) const LDW: u8 = Op::Ldw as u8;

pub(crate) const LDBX: u8 = Op::Ldbx as u8;

pub(crate) const LDHX: u8 = Op::Ldhx as u8;

pub(crate) const LDWX: u8 = Op::Ldwx as u8;

pub(crate) const ADD: u8 = Op::Add as u8;

pub(crate) const MUL: u8 = Op::Mul as u8;

pub(crate) const DIV: u8 = Op::Div as u8;

pub(crate) const AND: u8 = Op::And as u8;

pub(crate) const OR: u8 = Op::Or as u8;

pub(crate) const SH: u8 = Op::Sh as u8;

pub(crate) const LI: u8 = Op::Li as u8;

pub(crate) const JMP: u8 = Op::Jmp as u8;

pub(crate) const JEQ: u8 = Op::Jeq as u8;

pub(crate) const JNE: u8 = Op::Jne as u8;

pub(crate) const JGT: u8 = Op::Jgt as u8;

pub(crate) const JLT: u8 = Op::Jlt as u8;

pub(crate) const JSET: u8 = Op::Jset as u8;

pub(crate) const JNEBS: u8 = Op::Jnebs as u8;

pub(crate) const EXT: u8 = Op::Ext as u8;

pub(crate) const LDDW: u8 = Op::Lddw as u8;

pub(crate) const STDW: u8 = Op::Stdw as u8;
