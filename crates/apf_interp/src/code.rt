//! The numbers of an instruction, read where they stand.

ghost use Rattle.std.specs.Prelude.{◌≡◌, ◌≤◌, ◌<◌, ◌^◌, ◌⊎◌, IfOk, length, drop, slice_index};
ghost use Rattle.apf_base.specs.Limits.{program_limit};
ghost use Rattle.apf_coding.specs.Spelling.{IsWidth};
ghost use Rattle.apf_coding.specs.Reading.{number_at};
ghost use Rattle.apf_interp.specs.Reads.{IsReadTo, IsReadSigned, width, signed_of};

use crate::effect::Read;
use apf_coding::{FaultKind, number};

/// An instruction in a program: its place there and its first byte.
#[derive(Clone, Copy)]
pub(crate) struct Code<'a> {
    pub(crate) program: &'a [u8],
    pub(crate) place: usize,
    pub(crate) first: u8,
    ghost limit: { length program.now ≤ program_limit },
    ghost inside: { place < length program.now },
    ghost is_first: { slice_index program.now place ≡ first },
}

/// What is done at the width that the size field of a first byte means.
// It is compiled once for each width: then a row asks for the size field once for all its numbers,
// and each is read by code for a known number of bytes.
macro_rules! by_width {
    ($first:expr, $width:ident => $done:expr) => {
        match ($first / 4 % 2, $first / 2 % 2) {
            (0, 0) => {
                let $width = 0;
                $done
            }
            (0, _) => {
                let $width = 1;
                $done
            }
            (_, 0) => {
                let $width = 2;
                $done
            }
            _ => {
                let $width = 4;
                $done
            }
        }
    };
}

/// What is done with the register bit of a first byte.
// It is compiled once for each bit: then a row that takes both registers asks for it once.
macro_rules! by_register {
    ($first:expr, $reg:ident => $done:expr) => {
        if $first % 2 == 0 {
            let $reg = 0;
            $done
        } else {
            let $reg = 1;
            $done
        }
    };
}

pub(crate) use by_register;
pub(crate) use by_width;

/// The number in so many bytes at a place.
#[inline(always)]
#[tactic(auto, using(crate::proofs::Numbers::number_found, crate::proofs::Numbers::number_cut))]
pub(crate) fn number_in(program: &[u8], at: usize, size: usize) -> Read
    requires program { length program.now ≤ program_limit }
    requires at { at ≤ length program.now }
    requires size { size ≤ 4 }
    ensures reads { IsReadTo program.now result (number_at size (drop at program.now)) }
    ensures below { IfOk result (λ x. x.0 < 256 ^ size) }
{
    let end = at + size;
    if program.len() < end {
        return Err(FaultKind::Cut);
    }
    Ok((number(&program[at..end]), end))
}

/// The unsigned number of the instruction's width at a place.
#[inline(always)]
pub(crate) fn unsigned(c: &Code<'_>, at: usize) -> Read
    requires at { at ≤ length c.now.program.now }
    ensures { IsReadTo c.now.program.now result (number_at (width c.now.first) (drop at c.now.program.now)) }
{
    by_width!(c.first, size => number_in(c.program, at, size))
}

/// A byte as a signed number, modulo 2^32.
#[inline(always)]
#[tactic(auto, using(crate::proofs::Numbers::sign_8))]
fn sign_byte(n: u32) -> u32
    requires { n < 256 }
    ensures { result ≡ signed_of 1 n }
{
    i32::from((n as u8).cast_signed()).cast_unsigned()
}

/// Two bytes as a signed number, modulo 2^32.
#[inline(always)]
#[tactic(auto, using(crate::proofs::Numbers::sign_16))]
fn sign_half(n: u32) -> u32
    requires { n < 65536 }
    ensures { result ≡ signed_of 2 n }
{
    i32::from((n as u16).cast_signed()).cast_unsigned()
}

/// The signed number in 0 or 4 bytes at a place, modulo 2^32.
#[inline(always)]
#[tactic(auto, using(crate::proofs::Numbers::sign_same))]
fn whole_signed(program: &[u8], at: usize, size: usize) -> Read
    requires program { length program.now ≤ program_limit }
    requires at { at ≤ length program.now }
    requires size { (size ≡ 0) ⊎ (size ≡ 4) }
    ensures { IsReadSigned program.now size result (number_at size (drop at program.now)) }
{
    number_in(program, at, size)
}

/// The signed number in so many bytes at a place, modulo 2^32.
#[inline(always)]
pub(crate) fn signed_in(program: &[u8], at: usize, size: usize) -> Read
    requires program { length program.now ≤ program_limit }
    requires at { at ≤ length program.now }
    requires size { IsWidth size }
    ensures { IsReadSigned program.now size result (number_at size (drop at program.now)) }
{
    match size {
        1 => {
            let (n, end) = number_in(program, at, 1)?;
            Ok((sign_byte(n), end))
        }
        2 => {
            let (n, end) = number_in(program, at, 2)?;
            Ok((sign_half(n), end))
        }
        _ => whole_signed(program, at, size),
    }
}

/// The signed number of the instruction's width at a place, modulo 2^32.
#[inline(always)]
pub(crate) fn signed(c: &Code<'_>, at: usize) -> Read
    requires at { at ≤ length c.now.program.now }
    ensures { IsReadSigned c.now.program.now (width c.now.first) result
        (number_at (width c.now.first) (drop at c.now.program.now)) }
{
    by_width!(c.first, size => signed_in(c.program, at, size))
}
