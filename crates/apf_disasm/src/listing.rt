//! The lines of a listing.

ghost use Rattle.std.specs.Prelude.{◌≡◌, ◌≤◌, length, map, All, IfOk};
ghost use Rattle.apf_disasm.specs.Listing.{entry_of, IsListing};
ghost use Rattle.apf_disasm.specs.Printing.{IsReadable};
ghost use Rattle.apf_base.specs.Limits.{program_limit};

use apf_base::{List, OutOfMemory};
use apf_coding::{Instr, decode};
use std::alloc::Global;

/// A line of a listing, with its place.
#[derive(Clone, Copy, Debug, PartialEq, Eq)]
pub enum Line<'a> {
    /// An instruction begins here.
    Op { at: u32, instr: Instr<'a> },
    /// No instruction begins at this byte.
    Byte { at: u32, value: u8 },
}

/// The lines of a code. From its first byte on, an instruction that begins is a line, and the next line is at its end.
/// Where none begins the byte is a line.
pub fn list(alloc: Global, code: &[u8]) -> Result<List<Line<'_>>, OutOfMemory>
    requires { length code.now ≤ program_limit }
    ensures listing { IfOk result (λ lines. IsListing code.now (map entry_of lines)) }
    // Each line can be written as text.
    ensures readable { IfOk result (λ lines. All IsReadable lines) }
{
    let mut lines = List::new(alloc);
    let mut at = 0;
    while at < code.len() {
        let place = at as u32;
        match decode(code, at) {
            Some((instr, end)) => {
                lines.push(Line::Op { at: place, instr })?;
                at = end;
            }
            None => {
                let value = code[at];
                lines.push(Line::Byte { at: place, value })?;
                at += 1;
            }
        }
    }
    Ok(lines)
}
