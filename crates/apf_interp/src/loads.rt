//! The rows that load from the frame, and those that load from the memory and store into it.

ghost use Rattle.std.specs.Prelude.{◌≡◌, ◌≤◌, ◌+◌, ◌%◌, List, ℕ, length};
ghost use Rattle.apf_base.specs.Limits.{memory_limit, program_limit};
ghost use Rattle.apf_coding.specs.Spelling.{IsWidth};
ghost use Rattle.apf_coding.specs.Words.{word};
ghost use Rattle.apf_coding.specs.Meaning.{frame_number, loaded};
ghost use Rattle.apf_coding.specs.Run.{turn_of, machine_state};
ghost use Rattle.apf_interp.specs.Reads.{width};
ghost use Rattle.apf_interp.specs.Effect.{Acts, ActsOn, with_first, address_of, loads, stores, loads_data, stores_data};

use crate::code::{Code, by_register, by_width, number_in, signed_in, unsigned};
use crate::effect::Effect;
use crate::registers::{other, register, set_register};
use apf_coding::{FaultKind, Machine, number};

/// The number in so many bytes of the frame at a place, where they are all inside.
#[inline(always)]
fn frame_number(frame: &[u8], at: u32, count: usize) -> Option<u32>
    requires { count ≤ 4 }
    ensures { result ≡ frame_number frame.now at count }
{
    let at = at as usize;
    let bytes = frame.get(at..at + count)?;
    Some(number(bytes))
}

/// Loads so many bytes of the frame into a register.
#[inline(always)]
fn load_bytes(reg: u8, at: u32, count: usize, end: usize, frame: &[u8], m: &mut Machine) -> Effect
    requires count { count ≤ 4 }
    requires end { end ≤ program_limit }
    ensures { ActsOn result m.old m.new (λ s. turn_of end s (loaded reg (frame_number frame.now at count) s)) }
{
    match frame_number(frame, at, count) {
        Some(value) => {
            set_register(m, reg, value);
            Ok(end)
        }
        None => Err(FaultKind::Frame),
    }
}

/// Loads from the first immediate, of so many bytes, on.
#[inline(always)]
fn load_at_width(c: &Code<'_>, size: usize, count: usize, frame: &[u8], m: &mut Machine) -> Effect
    requires size { size ≡ width c.now.first }
    requires few { size ≤ 4 }
    requires count { count ≤ 4 }
    ensures { ActsOn result m.old m.new
        (with_first c.now (λ imm s. loaded (c.now.first % 2) (frame_number frame.now imm count) s)) }
{
    let (imm, end) = number_in(c.program, c.place + 1, size)?;
    load_bytes(c.first % 2, imm, count, end, frame, m)
}

/// `ldb`, `ldh`, `ldw`: loads from the first immediate on.
#[inline(always)]
pub(crate) fn load(c: &Code<'_>, count: usize, frame: &[u8], m: &mut Machine) -> Effect
    requires count { count ≤ 4 }
    ensures { ActsOn result m.old m.new
        (with_first c.now (λ imm s. loaded (c.now.first % 2) (frame_number frame.now imm count) s)) }
{
    by_width!(c.first, size => load_at_width(c, size, count, frame, m))
}

/// `ldbx`, `ldhx`, `ldwx`: loads from the first immediate and R1 on.
#[inline(always)]
pub(crate) fn load_indexed(c: &Code<'_>, count: usize, frame: &[u8], m: &mut Machine) -> Effect
    requires count { count ≤ 4 }
    ensures { ActsOn result m.old m.new
        (with_first c.now (λ imm s. loaded (c.now.first % 2) (frame_number frame.now (word (imm + s.r1)) count) s)) }
{
    let (imm, end) = unsigned(c, c.place + 1)?;
    load_bytes(c.first % 2, imm.wrapping_add(m.r1), count, end, frame, m)
}

/// The address of a load or a store, behind a program of n bytes.
#[inline(always)]
fn address(reg: u8, v: u32, n: usize, size: usize, m: &Machine) -> u32
    requires n { n ≤ program_limit }
    requires size { size ≤ memory_limit }
    ensures { (memory : List ℕ) → length memory ≡ size → result ≡ address_of reg v n (machine_state m.now memory) }
{
    let sum = other(m, reg).wrapping_add(v);
    if sum < 0x8000_0000 {
        sum
    } else {
        sum.wrapping_add((n + size) as u32)
    }
}

/// Loads the four bytes at the address that a signed immediate gives.
#[inline(always)]
#[tactic(auto, unfolding(crate::specs::Effect::loads))]
fn load_word(reg: u8, v: u32, n: usize, end: usize, memory: &[u8], m: &mut Machine) -> Effect
    requires n { n ≤ program_limit }
    requires end { end ≤ program_limit }
    requires memory { length memory.now ≤ memory_limit }
    ensures { Acts result (machine_state m.old memory.now) (machine_state m.new memory.now)
        (turn_of end (machine_state m.old memory.now) (loads reg v n (machine_state m.old memory.now))) }
{
    let at = address(reg, v, n, memory.len(), m) as usize;
    if at < n || n + memory.len() < at + 4 {
        return Err(FaultKind::Memory);
    }
    let value = number(&memory[at - n..at - n + 4]);
    set_register(m, reg, value);
    Ok(end)
}

/// Loads from the address of the first immediate, of so many bytes.
#[inline(always)]
fn load_data_at_width(c: &Code<'_>, size: usize, memory: &[u8], m: &mut Machine) -> Effect
    requires size { size ≡ width c.now.first }
    requires is_width { IsWidth size }
    requires memory { length memory.now ≤ memory_limit }
    ensures { Acts result (machine_state m.old memory.now) (machine_state m.new memory.now)
        (with_first c.now (loads_data c.now) (machine_state m.old memory.now)) }
{
    let (v, end) = signed_in(c.program, c.place + 1, size)?;
    let n = c.program.len();
    by_register!(c.first, reg => load_word(reg, v, n, end, memory, m))
}

/// `lddw`: loads four bytes of the memory.
#[inline(always)]
pub(crate) fn load_data(c: &Code<'_>, memory: &[u8], m: &mut Machine) -> Effect
    requires { length memory.now ≤ memory_limit }
    ensures { Acts result (machine_state m.old memory.now) (machine_state m.new memory.now)
        (with_first c.now (loads_data c.now) (machine_state m.old memory.now)) }
{
    by_width!(c.first, size => load_data_at_width(c, size, memory, m))
}

/// Stores a register at the address that a signed immediate gives.
#[inline(always)]
#[tactic(auto, unfolding(crate::specs::Effect::stores))]
fn store_word(reg: u8, v: u32, n: usize, end: usize, memory: &mut [u8], m: &Machine) -> Effect
    requires n { n ≤ program_limit }
    requires end { end ≤ program_limit }
    requires memory { length memory.old ≤ memory_limit }
    ensures { Acts result (machine_state m.now memory.old) (machine_state m.now memory.new)
        (turn_of end (machine_state m.now memory.old) (stores reg v n (machine_state m.now memory.old))) }
{
    let at = address(reg, v, n, memory.len(), m) as usize;
    if at < n || n + memory.len() < at + 4 {
        return Err(FaultKind::Memory);
    }
    let value = register(m, reg).to_be_bytes();
    memory[at - n..at - n + 4].copy_from_slice(&value);
    Ok(end)
}

/// Stores at the address of the first immediate, of so many bytes.
#[inline(always)]
fn store_data_at_width(c: &Code<'_>, size: usize, memory: &mut [u8], m: &Machine) -> Effect
    requires size { size ≡ width c.now.first }
    requires is_width { IsWidth size }
    requires memory { length memory.old ≤ memory_limit }
    ensures { Acts result (machine_state m.now memory.old) (machine_state m.now memory.new)
        (with_first c.now (stores_data c.now) (machine_state m.now memory.old)) }
{
    let (v, end) = signed_in(c.program, c.place + 1, size)?;
    let n = c.program.len();
    by_register!(c.first, reg => store_word(reg, v, n, end, memory, m))
}

/// `stdw`: stores four bytes into the memory.
#[inline(always)]
pub(crate) fn store_data(c: &Code<'_>, memory: &mut [u8], m: &Machine) -> Effect
    requires { length memory.old ≤ memory_limit }
    ensures { Acts result (machine_state m.now memory.old) (machine_state m.now memory.new)
        (with_first c.now (stores_data c.now) (machine_state m.now memory.old)) }
{
    by_width!(c.first, size => store_data_at_width(c, size, memory, m))
}
