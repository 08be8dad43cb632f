//! The generator.

ghost use Rattle.std.specs.Prelude.{◌≡◌, ◌≤◌, ◌++◌, length, IfOk, OnOk};
ghost use Rattle.apf_generate.specs.Means.{Means};
ghost use Rattle.apf_generate.specs.Listing.{raising_items, ip6_test_items, ip6_last_items, last_items, end_items};
ghost use Rattle.apf_generate.specs.Program.{AddsIp6, IsProgram};
ghost use Rattle.apf_coding.specs.Words.{AreBytes};
ghost use Rattle.apf_generate.specs.Sizes.{need_of};
ghost use Rattle.size_fit.specs.Sizes.{limit_of};

use crate::items::counting;
use crate::ra::add_records;
use apf_asm::{
    AsmError, Item, Target, assemble_bytes, fixed, jump, jump_if, jump_unless, load, place, to_end,
};
use apf_base::{List, OutOfMemory};
use apf_coding::{Op, Verdict};
use arp_rules::{emit_arp, emit_link};
use data_counters::Counter;
use ip_rules::{emit_ip4, emit_ip6};
use policy_state::Basis;
use std::alloc::Global;

/// The broadcast MAC.
const BROADCAST: [u8; 6] = [0xff; 6];

/// Room for the items of a usual program.
const ROOM: usize = 256;

/// One more in the word at a distance from R1, which is a signed number of one byte.
fn add_raising(alloc: Global, distance: u8, out: &mut List<Item>) -> Result<(), OutOfMemory>
    ensures { OnOk result (out.new ≡ out.old ++ raising_items distance) }
{
    out.push(fixed(alloc, Op::Lddw, 0, 1, u32::from(distance)))?;
    out.push(fixed(alloc, Op::Add, 0, 1, 1))?;
    out.push(fixed(alloc, Op::Stdw, 0, 1, u32::from(distance)))
}

/// Frames other than IPv6 go over its question.
fn add_ip6_test(alloc: Global, over: u32, out: &mut List<Item>) -> Result<(), OutOfMemory>
    ensures { OnOk result (out.new ≡ out.old ++ ip6_test_items over) }
{
    out.push(load(alloc, Op::Ldh, 12))?;
    out.push(jump_if(alloc, Op::Jne, 0x86dd, Target::Label(over)))
}

/// An IPv6 packet that no rule answers.
fn add_ip6_last(alloc: Global, out: &mut List<Item>) -> Result<(), OutOfMemory>
    ensures { OnOk result (out.new ≡ out.old ++ ip6_last_items) }
{
    out.push(counting(alloc, Counter::PassedIpv6Icmp))?;
    out.push(jump(alloc, to_end(Verdict::Pass)))
}

/// Appends the question on IPv6.
fn add_ip6(
    alloc: Global,
    basis: &Basis,
    next: &mut u32,
    out: &mut List<Item>,
) -> Result<(), OutOfMemory>
    requires low { 2 ≤ next.old }
    requires high { next.old ≤ 900000 }
    requires few { length basis.now.chosen ≤ 1000 }
    ensures { OnOk result (AddsIp6 basis.now next.old next.new out.old out.new) }
{
    let over = *next;
    *next += 1;
    add_ip6_test(alloc, over, out)?;
    emit_ip6(alloc, basis, next, out)?;
    add_records(alloc, basis.chosen.as_slice(), next, out)?;
    add_ip6_last(alloc, out)?;
    out.push(Item::Label(over))?;
    Ok(())
}

/// All other frames.
fn add_last(alloc: Global, out: &mut List<Item>) -> Result<(), OutOfMemory>
    ensures { OnOk result (out.new ≡ out.old ++ last_items) }
{
    out.push(place(alloc, 0))?;
    out.push(counting(alloc, Counter::PassedNonIpUnicast))?;
    out.push(jump_unless(alloc, &BROADCAST, to_end(Verdict::Pass))?)?;
    out.push(counting(alloc, Counter::DroppedEthBroadcast))?;
    out.push(jump(alloc, to_end(Verdict::Drop)))
}

/// The two ends, at the labels 0 and 1: the counter that R1 asks for is raised.
fn add_ends(alloc: Global, out: &mut List<Item>) -> Result<(), OutOfMemory>
    ensures { OnOk result (out.new ≡ out.old ++ end_items) }
{
    out.push(Item::Label(0))?;
    add_raising(alloc, 0, out)?;
    out.push(jump(alloc, Target::Pass))?;
    out.push(Item::Label(1))?;
    add_raising(alloc, 0, out)?;
    out.push(jump(alloc, Target::Drop))
}

/// The items of a whole program. The opening raises `TotalPackets`, the last word of the memory, and the questions stand
/// in the policy's order.
fn program_items(alloc: Global, basis: &Basis) -> Result<List<Item>, OutOfMemory>
    requires { length basis.now.chosen ≤ 1000 }
    ensures { IfOk result (IsProgram basis.now) }
{
    let mut next = 2;
    let mut out = List::new(alloc);
    out.reserve(ROOM)?;
    add_raising(alloc, 252, &mut out)?;
    emit_link(alloc, basis, &mut next, &mut out)?;
    emit_arp(alloc, basis, &mut next, &mut out)?;
    emit_ip4(alloc, basis, &mut next, &mut out)?;
    add_ip6(alloc, basis, &mut next, &mut out)?;
    add_last(alloc, &mut out)?;
    add_ends(alloc, &mut out)?;
    Ok(out)
}

/// The code of a whole program's items. Each label stands once and behind its jumps, and the code is short, so nothing
/// is refused.
fn assembled(alloc: Global, basis: &Basis, items: &[Item]) -> Result<List<u8>, OutOfMemory>
    requires program { IsProgram basis.now items.now }
    requires fits { need_of basis.now ≤ limit_of basis.now.config }
    ensures means { IfOk result (λ code. Means code basis.now) }
    ensures short { IfOk result (λ code. length code ≤ need_of basis.now) }
    ensures bytes { IfOk result AreBytes }
{
    match assemble_bytes(alloc, items) {
        Ok(code) => Ok(code),
        Err(AsmError::OutOfMemory) => Err(OutOfMemory),
        Err(AsmError::Twice { item: _, label: _ }) => unreachable!(),
        Err(AsmError::Unknown { item: _, label: _ }) => unreachable!(),
        Err(AsmError::Backward { item: _, label: _ }) => unreachable!(),
        Err(AsmError::TooLong { bytes: _ }) => unreachable!(),
    }
}

/// The program for a basis: its bytes.
///
/// On every frame of at most 262,144 bytes, at every age and over every memory of 128 bytes a run gives the policy's
/// verdict, and raises `TotalPackets` and the policy's counter once. It ends at the program's end, but for a short frame
/// and where the policy meets a missing field.
///
/// What the basis needs, which is its base and the weights of its chosen records, is at most the capacity less 128. The
/// program has no more bytes than that, and each is a number below 256.
pub fn generate(alloc: Global, basis: &Basis) -> Result<List<u8>, OutOfMemory>
    requires fits { need_of basis.now ≤ limit_of basis.now.config }
    ensures means { IfOk result (λ code. Means code basis.now) }
    ensures short { IfOk result (λ code. length code ≤ need_of basis.now) }
    ensures bytes { IfOk result AreBytes }
{
    let items = program_items(alloc, basis)?;
    assembled(alloc, basis, items.as_slice())
}
