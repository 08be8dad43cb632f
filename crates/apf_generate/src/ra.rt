//! The rule for a chosen record of a router advertisement.

ghost use Rattle.std.specs.Prelude.{◌≡◌, ◌≤◌, ◌<◌, ◌+◌, ◌*◌, ◌^◌, ◌++◌, ℕ, length, flat_map, slice_index, All, OnOk, OnErr};
ghost use Rattle.ra_records.specs.Masks.{IsSpanWithin};
ghost use Rattle.ra_records.specs.Advert.{IsSound};
ghost use Rattle.size_fit.specs.Sizes.{weight};
ghost use Rattle.policy_state.specs.Records.{advertised_again};
ghost use Rattle.apf_asm.specs.Fragment.{Emits};
ghost use Rattle.policy_state.specs.Rulings.{said_of};
ghost use Rattle.apf_generate.specs.Program.{AddsRecords};
ghost use Rattle.apf_coding.specs.Writing.{Extends};
ghost use Rattle.apf_generate.specs.RaListing.{section_items, lifetime_items, ra_items};

use crate::items::counting;
use apf_asm::{Item, Target, fixed, jump, jump_if, jump_unless, to_end};
use apf_base::{List, OutOfMemory};
use apf_coding::{Op, Verdict};
use data_counters::Counter;
use policy_state::Chosen;
use ra_records::Span;
use std::alloc::Global;

/// Compares all sections of the frame with those of some bytes.
fn add_sections(
    alloc: Global,
    away: u32,
    bytes: &[u8],
    sections: &[Span],
    out: &mut List<Item>,
) -> Result<(), OutOfMemory>
    requires { All (IsSpanWithin (length bytes.now)) sections.now }
    ensures ok { OnOk result (out.new ≡ out.old ++ flat_map (section_items away bytes.now) sections.now) }
    ensures err { OnErr result (Extends out.old out.new) }
    ensures bytes { OnOk result ((k : ℕ) → slice_index bytes.now k < 256) }
{
    for section in sections {
        let at = section.at as usize;
        let end = at + section.len as usize;
        out.push(fixed(alloc, Op::Li, 0, 2, section.at))?;
        out.push(jump_unless(alloc, &bytes[at..end], Target::Label(away))?)?;
    }
    Ok(())
}

/// Compares all lifetimes in the frame with a hold.
fn add_lifetimes(
    alloc: Global,
    away: u32,
    hold: u32,
    lifetimes: &[Span],
    out: &mut List<Item>,
) -> Result<(), OutOfMemory>
    ensures ok { OnOk result (out.new ≡ out.old ++ flat_map (lifetime_items away hold) lifetimes.now) }
    ensures err { OnErr result (Extends out.old out.new) }
{
    for lifetime in lifetimes {
        let op = if lifetime.len == 2 { Op::Ldh } else { Op::Ldw };
        out.push(fixed(alloc, op, 0, 2, lifetime.at))?;
        out.push(jump_if(alloc, Op::Jlt, hold, Target::Label(away)))?;
    }
    Ok(())
}

/// The whole fragment. An `Err` leaves a part of it.
fn add_ra(
    alloc: Global,
    away: u32,
    chosen: &Chosen,
    out: &mut List<Item>,
) -> Result<(), OutOfMemory>
    ensures ok { OnOk result (out.new ≡ out.old ++ ra_items away chosen.now) }
    ensures err { OnErr result (Extends out.old out.new) }
    ensures sound { OnOk result (IsSound chosen.now.advert.bytes chosen.now.advert.lifetimes) }
    ensures bytes { OnOk result ((k : ℕ) → slice_index chosen.now.advert.bytes k < 256) }
    ensures hold { OnOk result (chosen.now.hold < 2 ^ 32) }
{
    let bytes = chosen.advert.bytes();
    let sections = chosen.advert.sections();
    let head = List::of(
        alloc,
        [
            fixed(alloc, Op::Ext, 0, 1, 15),
            jump_if(alloc, Op::Jgt, chosen.hold, Target::Label(away)),
            fixed(alloc, Op::Ext, 0, 1, 14),
            jump_if(alloc, Op::Jne, bytes.len() as u32, Target::Label(away)),
        ],
    )?;
    out.append(head)?;
    add_sections(alloc, away, bytes, sections, out)?;
    add_lifetimes(alloc, away, chosen.hold, chosen.advert.lifetimes(), out)?;
    let tail = List::of(
        alloc,
        [
            counting(alloc, Counter::DroppedRa),
            jump(alloc, to_end(Verdict::Drop)),
            Item::Label(away),
        ],
    )?;
    out.append(tail)
}

/// Appends the question on frames that match a chosen record. It draws one label.
///
/// The fragment's instructions have at most as many bytes as the record weighs. After an error nothing has changed.
pub fn emit_ra(
    alloc: Global,
    chosen: &Chosen,
    next: &mut u32,
    out: &mut List<Item>,
) -> Result<(), OutOfMemory>
    requires low { 2 ≤ next.old }
    requires high { next.old ≤ 1000000 }
    ensures ok { OnOk result (Emits (λ age frame. said_of (advertised_again chosen.now age frame)) (weight chosen.now.advert) next.old next.new out.old out.new) }
    ensures err { OnErr result (out.new ≡ out.old) }
    ensures next { OnErr result (next.new ≡ next.old) }
{
    let before = out.len();
    let Ok(()) = add_ra(alloc, *next, chosen, out) else {
        out.truncate(before);
        return Err(OutOfMemory);
    };
    *next += 1;
    Ok(())
}

/// Appends the questions on frames that match one of the chosen records, in their order.
pub(crate) fn add_records(
    alloc: Global,
    chosen: &[Chosen],
    next: &mut u32,
    out: &mut List<Item>,
) -> Result<(), OutOfMemory>
    requires low { 2 ≤ next.old }
    requires high { next.old + 64 * length chosen.now ≤ 1000000 }
    ensures { OnOk result (AddsRecords chosen.now next.old next.new out.old out.new) }
{
    for one in chosen {
        emit_ra(alloc, one, next, out)?;
    }
    Ok(())
}
