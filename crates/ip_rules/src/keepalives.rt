//! The rule for answers to keepalives.

ghost use Rattle.std.specs.Prelude.{◌≡◌, ◌+◌, ◌*◌, ◌≤◌, ◌++◌, IfOk, OnOk, OnErr, count_by, is_some};
ghost use Rattle.apf_coding.specs.Writing.{Extends};
ghost use Rattle.policy_state.specs.Ip4.{keepalive_answers};
ghost use Rattle.apf_asm.specs.Fragment.{Emits};
ghost use Rattle.policy_state.specs.Rulings.{said_of};
ghost use Rattle.ip_rules.specs.Ip4Listing.{header_into, answer_items, slots_items, segment_items, keepalive_items, label_behind};
ghost use Rattle.policy_state.specs.Weights.{keepalive_weight};

use apf_asm::{
    Item, Target, count, fixed, jump, jump_if, jump_if_r1, jump_unless, load, place, to_end,
};
use apf_base::{List, OutOfMemory};
use apf_coding::{Op, Verdict};
use data_counters::Counter;
use policy_state::{Basis, FilterState, Keepalive};
use std::alloc::Global;

/// A register is the IPv4 header's length, which is in slot 13.
pub(crate) fn header_into(alloc: Global, register: u8) -> Item
    ensures { result ≡ header_into register }
{
    fixed(alloc, Op::Ext, register, 1, 13)
}

/// An answer to one keepalive. Other packets go over it.
fn answer_items(alloc: Global, away: u32, sent: &Keepalive) -> Result<List<Item>, OutOfMemory>
    ensures { IfOk result (λ xs. xs ≡ answer_items away sent.now) }
{
    let ends = jump_unless(alloc, &sent.answer_ends(), Target::Label(away))?;
    let opening = jump_unless(alloc, &sent.answer_opening(), Target::Label(away))?;
    List::of(
        alloc,
        [
            place(alloc, 26),
            ends,
            header_into(alloc, 1),
            load(alloc, Op::Ldbx, 26),
            fixed(alloc, Op::Div, 0, 1, 4),
            fixed(alloc, Op::Add, 1, 0, 0),
            fixed(alloc, Op::Ldh, 1, 1, 16),
            jump_if_r1(alloc, Op::Jne, Target::Label(away)),
            header_into(alloc, 0),
            fixed(alloc, Op::Add, 0, 1, 14),
            opening,
            count(alloc, Counter::DroppedIpv4KeepaliveAck.number()),
            jump(alloc, to_end(Verdict::Drop)),
            Item::Label(away),
        ],
    )
}

/// Answers to all keepalives, slot by slot. An `Err` leaves a part of the items.
fn add_answers(
    alloc: Global,
    next: u32,
    slots: &[Option<Keepalive>; 8],
    out: &mut List<Item>,
) -> Result<(), OutOfMemory>
    requires { next ≤ 1000000 }
    ensures ok { OnOk result (out.new ≡ out.old ++ slots_items next slots.now) }
    ensures err { OnErr result (Extends out.old out.new) }
{
    let mut label = next;
    for slot in slots {
        if let Some(sent) = slot {
            out.append(answer_items(alloc, label, sent)?)?;
            label += 1;
        }
    }
    Ok(())
}

/// The label behind those of all keepalives, each of which has one, and one is behind them all.
pub(crate) fn label_behind(next: u32, state: &FilterState) -> u32
    requires { next ≤ 1000000 }
    ensures value { result ≡ label_behind next state.now.keepalives }
    ensures few { result ≤ next + 9 }
{
    if !state.holds_keepalive() {
        return next;
    }
    next + state.count_keepalives() + 1
}

/// Answers to all keepalives. Other packets than TCP go over them. An `Err` leaves a part of the items.
#[tactic(auto, using(apf_coding::proofs::Appends::extends_more))]
fn add_segment(
    alloc: Global,
    next: u32,
    state: &FilterState,
    out: &mut List<Item>,
) -> Result<(), OutOfMemory>
    requires { next ≤ 1000000 }
    ensures ok { OnOk result (out.new ≡ out.old ++ segment_items (next + count_by is_some state.now.keepalives) (slots_items next state.now.keepalives)) }
    ensures err { OnErr result (Extends out.old out.new) }
{
    let over = next + state.count_keepalives();
    out.append(List::of(
        alloc,
        [
            load(alloc, Op::Ldb, 23),
            jump_if(alloc, Op::Jne, 6, Target::Label(over)),
        ],
    )?)?;
    add_answers(alloc, next, &state.keepalives, out)?;
    out.push(Item::Label(over))
}

/// The whole fragment, which is empty where there is no keepalive. An `Err` leaves a part of the items.
pub(crate) fn add_keepalives(
    alloc: Global,
    basis: &Basis,
    next: u32,
    out: &mut List<Item>,
) -> Result<(), OutOfMemory>
    requires { next ≤ 1000000 }
    ensures ok { OnOk result (out.new ≡ out.old ++ keepalive_items next basis.now.state.keepalives) }
    ensures err { OnErr result (Extends out.old out.new) }
{
    if !basis.state.holds_keepalive() {
        return Ok(());
    }
    add_segment(alloc, next, &basis.state, out)
}

/// Appends the question on answers to keepalives (RFC 9293, section 3.8.4), for every frame whose ethertype is that of IPv4.
/// It draws at most nine labels.
///
/// The fragment's instructions have at most 80 bytes for each keepalive. After an error nothing has changed.
pub fn emit_keepalives(
    alloc: Global,
    basis: &Basis,
    next: &mut u32,
    out: &mut List<Item>,
) -> Result<(), OutOfMemory>
    requires low { 2 ≤ next.old }
    requires high { next.old ≤ 1000000 }
    ensures ok { OnOk result (Emits (λ age frame. said_of (keepalive_answers basis.now frame)) (keepalive_weight * count_by is_some basis.now.state.keepalives) next.old next.new out.old out.new) }
    ensures few { OnOk result (next.new ≤ next.old + 9) }
    ensures err { OnErr result (out.new ≡ out.old) }
    ensures next { OnErr result (next.new ≡ next.old) }
{
    let before = out.len();
    let Ok(()) = add_keepalives(alloc, basis, *next, out) else {
        out.truncate(before);
        return Err(OutOfMemory);
    };
    *next = label_behind(*next, &basis.state);
    Ok(())
}
