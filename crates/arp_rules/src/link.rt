//! The rule for the Ethernet header.

ghost use Rattle.std.specs.Prelude.{◌≡◌, ◌+◌, ◌*◌, ◌≤◌, ◌<◌, ◌^◌, ◌∷◌, ◌++◌, length, All, OnOk, OnErr};
ghost use Rattle.apf_coding.specs.Writing.{Extends};
ghost use Rattle.apf_coding.specs.declared.instruction.Op.TheVariants.{Ldh};
ghost use Rattle.policy_state.specs.Policy.{link};
ghost use Rattle.apf_asm.specs.Building.{load};
ghost use Rattle.apf_asm.specs.Fragment.{Emits};
ghost use Rattle.arp_rules.specs.Listing.{length_items, denied_items, link_items};
ghost use Rattle.policy_state.specs.Rulings.{said_of};
ghost use Rattle.policy_state.specs.Rooms.{link_room};
ghost use Rattle.policy_state.specs.Weights.{denied_weight};

use apf_asm::{Item, count, jump_if, load, to_end};
use apf_base::{List, OutOfMemory};
use apf_coding::{Op, Verdict};
use data_counters::Counter;
use policy_state::Basis;
use std::alloc::Global;

/// Denied ethertypes, with the ethertype in R0. An `Err` leaves a part of the items.
fn add_denied(alloc: Global, deny: &[u16], out: &mut List<Item>) -> Result<(), OutOfMemory>
    ensures ok { OnOk result (out.new ≡ out.old ++ denied_items deny.now) }
    ensures fits { OnOk result (All (λ d. d < 2 ^ 16) deny.now) }
    ensures err { OnErr result (Extends out.old out.new) }
{
    out.push(count(alloc, Counter::DroppedEthertypeDenied.number()))?;
    for denied in deny {
        out.push(jump_if(alloc, Op::Jeq, u32::from(*denied), to_end(Verdict::Drop)))?;
    }
    Ok(())
}

/// The ethertype, and 802.3 frames where they are dropped. An `Err` leaves a part of the items.
fn add_length(alloc: Global, drops: bool, out: &mut List<Item>) -> Result<(), OutOfMemory>
    ensures ok { OnOk result (out.new ≡ out.old ++ load Ldh 12 ∷ length_items drops) }
    ensures err { OnErr result (Extends out.old out.new) }
{
    out.push(load(alloc, Op::Ldh, 12))?;
    if drops {
        out.push(count(alloc, Counter::Dropped8023Frame.number()))?;
        out.push(jump_if(alloc, Op::Jlt, 0x600, to_end(Verdict::Drop)))?;
    }
    Ok(())
}

/// The whole fragment. An `Err` leaves a part of the items.
#[tactic(auto, using(apf_coding::proofs::Appends::extends_more))]
fn add_link(alloc: Global, basis: &Basis, out: &mut List<Item>) -> Result<(), OutOfMemory>
    ensures ok { OnOk result (out.new ≡ out.old ++ link_items basis.now) }
    ensures fits { OnOk result (All (λ d. d < 2 ^ 16) basis.now.config.deny) }
    ensures err { OnErr result (Extends out.old out.new) }
{
    add_length(alloc, basis.config.drop_802_3, out)?;
    add_denied(alloc, basis.config.deny.as_slice(), out)?;
    Ok(())
}

/// Appends the questions on 802.3 frames and on denied ethertypes. It draws no label.
///
/// The fragment's instructions have at most 20 bytes and 9 for each denied ethertype. After an error nothing has changed.
pub fn emit_link(
    alloc: Global,
    basis: &Basis,
    next: &mut u32,
    out: &mut List<Item>,
) -> Result<(), OutOfMemory>
    requires low { 2 ≤ next.old }
    requires high { next.old ≤ 1000000 }
    ensures ok { OnOk result (Emits (λ age frame. said_of (link basis.now frame)) (link_room + denied_weight * length basis.now.config.deny) next.old next.new out.old out.new) }
    ensures err { OnErr result (out.new ≡ out.old) }
    ensures next { OnErr result (next.new ≡ next.old) }
{
    let _ = next;
    let before = out.len();
    let Ok(()) = add_link(alloc, basis, out) else {
        out.truncate(before);
        return Err(OutOfMemory);
    };
    Ok(())
}
