//! The rule for ARP.

ghost use Rattle.std.specs.Prelude.{◌≡◌, ◌+◌, ◌≤◌, ◌++◌, OnOk, OnErr};
ghost use Rattle.apf_coding.specs.Writing.{Extends};
ghost use Rattle.policy_state.specs.Policy.{arp};
ghost use Rattle.apf_asm.specs.Fragment.{Emits};
ghost use Rattle.arp_rules.specs.Listing.{reply_items, target_items, packet_items, arp_items, IsAddressInRange};
ghost use Rattle.policy_state.specs.Rulings.{said_of};
ghost use Rattle.policy_state.specs.Rooms.{arp_room};

use apf_asm::{Item, Target, count, jump, jump_if, jump_unless, load, place, to_end};
use apf_base::{List, OutOfMemory};
use apf_coding::{Op, Verdict};
use data_counters::Counter;
use policy_state::{Address, Basis};
use std::alloc::Global;

/// The broadcast MAC.
const BROADCAST: [u8; 6] = [0xff; 6];

/// The opening of a packet for Ethernet and IPv4 addresses, of 6 and 4 bytes.
const ETHERNET_AND_IPV4: [u8; 6] = [0, 1, 8, 0, 6, 4];

/// A packet that is no request, with the operation in R0.
fn add_replies(alloc: Global, out: &mut List<Item>) -> Result<(), OutOfMemory>
    ensures ok { OnOk result (out.new ≡ out.old ++ reply_items) }
    ensures err { OnErr result (out.new ≡ out.old) }
{
    let unicast = jump_unless(alloc, &BROADCAST, to_end(Verdict::Pass))?;
    out.append(List::of(
        alloc,
        [
            count(alloc, Counter::PassedArpUnknown.number()),
            jump_if(alloc, Op::Jne, 2, to_end(Verdict::Pass)),
            load(alloc, Op::Ldw, 28),
            count(alloc, Counter::DroppedArpReplySpaNoHost.number()),
            jump_if(alloc, Op::Jeq, 0, to_end(Verdict::Drop)),
            place(alloc, 0),
            count(alloc, Counter::PassedArpUnicastReply.number()),
            unicast,
        ],
    )?)
}

/// Whom a packet asks for.
fn add_target(
    alloc: Global,
    address: Option<Address>,
    out: &mut List<Item>,
) -> Result<(), OutOfMemory>
    ensures ok { OnOk result (out.new ≡ out.old ++ target_items address) }
    ensures fits { OnOk result (IsAddressInRange address) }
    ensures err { OnErr result (out.new ≡ out.old) }
{
    let (counter, op, number) = match address {
        None => (Counter::DroppedGarpReply, Op::Jeq, 0),
        Some(own) => (Counter::DroppedArpOtherHost, Op::Jne, own.ip),
    };
    out.append(List::of(
        alloc,
        [
            load(alloc, Op::Ldw, 38),
            count(alloc, counter.number()),
            jump_if(alloc, op, number, to_end(Verdict::Drop)),
            count(alloc, Counter::PassedArp.number()),
            jump(alloc, to_end(Verdict::Pass)),
        ],
    )?)
}

/// A packet. A request goes over what is asked of replies. An `Err` leaves a part of the items.
fn add_packet(
    alloc: Global,
    request: u32,
    address: Option<Address>,
    out: &mut List<Item>,
) -> Result<(), OutOfMemory>
    ensures ok { OnOk result (out.new ≡ out.old ++ packet_items request address) }
    ensures fits { OnOk result (IsAddressInRange address) }
    ensures err { OnErr result (Extends out.old out.new) }
{
    let other = jump_unless(alloc, &ETHERNET_AND_IPV4, to_end(Verdict::Pass))?;
    out.append(List::of(
        alloc,
        [
            place(alloc, 14),
            count(alloc, Counter::PassedArpNonIpv4.number()),
            other,
            load(alloc, Op::Ldh, 20),
            jump_if(alloc, Op::Jeq, 1, Target::Label(request)),
        ],
    )?)?;
    add_replies(alloc, out)?;
    out.push(Item::Label(request))?;
    add_target(alloc, address, out)
}

/// The whole fragment. Other frames go over the packet. An `Err` leaves a part of the items.
#[tactic(auto, using(apf_coding::proofs::Appends::extends_more))]
fn add_arp(
    alloc: Global,
    next: u32,
    address: Option<Address>,
    out: &mut List<Item>,
) -> Result<(), OutOfMemory>
    requires { next ≤ 1000000 }
    ensures ok { OnOk result (out.new ≡ out.old ++ arp_items next address) }
    ensures fits { OnOk result (IsAddressInRange address) }
    ensures err { OnErr result (Extends out.old out.new) }
{
    out.append(List::of(
        alloc,
        [
            load(alloc, Op::Ldh, 12),
            jump_if(alloc, Op::Jne, 0x806, Target::Label(next)),
        ],
    )?)?;
    add_packet(alloc, next + 1, address, out)?;
    out.push(Item::Label(next))
}

/// Appends the question on ARP (RFC 826). It draws two labels.
///
/// The fragment's instructions have at most 112 bytes. After an error nothing has changed.
pub fn emit_arp(
    alloc: Global,
    basis: &Basis,
    next: &mut u32,
    out: &mut List<Item>,
) -> Result<(), OutOfMemory>
    requires low { 2 ≤ next.old }
    requires high { next.old ≤ 1000000 }
    ensures ok { OnOk result (Emits (λ age frame. said_of (arp basis.now frame)) arp_room next.old next.new out.old out.new) }
    ensures err { OnErr result (out.new ≡ out.old) }
    ensures next { OnErr result (next.new ≡ next.old) }
{
    let before = out.len();
    let Ok(()) = add_arp(alloc, *next, basis.state.address, out) else {
        out.truncate(before);
        return Err(OutOfMemory);
    };
    *next += 2;
    Ok(())
}
