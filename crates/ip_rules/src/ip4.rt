//! The rule for IPv4.

ghost use Rattle.std.specs.Prelude.{◌≡◌, ◌+◌, ◌*◌, ◌≤◌, ◌++◌, true, IfOk, OnOk, OnErr, count_by, is_some};
ghost use Rattle.apf_coding.specs.Writing.{Extends};
ghost use Rattle.policy_state.specs.Policy.{ip4};
ghost use Rattle.apf_asm.specs.Fragment.{Emits};
ghost use Rattle.policy_state.specs.Rulings.{said_of};
ghost use Rattle.policy_state.specs.Ranges.{IsMac};
ghost use Rattle.ip_rules.specs.Ip4Listing.{keepalive_items, dhcp_items, net_items, destination_items, filtered_items, first_items, natt_items, last_items, ip4_items, IsNetInRange};
ghost use Rattle.policy_state.specs.Rooms.{ip4_room};
ghost use Rattle.policy_state.specs.Weights.{keepalive_weight};

use crate::keepalives::{add_keepalives, header_into, label_behind};
use apf_asm::{Item, Target, count, fixed, jump, jump_if, jump_unless, load, place, to_end};
use apf_base::{List, OutOfMemory};
use apf_coding::{Op, Verdict};
use data_counters::Counter;
use policy_state::{Address, Basis};
use std::alloc::Global;

/// The broadcast MAC.
const BROADCAST: [u8; 6] = [0xff; 6];

/// The bits of a fragment's offset, in its word of 2 bytes (RFC 791, section 3.1).
const FRAGMENT_OFFSET: u32 = 0x1fff;

/// DHCP to this host. Other packets go over it.
fn dhcp_items(alloc: Global, away: u32, mac: &[u8; 6]) -> Result<List<Item>, OutOfMemory>
    ensures items { IfOk result (λ xs. xs ≡ dhcp_items away mac.now) }
    ensures fits { IfOk result (λ xs. IsMac mac.now) }
{
    let client = jump_unless(alloc, mac, Target::Label(away))?;
    List::of(
        alloc,
        [
            load(alloc, Op::Ldb, 23),
            jump_if(alloc, Op::Jne, 17, Target::Label(away)),
            load(alloc, Op::Ldh, 20),
            jump_if(alloc, Op::Jset, FRAGMENT_OFFSET, Target::Label(away)),
            header_into(alloc, 1),
            load(alloc, Op::Ldhx, 16),
            jump_if(alloc, Op::Jne, 68, Target::Label(away)),
            header_into(alloc, 0),
            fixed(alloc, Op::Add, 0, 1, 50),
            client,
            count(alloc, Counter::PassedDhcp.number()),
            jump(alloc, to_end(Verdict::Pass)),
            Item::Label(away),
        ],
    )
}

/// The net's broadcast address, with the destination in R0.
fn add_net(alloc: Global, address: Option<Address>, out: &mut List<Item>) -> Result<(), OutOfMemory>
    ensures ok { OnOk result (out.new ≡ out.old ++ net_items address) }
    ensures fits { OnOk result (IsNetInRange address) }
    ensures err { OnErr result (out.new ≡ out.old) }
{
    let Some(own) = address else {
        return Ok(());
    };
    if own.prefix >= 31 {
        return Ok(());
    }
    out.append(List::of(
        alloc,
        [
            count(alloc, Counter::DroppedIpv4BroadcastNet.number()),
            jump_if(alloc, Op::Jeq, own.net_broadcast(), to_end(Verdict::Drop)),
        ],
    )?)
}

/// Multicast and broadcast. An `Err` leaves a part of the items.
fn add_destination(
    alloc: Global,
    address: Option<Address>,
    out: &mut List<Item>,
) -> Result<(), OutOfMemory>
    ensures ok { OnOk result (out.new ≡ out.old ++ destination_items address) }
    ensures fits { OnOk result (IsNetInRange address) }
    ensures err { OnErr result (Extends out.old out.new) }
{
    out.append(List::of(
        alloc,
        [
            load(alloc, Op::Ldb, 30),
            fixed(alloc, Op::And, 0, 1, 0xf0),
            count(alloc, Counter::DroppedIpv4Multicast.number()),
            jump_if(alloc, Op::Jeq, 0xe0, to_end(Verdict::Drop)),
            load(alloc, Op::Ldw, 30),
            count(alloc, Counter::DroppedIpv4BroadcastAddr.number()),
            jump_if(alloc, Op::Jeq, 0xffff_ffff, to_end(Verdict::Drop)),
        ],
    )?)?;
    add_net(alloc, address, out)
}

/// What is asked before the keepalives, where multicast is filtered. An `Err` leaves a part of the items.
#[tactic(auto, using(apf_coding::proofs::Appends::extends_more))]
fn add_filtered(
    alloc: Global,
    away: u32,
    basis: &Basis,
    out: &mut List<Item>,
) -> Result<(), OutOfMemory>
    ensures ok { OnOk result (out.new ≡ out.old ++ filtered_items basis.now.state.multicast away basis.now.config.mac basis.now.state.address) }
    ensures mac { OnOk result (basis.now.state.multicast ≡ true → IsMac basis.now.config.mac) }
    ensures address { OnOk result (basis.now.state.multicast ≡ true → IsNetInRange basis.now.state.address) }
    ensures err { OnErr result (Extends out.old out.new) }
{
    if !basis.state.multicast {
        return Ok(());
    }
    out.append(dhcp_items(alloc, away, &basis.config.mac)?)?;
    add_destination(alloc, basis.state.address, out)?;
    Ok(())
}

/// NAT keepalives over UDP (RFC 3948, section 2.3), from port 4500. Other packets go over it.
fn add_natt(alloc: Global, away: u32, out: &mut List<Item>) -> Result<(), OutOfMemory>
    ensures ok { OnOk result (out.new ≡ out.old ++ natt_items away) }
    ensures err { OnErr result (out.new ≡ out.old) }
{
    out.append(List::of(
        alloc,
        [
            load(alloc, Op::Ldb, 23),
            jump_if(alloc, Op::Jne, 17, Target::Label(away)),
            load(alloc, Op::Ldh, 20),
            jump_if(alloc, Op::Jset, FRAGMENT_OFFSET, Target::Label(away)),
            header_into(alloc, 1),
            load(alloc, Op::Ldhx, 14),
            jump_if(alloc, Op::Jne, 4500, Target::Label(away)),
            load(alloc, Op::Ldhx, 18),
            jump_if(alloc, Op::Jne, 9, Target::Label(away)),
            load(alloc, Op::Ldbx, 22),
            jump_if(alloc, Op::Jne, 0xff, Target::Label(away)),
            count(alloc, Counter::DroppedIpv4NattKeepalive.number()),
            jump(alloc, to_end(Verdict::Drop)),
            Item::Label(away),
        ],
    )?)
}

/// All other packets.
fn add_last(alloc: Global, multicast: bool, out: &mut List<Item>) -> Result<(), OutOfMemory>
    ensures ok { OnOk result (out.new ≡ out.old ++ last_items multicast) }
    ensures err { OnErr result (out.new ≡ out.old) }
{
    if !multicast {
        return out.append(List::of(
            alloc,
            [
                count(alloc, Counter::PassedIpv4.number()),
                jump(alloc, to_end(Verdict::Pass)),
            ],
        )?);
    }
    let unicast = jump_unless(alloc, &BROADCAST, to_end(Verdict::Pass))?;
    out.append(List::of(
        alloc,
        [
            place(alloc, 0),
            count(alloc, Counter::PassedIpv4Unicast.number()),
            unicast,
            count(alloc, Counter::DroppedIpv4L2Broadcast.number()),
            jump(alloc, to_end(Verdict::Drop)),
        ],
    )?)
}

/// What is asked of every frame, and what is asked before the keepalives. An `Err` leaves a part of the items.
#[tactic(auto, using(apf_coding::proofs::Appends::extends_more))]
fn add_first(
    alloc: Global,
    label: u32,
    basis: &Basis,
    out: &mut List<Item>,
) -> Result<(), OutOfMemory>
    requires { label ≤ 2000000 }
    ensures ok { OnOk result (out.new ≡ out.old ++ first_items basis.now label) }
    ensures mac { OnOk result (basis.now.state.multicast ≡ true → IsMac basis.now.config.mac) }
    ensures address { OnOk result (basis.now.state.multicast ≡ true → IsNetInRange basis.now.state.address) }
    ensures err { OnErr result (Extends out.old out.new) }
{
    out.append(List::of(
        alloc,
        [
            load(alloc, Op::Ldh, 12),
            jump_if(alloc, Op::Jne, 0x800, Target::Label(label + 2)),
        ],
    )?)?;
    add_filtered(alloc, label + 1, basis, out)?;
    Ok(())
}

/// The whole fragment, round the items for keepalives. Other frames go over the packet. An `Err` leaves a part of the items.
#[tactic(auto, using(apf_coding::proofs::Appends::extends_more))]
fn add_ip4(
    alloc: Global,
    basis: &Basis,
    next: u32,
    label: u32,
    out: &mut List<Item>,
) -> Result<(), OutOfMemory>
    requires next { next ≤ 1000000 }
    requires label { label ≤ 2000000 }
    ensures ok { OnOk result (out.new ≡ out.old ++ ip4_items basis.now label (keepalive_items next basis.now.state.keepalives)) }
    ensures mac { OnOk result (basis.now.state.multicast ≡ true → IsMac basis.now.config.mac) }
    ensures address { OnOk result (basis.now.state.multicast ≡ true → IsNetInRange basis.now.state.address) }
    ensures err { OnErr result (Extends out.old out.new) }
{
    add_first(alloc, label, basis, out)?;
    add_keepalives(alloc, basis, next, out)?;
    add_natt(alloc, label, out)?;
    add_last(alloc, basis.state.multicast, out)?;
    out.push(Item::Label(label + 2))
}

/// Appends the question on IPv4 (RFC 791). It draws at most twelve labels.
///
/// The fragment's instructions have at most 248 bytes, and 80 for each keepalive. After an error nothing has changed.
pub fn emit_ip4(
    alloc: Global,
    basis: &Basis,
    next: &mut u32,
    out: &mut List<Item>,
) -> Result<(), OutOfMemory>
    requires low { 2 ≤ next.old }
    requires high { next.old ≤ 1000000 }
    ensures ok { OnOk result (Emits (λ age frame. said_of (ip4 basis.now frame)) (ip4_room + keepalive_weight * count_by is_some basis.now.state.keepalives) next.old next.new out.old out.new) }
    ensures err { OnErr result (out.new ≡ out.old) }
    ensures next { OnErr result (next.new ≡ next.old) }
{
    let label = label_behind(*next, &basis.state);
    let before = out.len();
    let Ok(()) = add_ip4(alloc, basis, *next, label, out) else {
        out.truncate(before);
        return Err(OutOfMemory);
    };
    *next = label + 3;
    Ok(())
}
