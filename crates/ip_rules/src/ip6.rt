//! The rule for IPv6.

ghost use Rattle.std.specs.Prelude.{◌≡◌, ◌+◌, ◌≤◌, ◌++◌, OnOk, OnErr};
ghost use Rattle.apf_coding.specs.Writing.{Extends};
ghost use Rattle.policy_state.specs.Ip6.{ip6_header_lines};
ghost use Rattle.apf_asm.specs.Fragment.{Emits};
ghost use Rattle.policy_state.specs.Rulings.{said_of};
ghost use Rattle.ip_rules.specs.Ip6Listing.{destination_items, message_items, unfiltered_items, filtered_items, dozing_items, ip6_items};
ghost use Rattle.policy_state.specs.Rooms.{ip6_header_room};

use apf_asm::{Item, Target, count, jump, jump_if, jump_unless, load, place, to_end};
use apf_base::{List, OutOfMemory};
use apf_coding::{Op, Verdict};
use data_counters::Counter;
use policy_state::Basis;
use std::alloc::Global;

/// ff02::/120, the groups of a link whose number has one byte, as all nodes, ff02::1 (RFC 4291, section 2.7.1).
const LINK_GROUPS: [u8; 15] = [0xff, 0x02, 0, 0, 0, 0, 0, 0, 0, 0, 0, 0, 0, 0, 0];

/// The next header of an ICMPv6 message (RFC 4443, section 1).
const ICMP6: u32 = 58;

/// The types of ICMPv6 messages that are asked for (RFC 4443, section 4.1, and RFC 4861, sections 4.1 and 4.4).
const ECHO_REQUEST: u32 = 128;

const ROUTER_SOLICITATION: u32 = 133;

const NEIGHBOR_ADVERTISEMENT: u32 = 136;

/// Whether a packet is multicast.
fn add_destination(alloc: Global, out: &mut List<Item>) -> Result<(), OutOfMemory>
    ensures ok { OnOk result (out.new ≡ out.old ++ destination_items) }
    ensures err { OnErr result (out.new ≡ out.old) }
{
    out.append(List::of(
        alloc,
        [
            count(alloc, Counter::DroppedIpv6Multicast.number()),
            load(alloc, Op::Ldb, 38),
            jump_if(alloc, Op::Jeq, 0xff, to_end(Verdict::Drop)),
            count(alloc, Counter::PassedIpv6UnicastNonIcmp.number()),
            jump(alloc, to_end(Verdict::Pass)),
        ],
    )?)
}

/// ICMPv6 messages. Those that aren't answered go over what is asked of advertisements.
fn add_message(alloc: Global, over: u32, out: &mut List<Item>) -> Result<(), OutOfMemory>
    ensures ok { OnOk result (out.new ≡ out.old ++ message_items over) }
    ensures err { OnErr result (out.new ≡ out.old) }
{
    let other = jump_unless(alloc, &LINK_GROUPS, Target::Label(over))?;
    out.append(List::of(
        alloc,
        [
            load(alloc, Op::Ldb, 54),
            count(alloc, Counter::DroppedIpv6RouterSolicitation.number()),
            jump_if(alloc, Op::Jeq, ROUTER_SOLICITATION, to_end(Verdict::Drop)),
            jump_if(alloc, Op::Jne, NEIGHBOR_ADVERTISEMENT, Target::Label(over)),
            place(alloc, 38),
            count(alloc, Counter::DroppedIpv6MulticastNa.number()),
            other,
            jump(alloc, to_end(Verdict::Drop)),
            Item::Label(over),
        ],
    )?)
}

/// Where multicast isn't filtered. An `Err` leaves a part of the items.
fn add_unfiltered(alloc: Global, over: u32, out: &mut List<Item>) -> Result<(), OutOfMemory>
    ensures ok { OnOk result (out.new ≡ out.old ++ unfiltered_items over) }
    ensures err { OnErr result (Extends out.old out.new) }
{
    out.append(List::of(
        alloc,
        [
            load(alloc, Op::Ldb, 20),
            count(alloc, Counter::PassedIpv6NonIcmp.number()),
            jump_if(alloc, Op::Jne, ICMP6, to_end(Verdict::Pass)),
        ],
    )?)?;
    add_message(alloc, over, out)
}

/// Where it is: ICMPv6 messages go over what is asked of the destination. An `Err` leaves a part of the items.
fn add_filtered(
    alloc: Global,
    message: u32,
    over: u32,
    out: &mut List<Item>,
) -> Result<(), OutOfMemory>
    ensures ok { OnOk result (out.new ≡ out.old ++ filtered_items message over) }
    ensures err { OnErr result (Extends out.old out.new) }
{
    out.append(List::of(
        alloc,
        [
            load(alloc, Op::Ldb, 20),
            jump_if(alloc, Op::Jeq, ICMP6, Target::Label(message)),
        ],
    )?)?;
    add_destination(alloc, out)?;
    out.push(Item::Label(message))?;
    add_message(alloc, over, out)
}

/// Where the host dozes as well: ICMPv6 messages but echo requests go over it. An `Err` leaves a part of the items.
fn add_dozing(
    alloc: Global,
    destination: u32,
    message: u32,
    over: u32,
    out: &mut List<Item>,
) -> Result<(), OutOfMemory>
    ensures ok { OnOk result (out.new ≡ out.old ++ dozing_items destination message over) }
    ensures err { OnErr result (Extends out.old out.new) }
{
    out.append(List::of(
        alloc,
        [
            load(alloc, Op::Ldb, 20),
            jump_if(alloc, Op::Jne, ICMP6, Target::Label(destination)),
            load(alloc, Op::Ldb, 54),
            jump_if(alloc, Op::Jne, ECHO_REQUEST, Target::Label(message)),
            Item::Label(destination),
        ],
    )?)?;
    add_destination(alloc, out)?;
    out.push(Item::Label(message))?;
    add_message(alloc, over, out)
}

/// The whole fragment. An `Err` leaves a part of the items.
fn add_ip6(alloc: Global, basis: &Basis, next: u32, out: &mut List<Item>) -> Result<(), OutOfMemory>
    requires { next ≤ 1000000 }
    ensures ok { OnOk result (out.new ≡ out.old ++ ip6_items basis.now next) }
    ensures err { OnErr result (Extends out.old out.new) }
{
    match (basis.state.multicast, basis.state.doze) {
        (false, _) => add_unfiltered(alloc, next, out),
        (true, false) => add_filtered(alloc, next + 1, next, out),
        (true, true) => add_dozing(alloc, next + 2, next + 1, next, out),
    }
}

/// Appends the questions on IPv6 that are asked of the headers alone (RFC 8200 and RFC 4861). It draws three labels.
///
/// The ethertype isn't asked for: the fragment is for frames whose ethertype is 0x86dd. Its instructions have at most 124
/// bytes. After an error nothing has changed.
pub fn emit_ip6(
    alloc: Global,
    basis: &Basis,
    next: &mut u32,
    out: &mut List<Item>,
) -> Result<(), OutOfMemory>
    requires low { 2 ≤ next.old }
    requires high { next.old ≤ 1000000 }
    ensures ok { OnOk result (Emits (λ age frame. said_of (ip6_header_lines basis.now frame)) ip6_header_room next.old next.new out.old out.new) }
    ensures err { OnErr result (out.new ≡ out.old) }
    ensures next { OnErr result (next.new ≡ next.old) }
{
    let before = out.len();
    let Ok(()) = add_ip6(alloc, basis, *next, out) else {
        out.truncate(before);
        return Err(OutOfMemory);
    };
    *next += 3;
    Ok(())
}
