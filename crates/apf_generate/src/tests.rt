mod ip4;
mod ip6;
mod ra;

ghost use Rattle.std.specs.Prelude.{◌≤◌, length};

use crate::generate;
use apf_base::List;
use apf_coding::Verdict;
use apf_interp::interpret;
use data_counters::{Counter, raise};
use policy_state::{Address, Basis, Config, FilterState, decide};
use std::test::Fail;

#[rattlefmt::skip]
const ARP_REQUEST: [u8; 42] = [
    0xff, 0xff, 0xff, 0xff, 0xff, 0xff, // destination: broadcast
    0x02, 0x00, 0x00, 0x00, 0x00, 0x99, // source
    0x08, 0x06,                         // EtherType: ARP
    0x00, 0x01,                         // hardware: Ethernet
    0x08, 0x00,                         // protocol: IPv4
    0x06, 0x04,                         // lengths of the addresses
    0x00, 0x01,                         // operation: request
    0x02, 0x00, 0x00, 0x00, 0x00, 0x99, // sender's MAC
    0xc0, 0xa8, 0x01, 0x09,             // sender: 192.168.1.9
    0x00, 0x00, 0x00, 0x00, 0x00, 0x00, // target's MAC
    0xc0, 0xa8, 0x01, 0x05,             // target: 192.168.1.5
];

/// The request with other bytes at two places.
fn arp_with(operation: u8, sender: [u8; 4], target: u8) -> [u8; 42] {
    let mut frame = ARP_REQUEST;
    frame[21] = operation;
    frame[28..32].copy_from_slice(&sender);
    frame[41] = target;
    frame
}

/// 128 zero bytes with these counters raised.
fn memory_of(total: bool, counter: Option<Counter>) -> [u8; 128] {
    let mut memory = [0; 128];
    if total {
        raise(&mut memory, Counter::TotalPackets);
    }
    if let Some(counter) = counter {
        raise(&mut memory, counter);
    }
    memory
}

/// Whether code and policy answer a frame of more than 14 bytes so at an age, and raise this counter beside TOTAL_PACKETS.
fn is_answered(
    code: &[u8],
    basis: &Basis,
    age: u32,
    frame: &[u8],
    answer: (Verdict, Option<Counter>),
) -> bool
    requires code { length code.now ≤ 65535 }
    requires frame { length frame.now ≤ 262144 }
{
    let mut memory = [0; 128];
    let outcome = interpret(code, &mut memory, frame, age);
    decide(basis, age, frame) == answer
        && outcome.verdict == answer.0
        && memory == memory_of(true, answer.1)
}

#[test]
fn programs_decide_as_the_policy(rt: HostRuntime) -> Result<(), Fail> {
    let basis = Basis {
        config: Config {
            mac: [2, 0, 0, 0, 0, 1],
            capacity: 1024,
            drop_802_3: true,
            deny: List::new(rt.alloc()),
        },
        state: FilterState {
            multicast: false,
            doze: false,
            address: Some(Address {
                ip: 0xc0a8_0105,
                prefix: 24,
            }),
            keepalives: [None; 8],
        },
        chosen: List::new(rt.alloc()),
    };
    let code = generate(rt.alloc(), &basis)?;
    assert!(rt; code.len() <= 600);

    let other_host = arp_with(1, [0xc0, 0xa8, 1, 9], 6);
    let no_host = arp_with(2, [0; 4], 5);
    for (row, frame, verdict, counter, total) in [
        (
            "a request",
            ARP_REQUEST.as_slice(),
            Verdict::Pass,
            Some(Counter::PassedArp),
            true,
        ),
        (
            "for another host",
            other_host.as_slice(),
            Verdict::Drop,
            Some(Counter::DroppedArpOtherHost),
            true,
        ),
        (
            "a reply of no host",
            no_host.as_slice(),
            Verdict::Drop,
            Some(Counter::DroppedArpReplySpaNoHost),
            true,
        ),
        (
            "cut within the target",
            &ARP_REQUEST[..37],
            Verdict::Pass,
            None,
            true,
        ),
        (
            "14 zero bytes",
            [0; 14].as_slice(),
            Verdict::Pass,
            None,
            false,
        ),
    ] {
        assert_eq!(rt; decide(&basis, 0, frame), (verdict, counter), "{row}");
        assert!(rt; frame.len() <= 42, "{row}");
        let mut memory = [0; 128];
        let outcome = interpret(code.as_slice(), &mut memory, frame, 0);
        assert_eq!(rt; outcome.verdict, verdict, "{row}");
        assert_eq!(rt; memory, memory_of(total, counter), "{row}");
    }
    Ok(())
}
