ghost use Rattle.std.specs.Prelude.{◌≤◌, IfOk};
ghost use Rattle.apf_generate.specs.Sizes.{need_of};
ghost use Rattle.size_fit.specs.Sizes.{limit_of};

use crate::running::printed_program;
use apf_base::List;
use apf_generate::generate;
use apf_interp::{Verdict, interpret};
use data_counters::{Counter, raise};
use policy_state::{Address, Basis, Config, FilterState, Keepalive, decide};
use size_fit::base;
use std::alloc::Global;
use std::process::Abort;
use std::test::Fail;

/// Frames by their fields, in hexadecimal. Each is also cut at every length.
const FRAMES: [&str; 16] = [
    // lengths and ethertypes: the greatest length, the least ethertype, one that is denied, one that is unknown
    "020000000001 020000000099 05ff 00",
    "020000000001 020000000099 0600 00",
    "ffffffffffff 020000000099 88a2 00",
    "020000000001 020000000099 88a4 00",
    // ARP: a request, a reply, a reply of no host, a request for no address, another operation
    "ffffffffffff 020000000099 0806 0001 0800 06 04 0001 020000000099 c0a80109 000000000000 c0a80105",
    "020000000001 020000000099 0806 0001 0800 06 04 0002 020000000099 c0a80109 020000000001 c0a80105",
    "ffffffffffff 020000000099 0806 0001 0800 06 04 0002 020000000099 00000000 020000000001 c0a80106",
    "ffffffffffff 020000000099 0806 0001 0800 06 04 0002 020000000099 c0a80109 020000000001 00000000",
    "ffffffffffff 020000000099 0806 0001 0800 06 04 0003 020000000099 c0a80109 020000000001 c0a80105",
    // IPv4: UDP to the net's broadcast, a NAT keepalive, an answer to the keepalive, a multicast packet with a header of
    // 24 bytes
    "ffffffffffff 020000000099 0800 4500001c 00000000 40110000 c0a80109 c0a801ff 1388 1389 0008 0000",
    "020000000001 020000000099 0800 4500001d 00000000 40110000 0a000009 0a000002 1194 1194 0009 0000 ff",
    "020000000001 020000000099 0800 45000028 00000000 40060000 0a000009 0a000002 01bb9c40 000007d0 000003e9 50100000 00000000",
    "01005e0000fb 020000000099 0800 46000020 00000000 01110000 c0a80109 e00000fb 94040000 14e9 14e9 0008 0000",
    // ICMPv6: an echo request and an advertisement to all nodes, a router solicitation
    "333300000001 020000000099 86dd 60000000 0008 3a ff fe800000000000000000000000000099 ff020000000000000000000000000001 8000 0000 0000 0000",
    "333300000001 020000000099 86dd 60000000 0018 3a ff fe800000000000000000000000000099 ff020000000000000000000000000001 8800 0000 2000 0000",
    "333300000002 020000000099 86dd 60000000 0008 3a ff fe800000000000000000000000000099 ff020000000000000000000000000002 8500 0000 0000 0000",
];

/// The keepalive that one of the frames answers.
const SENT: Keepalive = Keepalive {
    local: 0x0a00_0002,
    local_port: 40_000,
    remote: 0x0a00_0009,
    remote_port: 443,
    sequence: 1000,
    acknowledgement: 2000,
};

const ADDRESSES: [Option<Address>; 3] = [
    None,
    Some(Address {
        ip: 0xc0a8_0105,
        prefix: 24,
    }),
    Some(Address {
        ip: 0x0a00_0002,
        prefix: 31,
    }),
];

fn bytes_of(alloc: Global, text: &str) -> Result<Vec<u8>, Fail> {
    let mut bytes = Vec::new(alloc);
    for field in text.split(' ') {
        bytes.extend_from_slice(&hex::decode(alloc, field)?)?;
    }
    Ok(bytes)
}

fn denied(alloc: Global, on: bool) -> Result<List<u16>, Fail> {
    let mut deny = List::new(alloc);
    if on {
        deny.push(0x88a2)?;
        deny.push(0x88b8)?;
    }
    Ok(deny)
}

// The lowest five bits of a number switch the settings on.
fn basis_of(
    rt: &impl Abort,
    alloc: Global,
    number: u32,
    address: Option<Address>,
) -> Result<Basis, Fail>
    ensures { IfOk result (λ basis. need_of basis ≤ limit_of basis.config) }
{
    let deny = denied(alloc, number & 2 != 0)?;
    assert!(rt; deny.len() <= 32);
    let mut keepalives = [None; 8];
    if number & 16 != 0 {
        keepalives[1] = Some(Keepalive { local: 1, ..SENT });
        keepalives[7] = Some(SENT);
    }
    let basis = Basis {
        config: Config {
            mac: [2, 0, 0, 0, 0, 1],
            capacity: 2048,
            drop_802_3: number & 1 != 0,
            deny,
        },
        state: FilterState {
            multicast: number & 4 != 0,
            doze: number & 8 != 0,
            address,
            keepalives,
        },
        chosen: List::new(alloc),
    };
    let need = base(&basis.config, &basis.state);
    assert!(rt; need <= 1920);
    Ok(basis)
}

fn check_run(
    rt: &impl Abort,
    basis: &Basis,
    code: &[u8],
    frame: &[u8],
    age: u32,
    memory: &[u8; 128],
) {
    let (verdict, counter) = decide(basis, age, frame);
    let mut expected = *memory;
    if frame.len() > 14 {
        raise(&mut expected, Counter::TotalPackets);
    }
    if let Some(counter) = counter {
        raise(&mut expected, counter);
    }
    let mut left = *memory;
    assert!(rt; frame.len() <= 1514);
    assert!(rt; code.len() <= 1920);
    let outcome = interpret(code, &mut left, frame, age);
    assert_eq!(rt; outcome.verdict, verdict);
    assert_eq!(rt; left, expected);
}

fn check_cuts(rt: &impl Abort, basis: &Basis, code: &[u8], frame: &[u8]) {
    let mut mixed = [0; 128];
    mixed[127] = 0xff;
    mixed[126] = 0xff;
    for end in 14..=frame.len() {
        check_run(rt, basis, code, &frame[..end], 0, &[0; 128]);
        check_run(rt, basis, code, &frame[..end], 1, &mixed);
        check_run(rt, basis, code, &frame[..end], u32::MAX, &[0xff; 128]);
    }
}

fn check_state(
    rt: &impl Abort,
    alloc: Global,
    number: u32,
    address: Option<Address>,
) -> Result<(), Fail> {
    let basis = basis_of(rt, alloc, number, address)?;
    let code = generate(alloc, &basis)?;
    assert!(rt; code.len() <= 1920);
    for text in &FRAMES {
        let frame = bytes_of(alloc, text)?;
        check_cuts(rt, &basis, code.as_slice(), &frame);
    }
    Ok(())
}

#[test]
fn programs_decide_as_the_policy(rt: HostRuntime) -> Result<(), Fail> {
    for address in ADDRESSES {
        for number in 0..32 {
            check_state(&rt, rt.alloc(), number, address)?;
        }
    }
    Ok(())
}

#[test]
fn a_printed_program_drops_arp_for_another_host(rt: HostRuntime) -> Result<(), Fail> {
    let code = printed_program(rt.alloc(), "192.168.1.5/24", "m")?;
    let mut frame = bytes_of(rt.alloc(), FRAMES[4])?;
    assert!(rt; code.len() <= 600 && frame.len() == 42);
    frame[41] = 6;
    let outcome = interpret(&code, &mut [0; 128], &frame, 0);
    assert_eq!(rt; outcome.verdict, Verdict::Drop);
    Ok(())
}
