//! Scripts with each kind of line and of damage, and each line of a report.

use crate::*;
use apf_base::List;
use apf_coding::Verdict;
use data_counters::{Counter, raise};
use policy_state::{Answer, Script, StateError, UpdateReply};
use ra_records::{RaError, RaReply};
use std::alloc::{AllocError, AllocGlobal, Global};
use std::process::Abort;
use std::test::Fail;

/// The first six lines.
const FIRST: [&str; 6] = [
    "apf 1",
    "mac 02:00:00:00:00:01",
    "capacity 1024",
    "start 1000",
    "drop802 on",
    "deny none",
];

/// Lines that are not of the form of their place: for each place the lines that are refused there.
#[rattlefmt::skip]
const FORMS: [(u32, &str); 7] = [
    (1, "\
apf 01
apf 2
apf 10
apf
apf  1
apf 1\x20
 apf 1
Apf 1
apf\t1
\x20
mac 02:00:00:00:00:01
"),
    (2, "\
mac 02:00:00:00:00
mac 02:00:00:00:00:01:02
mac 02:00:00:00:00:0A
mac 02:00:00:00:00:0g
mac 02:00:00:00:00:1
mac 2:00:00:00:00:01
mac 020000000001
mac 02-00-00-00-00-01
mac 02:00:00:00:00:01\x20
mac  02:00:00:00:00:01
mac
mac\x20
MAC 02:00:00:00:00:01
"),
    (3, "\
capacity 100
capacity 127
capacity 8193
capacity 0128
capacity +128
capacity -128
capacity 128.0
capacity 0x80
capacity 4294967424
capacity
capacity\x20
"),
    (4, "\
start 4294967296
start 18446744073709551616
start 00
start 01
start -1
start 1\x20
start 1 2
start
"),
    (5, "\
drop802 On
drop802 yes
drop802 1
drop802
drop802\x20
drop802 on off
drop 802 on
"),
    (6, "\
deny
deny\x20
deny None
deny 88A2
deny 88a
deny 088a2
deny 0x88a2
deny 88a2,
deny ,88a2
deny 88a2,,88a4
deny 88a2, 88a4
deny 88a2 88a4
deny none,88a2
deny 88a2,none
"),
    (7, "\
\x20\x20
at 1000
at 1000\x20
at 1000 doze
at 1000 doze on\x20
at 1000 doze  on
at  1000 doze on
 at 1000 doze on
At 1000 doze on
at 01000 doze on
at -1 doze on
at 4294967296 doze on
at 1000 sleep on
at 1000 Doze on
at 1000 doze On
at 1000 multicast
at 1000 multicast 1
at 1000 address
at 1000 address none\x20
at 1000 address 192.168.1.5
at 1000 address 192.168.1.5/
at 1000 address 192.168.1.5/024
at 1000 address 192.168.1.5/256
at 1000 address 192.168.1.256/24
at 1000 address 192.168.01.5/24
at 1000 address 192.168.1/24
at 1000 address 192.168.1.5.6/24
at 1000 address 192.168.1.5/24/24
at 1000 address ::1/64
at 1000 keepalive
at 1000 keepalive add
at 1000 keepalive add 0 10.0.0.2:40000 10.0.0.9:443 1000
at 1000 keepalive add 0 10.0.0.2:40000 10.0.0.9:443 1000 2000\x20
at 1000 keepalive add 0 10.0.0.2:40000 10.0.0.9:443 1000 2000 1
at 1000 keepalive add 0 10.0.0.2:65536 10.0.0.9:443 1000 2000
at 1000 keepalive add 0 10.0.0.2:40000 10.0.0.9:0443 1000 2000
at 1000 keepalive add 0 10.0.0.2 10.0.0.9:443 1000 2000
at 1000 keepalive add 0 10.0.0.2/40000 10.0.0.9:443 1000 2000
at 1000 keepalive add 00 10.0.0.2:40000 10.0.0.9:443 1000 2000
at 1000 keepalive add 0 10.0.0.2:40000 10.0.0.9:443 4294967296 2000
at 1000 keepalive add 0 10.0.0.2:40000 10.0.0.9:443 1000 4294967296
at 1000 keepalive remove
at 1000 keepalive remove 0\x20
at 1000 keepalive remove 4294967296
at 1000 keepalive removed 0
deny none
at 999 doze
"),
];

/// Lines of each form, by their places. What the script then says stands behind a semicolon.
#[rattlefmt::skip]
const FORMED: [(u32, &str); 7] = [
    (1, "\
apf 1 ; capacity: 1024
"),
    (2, "\
mac fe:dc:ba:98:76:50 ; mac: [254, 220, 186, 152, 118, 80]
"),
    (3, "\
capacity 128 ; capacity: 128
capacity 8192 ; capacity: 8192
"),
    (4, "\
start 0 ; start: 0
"),
    (5, "\
drop802 off ; drop_802_3: false
"),
    (6, "\
deny 88a2 ; deny: List { items: [34978] }
deny 0000,ffff,0000 ; deny: List { items: [0, 65535, 0] }
"),
    (7, "\
at 1000 multicast on ; time: 1000, update: Multicast(true)
at 1000 multicast off ; update: Multicast(false)
at 4294967295 doze on ; time: 4294967295, update: Doze(true)
at 1000 doze off ; update: Doze(false)
at 1000 address none ; update: Address(None)
at 1000 address 192.168.1.5/24 ; update: Address(Some(Address { ip: 3232235781, prefix: 24 }))
at 1000 address 0.0.0.0/0 ; update: Address(Some(Address { ip: 0, prefix: 0 }))
at 1000 address 255.255.255.255/255 ; update: Address(Some(Address { ip: 4294967295, prefix: 255 }))
at 1001 keepalive add 0 10.0.0.2:40000 10.0.0.9:443 1000 2000 ; update: KeepaliveAdd { slot: 0, sent: Keepalive { local: 167772162, local_port: 40000, remote: 167772169, remote_port: 443, sequence: 1000, acknowledgement: 2000 } }
at 1001 keepalive add 4294967295 0.0.0.0:0 0.0.0.0:65535 4294967295 0 ; update: KeepaliveAdd { slot: 4294967295, sent: Keepalive { local: 0, local_port: 0, remote: 0, remote_port: 65535, sequence: 4294967295, acknowledgement: 0 } }
at 1000 keepalive remove 8 ; update: KeepaliveRemove { slot: 8 }
#at 1000 doze on ; events: List { items: [] }
# at 1 ; events: List { items: [] }
 ; events: List { items: [] }
"),
];

/// Texts of several lines, and the first fault of each.
#[rattlefmt::skip]
const TEXTS: [(&[u8], u32, ScriptKind); 10] = [
    (b"", 1, ScriptKind::End),
    (b"# only a comment", 2, ScriptKind::End),
    (b"apf 1\nmac 02:00:00:00:00:01\ncapacity 1024\nstart 1000\ndrop802 on\n", 6, ScriptKind::End),
    (b"apf 1\n\n#\n\nmac 02:00:00:00:00:01\n#", 7, ScriptKind::End),
    (b"apf 1\r\nmac 02:00:00:00:00:01\n", 1, ScriptKind::Form),
    (b"apf 1\n\nmac 2\ncapacity 1\n", 3, ScriptKind::Form),
    (b"apf 1\nmac 02:00:00:00:00:01\ncapacity 128\nstart 1000\ndrop802 on\ndeny none\nat 999 doze on", 7, ScriptKind::Order),
    (b"apf 1\nmac 02:00:00:00:00:01\ncapacity 128\nstart 5\ndrop802 on\ndeny none\nat 5 doze on\n\nat 7 doze off\nat 7 doze on\nat 6 doze on\nat 5\n", 11, ScriptKind::Order),
    (b"apf 1\nmac 02:00:00:00:00:01\ncapacity 128\nstart 5\ndrop802 on\ndeny none\n\x80", 7, ScriptKind::Form),
    (b"#\x80\xff\x00\napf 1\nmac 02:00:00:00:00:01\ncapacity 128\nstart 5\ndrop802 on\ndeny none\n#\r\nat 4 doze on", 9, ScriptKind::Order),
];

/// A script whose line with this number is another. The last line lacks its line feed.
fn with_line(alloc: Global, number: u32, line: &str) -> Result<String, AllocError> {
    let mut text = String::new(alloc);
    for (k, first) in FIRST.iter().enumerate() {
        let line = if k + 1 == number as usize {
            line
        } else {
            *first
        };
        text.push_str(line)?;
        text.push('\n')?;
    }
    if number == 7 {
        text.push_str(line)?;
    }
    Ok(text)
}

fn read(rt: &(impl Abort + AllocGlobal), text: &[u8]) -> Result<Script, ScriptError> {
    assert!(rt; text.len() <= 1048576);
    read_script(rt.alloc(), text)
}

/// Stops where an answer is not this line and kind.
fn expect_fault(rt: &(impl Abort + AllocGlobal), text: &[u8], line: u32, kind: ScriptKind) {
    match read(rt, text) {
        Err(
            ScriptError::Bad {
                line: at,
                kind: cause,
            },
        ) => {
            assert_eq!(rt; (at, cause), (line, kind), "{text:?}");
        }
        other => panic!(rt; "{text:?}: {other:?}"),
    }
}

/// Stops where a script does not say this.
fn expect_saying(rt: &(impl Abort + AllocGlobal), text: &str, saying: &str) -> Result<(), Fail> {
    let script = read(rt, text.as_bytes())?;
    let said = format!(in rt.alloc(); "{script:?}")?;
    assert!(rt; said.contains(saying), "{text}: {said}");
    Ok(())
}

/// Stops where 32 ethertypes are refused, or 33 are not.
fn expect_few_ethertypes(rt: &(impl Abort + AllocGlobal)) -> Result<(), Fail> {
    let mut deny = format!(in rt.alloc(); "deny 0000")?;
    for e in 1..32 {
        write!(deny, ",{e:04x}")?;
    }
    let text = with_line(rt.alloc(), 6, deny.as_str())?;
    expect_saying(rt, text.as_str(), "30, 31] }")?;
    deny.push_str(",0020")?;
    let text = with_line(rt.alloc(), 6, deny.as_str())?;
    expect_fault(rt, text.as_bytes(), 6, ScriptKind::Form);
    Ok(())
}

/// Stops where a line of a place is taken.
fn expect_refused(
    rt: &(impl Abort + AllocGlobal),
    number: u32,
    lines: &str,
) -> Result<(), AllocError> {
    for line in lines.lines() {
        let text = with_line(rt.alloc(), number, line)?;
        expect_fault(rt, text.as_bytes(), number, ScriptKind::Form);
    }
    Ok(())
}

/// Stops where a line of a place does not say what stands behind it.
fn expect_read(rt: &(impl Abort + AllocGlobal), number: u32, lines: &str) -> Result<(), Fail> {
    for row in lines.lines() {
        let (line, saying) = row.split_once(" ; ").ok_or("a semicolon")?;
        let text = with_line(rt.alloc(), number, line)?;
        expect_saying(rt, text.as_str(), saying)?;
    }
    Ok(())
}

#[test]
fn reads_scripts(rt: HostRuntime) -> Result<(), Fail> {
    for (number, lines) in FORMS {
        expect_refused(&rt, number, lines)?;
    }
    for (number, lines) in FORMED {
        expect_read(&rt, number, lines)?;
    }
    for (text, line, kind) in TEXTS {
        expect_fault(&rt, text, line, kind);
    }
    expect_few_ethertypes(&rt)
}

/// A report with each kind of line.
const REPORT: &str = "\
gen 0 at 1000 size 2 left none code 00ff
gen 18446744073709551615 at 4294967295 size 0 left 1,12,18446744073709551615 code \n\
same at 1000
refused at 1000 prefix 33
refused at 1000 slot-range 8
refused at 1000 slot-in-use 0
refused at 1000 slot-empty 3
kept at 1001 need 592 limit 572
frame 1 gen 0 age 0 pass PASSED_ARP steps 20
frame 2 lane 1 gen 7 age 300 drop DROPPED_RA steps 4294967295
frame 3 gen 0 age 4294967295 pass none steps 0
ra 1 match 1
ra 2 refreshed 12
ra 3 new 18446744073709551615
ra 4 full
ra 5 zero
ra 6 bad short
ra 7 bad too-long
ra 8 bad cut-option 118
ra 9 bad zero-option 70
ra 10 bad short-option 70
counter TOTAL_PACKETS 4294967295
counter PASSED_ARP 1
counter DROPPED_RA 2
total frames 3 passed 2 dropped 1 programs 3
";

fn answer(number: u64, age: u32, verdict: Verdict, counter: Option<Counter>, steps: u32) -> Answer {
    Answer {
        number,
        age,
        verdict,
        counter,
        steps,
    }
}

fn print_updates(alloc: Global, out: &mut List<u8>) -> Result<(), Fail> {
    print_update(alloc, &UpdateReply::Same, 1000, out)?;
    print_update(
        alloc,
        &UpdateReply::Refused(StateError::Prefix(33)),
        1000,
        out,
    )?;
    print_update(
        alloc,
        &UpdateReply::Refused(StateError::SlotRange(8)),
        1000,
        out,
    )?;
    print_update(
        alloc,
        &UpdateReply::Refused(StateError::SlotInUse(0)),
        1000,
        out,
    )?;
    print_update(
        alloc,
        &UpdateReply::Refused(StateError::SlotEmpty(3)),
        1000,
        out,
    )?;
    let kept = UpdateReply::NotInstalled {
        need: 592,
        limit: 572,
    };
    print_update(alloc, &kept, 1001, out)?;
    Ok(())
}

fn print_replies(alloc: Global, out: &mut List<u8>) -> Result<(), Fail> {
    print_ra(alloc, 1, &RaReply::Match(1), out)?;
    print_ra(alloc, 2, &RaReply::Refreshed(12), out)?;
    print_ra(alloc, 3, &RaReply::New(u64::MAX), out)?;
    print_ra(alloc, 4, &RaReply::Full, out)?;
    print_ra(alloc, 5, &RaReply::ZeroLifetime, out)?;
    print_ra(alloc, 6, &RaReply::Bad(RaError::Short), out)?;
    print_ra(alloc, 7, &RaReply::Bad(RaError::TooLong), out)?;
    print_ra(alloc, 8, &RaReply::Bad(RaError::CutOption(118)), out)?;
    print_ra(alloc, 9, &RaReply::Bad(RaError::ZeroOption(70)), out)?;
    print_ra(alloc, 10, &RaReply::Bad(RaError::ShortOption(70)), out)?;
    Ok(())
}

#[test]
fn prints_reports(rt: HostRuntime) -> Result<(), Fail> {
    let alloc = rt.alloc();
    let mut out = List::new(alloc);
    print_gen(alloc, 0, 1000, &[], &[0x00, 0xff], &mut out)?;
    print_gen(alloc, u64::MAX, u32::MAX, &[1, 12, u64::MAX], &[], &mut out)?;
    print_updates(alloc, &mut out)?;
    for (k, lane, answer) in [
        (
            1,
            None,
            answer(0, 0, Verdict::Pass, Some(Counter::PassedArp), 20),
        ),
        (
            2,
            Some(1),
            answer(7, 300, Verdict::Drop, Some(Counter::DroppedRa), u32::MAX),
        ),
        (3, None, answer(0, u32::MAX, Verdict::Pass, None, 0)),
    ] {
        print_frame(alloc, k, lane, &answer, &mut out)?;
    }
    print_replies(alloc, &mut out)?;
    let mut memory = [0; 128];
    memory[124..128].copy_from_slice(&[0xff; 4]);
    raise(&mut memory, Counter::DroppedRa);
    raise(&mut memory, Counter::PassedArp);
    raise(&mut memory, Counter::DroppedRa);
    print_totals(alloc, &memory, 3, 2, 3, &mut out)?;
    assert_eq!(rt; str::from_utf8(out.as_slice())?, REPORT);
    Ok(())
}
