use crate::*;
use apf_base::MEMORY_SIZE;

/// 128 bytes of ff.
const FULL: [u8; MEMORY_SIZE] = [0xff; MEMORY_SIZE];

#[test]
fn counters_stand_in_their_words(rt: HostRuntime) {
    let mut memory = FULL;
    raise(&mut memory, Counter::TotalPackets);
    let mut wrapped = FULL;
    wrapped[124..128].copy_from_slice(&[0; 4]);
    assert_eq!(rt; memory, wrapped);

    let mut memory = [0; 128];
    memory[20..24].copy_from_slice(&[0x01, 0x02, 0x03, 0x04]);
    assert_eq!(rt; get(&memory, Counter::DroppedRa), 0x0102_0304);
    assert_eq!(rt; get(&memory, Counter::DroppedIpv4NattKeepalive), 0);

    let mut sum = FULL;
    add_all(&mut sum, &memory);
    let mut expected = FULL;
    expected[20..24].copy_from_slice(&[0x01, 0x02, 0x03, 0x03]);
    assert_eq!(rt; sum, expected);
}

#[test]
fn counters_have_names(rt: HostRuntime) {
    for (number, name) in [
        (1, Some("TOTAL_PACKETS")),
        (13, Some("DROPPED_802_3_FRAME")),
        (27, Some("DROPPED_RA")),
        (28, Some("DROPPED_IPV4_NATT_KEEPALIVE")),
        (29, None),
        (0, None),
    ] {
        assert_eq!(rt;
            Counter::from_number(number).map(Counter::name),
            name,
            "at {number}"
        );
    }
}
