use crate::*;
use apf_base::List;
use std::test::Fail;

const SENT: Keepalive = Keepalive {
    local: 0x0a00_0002,
    local_port: 40_000,
    remote: 0x0a00_0009,
    remote_port: 443,
    sequence: 1000,
    acknowledgement: 2000,
};

#[test]
fn updates_change_the_state(rt: HostRuntime) {
    let mut state = FilterState::start();
    for (row, update, answer) in [
        (
            "a prefix above 32",
            Update::Address(Some(Address {
                ip: 0x0a00_0001,
                prefix: 33,
            })),
            Err(StateError::Prefix(33)),
        ),
        (
            "an empty slot",
            Update::KeepaliveRemove { slot: 3 },
            Err(StateError::SlotEmpty(3)),
        ),
        (
            "a slot above 7",
            Update::KeepaliveAdd {
                slot: 8,
                sent: SENT,
            },
            Err(StateError::SlotRange(8)),
        ),
        (
            "the first in slot 0",
            Update::KeepaliveAdd {
                slot: 0,
                sent: SENT,
            },
            Ok(Changed::Yes),
        ),
        (
            "the second in slot 0",
            Update::KeepaliveAdd {
                slot: 0,
                sent: SENT,
            },
            Err(StateError::SlotInUse(0)),
        ),
        ("off already", Update::Doze(false), Ok(Changed::No)),
    ] {
        assert_eq!(rt; state.apply(&update), answer, "{row}");
    }
    assert_eq!(rt;
        state.keepalives,
        [Some(SENT), None, None, None, None, None, None, None]
    );
}

#[test]
fn copies_are_equal(rt: HostRuntime) -> Result<(), Fail> {
    let mut deny = List::new(rt.alloc());
    deny.push(0x88a2)?;
    assert!(rt; deny.len() <= 32);
    let config = Config {
        mac: [2, 0, 0, 0, 0, 1],
        capacity: 1024,
        drop_802_3: true,
        deny,
    };
    let basis = Basis {
        config,
        state: FilterState::start(),
        chosen: List::new(rt.alloc()),
    };
    let copy = basis.copy(rt.alloc())?;
    assert_eq!(rt; copy.config.deny.as_slice(), [0x88a2].as_slice());
    assert_eq!(rt; copy.config.capacity, 1024);
    Ok(())
}
