use crate::{Hand, most_of, share_of, total, woven};
use apf_base::MEMORY_SIZE;
use std::test::Fail;

/// The items that are dealt.
const ITEMS: [u8; 7] = [1, 2, 3, 4, 5, 6, 7];

/// A hand that keeps the items themselves.
#[derive(Drop)]
struct Keeper<'a> {
    items: &'a [u8],
    memory: [u8; MEMORY_SIZE],
}

impl<'a> Hand<u8> for Keeper<'a> {
    ghost kept = { λ keeper. keeper.items.now };

    ghost memory = { λ keeper. keeper.memory };

    fn kept(&self) -> &[u8] {
        self.items
    }

    fn memory(&self) -> &[u8; MEMORY_SIZE] {
        &self.memory
    }
}

fn keeps(items: &[u8]) -> Keeper {
    Keeper {
        items,
        memory: [0; MEMORY_SIZE],
    }
}

/// Whether each hand of these keeps its share.
fn have_shares(hands: &[Keeper]) -> bool {
    for hand in 0..hands.len() {
        if share_of(ITEMS.len(), hand, hands.len()) != hands[hand].items.len() {
            return false;
        }
    }
    true
}

#[test]
fn seven_items_are_dealt_and_woven(rt: HostRuntime) -> Result<(), Fail> {
    let one = [keeps(&ITEMS)];
    let two = [keeps(&[1, 3, 5, 7]), keeps(&[2, 4, 6])];
    let three = [keeps(&[1, 4, 7]), keeps(&[2, 5]), keeps(&[3, 6])];
    #[rattlefmt::skip]
    let seven = [
        keeps(&[1]), keeps(&[2]), keeps(&[3]), keeps(&[4]), keeps(&[5]), keeps(&[6]), keeps(&[7]),
    ];
    #[rattlefmt::skip]
    let nine = [
        keeps(&[1]), keeps(&[2]), keeps(&[3]), keeps(&[4]), keeps(&[5]), keeps(&[6]), keeps(&[7]),
        keeps(&[]), keeps(&[]),
    ];
    for hands in [
        one.as_slice(),
        two.as_slice(),
        three.as_slice(),
        seven.as_slice(),
        nine.as_slice(),
    ] {
        let Some(first) = hands.first() else {
            continue;
        };
        let count = hands.len();
        assert!(rt; have_shares(hands), "at {count} hands");
        assert_eq!(rt;
            most_of(ITEMS.len(), count),
            first.items.len(),
            "at {count} hands"
        );
        let back = woven(rt.alloc(), hands, ITEMS.len())?;
        assert_eq!(rt; *back.as_slice(), *ITEMS.as_slice(), "at {count} hands");
    }
    Ok(())
}

#[test]
fn words_are_added(rt: HostRuntime) {
    let full = Keeper {
        items: &[],
        memory: [0xff; MEMORY_SIZE],
    };
    let mut other = keeps(&[]);
    other.memory[20..24].copy_from_slice(&[0x01, 0x02, 0x03, 0x04]);
    other.memory[127] = 1;
    let mut expected = [0xff; MEMORY_SIZE];
    expected[20..24].copy_from_slice(&[0x01, 0x02, 0x03, 0x03]);
    expected[124..128].copy_from_slice(&[0; 4]);
    assert_eq!(rt; total(&[full, other]), expected);
}
