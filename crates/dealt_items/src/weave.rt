//! What hands keep, put together.

ghost use Rattle.std.specs.Prelude.{◌≡◌, ◌+◌, ◌-◌, ◌^◌, ◌<◌, ◌≤◌, [], length, map, nat_lt, if◌then◌else◌, slice_get, slice_index_or, IfOk};
ghost use Rattle.dealt_items.specs.Dealing.{woven};
ghost use Rattle.dealt_items.specs.Sums.{IsSumOf};

use crate::Hand;
use apf_base::{List, MEMORY_SIZE, OutOfMemory};
use data_counters::add_all;
use std::alloc::Global;

/// The sum of the memories of all hands: each of its 32 words is the sum of that word of each memory, modulo 2^32.
pub fn total<T, H: Hand<T>>(hands: &[H]) -> [u8; MEMORY_SIZE]
    ensures { IsSumOf (map H.memory hands.now) result }
{
    let mut sum = [0; MEMORY_SIZE];
    for hand in hands {
        add_all(&mut sum, hand.memory());
    }
    sum
}

/// What a hand keeps at a row, if it keeps so much.
fn kept_at<T: Copy, H: Hand<T>>(hands: &[H], hand: usize, row: usize) -> Option<T>
    requires { hand < length hands.now }
    ensures { result ≡ slice_get (slice_index_or (map H.kept hands.now) hand []) row }
{
    hands[hand].kept().get(row).copied()
}

/// The hand and the row that come next: the next hand at this row, and after the last hand the first at the next row.
fn after(hand: usize, row: usize, count: usize) -> (usize, usize)
    requires hand { hand < count }
    requires row { row < 2 ^ 64 - 1 }
    ensures place { result ≡ (if nat_lt (hand + 1) count then (hand + 1, row) else (0, row + 1)) }
    ensures hand { result.0 < count }
    ensures row { result.1 ≤ row + 1 }
{
    if hand + 1 < count {
        (hand + 1, row)
    } else {
        (0, row + 1)
    }
}

/// The first n of what the hands keep, one from each hand in turn, or those before the first turn of a hand that keeps
/// no more. There is at least one hand. It fails only where memory ends.
pub fn woven<T: Copy + Drop, H: Hand<T>>(
    alloc: Global,
    hands: &[H],
    n: usize,
) -> Result<List<T>, OutOfMemory>
    requires { 0 < length hands.now }
    ensures { IfOk result (λ list. list ≡ woven n (map H.kept hands.now)) }
{
    let mut items = List::new(alloc);
    let mut hand = 0;
    let mut row = 0;
    for _k in 0..n {
        let Some(next) = kept_at(hands, hand, row) else {
            return Ok(items);
        };
        items.push(next)?;
        let place = after(hand, row, hands.len());
        hand = place.0;
        row = place.1;
    }
    Ok(items)
}
