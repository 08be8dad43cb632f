//! How many items a hand is dealt.

ghost use Rattle.std.specs.Prelude.{◌≡◌, ℕ, List, ◌-◌, ◌<◌, ◌≤◌, length};
ghost use Rattle.dealt_items.specs.Dealing.{every};

/// How many of so many items the hand of this number, from 0, is dealt, where they go to `count` hands in turn:
/// `items` / `count`, and one more for each hand that the last round reaches.
pub fn share_of(items: usize, hand: usize, count: usize) -> usize
    requires { hand < count }
    ensures { (xs : List ℕ) → length xs ≡ items → length (every hand (count - 1) xs) ≡ result }
{
    let rounds = items / count;
    if hand < items % count {
        rounds + 1
    } else {
        rounds
    }
}

/// The most of so many items that one of `count` hands is dealt: the share of the first hand, and so no less than that
/// of any other.
pub fn most_of(items: usize, count: usize) -> usize
    requires { 0 < count }
    ensures first { (xs : List ℕ) → length xs ≡ items → length (every 0 (count - 1) xs) ≡ result }
    ensures most { (hand : ℕ) (xs : List ℕ) → hand < count → length xs ≡ items →
        length (every hand (count - 1) xs) ≤ result }
{
    share_of(items, 0, count)
}
