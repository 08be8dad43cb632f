//! Laws over dealing and weaving, each the contract of an empty function.

ghost use Rattle.std.specs.Prelude.{◌≡◌, ◌%◌, ◌/◌, ◌<◌, [], ℕ, List, length, map, slice_get, slice_index_or, sum_by};
ghost use Rattle.dealt_items.specs.Dealing.{every, dealt, woven};

/// Weaving what was dealt gives the list back.
pub fn dealing_then_weaving_is_the_list<T>()
    ensures { (count : ℕ) (xs : List T) → 0 < count → woven (length xs) (dealt count xs) ≡ xs }
{}

/// Item k, from 0, stands in hand k mod `count`, at place k / `count`.
pub fn dealt_in_turn<T>()
    ensures { (count k : ℕ) (xs : List T) → 0 < count →
        slice_get (slice_index_or (dealt count xs) (k % count) []) (k / count) ≡ slice_get xs k }
{}

/// A sum over all shares of what was dealt is the sum over all items.
pub fn sums_are_of_all<T>()
    ensures { (h : T → ℕ) (count : ℕ) (xs : List T) → 0 < count →
        sum_by (sum_by h) (dealt count xs) ≡ sum_by h xs }
{}

/// Taking a function of each item and weaving may be done in either order.
pub fn weaving_maps<T, U>()
    ensures { (f : T → U) (n : ℕ) (shares : List (List T)) →
        woven n (map (map f) shares) ≡ map f (woven n shares) }
{}

/// There are as many shares as hands.
pub fn hands_are_counted<T>()
    ensures { (count : ℕ) (xs : List T) → length (dealt count xs) ≡ count }
{}

/// How many items a hand is dealt depends on how many there are, and not on what they are.
pub fn shares_go_by_length<T, U>()
    ensures { (wait others : ℕ) (xs : List T) (ys : List U) → length xs ≡ length ys →
        length (every wait others xs) ≡ length (every wait others ys) }
{}
