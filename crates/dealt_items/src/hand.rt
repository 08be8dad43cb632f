//! Who is dealt items.

ghost use Rattle.std.specs.Prelude.{◌≡◌, ℕ, List};

use apf_base::MEMORY_SIZE;

/// One who keeps something for each item that it was dealt, in their order, and counters in a memory.
pub trait Hand<T> {
    /// What it keeps.
    ghost kept: { Self → List T };

    /// The bytes of its memory.
    ghost memory: { Self → List ℕ };

    /// What it keeps, one for each item that it was dealt, in their order.
    fn kept(&self) -> &[T]
        ensures { result.now ≡ Self.kept self.now };

    /// Its memory of 128 bytes, of which each four are a big-endian word.
    fn memory(&self) -> &[u8; MEMORY_SIZE]
        ensures { result.now ≡ Self.memory self.now };
}
