//! The counters in their memory.

ghost use Rattle.std.specs.Prelude.{◌≡◌, ◌+◌, ◌%◌, ◌^◌, ◌≤◌};
ghost use Rattle.data_counters.specs.Memory.{word_at, with_word, place_of, value_of, raised, AddsWords};
ghost use Rattle.apf_base.specs.Limits.{memory_size};

use crate::Counter;
use apf_base::MEMORY_SIZE;

/// The place of a counter's word: four times its number before the memory's end.
fn place(counter: Counter) -> usize
    ensures { result ≡ place_of counter }
{
    MEMORY_SIZE - 4 * usize::from(counter.number())
}

/// The big-endian word at a place.
#[tactic(auto, unfolding(crate::specs::Memory::word_at))]
fn word(memory: &[u8; MEMORY_SIZE], at: usize) -> u32
    requires { at + 4 ≤ memory_size }
    ensures { result ≡ word_at at memory.now }
{
    u32::from_be_bytes([memory[at], memory[at + 1], memory[at + 2], memory[at + 3]])
}

/// Writes a word at a place.
#[tactic(auto, unfolding(crate::specs::Memory::with_word))]
fn set_word(memory: &mut [u8; MEMORY_SIZE], at: usize, word: u32)
    requires { at + 4 ≤ memory_size }
    ensures { memory.new ≡ with_word at word memory.old }
{
    memory[at..at + 4].copy_from_slice(&word.to_be_bytes());
}

/// What a counter holds.
pub fn get(memory: &[u8; MEMORY_SIZE], counter: Counter) -> u32
    ensures { result ≡ value_of counter memory.now }
{
    word(memory, place(counter))
}

/// Adds one to a counter, modulo 2^32. All other bytes stay.
pub fn raise(memory: &mut [u8; MEMORY_SIZE], counter: Counter)
    ensures { memory.new ≡ raised counter memory.old }
{
    let at = place(counter);
    let raised = word(memory, at).wrapping_add(1);
    set_word(memory, at, raised);
}

/// Adds each of the 32 words of a memory to the same word of another, modulo 2^32.
pub fn add_all(into: &mut [u8; MEMORY_SIZE], from: &[u8; MEMORY_SIZE])
    ensures { AddsWords into.old from.now into.new }
{
    for k in 0..MEMORY_SIZE / 4 {
        let sum = word(into, 4 * k).wrapping_add(word(from, 4 * k));
        set_word(into, 4 * k, sum);
    }
}
