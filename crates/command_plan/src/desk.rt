//! What a command works on: what is seen of a shelf and of a sink is one ghost member each, and each step follows a plan.

ghost use Rattle.std.specs.Prelude.{◌≡◌, ◌∷◌, [], refl};
ghost use Rattle.command_plan.specs.Follows.{Reads, Writes, Shelving, Sinking, shelving, sinking};
ghost use Rattle.command_plan.specs.Plan.{asks, says};

use crate::fault::{Fault, Input};
use crate::steps::{ask, say};
use apf_base::{List, Shelf, Sink, Source};
use std::alloc::Global;

/// A shelf whose steps follow plans.
pub trait Files: Shelf {
    ghost seen: { Self → Shelving };

    /// All bytes of the file of this name. `Open` where it could not be opened, `Read` where a read of it failed, and
    /// `TooLong` where it has more bytes than its kind allows.
    fn ask(&mut self, alloc: Global, name: &str, input: Input) -> Result<List<u8>, Fault>
        requires { Self.may name.now }
        ensures { Reads (asks input name.now) (seen self.old) (seen self.new) result };

    // What is seen is what the shelf tells and has left, and its counts.
    ghost seen_is: { (s : Self) → seen s ≡ shelving (Self.file s) (Self.left s) (Self.faults s) (Self.misses s) };
}

impl<H: Shelf> Files for H {
    ghost seen = { λ s. shelving (H.file s) (H.left s) (H.faults s) (H.misses s) };

    fn ask(&mut self, alloc: Global, name: &str, input: Input) -> Result<List<u8>, Fault> {
        ask(alloc, self, name, input)
    }

    ghost seen_is = { λ s. refl };
}

/// A sink whose steps follow plans.
pub trait Lines: Sink {
    ghost seen: { Self → Sinking };

    /// Hands a line to the sink as one piece. `Write` where the sink failed: the first bytes of the line may stand then.
    fn say(&mut self, line: &[u8]) -> Result<(), Fault>
        ensures { Writes (says (line.now ∷ [])) (seen self.old) (seen self.new) result };

    // What is seen is what the sink holds, and its count.
    ghost seen_is: { (s : Self) → seen s ≡ sinking (Self.held s) (Self.faults s) };
}

impl<O: Sink> Lines for O {
    ghost seen = { λ s. sinking (O.held s) (O.faults s) };

    fn say(&mut self, line: &[u8]) -> Result<(), Fault> {
        say(self, line)
    }

    ghost seen_is = { λ s. refl };
}
