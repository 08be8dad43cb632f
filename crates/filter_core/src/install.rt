//! One install.

ghost use Rattle.std.specs.Prelude.{◌≡◌, ◌≤◌, length};
ghost use Rattle.apf_generate.specs.Means.{Means};
ghost use Rattle.apf_coding.specs.Words.{AreBytes};
ghost use Rattle.apf_generate.specs.Sizes.{need_of};
ghost use Rattle.size_fit.specs.Sizes.{limit_of};
ghost use Rattle.apf_base.specs.Limits.{frame_limit};

use apf_base::{List, MEMORY_SIZE, OutOfMemory};
use apf_interp::interpret;
use policy_state::{Answer, Basis, decide};
use std::alloc::Global;

/// A program that stands, and what it was made from.
///
/// Its code means its basis, and has at most as many bytes as the base and the weights of the chosen records, for which
/// the device has room. Each is a number below 256. These are facts of the type: no value is without them.
#[derive(Debug, Drop)]
pub struct Install {
    /// The first install has 0, and each later one has one more.
    pub number: u64,
    /// The second at which it was made.
    pub at: u32,
    pub basis: Basis,
    /// The ids of the records that had no room, in order.
    pub left: List<u64>,
    /// The program, in bytes.
    pub code: List<u8>,
    pub ghost means: { ∥ Means code basis ∥₁ },
    pub ghost short: { length code ≤ need_of basis },
    pub ghost fits: { need_of basis ≤ limit_of basis.config },
    pub ghost bytes: { AreBytes code },
}

impl Install {
    ghost use Rattle.std.specs.Prelude.{IfOk};
    ghost use Rattle.filter_core.specs.Coded.{IsAnswer};

    /// Runs the program on a frame that comes at the second `now`, over the counters.
    ///
    /// The age is `now` less the install's second, or 0 where `now` is less. Verdict and counter are the policy's, and the
    /// counters are raised as the policy says.
    pub fn answer(&self, frame: &[u8], now: u32, memory: &mut [u8; MEMORY_SIZE]) -> Answer
        requires { length frame.now ≤ frame_limit }
        ensures { IsAnswer self.now frame.now now memory.old result memory.new }
    {
        let age = now.saturating_sub(self.at);
        let outcome = interpret(self.code.as_slice(), memory.as_mut_slice(), frame, age);
        let (_, counter) = decide(&self.basis, age, frame);
        Answer {
            number: self.number,
            age,
            verdict: outcome.verdict,
            counter,
            steps: outcome.steps,
        }
    }

    /// An equal install.
    pub fn copy(&self, alloc: Global) -> Result<Install, OutOfMemory>
        ensures { IfOk result (λ copy. copy ≡ self.now) }
    {
        let basis = self.basis.copy(alloc)?;
        let mut left = List::new(alloc);
        left.extend(self.left.as_slice())?;
        let mut code = List::new(alloc);
        code.extend(self.code.as_slice())?;
        Ok(Install {
            number: self.number,
            at: self.at,
            basis,
            left,
            code,
        })
    }
}
