//! A board's list of installs, which only grows. The code keeps no list, but the facts of what it was.
ghost use Rattle.std.specs.Prelude.{◌≡◌, ◌+◌, ◌-◌, ◌^◌, ◌<◌, ◌++◌, ◌∷◌, [], length, IsTrue};
ghost use Rattle.program_swap.specs.Histories.{RisesByOne};
ghost use Rattle.program_swap.specs.Growing.{head_word};

use filter_core::Install;
use logbook::{Gain, Offer, Opening, Plain, Play, Rule, Seen, Start, Word};

/// The rule over the list: numbers rise by one, and one word counts the installs.
pub struct HistoryRule;

impl Rule<Install, u64> for HistoryRule {
    ghost use Rattle.std.specs.Prelude.{[]};
    ghost use base.Fml.{ftrue};
    ghost use Rattle.program_swap.specs.Growing.{CountsInstalls};

    ghost holds = { λ cells log. CountsInstalls cells log };

    ghost first = { [] };

    ghost hinted = { λ n log. Unit {0} };

    ghost shows = { λ log. [] };

    ghost keeps = { λ names log. ftrue };

    ghost moves = { λ ask before after answer. Unit {0} };
}

/// It opens with the first install.
impl Opening<Install, Install> for HistoryRule {
    ghost use Rattle.std.specs.Prelude.{[], ◌∷◌};

    ghost log = { λ n x. x ∷ [] };
}

/// Callers trade nothing.
pub struct Nothing;

impl Gain<Install, u64> for Nothing {
    ghost use base.Fml.{ftrue};

    ghost after = { λ names about answer. ftrue };
}

/// A step that adds an install.
pub struct Add;

impl Play<Install, u64> for Add {
    ghost use Rattle.program_swap.specs.Growing.{AddsInstall};

    ghost then = { AddsInstall };
}

impl Plain<Install, Install, u64> for Add {
    ghost use Rattle.std.specs.Prelude.{None};

    ghost ask = { λ install. install };

    ghost state = { λ install. None };
}

/// A prefix of the list that was reached. It has no bytes.
pub type Known = Seen<Install, u64, HistoryRule>;

/// The one place from which the list grows.
#[derive(Drop)]
pub struct Ledger {
    head: Word<Install, u64, HistoryRule>,
    above: u64,
    pub seen: Known,
    pub ghost head_is: { head ≡ head_word seen.book },
    pub ghost counted: { length seen.log ≡ above + 1 },
}

impl Ledger {
    /// A history of one install.
    pub fn open(first: &Install) -> Ledger
        ensures log { result.seen.log ≡ first.now ∷ [] }
        ensures rising { RisesByOne result.seen.log }
    {
        let (seen, mut pens) = Seen::open_row::<Install, HistoryRule>(first, Start::alone(), 1);
        let mut pen = pens.take();
        Ledger {
            head: Word::tracked(0, &mut pen),
            above: 0,
            seen,
        }
    }

    /// AddsInstall an install to all that was seen. Only this has the word, so it never answers false.
    pub fn add(&mut self, next: &Install) -> bool
        requires room { self.old.above < next.now.number }
        requires rising { RisesByOne (self.old.seen.log ++ next.now ∷ []) }
        ensures added { IsTrue result → self.new.seen.log ≡ self.old.seen.log ++ next.now ∷ [] }
        ensures book { self.new.seen.book ≡ self.old.seen.book }
    {
        let mut offer: Offer<Install, u64, HistoryRule, Nothing> = self
            .seen
            .plain::<Nothing, Install, Add>(next);
        let mut pen = self.seen.no_pen();
        let above = self.above;
        let _number = next.number;
        let found = self
            .head
            .compare_exchange::<Add, Nothing>(
                above,
                above + 1,
                &mut self.seen,
                &mut offer,
                &mut pen,
            );
        self.above = if found == above { above + 1 } else { found };
        found == above
    }
}
