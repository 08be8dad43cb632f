//! The installer, which publishes, and the tokens that it hands out.
ghost use Rattle.std.specs.Prelude.{◌≡◌, ◌+◌, ◌^◌, ◌<◌, ◌++◌, ◌∷◌, [], IsTrue, IfOk, IfErr, OnOk, OnErr, true, false, drop};
ghost use Rattle.program_swap.specs.Histories.{HasLast, RisesByOne, LastNumber, history, live_installer};

use crate::gate::Gate;
use crate::history::{Known, Ledger};
use crate::rule::{BoardWriter, publish_in};
use crate::shown::Shown;
use filter_core::Install;
use std::alloc::Global;
use std::marker::Model;
use std::sync::Wait;

/// What a publish hands out, for lanes to learn: the list of all installs up to then. Threads may share it.
#[derive(Drop)]
pub struct Token {
    number: u64,
    known: Known,
}

impl Model for Token {
    ghost use Rattle.std.specs.Prelude.{◌≡◌};
    ghost use Rattle.filter_core.specs.declared.install.Install.{Install};
    ghost use Rattle.program_swap.specs.Histories.{History, history, LastNumber, RisesByOne};

    ghost Value = { History };

    ghost view = { λ t. history t.known.book t.known.log };

    ghost invariant = { λ t. LastNumber t.known.log t.number × RisesByOne t.known.log };
}

impl Token {
    /// The number of the last install that it tells.
    pub fn number(&self) -> u64
        ensures { LastNumber self.now.installs result }
    {
        self.number
    }

    // A fact of each token.
    pub(crate) fn rises(&self)
        ensures { RisesByOne self.now.installs }
    {
        let _number = self.number;
    }

    // The list that it tells.
    pub(crate) fn known(&self) -> Known
        ensures { history result.book result.log ≡ self.now }
    {
        self.known.again()
    }
}

/// Out of memory. It hands back the install that wasn't published.
#[derive(Drop)]
pub struct Refused {
    pub install: Install,
}

/// Publishes the installs of a board, one after another. It keeps its own allocator.
pub struct Installer {
    writer: BoardWriter,
    ledger: Ledger,
    alloc: Global,
    live: bool,
}

impl Model for Installer {
    ghost use Rattle.std.specs.Prelude.{◌≡◌, [], drop, true};
    ghost use Rattle.program_swap.specs.Histories.{InstallerState, RisesByOne};

    ghost Value = { InstallerState };

    ghost view = { λ i. record {
      board = i.writer.desk.shown.value.board;
      published = i.writer.desk.shown.value.installs;
      live = i.live;
    } };

    ghost invariant = { λ i. (i.ledger.seen.book ≡ i.writer.desk.shown.value.board) × (i.live ≡ true →
        (i.ledger.seen.log ≡ i.writer.desk.shown.value.installs) ×
        (drop i.writer.behind i.writer.log.items ≡ [])) ×
        RisesByOne i.writer.desk.shown.value.installs };
}

impl Installer {
    pub(crate) fn with(alloc: Global, writer: BoardWriter, ledger: Ledger) -> Installer
        requires same { writer.desk.shown.value ≡ history ledger.seen.book ledger.seen.log }
        requires pending { drop writer.behind writer.log.items ≡ [] }
        requires rising { RisesByOne ledger.seen.log }
        ensures { result ≡ live_installer ledger.seen.book ledger.seen.log }
    {
        Installer {
            writer,
            ledger,
            alloc,
            live: true,
        }
    }

    // A fact of each installer.
    pub(crate) fn rises(&self)
        ensures { RisesByOne self.now.published }
    {
        let _live = self.live;
    }

    /// Whether it may publish: so it is from the first on, until an install is refused.
    pub fn is_live(&self) -> bool
        ensures { result ≡ self.now.live }
    {
        self.live
    }

    /// Publishes the next install, whose number is one more than the published one's. The token tells the list up to
    /// it.
    ///
    /// It may wait for lanes that are in the old copy. Out of memory is `Refused`: the published install stays, and the
    /// installer is not live from then on. The gate is called before, and last where the install was published.
    pub fn install<R: Wait, G: Gate>(
        &mut self,
        rt: &R,
        next: Install,
        gate: &G,
    ) -> Result<Token, Refused>
        requires live { IsTrue self.old.live }
        requires next { (last : Install) → HasLast self.old.published last → next.number ≡ last.number + 1 }
        ensures ok { OnOk result (self.new ≡ record self.old { published = self.old.published ++ next ∷ [] }) }
        ensures told { IfOk result (λ t. t ≡ history self.new.board self.new.published) }
        ensures refused { OnErr result (self.new ≡ record self.old { live = false }) }
        ensures back { IfErr result (λ r. r.install ≡ next) }
    {
        let number = next.number;
        gate.before_install(number);
        self.live = false;
        let Ok(copy) = next.copy(self.alloc) else {
            return Err(Refused { install: next });
        };
        if !self.ledger.add(&next) {
            return Err(Refused { install: next });
        }
        let operation = Shown::new(self.alloc, copy, self.ledger.seen.again());
        let Ok(()) = self.writer.append(operation) else {
            return Err(Refused { install: next });
        };
        let Ok(()) = publish_in(&mut self.writer, rt) else {
            return Err(Refused { install: next });
        };
        self.live = true;
        gate.after_install(number);
        Ok(Token {
            number,
            known: self.ledger.seen.again(),
        })
    }

    /// Ends the board's publishing. It may wait for lanes that are in a copy; from then on lanes may be refused every
    /// entry.
    pub fn close<R: Wait>(self, rt: &R) {
        let Installer {
            writer,
            ledger: _,
            alloc: _,
            live: _,
        } = self;
        writer.take(rt);
    }
}
