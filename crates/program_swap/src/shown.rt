//! What a board shows: an install, with the list of installs that it ends.
ghost use Rattle.std.specs.Prelude.{◌≡◌, IfOk};
ghost use Rattle.program_swap.specs.Histories.{HasLast, RisesByOne, history};

use crate::history::Known;
use apf_base::OutOfMemory;
use filter_core::Install;
use left_right::Absorb;
use std::alloc::{AllocError, Global};
use std::marker::Model;

/// A contract sees it as the list up to the install, and the board that the list belongs to. It keeps its own
/// allocator.
#[derive(Drop)]
pub struct Shown {
    install: Install,
    known: Known,
    alloc: Global,
}

impl Model for Shown {
    ghost use Rattle.std.specs.Prelude.{◌≡◌};
    ghost use Rattle.program_swap.specs.Histories.{History, HasLast, RisesByOne, history};

    ghost Value = { History };

    ghost view = { λ s. history s.known.book s.known.log };

    ghost invariant = { λ s. HasLast s.known.log s.install × RisesByOne s.known.log };
}

impl Shown {
    pub fn new(alloc: Global, install: Install, known: Known) -> Shown
        requires ends { HasLast known.log install }
        requires rising { RisesByOne known.log }
        ensures { result ≡ history known.book known.log }
    {
        Shown {
            install,
            known,
            alloc,
        }
    }

    pub fn copy(&self) -> Result<Shown, OutOfMemory>
        ensures { IfOk result (λ r. r ≡ self.now) }
    {
        Ok(Shown {
            install: self.install.copy(self.alloc)?,
            known: self.known.again(),
            alloc: self.alloc,
        })
    }

    pub fn install(&self) -> &Install
        ensures { HasLast self.now.installs result.now }
    {
        &self.install
    }

    pub fn known(&self) -> Known
        ensures history { history result.book result.log ≡ self.now }
        ensures rising { RisesByOne self.now.installs }
    {
        self.known.again()
    }
}

/// An operation is the next value. One copy is made from it, and it becomes the other.
impl Absorb<Shown> for Shown {
    type State = Shown;

    ghost state = { λ s. s };

    ghost applied = { λ _ next. next };

    fn absorb_first(&mut self, operation: &Shown, _other: &Shown) -> Result<(), AllocError> {
        let Ok(copy) = operation.copy() else {
            return Err(AllocError);
        };
        *self = copy;
        Ok(())
    }

    fn absorb_second(&mut self, operation: Shown, _other: &Shown) -> Result<(), Shown> {
        *self = operation;
        Ok(())
    }
}
