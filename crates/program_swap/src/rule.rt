//! The rule over the board.
ghost use Rattle.std.specs.Prelude.{◌≡◌, [], drop, fold, Some, MatchResult};
ghost use Rattle.left_right.specs.Sides.{view};
ghost use Rattle.program_swap.specs.Board.{GrowsTo};

use crate::shown::Shown;
use atomic_table::{Join, Split};
use core::mem::replace_with;
use crossbeam_utils::rule::{Outcome, Protocol};
use left_right::reader::{Factory, Reader, Reading};
use left_right::writer::Writer;
use std::alloc::AllocError;
use std::sync::Wait;

/// A view is the history that was read last, if any was.
pub struct Published;

impl Protocol<Shown, Option<Shown>> for Published {
    ghost use Rattle.std.specs.Prelude.{None};
    ghost use Rattle.program_swap.specs.Board.{IsAhead};

    ghost holds = { IsAhead };

    ghost first = { None };
}

/// What a publish tells.
pub struct Shows;

impl Outcome<Shown, Option<Shown>> for Shows {
    ghost use Rattle.program_swap.specs.Board.{KnowsNew};

    ghost then = { KnowsNew };
}

/// What an enter tells.
pub struct Sees;

impl Outcome<Shown, Option<Shown>> for Sees {
    ghost use Rattle.program_swap.specs.Board.{KnowsRead};

    ghost then = { KnowsRead };
}

/// What the writer knows goes to a new lane.
pub struct Notes;

impl Split<Option<Shown>> for Notes {
    ghost left = { λ v. v };

    ghost right = { λ v. v };
}

impl Join<Option<Shown>> for Notes {
    ghost use Rattle.std.specs.Prelude.{None};

    ghost both = { λ _ w. w };

    ghost spent = { None };
}

pub type LaneFactory = Factory<Shown, Option<Shown>, Published>;

pub type LaneReader = Reader<Shown, Option<Shown>, Published>;

pub type LaneReading = Reading<Shown, Option<Shown>, Published>;

pub type BoardWriter = Writer<Shown, Shown, Option<Shown>, Published>;

/// Shows what was appended last, or what was shown.
pub fn publish<R: Wait>(writer: BoardWriter, rt: &R) -> (BoardWriter, Result<(), AllocError>)
    requires { GrowsTo writer.desk.shown.value
        (fold (λ _ n. n) writer.desk.shown.value (drop writer.behind writer.log.items)) }
    ensures { MatchResult result.1
        (λ _. (result.0.desk.shown.value ≡
        fold (λ _ n. n) writer.desk.shown.value (drop writer.behind writer.log.items)) ×
        (drop result.0.behind result.0.log.items ≡ []) ×
        (view result.0.desk.place ≡ Some result.0.desk.shown.value))
        (λ _. result.0.desk.shown.value ≡ writer.desk.shown.value) }
{
    writer.publish_as::<Shows, R>(rt)
}

/// The same, of a writer that stays where it is.
pub fn publish_in<R: Wait>(writer: &mut BoardWriter, rt: &R) -> Result<(), AllocError>
    requires { GrowsTo writer.old.desk.shown.value
        (fold (λ _ n. n) writer.old.desk.shown.value (drop writer.old.behind writer.old.log.items)) }
    ensures { MatchResult result
        (λ _. (writer.new.desk.shown.value ≡
        fold (λ _ n. n) writer.old.desk.shown.value (drop writer.old.behind writer.old.log.items)) ×
        (drop writer.new.behind writer.new.log.items ≡ []) ×
        (view writer.new.desk.place ≡ Some writer.new.desk.shown.value))
        (λ _. writer.new.desk.shown.value ≡ writer.old.desk.shown.value) }
{
    replace_with(
        writer,
        rt,
        |writer: BoardWriter, rt: &R| -> (BoardWriter, Result<(), AllocError>)
            requires { GrowsTo writer.desk.shown.value
                (fold (λ _ n. n) writer.desk.shown.value (drop writer.behind writer.log.items)) }
            ensures { MatchResult result.1
                (λ _. (result.0.desk.shown.value ≡
                fold (λ _ n. n) writer.desk.shown.value (drop writer.behind writer.log.items)) ×
                (drop result.0.behind result.0.log.items ≡ []) ×
                (view result.0.desk.place ≡ Some result.0.desk.shown.value))
                (λ _. result.0.desk.shown.value ≡ writer.desk.shown.value) }
        { publish(writer, rt) },
    )
}
