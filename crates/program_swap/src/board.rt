//! A new board, with its installer and its lanes.
ghost use Rattle.std.specs.Prelude.{◌≡◌, ◌+◌, ◌^◌, ◌<◌, ◌≤◌, [], ◌∷◌, replicate, length, true, IfOk, IfErr, Err, Some};
ghost use Rattle.left_right.specs.Sides.{view};
ghost use Rattle.program_swap.specs.declared.board.BoardError.TheVariants.{NoPlace};
ghost use Rattle.program_swap.specs.Histories.{history, RisesByOne, live_installer};
ghost use Rattle.program_swap.specs.Lanes.{fresh_lane};

use crate::history::{Known, Ledger};
use crate::installer::Installer;
use crate::lane::Lane;
use crate::place::Places;
use crate::rule::{BoardWriter, publish};
use crate::shown::Shown;
use apf_base::List;
use filter_core::Install;
use std::alloc::Global;
use std::sync::Wait;

/// Why a board can't be made.
#[derive(Clone, Copy, Debug, PartialEq, Eq)]
pub enum BoardError {
    /// A reader place was asked for 1,000 times, and not given.
    NoPlace,
    OutOfMemory,
}

/// Makes boards. A board shows the published install in two copies to its lanes.
pub struct Board;

// A lane that has read the first install alone.
fn lane(
    alloc: Global,
    places: &mut Places,
    writer: &mut BoardWriter,
    known: &Known,
    room: u32,
) -> Result<Lane, BoardError>
    requires refused { places.old.refused < 2 ^ 63 + 2 ^ 32 }
    requires known { view writer.old.desk.place ≡ Some (history known.now.book known.now.log) }
    requires rising { RisesByOne known.now.log }
    ensures ok { IfOk result (λ l. (l ≡ fresh_lane known.now.book known.now.log room) ×
        (places.old.refused ≤ places.new.refused) × (places.new.refused < places.old.refused + 1000)) }
    ensures err { IfErr result (λ e. (places.old.refused ≤ places.new.refused) × (e ≡ NoPlace →
        places.old.refused + 1000 ≤ places.new.refused)) }
    ensures kept { (writer.new.desk.shown ≡ writer.old.desk.shown) × (writer.new.log ≡ writer.old.log) ×
        (writer.new.behind ≡ writer.old.behind) × (view writer.new.desk.place ≡ view writer.old.desk.place) }
{
    let Some(mut place) = places.try_ask(writer.factory()) else {
        return Err(BoardError::NoPlace);
    };
    place.inform(writer);
    let Ok(answers) = Vec::with_capacity(alloc, room as usize) else {
        return Err(BoardError::OutOfMemory);
    };
    Ok(Lane::with(place, known.again(), answers, room))
}

fn lanes_of(
    alloc: Global,
    places: &mut Places,
    writer: &mut BoardWriter,
    known: &Known,
    lanes: u32,
    room: u32,
) -> Result<List<Lane>, BoardError>
    requires lanes { lanes ≤ 16 }
    requires refused { places.old.refused < 2 ^ 63 }
    requires known { view writer.old.desk.place ≡ Some (history known.now.book known.now.log) }
    requires rising { RisesByOne known.now.log }
    ensures ok { IfOk result (λ l. (l ≡ replicate lanes (fresh_lane known.now.book known.now.log room)) ×
        (places.old.refused ≤ places.new.refused)) }
    ensures err { IfErr result (λ e. (places.old.refused ≤ places.new.refused) × (e ≡ NoPlace →
        places.old.refused + 1000 ≤ places.new.refused)) }
    ensures kept { (writer.new.desk.shown ≡ writer.old.desk.shown) × (writer.new.log ≡ writer.old.log) ×
        (writer.new.behind ≡ writer.old.behind) }
{
    let mut all = List::new(alloc);
    for _ in 0..lanes {
        let lane = lane(alloc, places, writer, known, room)?;
        if all.push(lane).is_err() {
            return Err(BoardError::OutOfMemory);
        }
    }
    Ok(all)
}

impl Board {
    /// A board that shows `first`, with so many lanes, 1 to 16, each with room for `room` answers and counters of
    /// zeros.
    ///
    /// Each lane's place is asked for up to 1,000 times. After an error the count of places may have risen, and `first`
    /// is given up.
    pub fn new<R: Wait>(
        rt: &R,
        alloc: Global,
        places: &mut Places,
        first: Install,
        lanes: u32,
        room: u32,
    ) -> Result<(Installer, List<Lane>), BoardError>
        requires lanes { (1 ≤ lanes) × (lanes ≤ 16) }
        requires refused { places.old.refused < 2 ^ 63 }
        ensures installer { IfOk result (λ r. r.0 ≡ live_installer r.0.board (first ∷ [])) }
        ensures lanes { IfOk result (λ r. r.1 ≡ replicate lanes (fresh_lane r.0.board (first ∷ []) room)) }
        ensures rises { places.old.refused ≤ places.new.refused }
        ensures no_place { result ≡ Err NoPlace → places.old.refused + 1000 ≤ places.new.refused }
    {
        let Ok(second) = first.copy(alloc) else {
            return Err(BoardError::OutOfMemory);
        };
        let ledger = Ledger::open(&first);
        let first = Shown::new(alloc, first, ledger.seen.again());
        let second = Shown::new(alloc, second, ledger.seen.again());
        let Ok(writer) = BoardWriter::new(alloc, first, second, lanes as usize) else {
            return Err(BoardError::OutOfMemory);
        };
        let (mut writer, done) = publish(writer, rt);
        let Ok(()) = done else {
            writer.take(rt);
            return Err(BoardError::OutOfMemory);
        };
        match lanes_of(alloc, places, &mut writer, &ledger.seen, lanes, room) {
            Ok(all) => Ok((Installer::with(alloc, writer, ledger), all)),
            Err(e) => {
                writer.take(rt);
                Err(e)
            }
        }
    }
}
