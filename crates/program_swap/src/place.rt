//! The few lines over `left_right` that count what it refuses.
ghost use Rattle.std.specs.Prelude.{◌≡◌, ◌+◌, ◌-◌, ◌^◌, ◌<◌, ◌≤◌, Some, None, IfOk, IfErr, IfSome, IfNone, min};
ghost use Rattle.std.specs.Arc.{arc_value};
ghost use Rattle.left_right.specs.Sides.{view};
ghost use Rattle.program_swap.specs.Board.{ReadsOn, ReachesNumber};

use crate::rule::{BoardWriter, LaneFactory, LaneReader, LaneReading, Notes, Sees};
use crate::shown::Shown;

/// Asks for reader places, and counts those that it didn't get.
#[derive(Drop)]
pub struct Places {
    refused: u64,
}

/// A lane's reader place, with the entries that it got to answer and those that it was refused.
#[derive(Drop)]
pub struct Place {
    reader: LaneReader,
    entered: u64,
    refused: u64,
}

/// A reader place that has entered.
pub struct Inside {
    reading: LaneReading,
    entered: u64,
    refused: u64,
}

impl Places {
    /// The count is 0.
    pub fn new() -> Places
        ensures { result.refused ≡ 0 }
    {
        Places { refused: 0 }
    }

    /// How many reader places weren't given, and entries that were refused to closed lanes. It never falls.
    pub fn refused(&self) -> u64
        ensures { result ≡ self.now.refused }
    {
        self.refused
    }

    // What was refused to a closed lane.
    pub(crate) fn add(&mut self, more: u64)
        ensures { self.new.refused ≡ min (self.old.refused + more) (2 ^ 64 - 1) }
    {
        self.refused = self.refused.saturating_add(more);
    }

    fn ask(&mut self, from: &LaneFactory) -> Option<Place>
        requires { self.old.refused < 2 ^ 64 - 1 }
        ensures some { IfSome result (λ p. (p.entered ≡ 0) × (p.refused ≡ 0) × (view p.reader.place ≡ None) ×
            (p.reader.place.table_id ≡ (arc_value from.now.board).shared.table_id) × (self.new ≡ self.old)) }
        ensures none { IfNone result (self.new.refused ≡ self.old.refused + 1) }
    {
        let Ok(reader) = from.reader() else {
            self.refused += 1;
            return None;
        };
        Some(Place {
            reader,
            entered: 0,
            refused: 0,
        })
    }
}

impl Places {
    /// Asks up to 1,000 times.
    pub(crate) fn try_ask(&mut self, from: &LaneFactory) -> Option<Place>
        requires { self.old.refused < 2 ^ 63 + 2 ^ 32 }
        ensures some { IfSome result (λ p. (p.entered ≡ 0) × (p.refused ≡ 0) × (view p.reader.place ≡ None) ×
            (p.reader.place.table_id ≡ (arc_value from.now.board).shared.table_id) ×
            (self.old.refused ≤ self.new.refused) × (self.new.refused < self.old.refused + 1000)) }
        ensures none { IfNone result (self.new.refused ≡ self.old.refused + 1000) }
    {
        for _ in 0..1000u64 {
            if let Some(place) = self.ask(from) {
                return Some(place);
            }
        }
        None
    }
}

impl Place {
    /// Learns what the writer knows, before the lane is handed out.
    pub fn inform(&mut self, writer: &mut BoardWriter)
        requires { self.old.reader.place.table_id ≡ writer.old.desk.place.table_id }
        ensures known { view self.new.reader.place ≡ view writer.old.desk.place }
        ensures counts { (self.new.entered ≡ self.old.entered) × (self.new.refused ≡ self.old.refused) }
        ensures kept { (writer.new.desk.shown ≡ writer.old.desk.shown) × (writer.new.log ≡ writer.old.log) ×
            (writer.new.behind ≡ writer.old.behind) × (view writer.new.desk.place ≡ view writer.old.desk.place) }
    {
        self.reader.learn::<Notes>(writer.tell::<Notes>());
    }

    /// How often it entered for an answer.
    pub fn entered(&self) -> u64
        ensures { result ≡ self.now.entered }
    {
        self.entered
    }

    /// How many entries it was refused.
    pub fn refused(&self) -> u64
        ensures { result ≡ self.now.refused }
    {
        self.refused
    }

    /// Asks once. An entry that finds an install below `least` counts as refused.
    fn enter(self, least: u64) -> Result<Inside, Place>
        requires { self.refused < 2 ^ 64 - 1 }
        ensures ok { IfOk result (λ i. (i.entered ≡ self.entered) × (i.refused ≡ self.refused) ×
            ReadsOn (view self.reader.place) (view i.reading.place) ×
            (view i.reading.place ≡ Some i.reading.part.value) × ReachesNumber least i.reading.part.value) }
        ensures err { IfErr result (λ p. (p.entered ≡ self.entered) × (p.refused ≡ self.refused + 1) ×
            ReadsOn (view self.reader.place) (view p.reader.place) ×
            (least ≡ 0 → view p.reader.place ≡ view self.reader.place)) }
    {
        let Place {
            reader,
            entered,
            refused,
        } = self;
        match reader.enter_as::<Sees>() {
            Ok(reading) => {
                if reading.get().install().number >= least {
                    Ok(Inside {
                        reading,
                        entered,
                        refused,
                    })
                } else {
                    Err(Place {
                        reader: reading.leave(),
                        entered,
                        refused: refused + 1,
                    })
                }
            }
            Err(reader) => Err(Place {
                reader,
                entered,
                refused: refused + 1,
            }),
        }
    }

    /// Asks up to 1,000 times.
    pub fn try_enter(self, least: u64) -> Result<Inside, Place>
        requires { self.refused < 2 ^ 63 }
        ensures ok { IfOk result (λ i. (i.entered ≡ self.entered) × (self.refused ≤ i.refused) ×
            (i.refused < self.refused + 1000) × ReadsOn (view self.reader.place) (view i.reading.place) ×
            (view i.reading.place ≡ Some i.reading.part.value) × ReachesNumber least i.reading.part.value) }
        ensures err { IfErr result (λ p. (p.entered ≡ self.entered) × (p.refused ≡ self.refused + 1000) ×
            ReadsOn (view self.reader.place) (view p.reader.place) ×
            (least ≡ 0 → view p.reader.place ≡ view self.reader.place)) }
    {
        let mut place = self;
        for _ in 0..1000u64 {
            match place.enter(least) {
                Ok(inside) => return Ok(inside),
                Err(back) => place = back,
            }
        }
        Err(place)
    }
}

impl Inside {
    /// What is shown, while the copy is held.
    pub fn shown(&self) -> &Shown
        ensures { result.now ≡ self.now.reading.part.value }
    {
        self.reading.get()
    }

    /// Leaves the copy.
    pub fn leave(self) -> Place
        ensures { (result.entered ≡ self.entered) × (result.refused ≡ self.refused) ×
            (view result.reader.place ≡ view self.reading.place) }
    {
        let Inside {
            reading,
            entered,
            refused,
        } = self;
        Place {
            reader: reading.leave(),
            entered,
            refused,
        }
    }

    /// Leaves the copy, and counts the entry.
    pub fn leave_answered(self) -> Place
        ensures { (result.entered ≡ min (self.entered + 1) (2 ^ 64 - 1)) × (result.refused ≡ self.refused) ×
            (view result.reader.place ≡ view self.reading.place) }
    {
        let mut place = self.leave();
        place.entered = place.entered.saturating_add(1);
        place
    }
}
