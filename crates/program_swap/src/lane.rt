//! A lane, which answers frames by the install that it reads on its board.
ghost use Rattle.std.specs.Prelude.{◌≡◌, ◌+◌, ◌-◌, ◌^◌, ◌<◌, ◌≤◌, [], length, IfOk, OnOk, OnErr, Err, min, Some, vec_capacity};
ghost use Rattle.left_right.specs.Sides.{view};
ghost use Rattle.apf_base.specs.Limits.{frame_limit};
ghost use Rattle.program_swap.specs.Histories.{history, RisesByOne};
ghost use Rattle.program_swap.specs.Order.{KeepsOrder};
ghost use Rattle.program_swap.specs.Lanes.{HasAnswered, HasLearnt, HasNotLearnt, with_refusals, fresh_lane};

use crate::gate::Gate;
use crate::history::Known;
use crate::installer::Token;
use crate::place::{Place, Places};
use crate::turn::{Turned, look_in, run_in};
use apf_base::MEMORY_SIZE;
use policy_state::Answer;
use std::marker::Model;

/// A lane's place was refused entry 1,000 times.
#[derive(Clone, Copy, Debug, PartialEq, Eq)]
pub struct NotEntered;

/// Why a lane doesn't learn.
#[derive(Clone, Copy, Debug, PartialEq, Eq)]
pub enum LearnError {
    /// The lane's place was refused entry 1,000 times.
    NotEntered,
    OutOfMemory,
}

/// Answers frames over its own counters, each by the install that its place reads then, and keeps the answers.
#[derive(Drop)]
pub struct Lane {
    place: Place,
    known: Known,
    answers: Vec<Answer>,
    memory: [u8; MEMORY_SIZE],
    spare: u32,
}

impl Model for Lane {
    ghost use Rattle.std.specs.Prelude.{◌≡◌, ◌+◌, ◌^◌, ◌<◌, ◌≤◌, length, Some, vec_len, vec_capacity};
    ghost use Rattle.left_right.specs.Sides.{view as seat_view};
    ghost use Rattle.program_swap.specs.Order.{LaneState, KeepsOrder};
    ghost use Rattle.program_swap.specs.Histories.{RisesByOne, History, history};
    ghost use Rattle.program_swap.specs.Board.{ReadsOn};

    ghost Value = { LaneState };

    ghost view = { λ l. record {
      board = l.known.book;
      view = l.known.log;
      read = seat_view l.place.reader.place;
      answers = l.answers.items;
      memory = l.memory;
      spare = l.spare;
      entered = l.place.entered;
      refused = l.place.refused;
    } };

    ghost invariant = { λ l. ReadsOn (Some (history l.known.book l.known.log)) (seat_view l.place.reader.place) ×
        RisesByOne l.known.log × KeepsOrder l.known.log l.answers.items × (l.place.entered ≡ vec_len l.answers) ×
        (vec_len l.answers + l.spare < 2 ^ 33) × (vec_len l.answers + l.spare ≤ vec_capacity l.answers) };
}

impl Lane {
    pub(crate) fn with(place: Place, known: Known, answers: Vec<Answer>, room: u32) -> Lane
        requires place { (place.entered ≡ 0) × (place.refused ≡ 0) ×
            (view place.reader.place ≡ Some (history known.book known.log)) }
        requires rising { RisesByOne known.log }
        requires room { (answers.items ≡ []) × (room ≤ vec_capacity answers) }
        ensures { result ≡ fresh_lane known.book known.log room }
    {
        Lane {
            place,
            known,
            answers,
            memory: [0; MEMORY_SIZE],
            spare: room,
        }
    }

    // A fact of each lane.
    pub(crate) fn keeps_order(&self)
        ensures rising { RisesByOne self.now.view }
        ensures order { KeepsOrder self.now.view self.now.answers }
    {
        let _spare = self.spare;
    }

    /// For how many more answers it has room.
    pub fn spare(&self) -> u32
        ensures { result ≡ self.now.spare }
    {
        self.spare
    }

    /// How many entries its place got to answer a frame: the number of its answers.
    pub fn entered(&self) -> u64
        ensures { result ≡ self.now.entered }
    {
        self.place.entered()
    }

    /// How many entries its place was refused. The count never falls.
    pub fn refused(&self) -> u64
        ensures { result ≡ self.now.refused }
    {
        self.place.refused()
    }

    /// Answers the frame of number k that comes at the second `now`, by the last install that its place reads.
    ///
    /// The age is `now` less the install's second, or 0 where `now` is less. The gate is called before, and last where
    /// the frame was answered. After `NotEntered` all stays but the count of refusals, which rose by 1,000.
    pub fn answer<G: Gate>(
        &mut self,
        k: u64,
        frame: &[u8],
        now: u32,
        gate: &G,
    ) -> Result<Answer, NotEntered>
        requires spare { 1 ≤ self.old.spare }
        requires refused { self.old.refused < 2 ^ 63 }
        requires frame { length frame.now ≤ frame_limit }
        ensures ok { IfOk result (λ a. HasAnswered self.old frame.now now self.new a) }
        ensures not_entered { OnErr result (self.new ≡ with_refusals (self.old.refused + 1000) self.old) }
    {
        gate.before_frame(k);
        let memory = self.memory;
        let Some(turned) = run_in(&mut self.place, frame, now, memory) else {
            return Err(NotEntered);
        };
        let Turned {
            answer,
            known,
            memory,
        } = turned;
        self.known = known;
        self.memory = memory;
        self.spare -= 1;
        self.answers.push_reserved(answer);
        gate.after_frame(k);
        Ok(answer)
    }

    /// Takes the list that a token of its board tells: it answers by no older install from then on.
    ///
    /// After `NotEntered` all that the lane answers by stays but the count of refusals, which rose by 1,000. After
    /// `OutOfMemory`, which never comes as it is built, the lane is as it was.
    pub fn learn(&mut self, t: &Token) -> Result<(), LearnError>
        requires board { t.now.board ≡ self.old.board }
        requires refused { self.old.refused < 2 ^ 63 }
        ensures ok { OnOk result (HasLearnt self.old t.now.installs self.new) }
        ensures not_entered { result ≡ Err LearnError.NotEntered → HasNotLearnt self.old self.new }
        ensures no_memory { result ≡ Err LearnError.OutOfMemory → self.new ≡ self.old }
    {
        let Some(read) = look_in(&mut self.place, t.number()) else {
            return Err(LearnError::NotEntered);
        };
        let told = t.known();
        let mut both = read.again();
        both.learn(&told);
        self.known = read;
        Ok(())
    }

    /// Gives up its place. What was refused to it is added to the count of places, which stays once it is 2^64 - 1.
    pub fn close(self, places: &mut Places) -> LaneEnd
        ensures board { result.board ≡ self.board }
        ensures view { result.view ≡ self.view }
        ensures answers { result.answers ≡ self.answers }
        ensures memory { result.memory ≡ self.memory }
        ensures entered { result.entered ≡ self.entered }
        ensures places { places.new.refused ≡ min (places.old.refused + self.refused) (2 ^ 64 - 1) }
    {
        let Lane {
            place,
            known,
            answers,
            memory,
            spare: _,
        } = self;
        places.add(place.refused());
        LaneEnd {
            known,
            answers,
            memory,
            entered: place.entered(),
        }
    }
}

/// What a closed lane leaves: its answers in order, its counters, and how many entries it got to answer.
#[derive(Drop)]
pub struct LaneEnd {
    known: Known,
    answers: Vec<Answer>,
    memory: [u8; MEMORY_SIZE],
    entered: u64,
}

impl Model for LaneEnd {
    ghost use Rattle.std.specs.Prelude.{◌≡◌, vec_len};
    ghost use Rattle.program_swap.specs.Order.{EndState, KeepsOrder};
    ghost use Rattle.program_swap.specs.Histories.{RisesByOne};

    ghost Value = { EndState };

    ghost view = { λ l. record {
      board = l.known.book;
      view = l.known.log;
      answers = l.answers.items;
      memory = l.memory;
      entered = l.entered;
    } };

    ghost invariant = { λ l. RisesByOne l.known.log × KeepsOrder l.known.log l.answers.items ×
        (l.entered ≡ vec_len l.answers) };
}

impl LaneEnd {
    // A fact of each end.
    pub(crate) fn keeps_order(&self)
        ensures rising { RisesByOne self.now.view }
        ensures order { KeepsOrder self.now.view self.now.answers }
        ensures count { self.now.entered ≡ length self.now.answers }
    {
        let _entered = self.entered;
    }

    /// The answers in order: numbers never fall, and each names an install that the lane read.
    pub fn answers(&self) -> &[Answer]
        ensures answers { result.now ≡ self.now.answers }
        ensures fits { KeepsOrder self.now.view self.now.answers }
    {
        self.answers.as_slice()
    }

    /// The counters after the last answer.
    pub fn memory(&self) -> &[u8; MEMORY_SIZE]
        ensures { result.now ≡ self.now.memory }
    {
        &self.memory
    }

    /// How many entries the lane got to answer a frame.
    pub fn entered(&self) -> u64
        ensures entered { result ≡ self.now.entered }
        ensures count { result ≡ length self.now.answers }
    {
        self.entered
    }
}
