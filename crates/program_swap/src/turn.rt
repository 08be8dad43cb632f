//! One frame at a place.
ghost use Rattle.std.specs.Prelude.{◌≡◌, ◌^◌, ◌<◌, ◌≤◌, length, MatchOption};
ghost use Rattle.apf_base.specs.Limits.{frame_limit};
ghost use Rattle.program_swap.specs.Turn.{HasRun, WasRefused, HasRead};

use crate::history::Known;
use crate::place::Place;
use apf_base::MEMORY_SIZE;
use core::mem::replace_with;
use policy_state::Answer;

/// What one frame gives.
#[derive(Drop)]
pub struct Turned {
    pub answer: Answer,
    pub known: Known,
    pub memory: [u8; MEMORY_SIZE],
}

fn run(place: Place, frame: &[u8], now: u32, memory: [u8; MEMORY_SIZE]) -> (Place, Option<Turned>)
    requires refused { place.refused < 2 ^ 63 }
    requires frame { length frame.now ≤ frame_limit }
    ensures { MatchOption result.1 (WasRefused place 0 result.0) (λ t. HasRun place frame.now now memory result.0 t) }
{
    match place.try_enter(0) {
        Ok(inside) => {
            let mut memory = memory;
            let shown = inside.shown();
            let known = shown.known();
            let answer = shown.install().answer(frame, now, &mut memory);
            let place = inside.leave_answered();
            (
                place,
                Some(Turned {
                    answer,
                    known,
                    memory,
                }),
            )
        }
        Err(place) => (place, None),
    }
}

pub fn run_in(
    place: &mut Place,
    frame: &[u8],
    now: u32,
    memory: [u8; MEMORY_SIZE],
) -> Option<Turned>
    requires refused { place.old.refused < 2 ^ 63 }
    requires frame { length frame.now ≤ frame_limit }
    ensures { MatchOption result (WasRefused place.old 0 place.new)
        (λ t. HasRun place.old frame.now now memory place.new t) }
{
    replace_with(
        place,
        memory,
        |place: Place, memory: [u8; MEMORY_SIZE]| -> (Place, Option<Turned>)
            requires refused { place.refused < 2 ^ 63 }
            requires frame { length frame.now ≤ frame_limit }
            ensures { MatchOption result.1 (WasRefused place 0 result.0)
                (λ t. HasRun place frame.entry.now now memory result.0 t) }
        { run(place, frame, now, memory) },
    )
}

fn look(place: Place, least: u64) -> (Place, Option<Known>)
    requires { place.refused < 2 ^ 63 }
    ensures { MatchOption result.1 (WasRefused place least result.0) (λ f. HasRead place least result.0 f) }
{
    match place.try_enter(least) {
        Ok(inside) => {
            let known = inside.shown().known();
            (inside.leave(), Some(known))
        }
        Err(place) => (place, None),
    }
}

/// Asks up to 1,000 times for an entry that finds `least` or a later install.
pub fn look_in(place: &mut Place, least: u64) -> Option<Known>
    requires { place.old.refused < 2 ^ 63 }
    ensures { MatchOption result (WasRefused place.old least place.new) (λ f. HasRead place.old least place.new f) }
{
    replace_with(
        place,
        least,
        |place: Place, least: u64| -> (Place, Option<Known>)
            requires { place.refused < 2 ^ 63 }
            ensures { MatchOption result.1 (WasRefused place least result.0) (λ f. HasRead place least result.0 f) }
        { look(place, least) },
    )
}
