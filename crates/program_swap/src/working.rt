//! Lanes in threads, which answer the frames that they are dealt.
ghost use Rattle.std.specs.Prelude.{◌≡◌, ℕ, ◌-◌, ◌<◌, All, length, slice_index_or};
ghost use Rattle.filter_core.specs.Arrivals.{arrivals_of};
ghost use Rattle.pcap_files.specs.Capture.{IsWithin};
ghost use Rattle.program_swap.specs.Driving.{dealt_frames, MayAnswer, HasDone, AreDone};
ghost use Rattle.program_swap.specs.Order.{LaneState};

use crate::gate::Gate;
use crate::lane::Lane;
use pcap_files::{Placed, frame_at};
use std::thread;
use std::thread::Threads;

/// One lane answers one frame each time that so many others were passed by, each at the greatest second so far, until
/// an entry is refused.
pub(crate) fn work<G: Gate>(
    lane: &mut Lane,
    capture: &[u8],
    frames: &[Placed],
    wait: usize,
    others: usize,
    gate: &G,
)
    requires within { All (IsWithin (length capture.now)) frames.now }
    requires room { MayAnswer (dealt_frames wait others capture.now frames.now) lane.old }
    ensures { HasDone lane.old (dealt_frames wait others capture.now frames.now) lane.new }
{
    // The room is below 2^32, so 1,000 refusals for each frame don't come to 2^63.
    let _room = lane.spare();
    let mut wait = wait;
    let mut clock = 0u32;
    let mut k = 0u64;
    for frame in frames {
        k = k.wrapping_add(1);
        if wait > 0 {
            wait -= 1;
            continue;
        }
        clock = clock.max(frame.stamp.sec);
        let Ok(_) = lane.answer(k, frame_at(capture, frame), clock, gate) else {
            return;
        };
        wait = others;
    }
}

/// The frames are dealt to the lanes in turn. Each lane answers its share in a thread of its own, where one can be
/// made.
pub(crate) fn run_lanes<R: Threads + Sync, G: Gate>(
    rt: &R,
    lanes: &mut [Lane],
    capture: &[u8],
    frames: &[Placed],
    gate: &G,
)
    requires within { All (IsWithin (length capture.now)) frames.now }
    requires room { (i : ℕ) (d : LaneState) → i < length lanes.old →
        MayAnswer (dealt_frames i (length lanes.old - 1) capture.now frames.now) (slice_index_or lanes.old i d) }
    ensures { AreDone lanes.old 0 (length lanes.old - 1) (arrivals_of capture.now frames.now) lanes.new }
{
    if lanes.is_empty() {
        return;
    }
    let threads = lanes.len();
    let others = threads - 1;
    thread::for_each_mut(
        rt,
        lanes,
        threads,
        &|hand: usize, lane: &mut Lane|
            requires within { All (IsWithin (length capture.now)) frames.now }
            requires room { MayAnswer (dealt_frames hand others capture.now frames.now) lane.now }
            ensures { HasDone lane.entry.now (dealt_frames hand others capture.entry.now frames.entry.now)
                lane.exit.now }
        { work(lane, capture, frames, hand, others, gate) },
    );
}
