//! The end of a live run: each lane learns the last token and is closed.
ghost use Rattle.std.specs.Prelude.{◌≡◌, ℕ, ◌+◌, ◌-◌, ◌%◌, ◌^◌, ◌<◌, ◌≤◌, ◌++◌, All, length, min, sum_by, IsTrue, IfOk, OnOk, Err, ◌⊎◌};
ghost use Rattle.dealt_items.specs.Dealing.{every, dealt};
ghost use Rattle.filter_core.specs.Arrivals.{arrivals_of};
ghost use Rattle.pcap_files.specs.Capture.{IsWithin};
ghost use Rattle.program_swap.specs.Driving.{MayEnd, AddsEnd, AreEnded, IsFresh, HaveAnswered, Knows};
ghost use Rattle.program_swap.specs.Histories.{RisesByOne};
ghost use Rattle.program_swap.specs.declared.ending.DriveError.TheVariants.{NotEntered};

use crate::gate::Gate;
use crate::installer::{Installer, Token};
use crate::installing::beside;
use crate::lane::{Lane, LaneEnd, LearnError};
use crate::place::Places;
use apf_base::{List, MEMORY_SIZE};
use dealt_items::Hand;
use filter_core::Install;
use pcap_files::Placed;
use policy_state::Answer;
use std::alloc::Global;
use std::sync::Wait;
use std::thread::Threads;

/// Why lanes didn't answer all frames that they were dealt.
#[derive(Clone, Copy, Debug, PartialEq, Eq)]
pub enum DriveError {
    /// A lane's place was refused entry 1,000 times.
    NotEntered,
    OutOfMemory,
}

/// What a lane keeps for each frame that it was dealt is its answer.
impl Hand<Answer> for LaneEnd {
    ghost kept = { λ end. end.answers };

    ghost memory = { λ end. end.memory };

    fn kept(&self) -> &[Answer] {
        self.answers()
    }

    fn memory(&self) -> &[u8; MEMORY_SIZE] {
        self.memory()
    }
}

/// A lane learns the token, where there is one.
fn learn_last(lane: &mut Lane, token: &Option<Token>) -> Result<(), DriveError>
    requires { MayEnd token.now lane.old }
    ensures ok { OnOk result (Knows token.now lane.old lane.new) }
    ensures refused { lane.old.refused ≤ lane.new.refused }
    ensures not_entered { result ≡ Err NotEntered → lane.old.refused + 1000 ≤ lane.new.refused }
{
    let Some(token) = token else {
        return Ok(());
    };
    match lane.learn(token) {
        Ok(()) => Ok(()),
        Err(LearnError::NotEntered) => Err(DriveError::NotEntered),
        Err(LearnError::OutOfMemory) => Err(DriveError::OutOfMemory),
    }
}

/// A lane learns the token, where there is one, and is closed. Its end joins the ends so far, unless some lane was
/// refused or memory was out.
fn close_next(
    ends: Result<List<LaneEnd>, DriveError>,
    lane: Lane,
    token: &Option<Token>,
    places: &mut Places,
) -> Result<List<LaneEnd>, DriveError>
    requires { MayEnd token.now lane }
    ensures ok { IfOk result (λ now. AddsEnd token.now lane ends now) }
    ensures refused { min (places.old.refused + lane.refused) (2 ^ 64 - 1) ≤ places.new.refused }
    ensures not_entered { result ≡ Err NotEntered → (ends ≡ Err NotEntered) ⊎
        (min (places.old.refused + 1000) (2 ^ 64 - 1) ≤ places.new.refused) }
{
    let mut lane = lane;
    let learnt = learn_last(&mut lane, token);
    let end = lane.close(places);
    end.keeps_order();
    let mut ends = ends?;
    learnt?;
    let Ok(()) = ends.push(end) else {
        return Err(DriveError::OutOfMemory);
    };
    Ok(ends)
}

/// Each lane learns the token, where there is one, and is closed. All lanes are closed, also where one is refused.
fn close_all(
    alloc: Global,
    lanes: List<Lane>,
    token: &Option<Token>,
    places: &mut Places,
) -> Result<List<LaneEnd>, DriveError>
    requires { All (MayEnd token.now) lanes }
    ensures ok { IfOk result (λ ends. AreEnded token.now lanes ends) }
    ensures refused { min (places.old.refused + sum_by (λ lane. lane.refused) lanes) (2 ^ 64 - 1)
        ≤ places.new.refused }
    ensures not_entered { result ≡ Err NotEntered →
        min (places.old.refused + 1000) (2 ^ 64 - 1) ≤ places.new.refused }
{
    let mut lanes = lanes;
    let mut ends = Ok(List::new(alloc));
    for _ in 0..lanes.len() {
        let Some(lane) = lanes.remove(0) else {
            break;
        };
        ends = close_next(ends, lane, token, places);
    }
    ends
}

// How many answers the ends have in all.
fn entered(ends: &[LaneEnd]) -> u64
    ensures { result ≡ sum_by (λ end. end.entered) ends.now % 2 ^ 64 }
{
    let mut sum = 0u64;
    for end in ends {
        sum = sum.wrapping_add(end.entered());
    }
    sum
}

/// Lanes that have answered nothing answer all frames of a capture in threads, beside the installs; then each learns
/// the last install and is closed.
///
/// Frame k, from 1, goes to lane 1 + (k - 1) mod the number of lanes, and counts as at the greatest second of the
/// lane's frames so far. There is an end for each lane, in their order. After an error all lanes are closed too:
/// `NotEntered` says that the count of places rose by 1,000 at least.
pub fn answer_all<R: Threads + Wait + Sync, G: Gate>(
    rt: &R,
    alloc: Global,
    installer: &mut Installer,
    nexts: &[Install],
    lanes: List<Lane>,
    capture: &[u8],
    frames: &[Placed],
    gate: &G,
    places: &mut Places,
) -> Result<List<LaneEnd>, DriveError>
    requires live { IsTrue installer.old.live }
    requires numbers { RisesByOne (installer.old.published ++ nexts.now) }
    requires lanes { 0 < length lanes }
    requires fresh { All (IsFresh installer.old.board installer.old.published) lanes }
    requires room { All (λ lane. length (every 0 (length lanes - 1) frames.now) ≤ lane.spare) lanes }
    requires within { All (IsWithin (length capture.now)) frames.now }
    requires places { places.old.refused < 2 ^ 63 }
    ensures count { IfOk result (λ ends. length ends ≡ length lanes) }
    ensures answered { IfOk result (λ ends. HaveAnswered installer.old.board (installer.old.published ++ nexts.now)
        (dealt (length lanes) (arrivals_of capture.now frames.now)) ends) }
    ensures installed { OnOk result
        (installer.new ≡ record installer.old { published = installer.old.published ++ nexts.now }) }
    ensures rises { places.old.refused ≤ places.new.refused }
    ensures not_entered { result ≡ Err NotEntered → places.old.refused + 1000 ≤ places.new.refused }
{
    let mut lanes = lanes;
    let told = beside(
        rt,
        alloc,
        installer,
        nexts,
        lanes.as_mut_slice(),
        capture,
        frames,
        gate,
    );
    let Ok(token) = told else {
        let _ = close_all(alloc, lanes, &None, places);
        return Err(DriveError::OutOfMemory);
    };
    let ends = close_all(alloc, lanes, &token, places)?;
    if entered(ends.as_slice()) != frames.len() as u64 {
        return Err(DriveError::NotEntered);
    }
    Ok(ends)
}
