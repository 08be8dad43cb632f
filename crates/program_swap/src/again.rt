//! Answers by installs beyond a list, given again by its last install.
ghost use Rattle.std.specs.Prelude.{◌≡◌, ℕ, ◌+◌, ◌-◌, ◌<◌, ◌≤◌, [], List as Items, All, length, replicate, map, IfOk, OnOk};
ghost use mathlib.Core.List.{IsPrefix};
ghost use Rattle.logbook.specs.Pages.{Book};
ghost use Rattle.apf_base.specs.Limits.{frame_limit, memory_size};
ghost use Rattle.dealt_items.specs.Dealing.{every, dealt};
ghost use Rattle.filter_core.specs.Arrivals.{arrivals_of};
ghost use Rattle.filter_core.specs.Coded.{IsAnswer};
ghost use Rattle.filter_core.specs.Lanes.{RisesFrom, LaneRuns, LanesRun};
ghost use Rattle.filter_core.specs.declared.install.Install.{Install as AnInstall};
ghost use Rattle.pcap_files.specs.Capture.{IsWithin};
ghost use Rattle.program_swap.specs.Again.{AllKeepNamed, AnswersAgain, KeepsNamed};
ghost use Rattle.program_swap.specs.Driving.{HaveAnswered};

use crate::lane::LaneEnd;
use apf_base::{List, MEMORY_SIZE, OutOfMemory};
use data_counters::{Counter, raise};
use dealt_items::Hand;
use filter_core::Install;
use pcap_files::{Placed, frame_at};
use policy_state::Answer;
use std::alloc::Global;

/// The answers to a lane's share of the frames, in order, and the counters after the last.
#[derive(Drop)]
pub struct ShareAnswers {
    pub answers: List<Answer>,
    pub memory: [u8; MEMORY_SIZE],
}

impl Hand<Answer> for ShareAnswers {
    ghost kept = { λ share. share.answers };

    ghost memory = { λ share. share.memory };

    fn kept(&self) -> &[Answer] {
        self.answers.as_slice()
    }

    fn memory(&self) -> &[u8; MEMORY_SIZE] {
        &self.memory
    }
}

/// Raises what an answer raised: `TotalPackets` for a frame of more than 14 bytes, and the counter that says why, where
/// there is one.
fn raise_again(memory: &mut [u8; MEMORY_SIZE], frame: &[u8], answer: &Answer)
    ensures { (i : AnInstall) (now : ℕ) (after : Items ℕ) → IsAnswer i frame.now now memory.old answer.now after →
        memory.new ≡ after }
{
    if frame.len() <= 14 {
        return;
    }
    raise(memory, Counter::TotalPackets);
    let Some(counter) = answer.counter else {
        return;
    };
    raise(memory, counter);
}

/// What was answered by the last install or one before it stays, and raises its counters. Else the last install
/// answers.
fn answer_again(
    last: &Install,
    kept: Answer,
    frame: &[u8],
    now: u32,
    memory: &mut [u8; MEMORY_SIZE],
) -> Answer
    requires { length frame.now ≤ frame_limit }
    ensures same { kept.number ≤ last.now.number → result ≡ kept }
    ensures raised { kept.number ≤ last.now.number → (i : AnInstall) (second : ℕ) (after : Items ℕ) →
        IsAnswer i frame.now second memory.old kept after → memory.new ≡ after }
    ensures anew { last.now.number < kept.number →
        IsAnswer last.now frame.now now memory.old result memory.new }
{
    if last.number < kept.number {
        return last.answer(frame, now, memory);
    }
    raise_again(memory, frame, &kept);
    kept
}

impl ShareAnswers {
    fn new(alloc: Global) -> ShareAnswers
        ensures answers { result.answers ≡ [] }
        ensures memory { result.memory ≡ replicate memory_size 0 }
    {
        ShareAnswers {
            answers: List::new(alloc),
            memory: [0; MEMORY_SIZE],
        }
    }

    fn add(
        &mut self,
        last: &Install,
        kept: Answer,
        frame: &[u8],
        now: u32,
    ) -> Result<(), OutOfMemory>
        requires { length frame.now ≤ frame_limit }
        ensures { OnOk result (AnswersAgain last.now frame.now now kept self.old self.new) }
    {
        let answer = answer_again(last, kept, frame, now, &mut self.memory);
        self.answers.push(answer)
    }
}

/// The share of one lane: its answers up to the first by an install beyond these, and from there on answers by the last
/// of these, over the counters that the answers before left.
pub fn share_again(
    alloc: Global,
    installs: &[Install],
    end: &LaneEnd,
    capture: &[u8],
    frames: &[Placed],
    hand: usize,
    others: usize,
) -> Result<ShareAnswers, OutOfMemory>
    requires installs { 0 < length installs.now }
    requires numbers { RisesFrom 0 installs.now }
    requires view { IsPrefix installs.now end.now.view }
    requires runs { LaneRuns end.now.view (every hand others (arrivals_of capture.now frames.now)) end.now.answers
        end.now.memory }
    requires within { All (IsWithin (length capture.now)) frames.now }
    ensures runs { IfOk result (λ again. LaneRuns installs.now
        (every hand others (arrivals_of capture.now frames.now)) again.answers again.memory) }
    // What names one of these installs is given again as the end kept it.
    ensures kept { IfOk result (λ again. KeepsNamed (length installs.now) end.now.answers again.answers) }
{
    end.keeps_order();
    let last = &installs[installs.len() - 1];
    let kept = end.answers();
    let mut again = ShareAnswers::new(alloc);
    let mut wait = hand;
    let mut clock = 0u32;
    for frame in frames {
        if wait > 0 {
            wait -= 1;
            continue;
        }
        clock = clock.max(frame.stamp.sec);
        let answer = kept[again.answers.len()];
        again.add(last, answer, frame_at(capture, frame), clock)?;
        wait = others;
    }
    Ok(again)
}

/// The shares of all lanes, in their order.
pub fn shares_again(
    alloc: Global,
    installs: &[Install],
    ends: &[LaneEnd],
    capture: &[u8],
    frames: &[Placed],
) -> Result<List<ShareAnswers>, OutOfMemory>
    requires installs { 0 < length installs.now }
    requires numbers { RisesFrom 0 installs.now }
    requires answered { (board : Book) × HaveAnswered board installs.now
        (dealt (length ends.now) (arrivals_of capture.now frames.now)) ends.now }
    requires within { All (IsWithin (length capture.now)) frames.now }
    ensures run { IfOk result (λ shares. LanesRun installs.now
        (dealt (length ends.now) (arrivals_of capture.now frames.now))
        (map (λ share. share.answers) shares) (map (λ share. share.memory) shares)) }
    // What names one of these installs is given again as its end kept it.
    ensures kept { IfOk result (λ shares.
        AllKeepNamed (length installs.now) ends.now (map (λ share. share.answers) shares)) }
{
    let mut shares = List::new(alloc);
    for hand in 0..ends.len() {
        let others = ends.len() - 1;
        shares.push(share_again(alloc, installs, &ends[hand], capture, frames, hand, others)?)?;
    }
    Ok(shares)
}
