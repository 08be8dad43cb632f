//! The policy, asked of a frame.

ghost use Rattle.std.specs.Prelude.{◌≡◌};
ghost use Rattle.policy_state.specs.Policy.{others, questions};
ghost use Rattle.policy_state.specs.Asking.{first_of};
ghost use Rattle.policy_state.specs.Whole.{policy, fate_of, verdict_of, counter_of_fate};

use crate::Basis;
use crate::arp::arp;
use crate::ip4::ip4;
use crate::ip6::ip6;
use crate::link::{BROADCAST, link};
use crate::ruling::Ruling;
use apf_coding::Verdict;
use data_counters::Counter;
use frame_views::Ether;

/// All other frames.
fn others(frame: &[u8]) -> Ruling
    ensures { result ≡ others frame.now }
{
    match Ether::new(frame).destination() {
        None => Ruling::Missing,
        Some(mac) if mac == BROADCAST.as_slice() => {
            Ruling::Says(Verdict::Drop, Counter::DroppedEthBroadcast)
        }
        Some(_) => Ruling::Says(Verdict::Pass, Counter::PassedNonIpUnicast),
    }
}

/// The first answer.
fn first_answer(basis: &Basis, age: u32, frame: &[u8]) -> Ruling
    ensures { result ≡ first_of (questions basis.now age frame.now) }
{
    let mut answer = link(basis, frame);
    if answer == Ruling::Silent {
        answer = arp(basis, frame);
    }
    if answer == Ruling::Silent {
        answer = ip4(basis, frame);
    }
    if answer == Ruling::Silent {
        answer = ip6(basis, age, frame);
    }
    if answer == Ruling::Silent {
        answer = others(frame);
    }
    answer
}

/// The verdict and the counter of an answer.
fn settled(answer: Ruling) -> (Verdict, Option<Counter>)
    ensures verdict { result.0 ≡ verdict_of (fate_of answer) }
    ensures counter { result.1 ≡ counter_of_fate (fate_of answer) }
{
    match answer {
        Ruling::Says(verdict, counter) => (verdict, Some(counter)),
        Ruling::Missing | Ruling::Silent => (Verdict::Pass, None),
    }
}

/// What the policy says of a frame, at an age in seconds: its verdict, and the counter beside `TotalPackets` that says why.
///
/// There is no counter exactly where the frame has at most 14 bytes, or lacks a field that a question reads. It then passes.
pub fn decide(basis: &Basis, age: u32, frame: &[u8]) -> (Verdict, Option<Counter>)
    ensures verdict { result.0 ≡ verdict_of (policy basis.now age frame.now) }
    ensures counter { result.1 ≡ counter_of_fate (policy basis.now age frame.now) }
{
    if frame.len() <= 14 {
        return (Verdict::Pass, None);
    }
    settled(first_answer(basis, age, frame))
}
