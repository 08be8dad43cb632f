//! The question on router advertisements that were seen before.

ghost use Rattle.std.specs.Prelude.{◌≡◌, length, map, All};
ghost use Rattle.std.specs.List.{list_all};
ghost use Rattle.ra_records.specs.Masks.{IsNumber};
ghost use Rattle.policy_state.specs.Asking.{first_of};
ghost use Rattle.policy_state.specs.Records.{lasts, advertised_again, repeated_advertisements};

use crate::ruling::Ruling;
use crate::{Basis, Chosen};
use apf_coding::Verdict;
use data_counters::Counter;
use frame_views::number;
use ra_records::Span;

/// Whether a lifetime in the frame is not below a hold.
fn lasts(hold: u32, frame: &[u8], lifetime: Span) -> bool
    requires { IsNumber (length frame.now) lifetime }
    ensures { result ≡ lasts hold frame.now lifetime }
{
    match number(frame, lifetime.at, lifetime.len) {
        Some(seconds) => hold <= seconds,
        None => false,
    }
}

/// Whether all lifetimes are.
fn all_last(hold: u32, frame: &[u8], lifetimes: &[Span]) -> bool
    requires { All (IsNumber (length frame.now)) lifetimes.now }
    ensures { result ≡ list_all (lasts hold frame.now) lifetimes.now }
{
    for lifetime in lifetimes {
        if !lasts(hold, frame, *lifetime) {
            return false;
        }
    }
    true
}

/// Frames that match a chosen record.
fn advertised_again(chosen: &Chosen, age: u32, frame: &[u8]) -> Ruling
    ensures { result ≡ advertised_again chosen.now age frame.now }
{
    if age > chosen.hold || !chosen.advert.matches(frame) {
        return Ruling::Silent;
    }
    if !all_last(chosen.hold, frame, chosen.advert.lifetimes()) {
        return Ruling::Silent;
    }
    Ruling::Says(Verdict::Drop, Counter::DroppedRa)
}

/// The first record that answers.
fn first_again(chosen: &[Chosen], age: u32, frame: &[u8]) -> Ruling
    ensures { result ≡ first_of (map (λ one. advertised_again one age frame.now) chosen.now) }
{
    for one in chosen {
        let answer = advertised_again(one, age, frame);
        if answer != Ruling::Silent {
            return answer;
        }
    }
    Ruling::Silent
}

/// Frames that match one of the chosen records.
pub(crate) fn repeated_advertisements(basis: &Basis, age: u32, frame: &[u8]) -> Ruling
    ensures { result ≡ repeated_advertisements basis.now age frame.now }
{
    first_again(basis.chosen.as_slice(), age, frame)
}
