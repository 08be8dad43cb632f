//! The top call that serves `live`.
#![tactic(auto, using(command_plan::proofs::Rules::meaning, command_plan::proofs::Rules::fetching))]

ghost use Rattle.std.specs.Prelude.{◌≡◌, ◌≢◌, ◌≤◌, ◌<◌, ◌^◌, ◌⊎◌, ◌∷◌, [], ℕ, List as Items, Result, IfSome, OnOk, codes};
ghost use Rattle.std.specs.Io.KnownBytes.{IsAtEnd, Keeps};
ghost use Rattle.apf_base.specs.Causes.{Rose};
ghost use Rattle.apf_base.specs.Streams.{AppendsAll};
ghost use Rattle.command_line.specs.Lines.{split_of, texts, three};
ghost use Rattle.command_line.specs.Shown.{shown};
ghost use Rattle.command_plan.specs.declared.fault.Fault.{Fault as EndFault};
ghost use Rattle.command_plan.specs.Ending.{IsOwn, Leaves};
ghost use Rattle.command_plan.specs.Follows.{shelving, sinking, stage_beside};
ghost use Rattle.command_plan.specs.Meaning.{Does, IsAccepted, MayEndBy, MayFetchFor};
ghost use Rattle.command_plan.specs.Status.{Complains, status_of};
ghost use Rattle.apf_run.specs.Live.{HasLivedBy, live_by, live_words_meaning};

use crate::live::live;
use apf_base::{List, Shelf, Sink, Source};
use command_line::{Further, Split, split};
use command_plan::{Fault, Files, Lines, complain, status_of};
use program_swap::{Gate, LaneEnd, Places};
use std::alloc::Global;
use std::sync::Wait;
use std::thread::Threads;

// Does what a command's name and the words that follow it say.
fn perform<R: Threads + Wait + Sync, H: Files, O: Lines, G: Gate>(
    rt: &R,
    alloc: Global,
    split: Split<'_>,
    shelf: &mut H,
    out: &mut O,
    gate: &G,
    places: &mut Places,
    ends: &mut List<LaneEnd>,
) -> Result<(), Fault>
    requires may { let line = shown split in MayFetchFor H.may (live_by line.name line.further) }
    requires refused { places.old.refused < 2 ^ 63 }
    ensures plan { let line = shown split.entry in Does (live_by line.name line.further)
        (stage_beside (H.seen shelf.old) (O.seen out.old) places.old.refused)
        (stage_beside (H.seen shelf.new) (O.seen out.new) places.new.refused) result }
    ensures lived { let line = shown split.entry in OnOk result
        (HasLivedBy line.further (H.file shelf.old) ends.new (O.held out.old) (O.held out.new)) }
{
    match (split.name, split.further) {
        ("live", Further::Three(script, capture, lanes)) => {
            live(
                rt, alloc, script, capture, lanes, shelf, out, gate, places, ends,
            )
        }
        _ => Err(Fault::Usage),
    }
}

// Does what the words say.
fn carry_out<R: Threads + Wait + Sync, H: Files, O: Lines, G: Gate>(
    rt: &R,
    alloc: Global,
    words: &[String],
    shelf: &mut H,
    out: &mut O,
    gate: &G,
    places: &mut Places,
    ends: &mut List<LaneEnd>,
) -> Result<(), Fault>
    requires may { MayFetchFor H.may (live_words_meaning (texts words.now)) }
    requires refused { places.old.refused < 2 ^ 63 }
    ensures plan { Does (live_words_meaning (texts words.now))
        (stage_beside (H.seen shelf.old) (O.seen out.old) places.old.refused)
        (stage_beside (H.seen shelf.new) (O.seen out.new) places.new.refused) result }
    ensures lived { OnOk result (IfSome (split_of (texts words.now)) (λ line.
        HasLivedBy line.further (H.file shelf.old) ends.new (O.held out.old) (O.held out.new))) }
{
    match split(alloc, words)? {
        Some(split) => perform(rt, alloc, split, shelf, out, gate, places, ends),
        None => Err(Fault::Usage),
    }
}

/// Does what the words of `live` say, over the files of a shelf, and answers the exit status: those of `run` with the same
/// causes, and 76 where the board refused a reader place or an entry, which `places` counts. It refuses every other
/// command's words.
///
/// The gate is called round each answer and each install. It may wait, and never return, where the calls of the board
/// wait. With status 0 `ends` holds what the lanes left, one end a lane, in their order. With any other status one line
/// that says why goes to `err`.
pub fn run_live<R: Threads + Wait + Sync, H: Shelf, O: Sink, E: Sink, G: Gate>(
    rt: &R,
    alloc: Global,
    words: &[String],
    shelf: &mut H,
    out: &mut O,
    err: &mut E,
    gate: &G,
    places: &mut Places,
    ends: &mut List<LaneEnd>,
) -> u8
    requires may { MayFetchFor H.may (live_words_meaning (texts words.now)) }
    requires no_ends { ends.old ≡ [] }
    requires few_refused { places.old.refused < 2 ^ 63 }

    // The call does what its words mean: it goes over the plan of `live`, and `err` gets the line of its end.
    ensures ends { let a = stage_beside (shelving (H.file shelf.old) (H.left shelf.old) (H.faults shelf.old)
        (H.misses shelf.old)) (sinking (O.held out.old) (O.faults out.old)) places.old.refused in
        let b = stage_beside (shelving (H.file shelf.new) (H.left shelf.new) (H.faults shelf.new) (H.misses shelf.new))
        (sinking (O.held out.new) (O.faults out.new)) places.new.refused in
        (end : Result (Unit {0}) EndFault) × (result ≡ status_of end) × Does (live_words_meaning (texts words.now)) a b end
        × Complains (texts words.now) (E.held err.old) (E.held err.new)
        (Rose (E.faults err.old) (E.faults err.new)) end }

    // With status 0 the report of a live run of its script over its capture was written, and nothing else, and `ends`
    // holds what the lanes left.
    ensures lives { (script capture lanes : Items ℕ)
        → texts words.now ≡ codes "live" ∷ script ∷ capture ∷ lanes ∷ [] → result ≡ 0
        → HasLivedBy (three script capture lanes) (H.file shelf.old) ends.new (O.held out.old) (O.held out.new) }

    // What stands on `out`: lines with which the plan may end so, or the first bytes of their text where a write
    // failed.
    ensures stands { (end : Result (Unit {0}) EndFault) × (result ≡ status_of end) × (lines : Items (Items ℕ))
        × MayEndBy (live_words_meaning (texts words.now)) (H.file shelf.old) lines end
        × Leaves (O.held out.old) (O.held out.new) lines end }

    // Where no count rose, the call comes to an end of its own with all its lines, but for want of memory.
    ensures complete { ¬ Rose (H.faults shelf.old) (H.faults shelf.new)
        → ¬ Rose (H.misses shelf.old) (H.misses shelf.new) → ¬ Rose (O.faults out.old) (O.faults out.new)
        → ¬ Rose places.old.refused places.new.refused
        → (result ≡ 70) ⊎ ((end : Result (Unit {0}) EndFault) × (result ≡ status_of end) × IsOwn end
        × (lines : Items (Items ℕ))
        × MayEndBy (live_words_meaning (texts words.now)) (H.file shelf.old) lines end
        × AppendsAll (O.held out.old) (O.held out.new) lines) }

    // Each cause, for every shelf, sink and gate.
    ensures usage { result ≡ 64 → ¬ IsAccepted (live_words_meaning (texts words.now)) }
    ensures refused { ¬ IsAccepted (live_words_meaning (texts words.now)) → (result ≡ 64) ⊎ (result ≡ 70) }
    ensures read { result ≡ 71 → Rose (H.faults shelf.old) (H.faults shelf.new) }
    ensures write { result ≡ 72 → Rose (O.faults out.old) (O.faults out.new) }
    ensures open { result ≡ 73 → Rose (H.misses shelf.old) (H.misses shelf.new) }
    ensures board { result ≡ 76 → Rose places.old.refused places.new.refused }

    // Nothing is written before all is read, checked and answered. With 0 the capture was read to its end.
    ensures quiet { result ≢ 0 → result ≢ 70 → result ≢ 72 → Keeps (O.held out.old) (O.held out.new) }
    ensures whole { result ≡ 0 → IsAtEnd (H.left shelf.new) }

    ensures faults { H.faults shelf.old ≤ H.faults shelf.new }
    ensures misses { H.misses shelf.old ≤ H.misses shelf.new }
    ensures out_faults { O.faults out.old ≤ O.faults out.new }
    ensures err_faults { E.faults err.old ≤ E.faults err.new }
    ensures refusals { places.old.refused ≤ places.new.refused }
    ensures files { H.file shelf.new ≡ H.file shelf.old }
{
    let end = carry_out(rt, alloc, words, shelf, out, gate, places, ends);
    if let Err(fault) = end {
        complain(fault, words, err);
    }
    status_of(end)
}
