//! `live`: the report of a script over a capture whose frames lanes answer, beside the installs of the script.
#![tactic(auto, using(command_plan::proofs::Rules::following, command_plan::proofs::Rules::meaning, command_plan::proofs::Rules::fetching))]

ghost use Rattle.std.specs.Prelude.{◌≡◌, ◌≤◌, ◌<◌, ◌^◌, ◌-◌, ◌++◌, ℕ, List as Items, All, length, IsTrue, IfOk, IfErr, IfSome, OnOk};
ghost use Rattle.logbook.specs.Pages.{Book};
ghost use Rattle.apf_base.specs.Limits.{capture_limit};
ghost use Rattle.command_plan.specs.Follows.{Follows, Shelving, Thinks, answer, stage_beside};
ghost use Rattle.command_line.specs.Lines.{three};
ghost use Rattle.command_plan.specs.Meaning.{Does, MayFetchFor};
ghost use Rattle.command_plan.specs.Plan.{MayFetch, unless};
ghost use Rattle.dealt_items.specs.Dealing.{dealt, every};
ghost use Rattle.filter_core.specs.Arrivals.{arrivals_of};
ghost use Rattle.filter_core.specs.Lanes.{RisesFrom};
ghost use Rattle.filter_report.specs.Scripted.{HasTold};
ghost use Rattle.pcap_files.specs.Capture.{IsWithin, capture};
ghost use Rattle.policy_state.specs.declared.basis.Script.{Script as AScript};
ghost use Rattle.program_swap.specs.Driving.{HaveAnswered, IsFresh};
ghost use Rattle.program_swap.specs.Histories.{RisesByOne};
ghost use Rattle.script_text.specs.Scripts.{IsScriptText};
ghost use Rattle.apf_run.specs.Filter.{script_refusal};
ghost use Rattle.apf_run.specs.Live.{HasLived, HasLivedBy, IsBoard, IsOfBoard, capture_refusal, lanes_of, live_meaning, live_plan, lives, lives_over};

use crate::filter::{CAPTURE, SCRIPT, script_of};
use crate::live_lines::say_live;
use apf_base::{List, Shelf, Sink, Source};
use command_plan::{Fault, Files, Lines, Refusal};
use dealt_items::{most_of, total, woven};
use filter_core::Install;
use filter_report::{ScriptTold, take_script};
use pcap_files::{Placed, records};
use policy_state::Script;
use program_swap::{
    Board, BoardError, DriveError, Gate, Installer, Lane, LaneEnd, Places, answer_all, shares_again,
};
use script_text::read_number;
use std::alloc::Global;
use std::sync::Wait;
use std::thread::Threads;

// The installs of a script's events, and their lines.
fn told_of(alloc: Global, script: Script) -> Result<ScriptTold, Fault>
    requires { length script.events < 2 ^ 32 }
    ensures plan { Thinks (unless (script_refusal script)) (answer (λ _. tt) result) }
    ensures told { IfOk result (λ told. HasTold script told.installs told.lines) }
{
    let told = take_script(alloc, script)?;
    Ok(told)
}

// The records of a capture that has no fault.
fn frames_of(alloc: Global, bytes: &[u8]) -> Result<List<Placed>, Fault>
    requires { length bytes.now ≤ capture_limit }
    ensures plan { Thinks (unless (capture_refusal (capture bytes.now).end)) (answer (λ _. tt) result) }
    ensures frames { IfOk result (λ list. list ≡ (capture bytes.now).list) }
    ensures within { IfOk result (λ list. All (IsWithin (length bytes.now)) list) }
{
    let found = records(alloc, bytes)?;
    match found.end {
        Some(fault) => Err(Fault::Refused(Refusal::BadCapture(fault))),
        None => Ok(found.list),
    }
}

// A board that shows an install, and its lanes, each with room for its share of the frames.
fn board_of<R: Wait>(
    rt: &R,
    alloc: Global,
    first: &Install,
    lanes: u32,
    frames: usize,
    places: &mut Places,
) -> Result<(Installer, List<Lane>), Fault>
    requires lanes { (1 ≤ lanes) × (lanes ≤ 16) }
    requires refused { places.old.refused < 2 ^ 63 }
    ensures made { IfOk result (λ r. IsBoard first.now lanes frames r.0 r.1) }
    ensures board { IfErr result (IsOfBoard places.old.refused places.new.refused) }
    ensures rises { places.old.refused ≤ places.new.refused }
{
    let most = most_of(frames, lanes as usize);
    let Ok(room) = u32::try_from(most) else {
        return Err(Fault::OutOfMemory);
    };
    let first = first.copy(alloc)?;
    match Board::new(rt, alloc, places, first, lanes, room) {
        Ok(board) => Ok(board),
        Err(BoardError::NoPlace) => Err(Fault::Board),
        Err(BoardError::OutOfMemory) => Err(Fault::OutOfMemory),
    }
}

// Lets the lanes of a board answer, unless more was refused than can be counted on. `before` is the count before the board
// was made.
fn drive<R: Threads + Wait + Sync, G: Gate>(
    rt: &R,
    alloc: Global,
    before: u64,
    installer: &mut Installer,
    nexts: &[Install],
    lanes: List<Lane>,
    bytes: &[u8],
    frames: &[Placed],
    gate: &G,
    places: &mut Places,
) -> Result<List<LaneEnd>, Fault>
    requires live { IsTrue installer.old.live }
    requires numbers { RisesByOne (installer.old.published ++ nexts.now) }
    requires lanes { 0 < length lanes }
    requires fresh { All (IsFresh installer.old.board installer.old.published) lanes }
    requires room { All (λ lane. length (every 0 (length lanes - 1) frames.now) ≤ lane.spare) lanes }
    requires within { All (IsWithin (length bytes.now)) frames.now }
    requires few { before < 2 ^ 63 }
    requires before { before ≤ places.old.refused }
    ensures answered { IfOk result (λ ends. HaveAnswered installer.old.board (installer.old.published ++ nexts.now)
        (dealt (length lanes) (arrivals_of bytes.now frames.now)) ends) }
    ensures board { IfErr result (IsOfBoard before places.new.refused) }
    ensures rises { before ≤ places.new.refused }
{
    if places.refused() >= 1 << 63 {
        return Err(Fault::Board);
    }
    match answer_all(
        rt, alloc, installer, nexts, lanes, bytes, frames, gate, places,
    ) {
        Ok(ends) => Ok(ends),
        Err(DriveError::NotEntered) => Err(Fault::Board),
        Err(DriveError::OutOfMemory) => Err(Fault::OutOfMemory),
    }
}

// What lanes leave that answered the frames beside the installs, one end a lane.
fn ends_of<R: Threads + Wait + Sync, G: Gate>(
    rt: &R,
    alloc: Global,
    installs: &[Install],
    lanes: u32,
    bytes: &[u8],
    frames: &[Placed],
    gate: &G,
    places: &mut Places,
) -> Result<List<LaneEnd>, Fault>
    requires installs { 0 < length installs.now }
    requires numbers { RisesFrom 0 installs.now }
    requires lanes { (1 ≤ lanes) × (lanes ≤ 16) }
    requires within { All (IsWithin (length bytes.now)) frames.now }
    requires refused { places.old.refused < 2 ^ 63 }
    ensures answered { IfOk result (λ ends. (board : Book)
        × HaveAnswered board installs.now (dealt lanes (arrivals_of bytes.now frames.now)) ends) }
    ensures board { IfErr result (IsOfBoard places.old.refused places.new.refused) }
    ensures rises { places.old.refused ≤ places.new.refused }
{
    let before = places.refused();
    let Some((first, nexts)) = installs.split_first() else {
        unreachable!()
    };
    let (installer, all) = board_of(rt, alloc, first, lanes, frames.len(), places)?;
    let mut installer = installer;
    let ends = drive(
        rt,
        alloc,
        before,
        &mut installer,
        nexts,
        all,
        bytes,
        frames,
        gate,
        places,
    );
    installer.close(rt);
    ends
}

// Runs the lanes, and then writes all lines. The ends of the lanes are handed over before.
fn report<R: Threads + Wait + Sync, O: Lines, G: Gate>(
    rt: &R,
    alloc: Global,
    told: &ScriptTold,
    lanes: u32,
    bytes: &[u8],
    frames: &[Placed],
    out: &mut O,
    gate: &G,
    places: &mut Places,
    ends: &mut List<LaneEnd>,
) -> Result<(), Fault>
    requires installs { 0 < length told.now.installs }
    requires numbers { RisesFrom 0 told.now.installs }
    requires lanes { (1 ≤ lanes) × (lanes ≤ 16) }
    requires within { All (IsWithin (length bytes.now)) frames.now }
    requires refused { places.old.refused < 2 ^ 63 }
    ensures plan { (script : AScript) (shelf : Shelving) → HasTold script told.now.installs told.now.lines
        → frames.now ≡ (capture bytes.now).list
        → Follows (lives script bytes.now lanes) (stage_beside shelf (O.seen out.old) places.old.refused)
        (stage_beside shelf (O.seen out.new) places.new.refused) result }
    ensures lived { (script : AScript) (text : Items ℕ) → IsScriptText text script
        → HasTold script told.now.installs told.now.lines → frames.now ≡ (capture bytes.now).list
        → OnOk result (HasLived text bytes.now lanes ends.new (O.held out.old) (O.held out.new)) }
{
    let installs = told.installs.as_slice();
    let all = ends_of(rt, alloc, installs, lanes, bytes, frames, gate, places)?;
    let shares = shares_again(alloc, installs, all.as_slice(), bytes, frames)?;
    let answers = woven(alloc, shares.as_slice(), frames.len())?;
    let sum = total(shares.as_slice());
    *ends = all;
    say_live(alloc, told, lanes, answers.as_slice(), &sum, out)
}

// Reads and checks the capture of a script, runs the lanes over it, and writes all lines.
fn live_over<R: Threads + Wait + Sync, H: Files, O: Lines, G: Gate>(
    rt: &R,
    alloc: Global,
    script: Script,
    path: &str,
    lanes: u32,
    shelf: &mut H,
    out: &mut O,
    gate: &G,
    places: &mut Places,
    ends: &mut List<LaneEnd>,
) -> Result<(), Fault>
    requires may { MayFetch H.may (lives_over script path.now lanes) }
    requires few_events { length script.events < 2 ^ 32 }
    requires lanes { (1 ≤ lanes) × (lanes ≤ 16) }
    requires refused { places.old.refused < 2 ^ 63 }
    ensures plan { Follows (lives_over script path.now lanes)
        (stage_beside (H.seen shelf.old) (O.seen out.old) places.old.refused)
        (stage_beside (H.seen shelf.new) (O.seen out.new) places.new.refused) result }
    ensures lived { (text : Items ℕ) → IsScriptText text script → OnOk result
        (IfSome (H.file shelf.old path.now) (λ bytes.
        HasLived text bytes lanes ends.new (O.held out.old) (O.held out.new))) }
{
    let told = told_of(alloc, script)?;
    let file = shelf.ask(alloc, path, CAPTURE)?;
    let bytes = file.as_slice();
    let frames = frames_of(alloc, bytes)?;
    report(
        rt,
        alloc,
        &told,
        lanes,
        bytes,
        frames.as_slice(),
        out,
        gate,
        places,
        ends,
    )
}

// Reads and checks a script, and then goes on with its capture.
fn live_with<R: Threads + Wait + Sync, H: Files, O: Lines, G: Gate>(
    rt: &R,
    alloc: Global,
    script: &str,
    path: &str,
    lanes: u32,
    shelf: &mut H,
    out: &mut O,
    gate: &G,
    places: &mut Places,
    ends: &mut List<LaneEnd>,
) -> Result<(), Fault>
    requires may { MayFetch H.may (live_plan script.now path.now lanes) }
    requires lanes { (1 ≤ lanes) × (lanes ≤ 16) }
    requires refused { places.old.refused < 2 ^ 63 }
    ensures plan { Follows (live_plan script.now path.now lanes)
        (stage_beside (H.seen shelf.old) (O.seen out.old) places.old.refused)
        (stage_beside (H.seen shelf.new) (O.seen out.new) places.new.refused) result }
    ensures lived { OnOk result (IfSome (H.file shelf.old script.now) (λ text.
        IfSome (H.file shelf.old path.now) (λ bytes.
        HasLived text bytes lanes ends.new (O.held out.old) (O.held out.new)))) }
{
    let text = shelf.ask(alloc, script, SCRIPT)?;
    let read = script_of(alloc, text.as_slice())?;
    live_over(rt, alloc, read, path, lanes, shelf, out, gate, places, ends)
}

// The number of lanes that a word spells: 1 to 16.
fn lanes_of(word: &[u8]) -> Option<u32>
    ensures value { result ≡ lanes_of word.now }
    ensures bounds { IfSome result (λ n. (1 ≤ n) × (n ≤ 16)) }
{
    match read_number(word, 16) {
        Some(n) if n >= 1 => Some(n),
        _ => None,
    }
}

/// Answers the frames of a capture by lanes, beside the installs of a script, and writes the report.
///
/// Script and capture are read and checked whole before the lanes start, and all lines are written after the lanes are
/// closed. What lanes leave is handed over in `ends`, one end a lane.
pub fn live<R: Threads + Wait + Sync, H: Files, O: Lines, G: Gate>(
    rt: &R,
    alloc: Global,
    script: &str,
    path: &str,
    lanes: &str,
    shelf: &mut H,
    out: &mut O,
    gate: &G,
    places: &mut Places,
    ends: &mut List<LaneEnd>,
) -> Result<(), Fault>
    requires may { MayFetchFor H.may (live_meaning script.now path.now lanes.now) }
    requires refused { places.old.refused < 2 ^ 63 }
    ensures plan { Does (live_meaning script.now path.now lanes.now)
        (stage_beside (H.seen shelf.old) (O.seen out.old) places.old.refused)
        (stage_beside (H.seen shelf.new) (O.seen out.new) places.new.refused) result }
    ensures lived { OnOk result (HasLivedBy (three script.now path.now lanes.now) (H.file shelf.old) ends.new
        (O.held out.old) (O.held out.new)) }
{
    match lanes_of(lanes.as_bytes()) {
        Some(lanes) => live_with(
            rt, alloc, script, path, lanes, shelf, out, gate, places, ends,
        ),
        None => Err(Fault::Usage),
    }
}
