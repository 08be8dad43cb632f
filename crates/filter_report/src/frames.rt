//! Frames, their answers, and what is learnt of them.

ghost use Rattle.std.specs.Prelude.{◌≡◌, ◌≢◌, ◌≤◌, ◌<◌, ◌+◌, ◌-◌, ◌^◌, ◌∷◌, [], ◌++◌, ℕ, List as Items, length, Some, IfOk};
ghost use Rattle.filter_core.specs.Replay.{Course, after_frame, answers_of, passed};
ghost use Rattle.ra_records.specs.declared.span.RaError.TheVariants.{NotRa, OutOfMemory as NoMemory};
ghost use Rattle.filter_report.specs.Along.{Along};
ghost use Rattle.filter_report.specs.Text.{with_one, lines_learnt};
ghost use Rattle.apf_base.specs.Limits.{frame_limit};

use crate::lines::{frame_line, gen_line, ra_line};
use apf_base::{List, OutOfMemory};
use filter_core::{Core, Install, installs, passes};
use ra_records::RaReply;
use std::alloc::Global;

/// The lines of what was learnt from frame k: the reply's, and that of the install where there is a new one.
fn learnt_lines(
    alloc: Global,
    k: u64,
    reply: Option<RaReply>,
    install: &Install,
) -> Result<List<List<u8>>, OutOfMemory>
    requires advertisement { reply ≢ Some (RaReply.Bad NotRa) }
    requires memory { reply ≢ Some (RaReply.Bad NoMemory) }
    ensures { IfOk result (λ lines. lines ≡ lines_learnt k reply install.now) }
{
    let mut lines = List::new(alloc);
    let Some(reply) = reply else {
        return Ok(lines);
    };
    lines.push(ra_line(alloc, k, &reply)?)?;
    if !installs(&reply) {
        return Ok(lines);
    }
    lines.push(gen_line(alloc, install)?)?;
    Ok(lines)
}

/// Whether a frame passed, its line, and the lines of what was learnt from it.
#[derive(Drop)]
pub(crate) struct FrameLines {
    pub passed: bool,
    pub line: List<u8>,
    pub more: List<List<u8>>,
}

/// Answers frame k, and learns from it where it passes and may be an advertisement.
pub(crate) fn frame_lines(
    alloc: Global,
    core: &mut Core,
    k: u64,
    second: u32,
    frame: &[u8],
) -> Result<FrameLines, OutOfMemory>
    requires number { core.old.install.number < 2 ^ 64 - 1 }
    requires few { length frame.now ≤ frame_limit }
    ensures along { (c : Course) (frames lines : Items (Items ℕ)) → Along c core.old frames lines → k ≡ length frames + 1
        → IfOk result (λ done. Along (after_frame c (record { second = second; frame = frame.now })) core.new (frames ++ frame.now ∷ []) (lines ++ done.line ∷ done.more)) }
    ensures passed { (c : Course) (frames lines : Items (Items ℕ)) → Along c core.old frames lines
        → IfOk result (λ done. passed (answers_of (after_frame c (record { second = second; frame = frame.now })).told) ≡ with_one done.passed (passed (answers_of c.told))) }
    ensures number { core.new.install.number ≤ core.old.install.number + 1 }
{
    let answer = core.answer(frame, second);
    let passed = passes(answer.verdict);
    let line = frame_line(alloc, k, &answer)?;
    let reply = core.learn(alloc, frame, second, &answer)?;
    let more = learnt_lines(alloc, k, reply, core.install())?;
    Ok(FrameLines { passed, line, more })
}
