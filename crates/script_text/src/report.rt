//! The lines of reports but for the totals.

ghost use Rattle.std.specs.Prelude.{◌≡◌, ◌≢◌, ◌++◌, OnOk, OnErr, IfOk, string_bytes};
ghost use Rattle.ra_records.specs.declared.span.RaError.TheVariants.{NotRa, OutOfMemory as NoMemory};
ghost use Rattle.script_text.specs.Report.{left_word, gen_line, refusal_words, refused_line, kept_line, update_line, counter_word, lane_words, frame_line, bad_words, reply_words, ra_line};

use apf_base::{List, OutOfMemory};
use data_counters::Counter;
use policy_state::{Answer, StateError, UpdateReply};
use ra_records::{RaError, RaReply};
use std::alloc::{AllocError, Global};

/// Room for a usual line, without a code.
const ROOM: usize = 120;

/// The numbers of records that were left out.
#[tactic(auto, unfolding(crate::specs::Report::left_word))]
fn left_word(alloc: Global, left: &[u64]) -> Result<String, AllocError>
    ensures { IfOk result (λ text. string_bytes text ≡ left_word left.now) }
{
    let Some((first, rest)) = left.split_first() else {
        return format!(in alloc; "none");
    };
    let mut text = format!(in alloc; "{first}")?;
    for id in rest {
        write!(text, ",{id}")?;
    }
    Ok(text)
}

#[tactic(auto, unfolding(crate::specs::Report::gen_line))]
fn gen_text(
    alloc: Global,
    number: u64,
    at: u32,
    left: &[u64],
    code: &[u8],
) -> Result<String, OutOfMemory>
    ensures { IfOk result (λ text. string_bytes text ≡ gen_line number at left.now code.now) }
{
    let size = code.len();
    let left = left_word(alloc, left)?;
    let code = hex::encode(alloc, code)?;
    let mut text = String::with_capacity(alloc, code.len().saturating_add(ROOM))?;
    write!(
        text,
        "gen {number} at {at} size {size} left {left} code {code}\n"
    )?;
    Ok(text)
}

/// Appends the line of an install: its number, its second, the numbers of the records left out, and its code.
pub fn print_gen(
    alloc: Global,
    number: u64,
    at: u32,
    left: &[u64],
    code: &[u8],
    out: &mut List<u8>,
) -> Result<(), OutOfMemory>
    ensures ok { OnOk result (out.new ≡ out.old ++ gen_line number at left.now code.now) }
    ensures err { OnErr result (out.new ≡ out.old) }
{
    out.append(List::of_text(gen_text(alloc, number, at, left, code)?))
}

/// Why a state refused an update.
#[tactic(auto, unfolding(crate::specs::Report::refusal_words))]
fn refusal_words(alloc: Global, refusal: StateError) -> Result<String, AllocError>
    ensures { IfOk result (λ text. string_bytes text ≡ refusal_words refusal) }
{
    match refusal {
        StateError::Prefix(n) => format!(in alloc; "prefix {n}"),
        StateError::SlotRange(n) => format!(in alloc; "slot-range {n}"),
        StateError::SlotInUse(n) => format!(in alloc; "slot-in-use {n}"),
        StateError::SlotEmpty(n) => format!(in alloc; "slot-empty {n}"),
    }
}

#[tactic(auto, unfolding(crate::specs::Report::refused_line))]
fn refused_text(alloc: Global, at: u32, refusal: StateError) -> Result<String, OutOfMemory>
    ensures { IfOk result (λ text. string_bytes text ≡ refused_line at refusal) }
{
    let words = refusal_words(alloc, refusal)?;
    let text = format!(in alloc; "refused at {at} {words}\n")?;
    Ok(text)
}

#[tactic(auto, unfolding(crate::specs::Report::kept_line))]
fn kept_text(alloc: Global, at: u32, need: u32, limit: u32) -> Result<String, OutOfMemory>
    ensures { IfOk result (λ text. string_bytes text ≡ kept_line at need limit) }
{
    let text = format!(in alloc; "kept at {at} need {need} limit {limit}\n")?;
    Ok(text)
}

fn update_text(alloc: Global, reply: UpdateReply, at: u32) -> Result<String, OutOfMemory>
    ensures { IfOk result (λ text. string_bytes text ≡ update_line reply at) }
{
    match reply {
        UpdateReply::Installed => Ok(String::new(alloc)),
        UpdateReply::Same => Ok(format!(in alloc; "same at {at}\n")?),
        UpdateReply::Refused(refusal) => refused_text(alloc, at, refusal),
        UpdateReply::NotInstalled { need, limit } => kept_text(alloc, at, need, limit),
    }
}

/// Appends the line of an update that installed nothing, at the clock's second. An install has the line of `print_gen`.
pub fn print_update(
    alloc: Global,
    r: &UpdateReply,
    at: u32,
    out: &mut List<u8>,
) -> Result<(), OutOfMemory>
    requires { r.now ≢ UpdateReply.Installed }
    ensures ok { OnOk result (out.new ≡ out.old ++ update_line r.now at) }
    ensures err { OnErr result (out.new ≡ out.old) }
{
    out.append(List::of_text(update_text(alloc, *r, at)?))
}

#[tactic(auto, unfolding(crate::specs::Report::counter_word))]
fn counter_word(counter: Option<Counter>) -> &'static str
    ensures { result.now ≡ counter_word counter }
{
    match counter {
        Some(counter) => counter.name(),
        None => "none",
    }
}

#[tactic(auto, unfolding(crate::specs::Report::lane_words))]
fn lane_words(alloc: Global, lane: Option<u32>) -> Result<String, AllocError>
    ensures { IfOk result (λ text. string_bytes text ≡ lane_words lane) }
{
    match lane {
        Some(lane) => format!(in alloc; " lane {lane}"),
        None => Ok(String::new(alloc)),
    }
}

#[tactic(auto, unfolding(crate::specs::Report::frame_line))]
fn frame_text(alloc: Global, k: u64, lane: Option<u32>, a: &Answer) -> Result<String, OutOfMemory>
    ensures { IfOk result (λ text. string_bytes text ≡ frame_line k lane a.now) }
{
    let lane = lane_words(alloc, lane)?;
    let (number, age, steps) = (a.number, a.age, a.steps);
    let verdict = a.verdict.name();
    let counter = counter_word(a.counter);
    let mut text = String::with_capacity(alloc, ROOM)?;
    write!(
        text,
        "frame {k}{lane} gen {number} age {age} {verdict} {counter} steps {steps}\n"
    )?;
    Ok(text)
}

/// Appends the line of an answer: the frame's number, which counts from 1, the lane that answered, where there are lanes,
/// and the answer.
pub fn print_frame(
    alloc: Global,
    k: u64,
    lane: Option<u32>,
    a: &Answer,
    out: &mut List<u8>,
) -> Result<(), OutOfMemory>
    ensures ok { OnOk result (out.new ≡ out.old ++ frame_line k lane a.now) }
    ensures err { OnErr result (out.new ≡ out.old) }
{
    out.append(List::of_text(frame_text(alloc, k, lane, a)?))
}

/// Why a frame is no record.
#[tactic(auto, unfolding(crate::specs::Report::bad_words))]
fn bad_words(alloc: Global, refusal: RaError) -> Result<String, AllocError>
    ensures { IfOk result (λ text. string_bytes text ≡ bad_words refusal) }
{
    match refusal {
        RaError::Short => format!(in alloc; "bad short"),
        RaError::TooLong => format!(in alloc; "bad too-long"),
        RaError::CutOption(at) => format!(in alloc; "bad cut-option {at}"),
        RaError::ZeroOption(at) => format!(in alloc; "bad zero-option {at}"),
        RaError::ShortOption(at) => format!(in alloc; "bad short-option {at}"),
        RaError::NotRa | RaError::OutOfMemory => Ok(String::new(alloc)),
    }
}

#[tactic(auto, unfolding(crate::specs::Report::reply_words))]
fn reply_words(alloc: Global, reply: RaReply) -> Result<String, AllocError>
    ensures { IfOk result (λ text. string_bytes text ≡ reply_words reply) }
{
    match reply {
        RaReply::Match(id) => format!(in alloc; "match {id}"),
        RaReply::Refreshed(id) => format!(in alloc; "refreshed {id}"),
        RaReply::New(id) => format!(in alloc; "new {id}"),
        RaReply::Full => format!(in alloc; "full"),
        RaReply::ZeroLifetime => format!(in alloc; "zero"),
        RaReply::Bad(refusal) => bad_words(alloc, refusal),
    }
}

#[tactic(auto, unfolding(crate::specs::Report::ra_line))]
fn ra_text(alloc: Global, k: u64, reply: RaReply) -> Result<String, OutOfMemory>
    ensures { IfOk result (λ text. string_bytes text ≡ ra_line k reply) }
{
    let words = reply_words(alloc, reply)?;
    let text = format!(in alloc; "ra {k} {words}\n")?;
    Ok(text)
}

/// Appends the line of an advertisement: the frame's number, which counts from 1, and what came of it.
pub fn print_ra(alloc: Global, k: u64, r: &RaReply, out: &mut List<u8>) -> Result<(), OutOfMemory>
    requires advertisement { r.now ≢ RaReply.Bad NotRa }
    requires memory { r.now ≢ RaReply.Bad NoMemory }
    ensures ok { OnOk result (out.new ≡ out.old ++ ra_line k r.now) }
    ensures err { OnErr result (out.new ≡ out.old) }
{
    out.append(List::of_text(ra_text(alloc, k, *r)?))
}
