//! Reading the options of a frame (RFC 4861, section 4.6).

ghost use Rattle.std.specs.Prelude.{◌≡◌, ◌≢◌, ◌≤◌, ◌<◌, ◌+◌, ◌++◌, ◌∷◌, length, Err, OnOk, IfOk, All};
ghost use Rattle.std.specs.List.{list_all};
ghost use Rattle.ra_records.specs.Options.{lifetimes_of, option_refusal};
ghost use Rattle.ra_records.specs.Masks.{stretch, between, IsRising, IsSpanWithin, IsNumber, is_equal};
ghost use Rattle.ra_records.specs.Advert.{candidate, lifetimes_in, least_in, number_in, masks, checksum, advertisement_limit};

use crate::span::{ADVERTISEMENT_LIMIT, CHECKSUM, FLOW_LABEL, OPTIONS_AT, ROUTER, RaError, Span};
use apf_base::{List, OutOfMemory};
use frame_views::number;
use std::alloc::Global;

/// Whether a frame is a router advertisement: its ethertype is IPv6, its next header ICMPv6 (58), and its type 134.
pub fn candidate(frame: &[u8]) -> bool
    ensures { result ≡ candidate frame.now }
{
    number(frame, 12, 2) == Some(0x86dd)
        && number(frame, 20, 1) == Some(58)
        && number(frame, 54, 1) == Some(134)
}

// Why the option at the front of these bytes is refused.
fn option_refusal(at: u32, rest: &[u8]) -> Option<RaError>
    ensures { result ≡ option_refusal at rest.now }
{
    if rest.len() < 2 {
        return Some(RaError::CutOption(at));
    }
    if rest[1] == 0 {
        return Some(RaError::ZeroOption(at));
    }
    let size = 8 * usize::from(rest[1]);
    if rest.len() < size {
        return Some(RaError::CutOption(at));
    }
    if rest[0] == 3 && size < 16 {
        return Some(RaError::ShortOption(at));
    }
    None
}

// Adds the lifetimes of an option of this type.
fn add_lifetimes(kind: u8, at: u32, list: &mut List<Span>) -> Result<(), OutOfMemory>
    requires { at ≤ advertisement_limit }
    ensures { OnOk result (list.new ≡ list.old ++ lifetimes_of kind at) }
{
    if kind == 3 {
        list.extend(&[Span { at: at + 4, len: 4 }, Span { at: at + 8, len: 4 }])?;
    } else if kind == 24 || kind == 25 || kind == 31 {
        list.push(Span { at: at + 4, len: 4 })?;
    }
    Ok(())
}

/// The ranges of all lifetimes, in order.
pub(crate) fn read_lifetimes(alloc: Global, frame: &[u8]) -> Result<List<Span>, RaError>
    ensures { result ≢ Err RaError.OutOfMemory → result ≡ lifetimes_in frame.now }
{
    if !candidate(frame) {
        return Err(RaError::NotRa);
    }
    if frame.len() < OPTIONS_AT {
        return Err(RaError::Short);
    }
    if frame.len() > ADVERTISEMENT_LIMIT {
        return Err(RaError::TooLong);
    }
    let mut list = List::new(alloc);
    list.push(ROUTER)?;
    let mut at = OPTIONS_AT as u32;
    let (_, mut rest) = frame.split_at(OPTIONS_AT);
    while !rest.is_empty() {
        if let Some(refusal) = option_refusal(at, rest) {
            return Err(refusal);
        }
        add_lifetimes(rest[0], at, &mut list)?;
        let size = 8 * u32::from(rest[1]);
        let (_, after) = rest.split_at(size as usize);
        at += size;
        rest = after;
    }
    Ok(list)
}

// The number in a range of a frame.
fn number_in(frame: &[u8], span: Span) -> u32
    requires { IsNumber (length frame.now) span }
    ensures { result ≡ number_in frame.now span }
{
    number(frame, span.at, span.len).unwrap_or(0)
}

// Adds the range from a place up to another, unless it is empty.
fn add_stretch(from: u32, to: u32, list: &mut List<Span>) -> Result<(), OutOfMemory>
    ensures { OnOk result (list.new ≡ list.old ++ stretch from to) }
{
    if from < to {
        list.push(Span {
            at: from,
            len: to - from,
        })?;
    }
    Ok(())
}

/// The nonempty ranges that aren't masked, in order, of a frame that ends at `end`.
pub(crate) fn read_sections(
    alloc: Global,
    lifetimes: &[Span],
    end: u32,
) -> Result<List<Span>, OutOfMemory>
    requires { IsRising (checksum.at + checksum.len) lifetimes.now end }
    ensures { IfOk result (λ xs. xs ≡ between 0 (masks lifetimes.now) end) }
{
    let mut list = List::new(alloc);
    add_stretch(0, FLOW_LABEL.at, &mut list)?;
    add_stretch(FLOW_LABEL.at + FLOW_LABEL.len, CHECKSUM.at, &mut list)?;
    let mut from = CHECKSUM.at + CHECKSUM.len;
    for span in lifetimes {
        add_stretch(from, span.at, &mut list)?;
        from = span.at + span.len;
    }
    add_stretch(from, end, &mut list)?;
    Ok(list)
}

/// The least of the numbers in some ranges.
pub(crate) fn least_in(frame: &[u8], spans: &[Span]) -> u32
    requires { All (IsNumber (length frame.now)) spans.now }
    ensures { result ≡ least_in frame.now spans.now }
{
    let mut least = u32::MAX;
    for span in spans {
        least = least.min(number_in(frame, *span));
    }
    least
}

/// Whether two frames of one length are equal in all these ranges.
pub(crate) fn are_equal(frame: &[u8], bytes: &[u8], sections: &[Span]) -> bool
    requires same { length frame.now ≡ length bytes.now }
    requires within { All (IsSpanWithin (length bytes.now)) sections.now }
    ensures { result ≡ list_all (is_equal frame.now bytes.now) sections.now }
{
    for section in sections {
        let at = section.at as usize;
        let end = at + section.len as usize;
        if frame[at..end] != bytes[at..end] {
            return false;
        }
    }
    true
}
