//! Laws over records, each the contract of an empty function.

ghost use Rattle.std.specs.Prelude.{◌≡◌, ◌≢◌, ◌↔◌, ◌<◌, ◌≤◌, ℕ, List, ◌∷◌, ◌++◌, length, map, Ok, Err, true, All};
ghost use Rattle.std.specs.List.{Contains, count_by, flat_map};
ghost use Rattle.ra_records.specs.declared.span.Span.{Span};
ghost use Rattle.ra_records.specs.declared.span.RaError.TheVariants.{OutOfMemory};
ghost use Rattle.ra_records.specs.Advert.{Advert, IsSame, advert, same, candidate, router, flow_label, checksum, masks, sections, least, number_in, advertisement_limit, options_at};
ghost use Rattle.ra_records.specs.Masks.{lies_in};
ghost use Rattle.ra_records.specs.Tiling.{AreApart, AreOptions, lifetimes_at};

use crate::span::{ADVERTISEMENT_LIMIT, CHECKSUM, FLOW_LABEL, OPTIONS_AT, ROUTER};

/// The places and lengths of the code are those of the definitions.
pub fn places_are_defined()
    ensures options { OPTIONS_AT ≡ options_at }
    ensures limit { ADVERTISEMENT_LIMIT ≡ advertisement_limit }
    ensures flow_label { FLOW_LABEL ≡ flow_label }
    ensures checksum { CHECKSUM ≡ checksum }
    ensures router { ROUTER ≡ router }
{}

/// A frame is the same as a record exactly where it is as long, and equal at every place that isn't masked.
pub fn same_is_place_by_place()
    ensures { (r : Advert) (frame : List ℕ) → (same r frame ≡ true) ↔ IsSame r frame }
{}

/// No frame is refused for want of memory: that answer is never the grammar's.
pub fn refusals_have_causes()
    ensures { (frame : List ℕ) (now : ℕ) → advert frame now ≢ Err OutOfMemory }
{}

/// Each byte of an accepted frame lies in exactly one of the record's sections and masked ranges, and no section is empty
/// or touches the next. So the sections are, in order, what the masked ranges leave of the frame.
pub fn sections_are_unmasked()
    ensures once { (frame : List ℕ) (now : ℕ) (r : Advert) (i : ℕ) → advert frame now ≡ Ok r → i < length frame →
        count_by (lies_in i) (sections r ++ masks r.lifetimes) ≡ 1 }
    ensures past { (frame : List ℕ) (now : ℕ) (r : Advert) (i : ℕ) → advert frame now ≡ Ok r → length frame ≤ i →
        count_by (lies_in i) (sections r ++ masks r.lifetimes) ≡ 0 }
    ensures some { (frame : List ℕ) (now : ℕ) (r : Advert) → advert frame now ≡ Ok r →
        All (λ s. 0 < s.len) (sections r) }
    ensures apart { (frame : List ℕ) (now : ℕ) (r : Advert) → advert frame now ≡ Ok r → AreApart 0 (sections r) }
{}

/// The options of an accepted frame tile it from byte 70 to its end, each as long as its length byte says, and the
/// lifetimes are the router's and theirs, in order.
pub fn options_tile_the_frame()
    ensures some { (frame : List ℕ) (now : ℕ) (r : Advert) → advert frame now ≡ Ok r → (options : List Span) ×
        AreOptions frame options × (r.lifetimes ≡ router ∷ flat_map (lifetimes_at frame) options) }
    // A frame has at most one such list of options,
    ensures one { (frame : List ℕ) (first second : List Span) → AreOptions frame first → AreOptions frame second →
        first ≡ second }
    // and an advertisement that has one, and whose length is in range, is accepted.
    ensures accepted { (frame : List ℕ) (options : List Span) (now : ℕ) → candidate frame ≡ true →
        options_at ≤ length frame → length frame ≤ advertisement_limit → AreOptions frame options → (r : Advert) × (advert frame now ≡ Ok r) }
{}

/// The least lifetime of an accepted frame is one of its lifetimes, and none is below it.
pub fn least_is_a_lifetime()
    ensures one { (frame : List ℕ) (now : ℕ) (r : Advert) → All (λ b. b < 256) frame → advert frame now ≡ Ok r →
        Contains (map (number_in r.bytes) r.lifetimes) (least r) }
    ensures bound { (r : Advert) → All (λ s. least r ≤ number_in r.bytes s) r.lifetimes }
{}
