//! Laws over the definition of a report, each the contract of an empty function.

ghost use Rattle.std.specs.Prelude.{◌≡◌, ℕ, List, [], All, get_or};
ghost use Rattle.apf_coding.specs.Words.{AreBytes};
ghost use Rattle.policy_state.specs.declared.basis.Script.{Script};
ghost use Rattle.filter_core.specs.Replay.{Arrival, Entry, installs_of};
ghost use Rattle.script_text.specs.Report.{gen_line};
ghost use Rattle.filter_report.specs.Report.{IsReport, IsStory};
ghost use Rattle.filter_report.specs.Text.{entry_lines};

/// The line of an install determines its code: where the line of one code, which is bytes, is the line of another, the codes
/// are the same. So the code of an install is what stands in its line.
pub fn gen_lines_have_one_code()
    ensures one { (number at : ℕ) (left code other : List ℕ) → AreBytes code →
        gen_line number at left code ≡ gen_line number at left other → code ≡ other }
{}

/// The lines of a report determine the codes of its installs: where the same lines tell the same entries with one list of
/// codes, which are bytes, and with another, each install has the same code in both. So the codes with which a report tells
/// its entries are those that stand in its lines.
pub fn reports_tell_their_codes()
    ensures same { (programs others : List (List ℕ)) (steps more : List ℕ) (entries : List Entry) → All AreBytes programs →
        entry_lines programs steps entries ≡ entry_lines others more entries →
        All (λ i. get_or programs i.number [] ≡ get_or others i.number []) (installs_of entries) }
{}

/// Two lists of codes that fit an output are one: where two lists are each right for the installs of a script over frames,
/// and the same lines are the report with the one and with the other, they are the same list. The same holds of the lines
/// up to those of the last frame. So the codes that fit an output are those that stand in it.
pub fn reports_have_one_list_of_codes()
    ensures report { (script : Script) (arrivals : List Arrival) (lines : List (List ℕ)) (one other : IsReport script arrivals lines) →
        one.programs ≡ other.programs }
    ensures story { (script : Script) (arrivals : List Arrival) (lines : List (List ℕ)) (one other : IsStory script arrivals lines) →
        one.programs ≡ other.programs }
{}
