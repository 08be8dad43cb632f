//! Laws over what is made, each the contract of an empty function.

ghost use Rattle.std.specs.Prelude.{◌≡◌, ◌≤◌, ℕ, length, map, Some, None, Ok};
ghost use Rattle.std.specs.List.{range_with_len};
ghost use Rattle.pcap_files.specs.Capture.{capture, frames};
ghost use Rattle.pcap_files.specs.declared.kinds.Placed.{Placed};
ghost use Rattle.script_text.specs.Scripts.{Says};
ghost use Rattle.script_text.specs.ScriptReading.{script_answer};
ghost use Rattle.made_input.specs.MadeScripts.{made_script, made_contents};
ghost use Rattle.made_input.specs.MadeFrames.{made_frame};
ghost use Rattle.made_input.specs.MadeCaptures.{made_kind, made_stamp, made_capture};
ghost use Rattle.apf_base.specs.Limits.{capture_limit, script_limit};

/// Each made script is a script, says what its definition says, and is no longer than a script may be that is read.
pub fn made_scripts_are_scripts()
    ensures says { (n : ℕ) → n ≤ 100000 → Says (made_script n) (made_contents n) }
    ensures answered { (n : ℕ) → n ≤ 100000 → script_answer (made_script n) ≡ Ok (made_contents n) }
    ensures short { (n : ℕ) → n ≤ 100000 → length (made_script n) ≤ script_limit }
{}

/// Each made capture is a capture without a fault, whose frames are the made frames from the first on, each with its
/// stamp, and is no longer than a capture may be that is read.
pub fn made_captures_are_whole()
    ensures kind { (n : ℕ) → n ≤ 100000 → (capture (made_capture n)).kind ≡ Some made_kind }
    ensures end { (n : ℕ) → n ≤ 100000 → (capture (made_capture n)).end ≡ None }
    ensures frames { (n : ℕ) → n ≤ 100000 → frames (made_capture n) ≡ map made_frame (range_with_len 1 n) }
    ensures stamps { (n : ℕ) → n ≤ 100000 → map (λ (placed : Placed). placed.stamp) (capture (made_capture n)).list ≡ map made_stamp (range_with_len 1 n) }
    ensures short { (n : ℕ) → n ≤ 100000 → length (made_capture n) ≤ capture_limit }
{}
