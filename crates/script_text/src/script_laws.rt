//! Laws over scripts, each the contract of an empty function.

ghost use Rattle.std.specs.Prelude.{◌≡◌, ◌↔◌, ◌⊎◌, ℕ, List, Ok, Err};
ghost use Rattle.policy_state.specs.declared.basis.Script.{Script};
ghost use Rattle.script_text.specs.declared.script_error.ScriptError.{ScriptError};
ghost use Rattle.script_text.specs.declared.script_error.ScriptKind.{ScriptKind};
ghost use Rattle.script_text.specs.ScriptLines.{Contents};
ghost use Rattle.script_text.specs.Scripts.{Says};
ghost use Rattle.script_text.specs.ScriptFaults.{ScriptRefuses};
ghost use Rattle.script_text.specs.ScriptReading.{script_answer};

/// The function that computes gives what a text says, or its first fault.
pub fn scripts_are_answered()
    ensures says { (text : List ℕ) (c : Contents) → (script_answer text ≡ Ok c) ↔ Says text c }
    ensures refused { (text : List ℕ) (line : ℕ) (kind : ScriptKind) → (script_answer text ≡ Err (ScriptError.Bad line kind)) ↔ ScriptRefuses text line kind }
{}

/// Each text is that of one script, or has one first fault.
pub fn texts_have_one_answer()
    ensures either { (text : List ℕ) → ((c : Contents) × Says text c) ⊎ ((line : ℕ) × (kind : ScriptKind) × ScriptRefuses text line kind) }
    ensures not_both { (text : List ℕ) (c : Contents) (line : ℕ) (kind : ScriptKind) → Says text c → ScriptRefuses text line kind → ⊥ }
    ensures one_script { (text : List ℕ) (first second : Contents) → Says text first → Says text second → first ≡ second }
    ensures one_fault { (text : List ℕ) (line other : ℕ) (kind cause : ScriptKind) → ScriptRefuses text line kind → ScriptRefuses text other cause → (line ≡ other) × (kind ≡ cause) }
{}
