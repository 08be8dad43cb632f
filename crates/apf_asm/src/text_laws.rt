//! Laws over the grammar, each the contract of an empty function.

ghost use Rattle.std.specs.Prelude.{◌≡◌, ◌≢◌, ◌↔◌, ◌⊎◌, ℕ, ℤ, List, Ok, Err, FitsSigned};
ghost use Rattle.std.specs.Int.{w32, cast_unsigned};
ghost use Rattle.apf_coding.specs.Instruction.{Instruction};
ghost use Rattle.apf_coding.specs.Meaning.{signed};
ghost use Rattle.apf_coding.specs.Widths.{least_signed};
ghost use Rattle.apf_asm.specs.declared.item.Item.{Item};
ghost use Rattle.apf_asm.specs.Items.{IsItemForm};
ghost use Rattle.apf_asm.specs.declared.text_error.TextError.{TextError};
ghost use Rattle.apf_asm.specs.declared.text_error.TextKind.{TextKind};
ghost use Rattle.apf_asm.specs.TextForms.{Denotes, IsKnown, immediate};
ghost use Rattle.apf_asm.specs.TextKnown.{IsName, IsLabel, IsDotted};
ghost use Rattle.apf_asm.specs.TextLines.{TextReads, TextRefuses};
ghost use Rattle.apf_asm.specs.TextReading.{text_answer};

/// Words stand for at most one item, and it is well formed.
pub fn words_have_one_item()
    ensures one { (words : List (List ℕ)) (first second : Item) → Denotes words first → Denotes words second → first ≡ second }
    ensures formed { (words : List (List ℕ)) (item : Item) → Denotes words item → IsItemForm item }
{}

/// The first words that are known, as a list.
pub fn first_words_are_listed()
    ensures { (word : List ℕ) → IsKnown word ↔ (IsName word ⊎ (IsLabel word ⊎ IsDotted word)) }
{}

/// Each text stands for one list of items, or one line of it is the first that is refused.
pub fn texts_are_read_or_refused()
    ensures either { (text : List ℕ) → ((items : List Item) × TextReads text items) ⊎ ((line : ℕ) × (kind : TextKind) × TextRefuses text line kind) }
    ensures not_both { (text : List ℕ) (items : List Item) (line : ℕ) (kind : TextKind) → TextReads text items → TextRefuses text line kind → ⊥ }
    ensures one_reading { (text : List ℕ) (first second : List Item) → TextReads text first → TextReads text second → first ≡ second }
    ensures one_refusal { (text : List ℕ) (line other : ℕ) (kind cause : TextKind) → TextRefuses text line kind → TextRefuses text other cause → (line ≡ other) × (kind ≡ cause) }
{}

/// The function that computes gives what a text stands for, or its first refused line.
pub fn texts_are_answered()
    ensures read { (text : List ℕ) (items : List Item) → (text_answer text ≡ Ok items) ↔ TextReads text items }
    ensures refused { (text : List ℕ) (line : ℕ) (kind : TextKind) → (text_answer text ≡ Err (TextError.Bad line kind)) ↔ TextRefuses text line kind }
{}

/// The first immediate of a line with a signed number is that number, as the machine reads it.
pub fn signed_numbers_are_kept()
    ensures { (z : ℤ) (i : Instruction) → FitsSigned w32 z → i.width ≡ least_signed z → i.imm ≡ immediate z → signed i ≡ cast_unsigned w32 z }
{}
