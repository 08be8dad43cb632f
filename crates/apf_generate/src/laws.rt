//! Laws over programs, each the contract of an empty function.

ghost use Rattle.std.specs.Prelude.{◌≤◌, ℕ, List, length};
ghost use Rattle.apf_generate.specs.Means.{Means};
ghost use Rattle.apf_generate.specs.Sizes.{need_of};
ghost use Rattle.policy_state.specs.declared.basis.Basis.{Basis};
ghost use Rattle.apf_generate.specs.Ranges.{IsBasis};
ghost use Rattle.apf_coding.specs.Words.{AreBytes};
ghost use Rattle.size_fit.specs.Sizes.{limit_of};

/// There is a program for each basis whose numbers lie in their ranges and that has room: only want of memory keeps
/// `generate` from one.
pub fn programs_exist()
    ensures { (basis : Basis) → IsBasis basis → need_of basis ≤ limit_of basis.config → (code : List ℕ) × Means code basis × (length code ≤ need_of basis) × AreBytes code }
{}
