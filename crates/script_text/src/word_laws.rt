//! A law over words, the contract of an empty function.

ghost use Rattle.std.specs.Prelude.{◌≡◌, ◌<◌, ◌^◌, ℕ, List};
ghost use Rattle.policy_state.specs.declared.state.Address.{Address};
ghost use Rattle.script_text.specs.declared.words.Endpoint.{Endpoint};
ghost use Rattle.plain_text.specs.Numbers.{WritesNumber};
ghost use Rattle.script_text.specs.Spelling.{SpellsMac, SpellsEthertype, SpellsIp, SpellsAddress, SpellsEndpoint};

/// A word spells at most one value.
pub fn words_have_one_value()
    ensures numbers { (limit : ℕ) (word : List ℕ) (m n : ℕ) → limit < 2 ^ 64 → WritesNumber limit word m → WritesNumber limit word n → m ≡ n }
    ensures macs { (word m n : List ℕ) → SpellsMac word m → SpellsMac word n → m ≡ n }
    ensures ethertypes { (word : List ℕ) (m n : ℕ) → SpellsEthertype word m → SpellsEthertype word n → m ≡ n }
    ensures ips { (word : List ℕ) (m n : ℕ) → SpellsIp word m → SpellsIp word n → m ≡ n }
    ensures addresses { (word : List ℕ) (m n : Address) → SpellsAddress word m → SpellsAddress word n → m ≡ n }
    ensures endpoints { (word : List ℕ) (m n : Endpoint) → SpellsEndpoint word m → SpellsEndpoint word n → m ≡ n }
{}
