//! Laws over the policy, each the contract of an empty function.

ghost use Rattle.std.specs.Prelude.{◌≡◌, ◌≢◌, ◌<◌, ◌≤◌, ℕ, List, length, Option, Some};
ghost use Rattle.apf_coding.specs.declared.machine.Verdict.TheVariants.{Pass, Drop};
ghost use Rattle.data_counters.specs.declared.counter.Counter.{Counter};
ghost use Rattle.data_counters.specs.Counters.{number_of, counter_count};
ghost use Rattle.policy_state.specs.declared.basis.Basis.{Basis};
ghost use Rattle.policy_state.specs.declared.ruling.Ruling.TheVariants.{Silent};
ghost use Rattle.policy_state.specs.Asking.{first_of};
ghost use Rattle.policy_state.specs.Ethernet.{ethertype};
ghost use Rattle.policy_state.specs.Policy.{arp, ip4, questions};
ghost use Rattle.policy_state.specs.Whole.{Short, Says, policy};

/// The questions end with one that always answers. So a frame of more than 14 bytes has a counter unless it lacks a field.
pub fn questions_are_answered()
    ensures last { (basis : Basis) (age : ℕ) (frame : List ℕ) → first_of (questions basis age frame) ≢ Silent }
    ensures short { (basis : Basis) (age : ℕ) (frame : List ℕ) → policy basis age frame ≡ Short → length frame ≤ 14 }
{}

/// A counter tells the verdict: those of frames that pass are 2 to 12, and those of frames that are dropped 13 to 28.
pub fn counters_tell_verdicts()
    ensures pass { (basis : Basis) (age : ℕ) (frame : List ℕ) (c : Counter) → policy basis age frame ≡ Says Pass c → (2 ≤ number_of c) × (number_of c ≤ 12) }
    ensures drop { (basis : Basis) (age : ℕ) (frame : List ℕ) (c : Counter) → policy basis age frame ≡ Says Drop c → (13 ≤ number_of c) × (number_of c ≤ counter_count) }
{}

/// The question on ARP is silent exactly on frames with another ethertype, of those that have one.
pub fn arp_answers_its_frames()
    ensures answers { (basis : Basis) (frame : List ℕ) → ethertype frame ≡ Some 0x806 → arp basis frame ≢ Silent }
    ensures silent { (basis : Basis) (frame : List ℕ) (e : ℕ) →
        ethertype frame ≡ Some e → e ≢ 0x806 → arp basis frame ≡ Silent }
{}

/// The question on IPv4 is silent exactly on frames with another ethertype, of those that have one.
pub fn ip4_answers_its_frames()
    ensures answers { (basis : Basis) (frame : List ℕ) → ethertype frame ≡ Some 0x800 → ip4 basis frame ≢ Silent }
    ensures silent { (basis : Basis) (frame : List ℕ) (e : ℕ) → ethertype frame ≡ Some e → e ≢ 0x800 → ip4 basis frame ≡ Silent }
{}
