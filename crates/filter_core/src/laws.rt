//! Laws over the filter's definitions, each the contract of an empty function.

ghost use Rattle.std.specs.Prelude.{◌≡◌, ◌≢◌, ◌↔◌, if◌then◌else◌, max, ◌+◌, ◌%◌, ◌^◌, ◌<◌, ◌≤◌, ℕ, List, [], ◌∷◌, ◌++◌, Ok, Err, All, length, map, replicate, drop, not, count_by};
ghost use Rattle.std.specs.List.{sum_by};
ghost use Rattle.data_counters.specs.Counters.{all_counters};
ghost use Rattle.policy_state.specs.Whole.{verdict_of};
ghost use Rattle.apf_generate.specs.Means.{Means, memory_after};
ghost use Rattle.apf_generate.specs.Sizes.{need_of};
ghost use Rattle.data_counters.specs.Memory.{value_of};
ghost use Rattle.data_counters.specs.declared.counter.Counter.{Counter};
ghost use Rattle.policy_state.specs.Effects.{after};
ghost use Rattle.apf_generate.specs.Ranges.{IsBasis, IsScript};
ghost use Rattle.apf_coding.specs.Words.{AreBytes};
ghost use Rattle.policy_state.specs.States.{start};
ghost use Rattle.policy_state.specs.declared.basis.Script.{Script};
ghost use Rattle.policy_state.specs.declared.basis.UpdateReply.TheVariants as updates;
ghost use Rattle.policy_state.specs.declared.config.Config.{Config};
ghost use Rattle.policy_state.specs.declared.state.FilterState.{FilterState};
ghost use Rattle.policy_state.specs.declared.update.StateError.{StateError};
ghost use Rattle.policy_state.specs.declared.update.Update.{Update};
ghost use Rattle.ra_records.specs.Advert.{advert};
ghost use Rattle.ra_records.specs.declared.replies.Held.{Held};
ghost use Rattle.ra_records.specs.declared.replies.RaReply.TheVariants as adverts;
ghost use Rattle.ra_records.specs.declared.span.RaError.{RaError};
ghost use Rattle.size_fit.specs.Choosing.{IsLongestThatFits};
ghost use Rattle.size_fit.specs.Sizes.{base, limit_of};
ghost use Rattle.filter_core.specs.Calls.{update_installs, advert_installs};
ghost use Rattle.filter_core.specs.Installs.{kept, install_of};
ghost use Rattle.filter_core.specs.Records.{ids_of};
ghost use Rattle.filter_core.specs.Replay.{Arrival, replay, story, ending, passed, passes, answers_of, installs_of, AreByLast};
ghost use Rattle.filter_core.specs.Steps.{Filter, Answered, state_of, config_of, updated, advertised};
ghost use Rattle.filter_core.specs.Tally.{raised_by, times_raised, memory_of};
ghost use Rattle.filter_core.specs.declared.install.Install.{Install};
ghost use Rattle.apf_base.specs.Limits.{memory_size};

/// Each install's program means what it was made from, has room, and is of bytes.
pub fn programs_mean_their_basis()
    ensures means { (i : Install) → Means i.code i.basis }
    ensures short { (i : Install) → length i.code ≤ need_of i.basis }
    ensures fits { (i : Install) → need_of i.basis ≤ limit_of i.basis.config }
    ensures bytes { (i : Install) → AreBytes i.code }
{}

/// The longest prefix of the records that fits is chosen, and the chosen records and those that are left are all of them,
/// each once.
pub fn longest_prefix_is_chosen()
    ensures longest { (config : Config) (state : FilterState) (records : List Held) (n : ℕ) → base config state ≤ limit_of config →
        IsLongestThatFits (base config state) (limit_of config) records n ↔ (n ≡ kept config state records) }
    ensures all { (number now : ℕ) (config : Config) (state : FilterState) (records : List Held) →
        map (λ one. one.id) (install_of number now config state records).basis.chosen ++ (install_of number now config state records).left ≡ ids_of records }
{}

/// The memory of the counts of answers: it begins with zeros, each answer changes it as a run does, and each counter holds
/// how often it was raised, modulo 2^32.
pub fn counters_count_answers()
    ensures none { memory_of (raised_by []) ≡ replicate memory_size 0 }
    ensures more { (answers : List Answered) (a : Answered) → memory_of (raised_by (answers ++ a ∷ [])) ≡ memory_after a.fate (memory_of (raised_by answers)) }
    ensures value { (counters : List Counter) (c : Counter) → value_of c (memory_of counters) ≡ times_raised counters c % 2 ^ 32 }
    ensures length { (counters : List Counter) → length (memory_of counters) ≡ memory_size }
{}

/// Installs are numbered from 0 on in the order in which a replay tells them, and each answer is by the one that is told
/// last before it. So its number is below the number of installs.
pub fn answers_are_by_the_last_install()
    ensures last { (script : Script) (arrivals : List Arrival) → AreByLast 0 (replay script arrivals) }
    ensures below { (script : Script) (arrivals : List Arrival) → All (λ a. a.number < length (installs_of (replay script arrivals))) (answers_of (replay script arrivals)) }
{}

/// A replay is its story, the entries up to the last frame's, and then its ending. Of its answers those that pass and
/// those that drop are all, and the counters beside the first are raised at most once an answer in all.
pub fn replays_add_up()
    ensures story { (script : Script) (arrivals : List Arrival) →
        replay script arrivals ≡ story script arrivals ++ ending script arrivals }
    ensures frames { (answers : List Answered) →
        passed answers + count_by (λ a. not (passes (verdict_of a.fate))) answers ≡ length answers }
    ensures counters { (answers : List Answered) →
        sum_by (times_raised (raised_by answers)) (drop 1 all_counters) ≤ length answers }
{}

/// When the replies to an update come: `Same` exactly where the state stays equal, `Refused` exactly where the state refuses
/// the update, and for a new state `NotInstalled` exactly where its base is more than the limit.
pub fn update_replies_have_causes()
    ensures same { (f : Filter) (u : Update) (now : ℕ) → length (state_of f).keepalives ≡ 8 →
        ((updated f u now).1 ≡ updates.Same) ↔ (after (state_of f) u ≡ Ok (state_of f)) }
    ensures refused { (f : Filter) (u : Update) (now : ℕ) (refusal : StateError) →
        ((updated f u now).1 ≡ updates.Refused refusal) ↔ (after (state_of f) u ≡ Err refusal) }
    ensures not_installed { (f : Filter) (u : Update) (now : ℕ) (state : FilterState) → length (state_of f).keepalives ≡ 8 → after (state_of f) u ≡ Ok state → state ≢ state_of f →
        ((updated f u now).1 ≡ updates.NotInstalled (base (config_of f) state) (limit_of (config_of f))) ↔ (limit_of (config_of f) < base (config_of f) state) }
{}

/// A frame is answered `Bad` exactly where it is refused as a record. And a step raises the install's number by one exactly
/// where its reply says that a new install stands.
pub fn steps_count_their_installs()
    ensures bad { (f : Filter) (frame : List ℕ) (now : ℕ) (refusal : RaError) → ((advertised f frame now).1 ≡ adverts.Bad refusal) ↔ (advert frame (max f.clock now) ≡ Err refusal) }
    ensures update { (f : Filter) (u : Update) (now : ℕ) →
        (updated f u now).0.install.number ≡ (if update_installs (updated f u now).1 then f.install.number + 1 else f.install.number) }
    ensures advertisement { (f : Filter) (frame : List ℕ) (now : ℕ) →
        (advertised f frame now).0.install.number ≡ (if advert_installs (advertised f frame now).1 then f.install.number + 1 else f.install.number) }
{}

/// Each install of a replay has a basis whose numbers lie in their ranges, where those of the script do and frames are
/// bytes, as they always are in the code. And its program has room, where the first base has.
pub fn bases_are_sound()
    ensures sound { (script : Script) (arrivals : List Arrival) → IsScript script → All (λ arrival. AreBytes arrival.frame) arrivals →
        All (λ i. IsBasis i.basis) (installs_of (replay script arrivals)) }
    ensures room { (script : Script) (arrivals : List Arrival) → base script.config start ≤ limit_of script.config →
        All (λ i. need_of i.basis ≤ limit_of i.basis.config) (installs_of (replay script arrivals)) }
{}
