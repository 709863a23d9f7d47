//! Laws on what a load comes to. The functions do nothing: their clauses are what they are for.
ghost use Rattle.std.specs.Prelude.{◌≡◌, ◌≢◌, ◌⊎◌, None, List, ℕ, Result, Ok, Err};
ghost use Rattle.lt_world.specs.declared.texts.FetchKind.TheVariants as call;
ghost use Rattle.lt_world.specs.TextAnswers.{Library};
ghost use Rattle.conf_eval.specs.declared.fault.LoadError.{LoadError};
ghost use Rattle.conf_eval.specs.declared.fault.LoadError.TheVariants as e;
ghost use Rattle.conf_eval.specs.declared.fault.Loaded.{Loaded};
ghost use Rattle.conf_eval.specs.Calls.{Calls};
ghost use Rattle.conf_eval.specs.Load.{load, Ended};
ghost use Rattle.conf_eval.specs.Outcomes.{AllAnswered, EndsInRefusal, EndsRefused, EndsUnread, IsOnly, IsRefused, NoneRefused};

/// That the named text is missing, or can't be read, is the outcome only where one call was made, for this text: there
/// is none of its name, or the call failed.
pub fn a_missing_text_was_asked_for()
    ensures missing { (library : Library) (name : List ℕ) (calls : Calls) → load library name calls ≡ Ended (Err e.RootMissing)
        → (library name ≡ None) × IsOnly (λ answer. answer ≢ call.Failed) name calls }
    ensures failed { (library : Library) (name : List ℕ) (calls : Calls) → load library name calls ≡ Ended (Err e.RootFailed)
        → IsOnly (λ answer. answer ≡ call.Failed) name calls }
{}

/// That a pattern is refused is the outcome only where the last call on the maker was refused, and what is loaded only
/// where none was, nor any call on the texts failed.
pub fn a_refused_pattern_was_asked_for()
    ensures refused { (library : Library) (name : List ℕ) (calls : Calls) (x : LoadError) → IsRefused x → load library name calls ≡ Ended (Err x)
        → EndsInRefusal calls.makes }
    ensures loaded { (library : Library) (name : List ℕ) (calls : Calls) (loaded : Loaded) → load library name calls ≡ Ended (Ok loaded)
        → AllAnswered calls }
{}

/// Where no call fails and none is refused, there is one outcome. Where some are, it is the same, or that a text can't
/// be read, or that a pattern is refused.
pub fn a_load_has_one_outcome()
    ensures same { (library : Library) (name : List ℕ) (a b : Calls) (x y : Result Loaded LoadError) → AllAnswered a → AllAnswered b
        → load library name a ≡ Ended x → load library name b ≡ Ended y → x ≡ y }
    ensures failed { (library : Library) (name : List ℕ) (a b : Calls) (x y : Result Loaded LoadError) → AllAnswered a → NoneRefused b.makes
        → load library name a ≡ Ended x → load library name b ≡ Ended y → (x ≡ y) ⊎ EndsUnread y }
    ensures refused { (library : Library) (name : List ℕ) (a b : Calls) (x y : Result Loaded LoadError) → AllAnswered a
        → load library name a ≡ Ended x → load library name b ≡ Ended y → (x ≡ y) ⊎ (EndsUnread y ⊎ EndsRefused y) }
{}
