//! What a choice is, each law as the contract of a function.
ghost use Rattle.std.specs.Prelude.{◌≡◌, ◌<◌, ◌≤◌, ℕ, Bool, List, length, slice_index, Some, None};
ghost use Rattle.gate_hosts.specs.declared.choosing.Policy.{Policy};
ghost use Rattle.gate_hosts.specs.declared.choosing.Policy.TheVariants.{Fair, RoundRobin};
ghost use Rattle.gate_hosts.specs.Choices.{choice};
ghost use Rattle.gate_hosts.specs.Laws.{IsUntried, distance};

/// A chosen host was not tried.
pub fn a_chosen_host_is_untried()
    ensures { (policy : Policy) (next place : ℕ) (links : List ℕ) (tried : List Bool) → length links ≡ length tried
        → choice policy next links tried ≡ Some place → IsUntried tried place }
{}

/// None is chosen exactly where every host was tried.
pub fn none_is_chosen_where_all_were_tried()
    ensures all { (policy : Policy) (next place : ℕ) (links : List ℕ) (tried : List Bool) → length links ≡ length tried
        → choice policy next links tried ≡ None → ¬ (IsUntried tried place) }
    ensures none { (policy : Policy) (next : ℕ) (links : List ℕ) (tried : List Bool) → length links ≡ length tried
        → ((place : ℕ) → ¬ (IsUntried tried place)) → choice policy next links tried ≡ None }
{}

/// A fair choice has the fewest open links of all untried hosts, and fewer than those that stand before it.
pub fn a_fair_choice_has_the_fewest_links()
    ensures fewest { (next place other : ℕ) (links : List ℕ) (tried : List Bool) → length links ≡ length tried
        → choice Fair next links tried ≡ Some place → IsUntried tried other → slice_index links place ≤ slice_index links other }
    ensures first { (next place other : ℕ) (links : List ℕ) (tried : List Bool) → length links ≡ length tried
        → choice Fair next links tried ≡ Some place → IsUntried tried other → other < place → slice_index links place < slice_index links other }
{}

/// A round goes on with the untried host that is the least far behind the list's position.
pub fn a_round_goes_on_with_the_next_untried_host()
    ensures { (next place other : ℕ) (links : List ℕ) (tried : List Bool) → next < length tried
        → choice RoundRobin next links tried ≡ Some place → IsUntried tried other
        → distance next (length tried) place ≤ distance next (length tried) other }
{}
