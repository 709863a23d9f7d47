//! Laws on what is kept. The functions do nothing: their clauses are what they are for.
ghost use Rattle.std.specs.Prelude.{◌≡◌, ◌≤◌, ℕ, List, Some, length, slice_get};
ghost use Rattle.conf_value.specs.declared.block.Block.{Block};
ghost use Rattle.conditions.specs.Attributes.{Attributes};
ghost use Rattle.settings.specs.InForm.{IsInForm};
ghost use Rattle.conf_value.specs.declared.block.Config.{Config};
ghost use Rattle.cond_cache.specs.Documented.{IsDocumented};
ghost use Rattle.cond_cache.specs.declared.place.Place.{Place};
ghost use Rattle.cond_cache.specs.Kept.{AreRight, asked, conditions_in};

/// No condition is kept as compared twice.
pub fn no_block_is_asked_twice()
    ensures { (places : List Place) (i j n : ℕ) → slice_get (asked places) i ≡ Some n → slice_get (asked places) j ≡ Some n → i ≡ j }
{}

/// On the same attributes there are no more comparisons than the configuration has conditions.
pub fn each_condition_is_compared_once()
    ensures { (blocks : List Block) (a : Attributes) (places : List Place) → AreRight blocks a places → length (asked places) ≤ conditions_in blocks }
{}

/// In a configuration in form the truth of each block is what the documentation says of it.
pub fn truths_are_as_documented()
    ensures { (config : Config) (a : Attributes) (n : ℕ) (block : Block) → IsInForm config → slice_get config.blocks n ≡ Some block → IsDocumented config.blocks a n block }
{}
