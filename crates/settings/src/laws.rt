//! Laws on which setting counts. The functions do nothing: their clauses are what they are for.
ghost use Rattle.std.specs.Prelude.{◌≡◌, ◌<◌, ℕ, List, Some, length, slice_get};
ghost use Rattle.conf_value.specs.declared.block.Block.{Block};
ghost use Rattle.conf_value.specs.declared.truth.Truth.{Truth};
ghost use Rattle.settings.specs.declared.key.Key.{Key};
ghost use Rattle.settings.specs.declared.places.Place.{Place};
ghost use Rattle.settings.specs.Indexed.{AgreeAt, last_true, places_of};
ghost use Rattle.settings.specs.Used.{values_where};
ghost use Rattle.settings.specs.Winning.{documented_setting, winning_setting};

/// The setting at the place that counts is that of the last block which is True and sets the key.
pub fn the_last_true_block_counts()
    ensures { (blocks : List Block) (truth : ℕ → Truth) (key : Key) → winning_setting blocks truth key ≡ documented_setting blocks truth key }
{}

/// Truths that agree at each block that sets a key give it the same setting: other blocks need no truth.
pub fn other_blocks_do_not_count()
    ensures { (places : List Place) (t u : ℕ → Truth) → AgreeAt places t u → last_true t places ≡ last_true u places }
{}

/// Truths that agree at each block that sets a typed key give the same values.
pub fn the_same_truths_give_the_same_values()
    ensures { (blocks : List Block) (t u : ℕ → Truth) → ((key : Key) → AgreeAt (places_of blocks key) t u) → values_where blocks t ≡ values_where blocks u }
{}

/// Each place of a key is in a block that there is.
pub fn places_stand_in_blocks()
    ensures { (blocks : List Block) (key : Key) (at : ℕ) (place : Place) → slice_get (places_of blocks key) at ≡ Some place → place.block < length blocks }
{}
