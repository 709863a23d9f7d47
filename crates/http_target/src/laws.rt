//! What the normal form of a path comes to, as laws on its definition.
ghost use Rattle.std.specs.Prelude.{◌≡◌, ◌⊎◌, ℕ, false, List, [], ◌∷◌, ◌++◌, All, Some, slice_get};
ghost use Rattle.http_target.specs.Path.{segments, is_open, kept_of, normal};

/// A path in normal form begins with a slash and is its own normal form. Between its slashes stand
/// the names to which the path leads, none of them empty, `.` or `..`, and nothing else; an empty
/// segment comes behind a final slash alone.
pub fn normal_form()
    ensures slash { (path : List ℕ) → slice_get (normal path) 0 ≡ Some 47 }
    ensures same { (path : List ℕ) → normal (normal path) ≡ normal path }
    ensures names { (path : List ℕ) → All (λ name. is_open name ≡ false) (kept_of path) }
    ensures segments { (path : List ℕ) → (segments (normal path) ≡ [] ∷ kept_of path)
        ⊎ (segments (normal path) ≡ [] ∷ (kept_of path ++ [] ∷ [])) }
{}

/// Behind a document root a path in normal form leads to the root's own place and from there on to
/// its names: it never climbs above the root.
pub fn stays_below_the_root()
    ensures { (root path : List ℕ) → kept_of (root ++ normal path) ≡ kept_of root ++ kept_of path }
{}
