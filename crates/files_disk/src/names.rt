//! Paths as the names of a file system.
ghost use Rattle.std.specs.Prelude.{◌≡◌, ◌⊎◌, IfSome, IfNone};
ghost use Rattle.std.specs.List.{Contains};
ghost use Rattle.std.specs.Str.{IsUtf8};

/// The name that a path is: UTF-8 without NUL, since a NUL would end it in the middle. Other paths name nothing.
pub fn name_of(path: &[u8]) -> Option<&str>
    ensures found { IfSome result (λ name. (name.now ≡ path.now) × ¬ Contains path.now 0) }
    ensures none { IfNone result (Contains path.now 0 ⊎ ¬ IsUtf8 path.now) }
{
    if path.contains(&0) {
        return None;
    }
    match str::from_utf8(path) {
        Ok(name) => Some(name),
        Err(_) => None,
    }
}
