//! The texts of an array of a configuration.
ghost use Rattle.std.specs.Prelude.{◌≡◌, option_map};
ghost use Rattle.static_files.specs.Texts.{text_in};

use conf_value::{Pair, Value};

/// The text of a pair, with a key or without; a number and an array have none.
pub(crate) fn text_in(pair: &Pair) -> Option<&[u8]>
    ensures { option_map (λ text. text.now) result ≡ text_in pair.now }
{
    match &pair.value {
        Value::Text(text) => Some(text.bytes()),
        Value::Number(_) => None,
        Value::Array(_) => None,
    }
}
