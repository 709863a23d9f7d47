//! What the limits come to: a function without a body, whose clause is a theorem.
ghost use Rattle.std.specs.Prelude.{◌≡◌};
ghost use Rattle.connection.specs.declared.connection.TheConstants.{INPUT_LIMIT};

/// At most 65,536 bytes are held for a client that aren't taken up yet.
pub fn the_limits_are_numbers()
    ensures input { INPUT_LIMIT ≡ 65536 }
{}
