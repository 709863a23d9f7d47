//! Laws of generated scripts, and of summaries.
ghost use Rattle.std.specs.Prelude.{◌≡◌, ◌≤◌, ℕ};
ghost use Rattle.script_gen.specs.declared.generating.TheConstants.{CLIENT_LIMIT};
ghost use Rattle.script_gen.specs.Draws.{after, drawn, file_of, piece_of};
ghost use Rattle.script_gen.specs.Laws.{BytesAreOfAllWrites, EveryClientArrives};

/// The most clients of a script.
pub fn limits()
    ensures clients { CLIENT_LIMIT ≡ 10000 }
{}

/// A draw is for one of the four files, and for pieces of 64 to 4,096 bytes.
pub fn draws_are_within()
    ensures file { (draw : ℕ) → file_of (after draw) ≤ 3 }
    ensures least { (draw : ℕ) → 64 ≤ piece_of draw }
    ensures most { (draw : ℕ) → piece_of draw ≤ 4096 }
{}

/// The draw for the client of a script of one.
pub fn the_first_draw()
    ensures draw { drawn 1 1 ≡ 7806831264735756412 }
    ensures file { file_of (drawn 1 1) ≡ 1 }
    ensures piece { piece_of (drawn 1 1) ≡ 2964 }
{}

/// The bytes of a summary are those of all writes to clients, each once.
pub fn the_bytes_are_those_of_all_writes()
    ensures { BytesAreOfAllWrites }
{}

/// A generated script that was played to its end has brought as many clients as it is for: the first number of a summary.
pub fn every_client_arrives()
    ensures { EveryClientArrives }
{}
