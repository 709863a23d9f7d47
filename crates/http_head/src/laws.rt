//! What the definitions come to, each law as the contract of a function.
ghost use Rattle.std.specs.Prelude.{◌≡◌, ◌≤◌, ◌++◌, ℕ, List, length, Some, Ok, All};
ghost use Rattle.httparse.specs.Grammar.{RequestHead, ReadsRequest, print_request};
ghost use Rattle.http_header.specs.HeaderMap.{get_all, keys};
ghost use Rattle.http_head.specs.declared.ends.HeadEnd.TheVariants.{At, TooLarge};
ghost use Rattle.http_head.specs.declared.limits.TheConstants.{HEAD_LIMIT, FIELD_LINE_LIMIT};
ghost use Rattle.http_head.specs.declared.head.Request.{Request};
ghost use Rattle.http_head.specs.Lines.{end_of, field_lines};
ghost use Rattle.http_head.specs.Ends.{head_end};
ghost use Rattle.http_head.specs.Read.{read_request};
ghost use Rattle.http_head.specs.Fields.{Pair, map_of, names_of, values_of, pairs_of, IsTaken};
ghost use Rattle.http_head.specs.Framing.{IsFramed};
ghost use Rattle.http_head.specs.Head.{head_of};

/// A head has at most 8,192 bytes and 64 field lines.
pub fn the_limits_are_numbers()
    ensures head { HEAD_LIMIT ≡ 8192 }
    ensures lines { FIELD_LINE_LIMIT ≡ 64 }
{}

/// The function over the bytes reads just the head that the grammar reads.
pub fn the_grammar_is_read()
    ensures sound { (bytes : List ℕ) (h : RequestHead) (rest : List ℕ)
        → read_request bytes ≡ Some (h, rest) → ReadsRequest bytes h rest }
    ensures found { (bytes : List ℕ) (h : RequestHead) (rest : List ℕ)
        → ReadsRequest bytes h rest → read_request bytes ≡ Some (h, rest) }
{}

/// A head that the grammar reads has a line for each field, and ends where the bytes say.
pub fn a_head_that_is_read_ends_there()
    ensures lines { (bytes : List ℕ) (h : RequestHead) (rest : List ℕ) → ReadsRequest bytes h rest
        → field_lines bytes ≡ length h.fields }
    ensures end { (bytes : List ℕ) (h : RequestHead) (rest : List ℕ) → ReadsRequest bytes h rest
        → end_of bytes ≡ Some (length (print_request h)) }
    ensures at { (bytes : List ℕ) (h : RequestHead) (rest : List ℕ) → ReadsRequest bytes h rest
        → length (print_request h) ≤ HEAD_LIMIT → head_end bytes ≡ At (length (print_request h)) }
{}

/// More bytes change nothing once a head has ended, or is too large.
pub fn more_bytes_change_no_end()
    ensures at { (bytes more : List ℕ) (n : ℕ) → head_end bytes ≡ At n → head_end (bytes ++ more) ≡ At n }
    ensures too_large { (bytes more : List ℕ) → head_end bytes ≡ TooLarge → head_end (bytes ++ more) ≡ TooLarge }
{}

/// The map has under a name the values that were sent under it, in any case, in their order.
pub fn the_map_has_the_values()
    ensures { (pairs : List Pair) (name : List ℕ) → get_all (map_of pairs) name ≡ values_of pairs name }
{}

/// The map has the names in order of first coming.
pub fn the_map_has_the_names_in_order()
    ensures { (pairs : List Pair) → keys (map_of pairs) ≡ names_of pairs }
{}

/// The map takes each field of a head that the grammar reads, unless its name is longer than 65,535
/// bytes.
pub fn the_map_takes_the_fields()
    ensures { (bytes : List ℕ) (h : RequestHead) (rest : List ℕ) → ReadsRequest bytes h rest
        → All (λ f. length f.name ≤ 65535) h.fields → All IsTaken (pairs_of h) }
{}

/// A request that is read has one framing that its fields bear out, and no second one.
pub fn a_request_is_framed_in_one_way()
    ensures { (bytes : List ℕ) (request : Request) → head_of bytes ≡ Ok request
        → IsFramed request.minor request.fields request.framing }
{}
