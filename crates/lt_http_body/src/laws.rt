//! What the definitions come to, each law as the contract of a function.
ghost use Rattle.std.specs.Prelude.{◌≡◌, ◌+◌, ◌-◌, ◌<◌, ◌≤◌, ◌↔◌, ◌++◌, true, false, ℕ, List, [], length, take, drop, Some, Ok, Err};
ghost use Rattle.http_head.specs.declared.framing.Framing.TheVariants.{Length, Chunked};
ghost use Rattle.lt_http_body.specs.declared.body.BodyState.TheVariants.{NeedMore, Done};
ghost use Rattle.lt_http_body.specs.declared.body.BodyRefusal.TheVariants.{BadChunk, TooLarge};
ghost use Rattle.lt_http_body.specs.declared.standing.Standing.{Standing};
ghost use Rattle.lt_http_body.specs.declared.limits.TheConstants.{SIZE_DIGITS, EXTENSION_LIMIT, TRAILER_LIMIT};
ghost use Rattle.lt_http_body.specs.Standings.{limit_of, is_above};
ghost use Rattle.lt_http_body.specs.Reading.{standing_after, data_in, taken_in};
ghost use Rattle.lt_http_body.specs.Grammar.{Chunk, ChunkedBody, IsChunkedBody, print, data_of, Fits};
ghost use Rattle.lt_http_body.specs.Laws.{answer_of, body_of, size_of, Spells, Begins, Exceeds};

/// The size of a chunk has at most 15 digits, its extensions 256 bytes, and the trailer 8,192.
pub fn the_limits_are_numbers()
    ensures size { SIZE_DIGITS ≡ 15 }
    ensures extension { EXTENSION_LIMIT ≡ 256 }
    ensures trailer { TRAILER_LIMIT ≡ 8192 }
{}

/// A body that the grammar spells is read: its data, and no byte behind it.
pub fn what_is_spelled_is_read()
    ensures answer { (limit : ℕ) (body : ChunkedBody) (rest : List ℕ) → IsChunkedBody body → Fits (limit_of limit) body.chunks
        → answer_of Chunked limit (print body rest) ≡ Ok Done }
    ensures data { (limit : ℕ) (body : ChunkedBody) (rest : List ℕ) → IsChunkedBody body → Fits (limit_of limit) body.chunks
        → body_of Chunked limit (print body rest) ≡ data_of body.chunks }
    ensures rest { (limit : ℕ) (body : ChunkedBody) (rest : List ℕ) → IsChunkedBody body → Fits (limit_of limit) body.chunks
        → drop (size_of Chunked limit (print body rest)) (print body rest) ≡ rest }
{}

/// And a body that is read is spelled by the grammar.
pub fn what_is_read_is_spelled()
    ensures { (limit : ℕ) (bytes : List ℕ) → answer_of Chunked limit bytes ≡ Ok Done → Spells limit bytes }
{}

/// A bad chunk is refused at the first byte with which no chunked body goes on: with the bytes up to it and any others no
/// body is spelled, and one begins with those before it.
pub fn a_bad_chunk_is_the_first_byte_of_none()
    ensures none { (limit : ℕ) (bytes more rest : List ℕ) (body : ChunkedBody) → answer_of Chunked limit bytes ≡ Err BadChunk → IsChunkedBody body
        → ¬ (take (size_of Chunked limit bytes) bytes ++ more ≡ print body rest) }
    ensures some { (limit : ℕ) (bytes : List ℕ) → answer_of Chunked limit bytes ≡ Err BadChunk
        → (0 < size_of Chunked limit bytes) × Begins (take (size_of Chunked limit bytes - 1) bytes) }
{}

/// A body is too large behind the first whole size line that takes the sum above the limit: a body begins with the bytes up
/// to it, but none within the limit.
pub fn a_body_too_large_has_none_within_the_limit()
    ensures none { (limit : ℕ) (bytes more rest : List ℕ) (body : ChunkedBody) → answer_of Chunked limit bytes ≡ Err TooLarge → IsChunkedBody body
        → Fits (limit_of limit) body.chunks → ¬ (take (size_of Chunked limit bytes) bytes ++ more ≡ print body rest) }
    ensures line { (limit : ℕ) (bytes : List ℕ) → answer_of Chunked limit bytes ≡ Err TooLarge → Exceeds limit (take (size_of Chunked limit bytes) bytes) }
    ensures some { (limit : ℕ) (bytes : List ℕ) → answer_of Chunked limit bytes ≡ Err TooLarge → Begins (take (size_of Chunked limit bytes) bytes) }
{}

/// More is needed where the bytes hold no whole body, and one begins with them.
pub fn more_is_needed_where_a_body_goes_on()
    ensures none { (limit : ℕ) (bytes rest : List ℕ) (body : ChunkedBody) → answer_of Chunked limit bytes ≡ Ok NeedMore → IsChunkedBody body
        → ¬ (bytes ≡ print body rest) }
    ensures some { (limit : ℕ) (bytes : List ℕ) → answer_of Chunked limit bytes ≡ Ok NeedMore → Begins bytes }
{}

/// The limit is one on the sum of the chunks.
pub fn the_limit_is_on_the_sum()
    ensures { (most : ℕ) (chunks : List Chunk) → Fits (Some most) chunks ↔ (length (data_of chunks) ≤ most) }
{}

/// A body of a stated length within the limit is as many bytes.
pub fn a_stated_length_is_as_many_bytes()
    ensures whole { (n limit : ℕ) (bytes : List ℕ) → is_above n (limit_of limit) ≡ false → n ≤ length bytes
        → (answer_of (Length n) limit bytes ≡ Ok Done) × (body_of (Length n) limit bytes ≡ take n bytes) × (size_of (Length n) limit bytes ≡ n) }
    ensures part { (n limit : ℕ) (bytes : List ℕ) → is_above n (limit_of limit) ≡ false → length bytes < n
        → (answer_of (Length n) limit bytes ≡ Ok NeedMore) × (body_of (Length n) limit bytes ≡ bytes) }
    ensures above { (n limit : ℕ) (bytes : List ℕ) → is_above n (limit_of limit) ≡ true
        → (answer_of (Length n) limit bytes ≡ Err TooLarge) × (body_of (Length n) limit bytes ≡ []) × (size_of (Length n) limit bytes ≡ 0) }
{}

/// Where bytes are cut changes nothing.
pub fn cuts_change_nothing()
    ensures stands { (s : Standing) (bytes more : List ℕ) → standing_after s (bytes ++ more) ≡ standing_after (standing_after s bytes) more }
    ensures data { (s : Standing) (bytes more : List ℕ) → data_in s (bytes ++ more) ≡ data_in s bytes ++ data_in (standing_after s bytes) more }
    ensures own { (s : Standing) (bytes more : List ℕ) → taken_in s (bytes ++ more) ≡ taken_in s bytes + taken_in (standing_after s bytes) more }
{}
