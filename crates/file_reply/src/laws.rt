//! What the definitions come to, in the subject's own words: each law is the contract of a function.
ghost use Rattle.std.specs.Prelude.{◌≡◌, ℕ, List, IsTrue, codes};
ghost use Rattle.http_header.specs.FieldValue.{FieldValue};
ghost use Rattle.http_header.specs.HeaderMap.{Entries};
ghost use Rattle.file_reply.specs.Answers.{answer, IsWithin, is_status};

/// What is sent lies in the file.
pub fn what_is_sent_lies_in_the_file()
    ensures { (media_type method : List ℕ) (fields : Entries FieldValue) (size time : ℕ) → IsWithin (answer media_type method fields size time).content size }
{}

/// The status is 200, 206, 304 or 416, and GET alone gets a part.
pub fn the_statuses()
    ensures four { (media_type method : List ℕ) (fields : Entries FieldValue) (size time : ℕ) → IsTrue (is_status (answer media_type method fields size time).status) }
    ensures part { (media_type method : List ℕ) (fields : Entries FieldValue) (size time : ℕ) → (answer media_type method fields size time).status ≡ 206 → method ≡ codes "GET" }
{}
