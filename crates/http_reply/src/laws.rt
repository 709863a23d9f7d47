//! What the spelling comes to in the words of the grammar: each law is the contract of a function.
ghost use Rattle.std.specs.Prelude.{ℕ, Bool, List, ◌++◌};
ghost use Rattle.http_reply.specs.FieldLines.{FieldLines};
ghost use Rattle.http_reply.specs.Reading.{IsInRange, ReadsAs};
ghost use Rattle.http_reply.specs.Replies.{HeadParts, error_fields, error_parts, error_reply, reply_head, sent_body};

/// A reply's head is read by the response grammar as what it was spelled from, whatever follows it.
pub fn reply_heads_are_read()
    ensures { (parts : HeadParts) (fields : FieldLines) (rest : List ℕ) → IsInRange parts fields
        → ReadsAs (reply_head parts fields ++ rest) parts fields rest }
{}

/// An error reply is read as its head, and what follows is its body.
pub fn error_replies_are_read()
    ensures { (parts : HeadParts) (fields : FieldLines) (head_only : Bool) → IsInRange parts fields
        → ReadsAs (error_reply parts fields head_only) (error_parts parts) (error_fields fields) (sent_body parts.status head_only) }
{}
