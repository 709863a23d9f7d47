//! What the definitions come to, each law as the contract of a function.
ghost use Rattle.std.specs.Prelude.{◌≡◌, ◌+◌, ◌-◌, ◌≤◌, ◌++◌, ℕ, List, length, decimal, Some};
ghost use Rattle.httparse.specs.Grammar.{ResponseHead, ReadsResponse};
ghost use Rattle.lt_http_body.specs.declared.standing.Standing.{Standing};
ghost use Rattle.lt_http_body.specs.Reading.{standing_after, data_in};
ghost use Rattle.cgi_text.specs.Request.{ip_text, parts_of};
ghost use Rattle.proxy_message.specs.declared.limits.TheConstants.{BODY_LIMIT};
ghost use Rattle.proxy_message.specs.declared.progress.Progress.{Progress};
ghost use Rattle.proxy_message.specs.declared.stage.Stage.TheVariants.{Framed, ToEnd};
ghost use Rattle.proxy_message.specs.Responses.{read_response};
ghost use Rattle.proxy_message.specs.Progress.{with_stage};
ghost use Rattle.proxy_message.specs.Reading.{progress_after, content_in, taken_in};
ghost use Rattle.proxy_message.specs.Asking.{ask_of};
ghost use Rattle.proxy_message.specs.Bounds.{ask_limit};

use cgi_text::GateRequest;

/// The body of an answer has at most 4,194,304 bytes.
pub fn the_limit_is_a_number()
    ensures { BODY_LIMIT ≡ 4194304 }
{}

/// The function over the bytes reads just the head of a response that the grammar reads.
pub fn the_grammar_is_read()
    ensures sound { (bytes : List ℕ) (h : ResponseHead) (rest : List ℕ) → read_response bytes ≡ Some (h, rest) → ReadsResponse bytes h rest }
    ensures found { (bytes : List ℕ) (h : ResponseHead) (rest : List ℕ) → ReadsResponse bytes h rest → read_response bytes ≡ Some (h, rest) }
{}

/// Where bytes are cut changes nothing.
pub fn cuts_change_nothing()
    ensures stands { (p : Progress) (bytes more : List ℕ) → progress_after p (bytes ++ more) ≡ progress_after (progress_after p bytes) more }
    ensures content { (p : Progress) (bytes more : List ℕ) → content_in p (bytes ++ more) ≡ content_in p bytes ++ content_in (progress_after p bytes) more }
    ensures own { (p : Progress) (bytes more : List ℕ) → taken_in p (bytes ++ more) ≡ taken_in p bytes + taken_in (progress_after p bytes) more }
{}

/// A body of a stated length, or in the chunked coding, is that of `lt_http_body`, whose laws hold of it.
pub fn a_framed_body_is_read_by_its_definition()
    ensures stands { (p : Progress) (s : Standing) (bytes : List ℕ) → progress_after (with_stage p (Framed s)) bytes ≡ with_stage p (Framed (standing_after s bytes)) }
    ensures content { (p : Progress) (s : Standing) (bytes : List ℕ) → content_in (with_stage p (Framed s)) bytes ≡ data_in s bytes }
{}

/// A body that goes on up to the end of the link is all bytes, as long as they are within the limit.
pub fn a_body_up_to_the_end_is_all_bytes()
    ensures stands { (p : Progress) (left : ℕ) (bytes : List ℕ) → length bytes ≤ left → progress_after (with_stage p (ToEnd left)) bytes ≡ with_stage p (ToEnd (left - length bytes)) }
    ensures content { (p : Progress) (left : ℕ) (bytes : List ℕ) → length bytes ≤ left → content_in (with_stage p (ToEnd left)) bytes ≡ bytes }
{}

/// The head that a gateway is asked is no longer than the request's texts and fields let it be.
pub fn ask_is_bounded(request: &GateRequest<'_>)
    ensures { length (ask_of (parts_of request.now)) ≤ ask_limit (parts_of request.now) }
{
    ip_is_short(request.peer.ip);
    number_is_short(request.body_len);
}

fn ip_is_short(ip: [u8; 4])
    ensures { length (ip_text ip) ≤ 15 }
{
    octet_is_short(ip[0]);
    octet_is_short(ip[1]);
    octet_is_short(ip[2]);
    octet_is_short(ip[3]);
}

fn octet_is_short(octet: u8)
    ensures { length (decimal octet) ≤ 3 }
{}

fn number_is_short(number: u64)
    ensures { length (decimal number) ≤ 20 }
{}
