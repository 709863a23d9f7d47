//! What the definitions come to, each law as the contract of a function.
ghost use Rattle.std.specs.Prelude.{◌≡◌, ◌+◌, ◌++◌, ℕ, List, length, take};
ghost use Rattle.fcgi_records.specs.declared.state.Cause.{Cause};
ghost use Rattle.fcgi_records.specs.declared.state.State.{State};
ghost use Rattle.fcgi_records.specs.declared.state.State.TheVariants.{Version};
ghost use Rattle.fcgi_records.specs.States.{answer_from};
ghost use Rattle.fcgi_records.specs.Reading.{state_after, stdout_in, taken_in, Open, Done, Broken, said, answer_of};
ghost use Rattle.fcgi_records.specs.Grammar.{Answer, IsAnswer, print, stdout_of};
ghost use Rattle.fcgi_records.specs.Laws.{Spells, IsRefused, GoesOn, records_of, AreShort, joined, served};

/// A reader's answer is what all bytes that came say.
pub fn what_is_said_is_answered()
    ensures { (bytes : List ℕ) → answer_from (state_after Version bytes) ≡ answer_of (said bytes) }
{}

/// An answer that the grammar spells is read: the content of its records of STDOUT.
pub fn what_is_spelled_is_read()
    ensures { (answer : Answer) → IsAnswer answer → said (print answer) ≡ Done (stdout_of answer.pieces) }
{}

/// And an answer that is read is spelled by the grammar.
pub fn what_is_read_is_spelled()
    ensures { (bytes stdout : List ℕ) → said bytes ≡ Done stdout → Spells bytes stdout }
{}

/// What is refused are whole records and, behind them, what the table of causes says, up to the last byte that is taken.
pub fn what_is_refused_breaks_the_grammar()
    ensures { (bytes stdout : List ℕ) (why : Cause) → said bytes ≡ Broken why stdout → IsRefused why (take (taken_in Version bytes) bytes) stdout }
{}

/// And that is refused for this cause at this byte, whatever comes behind it.
pub fn what_breaks_the_grammar_is_refused()
    ensures { (bytes stdout more : List ℕ) (why : Cause) → IsRefused why bytes stdout
        → (said (bytes ++ more) ≡ Broken why stdout) × (taken_in Version (bytes ++ more) ≡ length bytes) }
{}

/// Contents that are written as records of STDOUT, with END_REQUEST behind them, are read back.
pub fn what_is_written_is_read()
    ensures { (contents : List (List ℕ)) → AreShort contents → said (records_of contents served) ≡ Done (joined contents) }
{}

/// Where bytes are cut changes nothing.
pub fn cuts_change_nothing()
    ensures stands { (s : State) (bytes more : List ℕ) → state_after s (bytes ++ more) ≡ state_after (state_after s bytes) more }
    ensures stdout { (s : State) (bytes more : List ℕ) → stdout_in s (bytes ++ more) ≡ stdout_in s bytes ++ stdout_in (state_after s bytes) more }
    ensures taken { (s : State) (bytes more : List ℕ) → taken_in s (bytes ++ more) ≡ taken_in s bytes + taken_in (state_after s bytes) more }
{}

/// Where the answer is open, some answer begins with the bytes: a header is judged once it is whole, and else a stream is
/// refused at the first byte with which none goes on.
pub fn what_is_open_goes_on()
    ensures { (bytes stdout : List ℕ) → said bytes ≡ Open stdout → GoesOn bytes stdout }
{}
