//! The words of a call that needs no sockets.
ghost use Rattle.std.specs.Prelude.{◌≡◌, IfOk, IfErr, map, string_bytes};
ghost use Rattle.lt_commands.specs.Words.{SpellsLine, IsNoLine};
ghost use Rattle.lt_commands.specs.Calls.{line_of, HasFewClients};

use crate::status::Status;
use command_words::{Line, WordsError, read_line};
use std::alloc::Global;

/// A line of the program, with the names of its texts.
#[derive(Clone, Copy, Debug)]
pub enum Call<'a> {
    /// `replay -f CONF SCRIPT`
    Replay { conf: &'a str, script: &'a str },
    /// `[-D] -t -f CONF`
    Check { conf: &'a str },
    /// `[-D] -p -f CONF`
    Print { conf: &'a str },
    /// `bench NUMBER`
    Bench { clients: u64 },
}

/// The line that the words are, or the status of a call whose words are none.
pub fn read_words<'a>(alloc: Global, words: &'a [String]) -> Result<Call<'a>, Status>
    ensures found { IfOk result (λ call. SpellsLine (map string_bytes words.now) (line_of call)) }
    ensures clients { IfOk result HasFewClients }
    ensures none { IfErr result (λ status. IsNoLine status (map string_bytes words.now)) }
{
    match read_line(alloc, words) {
        Ok(Line::Replay { conf, script }) => Ok(Call::Replay { conf, script }),
        Ok(Line::Check { conf }) => Ok(Call::Check { conf }),
        Ok(Line::Print { conf }) => Ok(Call::Print { conf }),
        Ok(Line::Bench { clients }) => Ok(Call::Bench { clients }),
        Ok(Line::Serve { .. }) => Err(Status::Usage),
        Err(WordsError::Usage) => Err(Status::Usage),
        Err(WordsError::NoMemory) => Err(Status::NoMemory),
    }
}
