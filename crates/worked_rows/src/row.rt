//! One row: a call, and what it must answer.
ghost use Rattle.std.specs.Prelude.{◌<◌};

use crate::bytes::{first_word, is_wanted, number, push_number, push_quoted};
use crate::pieces::{Named, bytes_of};
use anyhow::{Result, bail};
use conditions::PlannedMaker;
use lt_bytes::Text;
use lt_commands::{Status, offline};
use lt_script::parse_script;
use lt_serve::serve;
use lt_world::{MemFiles, MemSink, MemTexts};
use script_net::{ScriptNet, plan_files, report};
use std::alloc::Global;
use std::sync::Wait;

/// The words of a row that names none.
const WORDS: &[u8] = b"replay -f CONF SCRIPT";

/// The words of a server, where a row names none.
const SERVER_WORDS: &[u8] = b"-f CONF";

/// What a server puts out before its clients are served, where the configuration names no address.
const LISTENING: &[u8] = b"listening on 0.0.0.0:80\n";

/// The room of an output, where a row says nothing else.
const ROOM: u64 = 1_048_576;

/// By which call a row is played.
#[derive(Clone, Copy)]
enum By {
    /// The one that needs no sockets.
    Offline,
    /// The one that serves, over the net and the files of the script.
    Server,
    /// A replay, and a server whose clients must get the same.
    Both,
}

/// A call, the texts that it reads, and what it must answer.
#[derive(Drop)]
pub struct Row<'t> {
    alloc: Global,
    name: &'t [u8],
    by: By,
    words: &'t [u8],
    conf: Text,
    /// The texts that configurations include.
    included: Vec<Named<'t>>,
    script: Text,
    /// The script with a line for each byte that is sent, where the row has such lines.
    bytewise: Text,
    sends: bool,
    room: u64,
    /// The number of the call for a text that fails.
    fails: Option<u32>,
    /// The numbers of the patterns that are refused.
    refuses: Vec<u32>,
    status: u64,
    says: &'t [u8],
    output: Text,
}

impl<'t> Row<'t> {
    /// A row of this name, with a configuration and a script to begin with.
    pub fn new(alloc: Global, name: &'t [u8], conf: Text, script: Text) -> Result<Row<'t>> {
        Ok(Row {
            alloc,
            name,
            by: By::Offline,
            words: WORDS,
            conf,
            included: Vec::new(alloc),
            bytewise: Text::from_bytes(alloc, script.bytes())?,
            script,
            sends: false,
            room: ROOM,
            fails: None,
            refuses: Vec::new(alloc),
            status: 0,
            says: b"",
            output: Text::new(alloc),
        })
    }

    /// Takes a line of the row: its first word, and the rest.
    pub fn take_line(&mut self, names: &[Named<'_>], key: &[u8], rest: &'t [u8]) -> Result<()> {
        match key {
            b"words" => {
                self.words = rest;
                Ok(())
            }
            b"serve" => {
                self.by = By::Server;
                self.words = SERVER_WORDS;
                Ok(())
            }
            b"both" => {
                self.by = By::Both;
                Ok(())
            }
            b"|" => self.push_script(rest),
            b"finish" => self.push_finish(rest),
            b"send" => self.push_sent(names, rest),
            b"cut" => self.push_cut(names, rest),
            b"took" => self.push_took(names, rest),
            b"status" => self.set_status(rest),
            b"room" => self.set_room(rest),
            b"fails" => self.set_failing(rest),
            b"refuses" => self.push_refused(rest),
            b"include" => self.include(names, rest),
            _ => self.take_bytes(key, bytes_of(self.alloc, names, rest)?),
        }
    }

    // Takes a line that is all pieces.
    fn take_bytes(&mut self, key: &[u8], bytes: Text) -> Result<()> {
        match key {
            b"conf" => self.conf = bytes,
            b"script" => {
                self.bytewise = Text::from_bytes(self.alloc, bytes.bytes())?;
                self.script = bytes;
            }
            b"output" => self.output.push_all(bytes.bytes())?,
            _ => bail!("no such line"),
        }
        Ok(())
    }

    // `NAME PIECE..`
    fn include(&mut self, names: &[Named<'_>], rest: &'t [u8]) -> Result<()> {
        let (name, pieces) = first_word(rest);
        let bytes = bytes_of(self.alloc, names, pieces)?;
        self.included.push(Named { name, bytes })?;
        Ok(())
    }

    // A line of the script.
    fn push_script(&mut self, line: &[u8]) -> Result<()> {
        push_line(&mut self.script, line)?;
        push_line(&mut self.bytewise, line)
    }

    // A client takes all that it is sent, and ends.
    fn push_finish(&mut self, link: &[u8]) -> Result<()> {
        push_finish(&mut self.script, link)?;
        push_finish(&mut self.bytewise, link)
    }

    // `LINK PIECE..`: in one line, and in a line for each byte.
    fn push_sent(&mut self, names: &[Named<'_>], rest: &[u8]) -> Result<()> {
        let (link, pieces) = first_word(rest);
        let bytes = bytes_of(self.alloc, names, pieces)?;
        self.sends = true;
        push_data(&mut self.script, usize::MAX, link, bytes.bytes())?;
        push_data(&mut self.bytewise, 1, link, bytes.bytes())
    }

    // `SIZE LINK PIECE..`: in lines of so many bytes.
    fn push_cut(&mut self, names: &[Named<'_>], rest: &[u8]) -> Result<()> {
        let (size, rest) = first_word(rest);
        let (link, pieces) = first_word(rest);
        let bytes = bytes_of(self.alloc, names, pieces)?;
        let size = match number(size) {
            Some(size) if size > 0 => size as usize,
            _ => bail!("no size"),
        };
        push_data(&mut self.script, size, link, bytes.bytes())?;
        push_data(&mut self.bytewise, size, link, bytes.bytes())
    }

    // `LINK ENDING COUNT PIECE..`, or `..` in place of the pieces.
    fn push_took(&mut self, names: &[Named<'_>], rest: &[u8]) -> Result<()> {
        let mut pieces = rest;
        for _ in 0..3 {
            let (word, after) = first_word(pieces);
            self.output.push_all(word)?;
            self.output.push(b' ')?;
            pieces = after;
        }
        if pieces == b"..".as_slice() {
            self.output.push_all(pieces)?;
        } else {
            let bytes = bytes_of(self.alloc, names, pieces)?;
            push_quoted(&mut self.output, bytes.bytes())?;
        }
        self.output.push(b'\n')?;
        Ok(())
    }

    // `NUMBER`, and what standard error says.
    fn set_status(&mut self, rest: &'t [u8]) -> Result<()> {
        let (digits, says) = first_word(rest);
        let Some(status) = number(digits) else {
            bail!("no number");
        };
        self.status = status;
        self.says = says;
        Ok(())
    }

    fn set_room(&mut self, digits: &[u8]) -> Result<()> {
        match number(digits) {
            Some(room) => self.room = room,
            None => bail!("no number"),
        }
        Ok(())
    }

    fn set_failing(&mut self, digits: &[u8]) -> Result<()> {
        match number(digits) {
            Some(nth) => self.fails = Some((nth % 4_096) as u32),
            None => bail!("no number"),
        }
        Ok(())
    }

    fn push_refused(&mut self, digits: &[u8]) -> Result<()> {
        match number(digits) {
            Some(nth) => self.refuses.push((nth % 4_096) as u32)?,
            None => bail!("no number"),
        }
        Ok(())
    }

    /// Makes the calls, and says in a line how they went. Whether they went as they must.
    pub fn play<R: Wait>(&self, rt: &R, report: &mut Text) -> Result<bool> {
        if !self.plays(rt, report, self.script.bytes())? {
            return Ok(false);
        }
        if self.sends && !self.plays(rt, report, self.bytewise.bytes())? {
            return Ok(false);
        }
        report.push_all(b"ok ")?;
        push_line(report, self.name)?;
        Ok(true)
    }

    // Makes the calls with this script, and says what differs, if something does.
    fn plays<R: Wait>(&self, rt: &R, report: &mut Text, script: &[u8]) -> Result<bool> {
        match self.by {
            By::Offline => self.replays(report, script),
            By::Server => self.serves(rt, report, script, self.words, self.output.bytes()),
            By::Both => {
                let mut output = Text::from_bytes(self.alloc, LISTENING)?;
                output.push_all(self.output.bytes())?;
                Ok(
                    self.replays(report, script)?
                        && self.serves(rt, report, script, SERVER_WORDS, output.bytes())?,
                )
            }
        }
    }

    fn replays(&self, report: &mut Text, script: &[u8]) -> Result<bool> {
        let words = words_of(self.alloc, self.words)?;
        let mut texts = self.texts(script)?;
        let mut sink = MemSink::new(self.alloc, self.room)?;
        let status = self.answered(&words, &mut texts, &mut sink)?;
        self.is_right(report, status, sink.bytes(), self.output.bytes())
    }

    fn serves<R: Wait>(
        &self,
        rt: &R,
        report: &mut Text,
        script: &[u8],
        words: &[u8],
        wanted: &[u8],
    ) -> Result<bool> {
        let words = words_of(self.alloc, words)?;
        let mut texts = self.texts(script)?;
        let mut sink = MemSink::new(self.alloc, self.room)?;
        let status = self.served(rt, &words, &mut texts, script, &mut sink)?;
        self.is_right(report, status, sink.bytes(), wanted)
    }

    // Whether a call ended and put out what it must. Says what differs, if something does.
    fn is_right(
        &self,
        report: &mut Text,
        status: Status,
        output: &[u8],
        wanted: &[u8],
    ) -> Result<bool> {
        let says = status.to_string(self.alloc)?;
        let number = u64::from(status.exit_number());
        let ends = number == self.status && says.as_bytes() == self.says;
        if ends && is_wanted(wanted, output) {
            return Ok(true);
        }
        report.push_all(b"differs ")?;
        report.push_all(self.name)?;
        report.push_all(b": status ")?;
        push_number(report, number)?;
        report.push(b' ')?;
        push_quoted(report, says.as_bytes())?;
        report.push_all(b", output ")?;
        push_quoted(report, output)?;
        report.push_all(b", not ")?;
        push_quoted(report, wanted)?;
        report.push(b'\n')?;
        Ok(false)
    }

    // The status of the call that needs no sockets.
    fn answered(
        &self,
        words: &[String],
        texts: &mut MemTexts,
        sink: &mut MemSink,
    ) -> Result<Status> {
        let mut maker = PlannedMaker::new(self.alloc, &self.refuses)?;
        let mut net = ScriptNet::new(self.alloc);
        let mut files = MemFiles::new(self.alloc);
        Ok(offline(
            self.alloc, words, texts, &mut maker, &mut net, &mut files, sink,
        ))
    }

    // The status of a server over the net and the files of the script. The sink gets the report as well.
    fn served<R: Wait>(
        &self,
        rt: &R,
        words: &[String],
        texts: &mut MemTexts,
        script: &[u8],
        sink: &mut MemSink,
    ) -> Result<Status> {
        let mut maker = PlannedMaker::new(self.alloc, &self.refuses)?;
        let script = parse_script(self.alloc, script)?;
        let mut net = ScriptNet::new(self.alloc);
        let mut files = MemFiles::new(self.alloc);
        net.load(&script, &mut files)?;
        plan_files(script.faults.as_slice(), &mut files)?;
        let status = serve(
            rt, self.alloc, words, texts, &mut maker, &mut net, &mut files, sink,
        );
        // Where the sink takes no more, the output is not what the row says.
        let _reported = report(&net, sink);
        Ok(status)
    }

    // The texts of the row, under the names CONF, SCRIPT and those of what is included.
    fn texts(&self, script: &[u8]) -> Result<MemTexts> {
        let mut texts = MemTexts::new(self.alloc);
        texts.add(b"CONF", self.conf.bytes())?;
        texts.add(b"SCRIPT", script)?;
        for text in &self.included {
            texts.add(text.name, text.bytes.bytes())?;
        }
        if let Some(nth) = self.fails {
            texts.plan(nth)?;
        }
        Ok(texts)
    }
}

fn words_of(alloc: Global, line: &[u8]) -> Result<Vec<String>> {
    let mut words = Vec::new(alloc);
    for word in line.split(|byte| *byte == b' ') {
        match str::from_utf8(word) {
            Ok("") => {}
            Ok(word) => words.push(String::from_str(alloc, word)?)?,
            Err(_) => bail!("a word that is no text"),
        }
    }
    Ok(words)
}

fn push_line(text: &mut Text, line: &[u8]) -> Result<()> {
    text.push_all(line)?;
    text.push(b'\n')?;
    Ok(())
}

fn push_finish(script: &mut Text, link: &[u8]) -> Result<()> {
    script.push_all(b"take ")?;
    script.push_all(link)?;
    script.push_all(b" 4096 9\nend ")?;
    push_line(script, link)
}

// Lines in which a link gets these bytes, so many at once.
fn push_data(script: &mut Text, size: usize, link: &[u8], bytes: &[u8]) -> Result<()>
    requires { 0 < size }
{
    for piece in bytes.chunks(size) {
        script.push_all(b"data ")?;
        script.push_all(link)?;
        script.push(b' ')?;
        push_quoted(script, piece)?;
        script.push(b'\n')?;
    }
    Ok(())
}
