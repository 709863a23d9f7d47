//! The rows of a file, read a line at a time and played one after another.
use crate::bytes::{first_word, push_number};
use crate::pieces::{Named, bytes_named, bytes_of};
use crate::read_file;
use crate::row::Row;
use anyhow::{Result, bail};
use lt_bytes::Text;
use lt_world::Texts;
use std::alloc::Global;
use std::sync::Wait;

/// The texts that were named so far, the row that is being read, and how the rows before it went.
#[derive(Drop)]
pub struct Rows<'t> {
    alloc: Global,
    names: Vec<Named<'t>>,
    row: Option<Row<'t>>,
    report: Text,
    right: u64,
    wrong: u64,
}

impl<'t> Rows<'t> {
    pub fn new(alloc: Global) -> Rows<'t> {
        Rows {
            alloc,
            names: Vec::new(alloc),
            row: None,
            report: Text::new(alloc),
            right: 0,
            wrong: 0,
        }
    }

    /// Takes the next line of the file. The last row is played where another one begins.
    pub fn take_line<R: Wait, X: Texts>(
        &mut self,
        rt: &R,
        texts: &mut X,
        line: &'t [u8],
    ) -> Result<()> {
        let (key, rest) = first_word(line);
        if line.is_empty() || key.starts_with(b"#") {
            return Ok(());
        }
        match key {
            b"row" => self.begin(rt, rest),
            b"text" => {
                let (name, pieces) = first_word(rest);
                let bytes = bytes_of(self.alloc, &self.names, pieces)?;
                self.names.push(Named { name, bytes })?;
                Ok(())
            }
            b"load" => {
                let (name, file) = first_word(rest);
                let bytes = read_file(texts, file)?;
                self.names.push(Named { name, bytes })?;
                Ok(())
            }
            _ => match &mut self.row {
                Some(row) => row.take_line(&self.names, key, rest),
                None => bail!("no row was begun"),
            },
        }
    }

    fn begin<R: Wait>(&mut self, rt: &R, name: &'t [u8]) -> Result<()> {
        self.play(rt)?;
        let conf = self.base(b"K0")?;
        let script = self.base(b"S0")?;
        self.row = Some(Row::new(self.alloc, name, conf, script)?);
        Ok(())
    }

    // What a row begins with, under this name; nothing where there is no such text.
    fn base(&self, name: &[u8]) -> Result<Text> {
        match bytes_named(&self.names, name) {
            Some(bytes) => Ok(Text::from_bytes(self.alloc, bytes)?),
            None => Ok(Text::new(self.alloc)),
        }
    }

    fn play<R: Wait>(&mut self, rt: &R) -> Result<()> {
        let Some(row) = &self.row else {
            return Ok(());
        };
        if row.play(rt, &mut self.report)? {
            self.right = self.right.wrapping_add(1);
        } else {
            self.wrong = self.wrong.wrapping_add(1);
        }
        Ok(())
    }

    /// Plays the last row, and counts them all. Whether one differed.
    pub fn finish<R: Wait>(&mut self, rt: &R) -> Result<bool> {
        self.play(rt)?;
        push_number(&mut self.report, self.right)?;
        self.report.push_all(b" rows ok, ")?;
        push_number(&mut self.report, self.wrong)?;
        self.report.push_all(b" differ\n")?;
        Ok(self.wrong > 0)
    }

    /// A line for each row that was played, and the line that counts them.
    pub fn report(&self) -> &[u8] {
        self.report.bytes()
    }
}
