//! The fields of a reply, in the order in which they are written.
ghost use Rattle.std.specs.Prelude.{◌≡◌, [], ◌∷◌, ◌++◌, map, OnOk, OnErr};
ghost use Rattle.http_reply.specs.FieldLines.{bytes_of, line_of};
ghost use Rattle.http_reply.specs.Replies.{names_server};

use lt_bytes::{List, NoMemory, Text, same_word};
use std::alloc::Global;
use std::marker::Model;

/// A name or a value: a constant, or a text of its own.
#[derive(Debug, Drop)]
pub(crate) enum Word {
    Constant(&'static [u8]),
    Own(Text),
}

impl Word {
    pub(crate) fn bytes(&self) -> &[u8]
        ensures { result.now ≡ bytes_of self.now }
    {
        match self {
            Word::Constant(bytes) => bytes,
            Word::Own(text) => text.bytes(),
        }
    }
}

/// One field line: a name and a value, each written as it stands.
#[derive(Debug, Drop)]
pub(crate) struct Field {
    pub(crate) name: Word,
    pub(crate) value: Word,
}

/// The fields of a reply. Contracts see the list of names and values, in order of adding.
#[derive(Debug, Drop)]
pub struct Fields {
    lines: List<Field>,
    alloc: Global,
}

impl Model for Fields {
    ghost use Rattle.std.specs.Prelude.{map};
    ghost use Rattle.http_reply.specs.FieldLines.{FieldLines, line_of};

    ghost Value = { FieldLines };

    ghost view = { λ f. map line_of f.lines };
}

impl Fields {
    /// No fields yet; the allocator is kept for `add`.
    pub fn new(alloc: Global) -> Fields
        ensures empty { result ≡ [] }
    {
        Fields {
            lines: List::new(alloc),
            alloc,
        }
    }

    /// Adds a field at the end, of which the name and the value are copied.
    pub fn add(&mut self, name: &[u8], value: &[u8]) -> Result<(), NoMemory>
        ensures ok { OnOk result (self.new ≡ self.old ++ (name.now, value.now) ∷ []) }
        ensures err { OnErr result (self.new ≡ self.old) }
    {
        let name = Word::Own(Text::from_bytes(self.alloc, name)?);
        let value = Word::Own(Text::from_bytes(self.alloc, value)?);
        self.lines.push(Field { name, value })
    }

    /// Adds a field at the end that is always the same. Nothing is copied.
    pub fn add_constant(
        &mut self,
        name: &'static [u8],
        value: &'static [u8],
    ) -> Result<(), NoMemory>
        ensures ok { OnOk result (self.new ≡ self.old ++ (name.now, value.now) ∷ []) }
        ensures err { OnErr result (self.new ≡ self.old) }
    {
        self.lines.push(Field {
            name: Word::Constant(name),
            value: Word::Constant(value),
        })
    }

    /// Adds a field of this name at the end, with a value that it takes over. Nothing is copied.
    pub fn add_text(&mut self, name: &'static [u8], value: Text) -> Result<(), NoMemory>
        ensures ok { OnOk result (self.new ≡ self.old ++ (name.now, value) ∷ []) }
        ensures err { OnErr result (self.new ≡ self.old) }
    {
        self.lines.push(Field {
            name: Word::Constant(name),
            value: Word::Own(value),
        })
    }

    /// The field lines, in order.
    pub(crate) fn lines(&self) -> &[Field]
        ensures { map line_of result.now ≡ self.now }
    {
        self.lines.as_slice()
    }

    /// Whether a field is named Server, in any case.
    pub(crate) fn names_server(&self) -> bool
        ensures { result ≡ names_server self.now }
    {
        for line in self.lines.as_slice() {
            if same_word(line.name.bytes(), b"Server") {
                return true;
            }
        }
        false
    }
}
