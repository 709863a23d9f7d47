//! The indexes of several lists of media types, as different blocks of a configuration set them.
ghost use Rattle.std.specs.Prelude.{◌≡◌, [], ◌∷◌, ◌++◌, IfOk, OnOk, OnErr, unwrap_or};
ghost use Rattle.static_files.specs.MediaTypes.{mime};
ghost use Rattle.static_files.specs.TypeTables.{list_at};

use crate::media_types::value_of;
use crate::type_index::TypeIndex;
use conf_value::Pair;
use lt_bytes::{List, NoMemory};
use std::alloc::Global;
use std::marker::Model;

/// Lists of media types, each with its index, under the numbers from 0 on. Contracts see the lists.
#[derive(Drop)]
pub struct TypeTables<'a> {
    // An empty list has no index.
    tables: List<Option<TypeIndex<'a>>>,
}

impl<'a> Model for TypeTables<'a> {
    ghost use Rattle.std.specs.Prelude.{List};
    ghost use Rattle.std.specs.Coded.{coded_list};
    ghost use Rattle.conf_value.specs.declared.value.Pair.{Pair};
    ghost use Rattle.conf_value.specs.contracts.value.Pair as pair;

    ghost Value = { List (List Pair) };

    ghost coded = { coded_list (coded_list pair.the_row.coded) };

    ghost use Rattle.static_files.specs.TypeTables.{lists_in};

    ghost view = { λ t. lists_in t.tables };
}

/// The index of a list, unless it is empty.
fn indexed<'a>(alloc: Global, types: &'a [Pair]) -> Result<Option<TypeIndex<'a>>, NoMemory>
    ensures { IfOk result (λ table. unwrap_or table [] ≡ types.now) }
{
    if types.is_empty() {
        return Ok(None);
    }
    let index = TypeIndex::new(alloc, types)?;
    Ok(Some(index))
}

impl<'a> TypeTables<'a> {
    /// No lists yet.
    pub fn new(alloc: Global) -> TypeTables<'a>
        ensures { result ≡ [] }
    {
        TypeTables {
            tables: List::new(alloc),
        }
    }

    /// Adds a list under the next number.
    pub fn add(&mut self, alloc: Global, types: &'a [Pair]) -> Result<(), NoMemory>
        ensures ok { OnOk result (self.new ≡ self.old ++ types.now ∷ []) }
        ensures err { OnErr result (self.new ≡ self.old) }
    {
        let table = indexed(alloc, types)?;
        self.tables.push(table)
    }

    /// The media type of a path by the list with this number, as `mime` finds it in the whole list; by an empty one where
    /// there is none. It takes no memory.
    pub fn mime(&self, number: usize, path: &[u8]) -> &'a [u8]
        ensures { result.now ≡ mime (list_at self.now number) path.now }
    {
        match self.tables.get(number) {
            Some(Some(index)) => index.mime(path),
            Some(None) => value_of(None),
            None => value_of(None),
        }
    }
}
