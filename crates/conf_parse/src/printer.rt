//! The printed form: values.
ghost use Rattle.std.specs.Prelude.{[], ◌∷◌, ◌++◌, ◌≡◌, OnOk, codes};
ghost use Rattle.std.specs.Fmt.{signed_decimal};
ghost use Rattle.conf_lex.specs.Spelling as spelling;
ghost use Rattle.conf_parse.specs.Print as spec;
ghost use Rattle.conf_parse.specs.declared.tree.Term.{out-Term};

use crate::{Item, Term};
use lt_bytes::{NoMemory, Text, decimal};

/// A text between quotation marks.
pub fn quoted(out: &mut Text, text: &[u8]) -> Result<(), NoMemory>
    ensures { OnOk result (out.new ≡ out.old ++ spelling.quoted text.now) }
{
    out.push(b'"')?;
    inside(out, text)?;
    out.push(b'"')
}

fn inside(out: &mut Text, text: &[u8]) -> Result<(), NoMemory>
    ensures { OnOk result (out.new ≡ out.old ++ spelling.inside text.now) }
{
    for byte in text {
        if *byte == b'"' {
            out.push(b'\\')?;
        }
        out.push(*byte)?;
    }
    Ok(())
}

fn number(out: &mut Text, number: i64) -> Result<(), NoMemory>
    ensures { OnOk result (out.new ≡ out.old ++ signed_decimal number) }
{
    if number < 0 {
        out.push(b'-')?;
    }
    out.push_all(decimal(number.unsigned_abs()).bytes())
}

#[cycle(value)]
fn term(out: &mut Text, room: u32, term: &Term) -> Result<(), NoMemory>
    ensures { OnOk result (out.new ≡ out.old ++ spec.term_text room term.now) }
{
    match term {
        Term::Text(text) => quoted(out, text.bytes()),
        Term::Number(value) => number(out, *value),
        Term::Var(key) => out.push_all(key.bytes()),
        Term::Array(items) => array(out, room, items.as_slice()),
    }
}

#[cycle(value)]
fn array(out: &mut Text, room: u32, items: &[Item]) -> Result<(), NoMemory>
    ensures { OnOk result (out.new ≡ out.old ++ spec.array_text room items.now) }
{
    if room == 0 {
        return Ok(());
    }
    open_array(out, room - 1, items)
}

#[cycle(value)]
fn open_array(out: &mut Text, room: u32, items: &[Item]) -> Result<(), NoMemory>
    ensures { OnOk result (out.new ≡ out.old ++ spec.items_of (spec.array_text room) items.now) }
{
    if items.len() == 0 {
        return out.push_all(b"( )");
    }
    out.push_all(b"( ")?;
    all_items(out, room, items)?;
    out.push_all(b" )")
}

#[cycle(value)]
fn all_items(out: &mut Text, room: u32, items: &[Item]) -> Result<(), NoMemory>
    ensures { OnOk result (out.new ≡ out.old ++ spec.separated (spec.item_text room) (codes ", ") items.now) }
{
    if let Some((first, others)) = items.split_first() {
        item(out, room, first)?;
        for one in others {
            out.push_all(b", ")?;
            item(out, room, one)?;
        }
    }
    Ok(())
}

#[cycle(value)]
fn item(out: &mut Text, room: u32, item: &Item) -> Result<(), NoMemory>
    ensures { OnOk result (out.new ≡ out.old ++ spec.item_text room item.now) }
{
    if let Some(key) = &item.key {
        quoted(out, key.bytes())?;
        out.push_all(b" => ")?;
    }
    sum(out, room, item.value.as_slice())
}

/// The terms of a value, with `+` between them.
#[cycle(value)]
pub fn sum(out: &mut Text, room: u32, terms: &[Term]) -> Result<(), NoMemory>
    ensures { OnOk result (out.new ≡ out.old ++ spec.sum_text room terms.now) }
{
    if let Some((first, others)) = terms.split_first() {
        term(out, room, first)?;
        for one in others {
            out.push_all(b" + ")?;
            term(out, room, one)?;
        }
    }
    Ok(())
}
