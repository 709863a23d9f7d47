//! The printed form: statements.
ghost use Rattle.std.specs.Prelude.{◌++◌, ◌-◌, ◌<◌, ◌≡◌, IfOk, None, OnOk, Some};
ghost use Rattle.conf_parse.specs.Print as spec;
ghost use Rattle.conf_parse.specs.declared.tree.Statement.{out-Statement};
ghost use Rattle.conf_parse.specs.declared.tree.What.{out-What};

use crate::parser::MAX_NESTING;
use crate::printer::{quoted, sum};
use crate::{Branch, RawCondition, Statement, Tree, What};
use conf_value::Op;
use lt_bytes::{NoMemory, Text};
use std::alloc::Global;

/// Two spaces a block that is open.
fn margin(out: &mut Text, room: u32) -> Result<(), NoMemory>
    ensures { OnOk result (out.new ≡ out.old ++ spec.margin room) }
{
    for _ in room..MAX_NESTING {
        out.push_all(b"  ")?;
    }
    Ok(())
}

fn op_text(op: Op) -> &'static [u8]
    ensures { result.now ≡ spec.op_text op }
{
    match op {
        Op::Equal => b"==",
        Op::NotEqual => b"!=",
        Op::Match => b"=~",
        Op::NoMatch => b"!~",
        Op::Prefix => b"=^",
        Op::Suffix => b"=$",
    }
}

fn condition(out: &mut Text, condition: &RawCondition) -> Result<(), NoMemory>
    ensures { OnOk result (out.new ≡ out.old ++ spec.condition_text (Some condition.now)) }
{
    out.push(b'$')?;
    out.push_all(condition.group.bytes())?;
    out.push(b'[')?;
    quoted(out, condition.name.bytes())?;
    out.push_all(b"] ")?;
    out.push_all(op_text(condition.op))?;
    out.push(b' ')?;
    quoted(out, condition.text.bytes())?;
    out.push(b' ')
}

#[cycle(statement)]
fn statement(out: &mut Text, room: u32, statement: &Statement) -> Result<(), NoMemory>
    ensures { OnOk result (out.new ≡ out.old ++ spec.statement_text room statement.now) }
{
    match &statement.what {
        What::Set { key, add, value } => {
            margin(out, room)?;
            out.push_all(key.bytes())?;
            if *add {
                out.push_all(b" += ")?;
            } else {
                out.push_all(b" = ")?;
            }
            sum(out, room, value.as_slice())?;
            out.push(b'\n')
        }
        What::Include(value) => {
            margin(out, room)?;
            out.push_all(b"include ")?;
            sum(out, room, value.as_slice())?;
            out.push(b'\n')
        }
        What::Branches(branches) => chain(out, room, branches.as_slice()),
    }
}

#[cycle(statement)]
fn chain(out: &mut Text, room: u32, branches: &[Branch]) -> Result<(), NoMemory>
    ensures { OnOk result (out.new ≡ out.old ++ spec.branches_text room branches.now) }
{
    if room == 0 {
        return Ok(());
    }
    open_chain(out, room, branches)
}

#[cycle(statement)]
fn open_chain(out: &mut Text, room: u32, branches: &[Branch]) -> Result<(), NoMemory>
    requires { 0 < room }
    ensures { OnOk result (out.new ≡ out.old ++ spec.branches_of room (spec.body_text (room - 1)) branches.now) }
{
    if let Some((first, others)) = branches.split_first() {
        margin(out, room)?;
        branch(out, room, first)?;
        for other in others {
            margin(out, room)?;
            out.push_all(b"else ")?;
            branch(out, room, other)?;
        }
    }
    Ok(())
}

/// A branch in a body of this room, behind its margin.
#[cycle(statement)]
fn branch(out: &mut Text, room: u32, branch: &Branch) -> Result<(), NoMemory>
    requires { 0 < room }
    ensures { OnOk result (out.new ≡ out.old ++ spec.branch_of room (spec.body_text (room - 1)) branch.now) }
{
    if let Some(known) = &branch.condition {
        condition(out, known)?;
    }
    out.push_all(b"{\n")?;
    body(out, room - 1, branch.body.as_slice())?;
    margin(out, room)?;
    out.push_all(b"}\n")
}

#[cycle(statement)]
fn body(out: &mut Text, room: u32, statements: &[Statement]) -> Result<(), NoMemory>
    ensures { OnOk result (out.new ≡ out.old ++ spec.body_text room statements.now) }
{
    for one in statements {
        statement(out, room, one)?;
    }
    Ok(())
}

/// The printed form of a tree: each statement on lines of its own, two spaces deeper in each block.
///
/// What is nested deeper than `MAX_NESTING`, which no text spells, is left out.
pub fn print(alloc: Global, tree: &Tree) -> Result<Text, NoMemory>
    ensures { IfOk result (λ text. text ≡ spec.printed tree.now) }
{
    let mut out = Text::new(alloc);
    body(&mut out, MAX_NESTING, tree.statements.as_slice())?;
    Ok(out)
}
