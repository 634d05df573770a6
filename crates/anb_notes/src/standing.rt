//! How names stand in messages.
ghost use Rattle.std.specs.Prelude.{◌≡◌, ◌++◌, ◌∷◌, [], map, OnOk, if◌then◌else◌};
ghost use Rattle.anb_term.specs.Tree.{trees_of};
ghost use Rattle.anb_term.specs.View.{tree_of};
ghost use Rattle.anb_notes.specs.Standing.{as_key, as_key_each, first_name, has_key, in_clear, in_clear_each, inside, inside_from, is_format, names_in};

use anb_base::NoMemory;
use anb_term::{Op, Term};

/// How a name stands in a message: as a key, in clear, or where whoever has all keys takes it out.
#[derive(Clone, Copy, Drop)]
pub(crate) enum Standing {
    AsKey,
    InClear,
    Inside,
}

/// Appends the names that stand so in a message, from left to right.
pub(crate) fn put_names_in(
    out: &mut Vec<u32>,
    standing: Standing,
    message: &Term,
) -> Result<(), NoMemory>
    ensures { OnOk result (out.new.items
        ≡ out.old.items ++ names_in standing (tree_of message.now)) }
{
    match standing {
        Standing::AsKey => put_as_key(out, message),
        Standing::InClear => put_in_clear(out, message),
        Standing::Inside => put_inside(out, message),
    }
}

#[cycle(keys)]
fn put_as_key(out: &mut Vec<u32>, t: &Term) -> Result<(), NoMemory>
    ensures { OnOk result (out.new.items ≡ out.old.items ++ as_key (tree_of t.now)) }
{
    match t {
        Term::Atom(_) => Ok(()),
        Term::Node(op, operands) => {
            put_key(out, *op, operands.as_slice())?;
            put_as_key_each(out, operands.as_slice())
        }
    }
}

#[cycle(keys)]
fn put_as_key_each(out: &mut Vec<u32>, terms: &[Term]) -> Result<(), NoMemory>
    ensures { OnOk result (out.new.items
        ≡ out.old.items ++ as_key_each (trees_of (map tree_of terms.now))) }
{
    for t in terms {
        put_as_key(out, t)?;
    }
    Ok(())
}

/// Appends the name that is an operator's key, where it has one.
fn put_key(out: &mut Vec<u32>, op: Op, operands: &[Term]) -> Result<(), NoMemory>
    ensures { OnOk result (out.new.items ≡ out.old.items
        ++ (if has_key op then first_name (trees_of (map tree_of operands.now)) else [])) }
{
    match op {
        Op::Hash => Ok(()),
        Op::Mac => put_first_name(out, operands),
        Op::Seal => put_first_name(out, operands),
        Op::Wrap => put_first_name(out, operands),
        Op::Format { .. } => Ok(()),
    }
}

fn put_first_name(out: &mut Vec<u32>, operands: &[Term]) -> Result<(), NoMemory>
    ensures { OnOk result (out.new.items ≡ out.old.items
        ++ first_name (trees_of (map tree_of operands.now))) }
{
    match operands {
        [] => Ok(()),
        [first, ..] => put_if_name(out, first),
    }
}

fn put_if_name(out: &mut Vec<u32>, t: &Term) -> Result<(), NoMemory>
    ensures { OnOk result (out.new.items ≡ out.old.items
        ++ first_name (trees_of (map tree_of (t.now ∷ [])))) }
{
    match t {
        Term::Atom(n) => out.push(*n)?,
        Term::Node(..) => {}
    }
    Ok(())
}

#[cycle(clear)]
fn put_in_clear(out: &mut Vec<u32>, t: &Term) -> Result<(), NoMemory>
    ensures { OnOk result (out.new.items ≡ out.old.items ++ in_clear (tree_of t.now)) }
{
    match t {
        Term::Atom(n) => {
            out.push(*n)?;
            Ok(())
        }
        Term::Node(op, operands) => {
            if is_format(*op) {
                put_in_clear_each(out, operands.as_slice())
            } else {
                Ok(())
            }
        }
    }
}

#[cycle(clear)]
fn put_in_clear_each(out: &mut Vec<u32>, terms: &[Term]) -> Result<(), NoMemory>
    ensures { OnOk result (out.new.items
        ≡ out.old.items ++ in_clear_each (trees_of (map tree_of terms.now))) }
{
    for t in terms {
        put_in_clear(out, t)?;
    }
    Ok(())
}

fn is_format(op: Op) -> bool
    ensures { result ≡ is_format op }
{
    match op {
        Op::Hash => false,
        Op::Mac => false,
        Op::Seal => false,
        Op::Wrap => false,
        Op::Format { .. } => true,
    }
}

#[cycle(inside)]
fn put_inside(out: &mut Vec<u32>, t: &Term) -> Result<(), NoMemory>
    ensures { OnOk result (out.new.items ≡ out.old.items ++ inside (tree_of t.now)) }
{
    match t {
        Term::Atom(n) => {
            out.push(*n)?;
            Ok(())
        }
        Term::Node(op, operands) => {
            if op.undoes() {
                put_inside_from(out, op.keys() as usize, operands.as_slice())
            } else {
                Ok(())
            }
        }
    }
}

/// Appends those in the operands from a place on.
#[cycle(inside)]
fn put_inside_from(out: &mut Vec<u32>, first: usize, terms: &[Term]) -> Result<(), NoMemory>
    ensures { OnOk result (out.new.items
        ≡ out.old.items ++ inside_from first 0 (trees_of (map tree_of terms.now))) }
{
    for (i, t) in terms.iter().enumerate() {
        put_inside_if(out, i >= first, t)?;
    }
    Ok(())
}

#[cycle(inside)]
fn put_inside_if(out: &mut Vec<u32>, so: bool, t: &Term) -> Result<(), NoMemory>
    ensures { OnOk result (out.new.items ≡ out.old.items
        ++ (if so then inside (tree_of t.now) else [])) }
{
    if so { put_inside(out, t) } else { Ok(()) }
}
