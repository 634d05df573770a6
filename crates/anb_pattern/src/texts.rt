//! Patterns and terms as texts.
ghost use Rattle.std.specs.Prelude.{◌≡◌, ◌<◌, ◌++◌, map, OnOk};
ghost use Rattle.std.specs.List.{AllByRecursion};
ghost use Rattle.anb_term.specs.Tree.{trees_of};
ghost use Rattle.anb_term.specs.View.{tree_of};
ghost use Rattle.anb_protocol.specs.Texts.{op_text, IsTermOf};
ghost use Rattle.anb_pattern.specs.Taken.{atom_text, comma, items, lead, listed, operands_text, pattern_text, variable_text};

use anb_base::NoMemory;
use anb_protocol::Protocol;
use anb_term::{Op, Term};
use itoa::Buffer;
use std::alloc::Global;

/// Appends a pattern.
#[cycle(pattern)]
pub(crate) fn put_pattern(out: &mut Vec<u8>, protocol: &Protocol, t: &Term) -> Result<(), NoMemory>
    ensures { OnOk result (out.new.items
        ≡ out.old.items ++ pattern_text protocol.now (tree_of t.now)) }
{
    match t {
        Term::Atom(n) => put_atom(out, protocol, *n),
        Term::Node(op, terms) => {
            put_op(out, protocol, *op)?;
            out.push(b'(')?;
            put_operands(out, protocol, terms.as_slice())?;
            out.push(b')')?;
            Ok(())
        }
    }
}

/// Appends operands, with commas between them.
#[cycle(pattern)]
fn put_operands(out: &mut Vec<u8>, protocol: &Protocol, terms: &[Term]) -> Result<(), NoMemory>
    ensures { OnOk result (out.new.items ≡ out.old.items
        ++ operands_text protocol.now 0 (trees_of (map tree_of terms.now))) }
{
    for (i, term) in terms.iter().enumerate() {
        put_comma(out, i)?;
        put_pattern(out, protocol, term)?;
    }
    Ok(())
}

/// Appends a comma before each operand but the first.
fn put_comma(out: &mut Vec<u8>, i: usize) -> Result<(), NoMemory>
    ensures { OnOk result (out.new.items ≡ out.old.items ++ comma i) }
{
    if i > 0 {
        out.push(b',')?;
    }
    Ok(())
}

/// Appends the name of an atom, or a variable.
fn put_atom(out: &mut Vec<u8>, protocol: &Protocol, n: u32) -> Result<(), NoMemory>
    ensures { OnOk result (out.new.items ≡ out.old.items ++ atom_text protocol.now n) }
{
    let atoms = protocol.declared();
    let n = n as usize;
    if n < atoms.len() {
        out.extend_from_slice(atoms[n].name.as_str().as_bytes())?;
        return Ok(());
    }
    put_variable(out, n - atoms.len())
}

/// Appends a variable, by how many come before it.
pub(crate) fn put_variable(out: &mut Vec<u8>, before: usize) -> Result<(), NoMemory>
    requires { before < 18446744073709551615 }
    ensures { OnOk result (out.new.items ≡ out.old.items ++ variable_text before) }
{
    let mut buffer = Buffer::new();
    out.push(b'?')?;
    out.extend_from_slice(buffer.format(before + 1).as_bytes())?;
    Ok(())
}

/// Appends an operator.
fn put_op(out: &mut Vec<u8>, protocol: &Protocol, op: Op) -> Result<(), NoMemory>
    ensures { OnOk result (out.new.items ≡ out.old.items ++ op_text protocol.now op) }
{
    let name = match op {
        Op::Hash => "h",
        Op::Mac => "mac",
        Op::Seal => "scrypt",
        Op::Wrap => "wrap",
        Op::Format { index, .. } => match protocol.formats().get(index as usize) {
            Some(format) => format.name().as_str(),
            None => "",
        },
    };
    out.extend_from_slice(name.as_bytes())?;
    Ok(())
}

/// Appends a line with words and terms, where there are terms. Variables stand before the terms but
/// the first where they are to be named.
pub(crate) fn put_listed(
    alloc: Global,
    out: &mut Vec<u8>,
    protocol: &Protocol,
    words: &[u8],
    named: bool,
    terms: &[Term],
) -> Result<(), NoMemory>
    requires { AllByRecursion (IsTermOf protocol.now) (map tree_of terms.now) }
    ensures { OnOk result (out.new.items ≡ out.old.items
        ++ listed protocol.now words.now named (map tree_of terms.now)) }
{
    if terms.is_empty() {
        return Ok(());
    }
    put_items(alloc, out, protocol, words, named, terms)?;
    out.push(b'\n')?;
    Ok(())
}

fn put_items(
    alloc: Global,
    out: &mut Vec<u8>,
    protocol: &Protocol,
    words: &[u8],
    named: bool,
    terms: &[Term],
) -> Result<(), NoMemory>
    requires { AllByRecursion (IsTermOf protocol.now) (map tree_of terms.now) }
    ensures { OnOk result (out.new.items ≡ out.old.items
        ++ items protocol.now words.now named 0 (map tree_of terms.now)) }
{
    for (i, term) in terms.iter().enumerate() {
        put_lead(out, words, named, i)?;
        let text = protocol.text_of_term(alloc, term)?;
        out.extend_from_slice(text.as_str().as_bytes())?;
    }
    Ok(())
}

/// Appends what stands before a term.
fn put_lead(out: &mut Vec<u8>, words: &[u8], named: bool, i: usize) -> Result<(), NoMemory>
    requires { i < 18446744073709551615 }
    ensures { OnOk result (out.new.items ≡ out.old.items ++ lead words.now named i) }
{
    if i == 0 {
        out.extend_from_slice(words)?;
        return Ok(());
    }
    out.extend_from_slice(b", ")?;
    if named {
        put_variable(out, i)?;
        out.extend_from_slice(b" for ")?;
    }
    Ok(())
}
