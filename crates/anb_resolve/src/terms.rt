//! Terms by numbers.
ghost use Rattle.std.specs.Prelude.{◌≡◌, ◌<◌, ◌^◌, List, ℕ, length, map, IfOk};
ghost use Rattle.anb_term.specs.Tree as term;
ghost use Rattle.anb_term.specs.View.{tree_of as term_tree};
ghost use Rattle.anb_syntax.specs.Grammar.{trees_of};
ghost use Rattle.anb_syntax.specs.Views.{tree_of, know_of, action_of as action_item};
ghost use Rattle.anb_protocol.specs.Protocols.{fields_at, format_number, format_op, role_number, resolved, resolved_all, line_of, action_of};
ghost use Rattle.anb_protocol.specs.WellFormed.{AreFew};
ghost use Rattle.anb_protocol.specs.Views.{action_value};

use crate::atoms::AtomIndex;
use anb_base::{NoMemory, Text};
use anb_format::Format;
use anb_protocol::Action;
use anb_syntax::{ActionItem, KnowItem, Tree};
use anb_term::{Op, Term, Terms};
use std::alloc::Global;

/// The place of a format's name, or 0.
fn format_number(formats: &[Format], name: &Text) -> usize
    ensures { result ≡ format_number formats.now name.now }
{
    for (i, format) in formats.iter().enumerate() {
        if format.name().as_str() == name.as_str() {
            return i;
        }
    }
    0
}

/// The operator of a format.
fn format_op(formats: &[Format], name: &Text) -> Op
    requires { AreFew formats.now }
    ensures { result ≡ format_op formats.now name.now }
{
    let place = format_number(formats, name);
    Op::Format {
        index: place as u16,
        arity: fields_at(formats, place),
    }
}

/// How many fields the format at this place has.
fn fields_at(formats: &[Format], place: usize) -> u16
    requires { AreFew formats.now }
    ensures { result ≡ fields_at formats.now place }
{
    if place < formats.len() {
        formats[place].arity()
    } else {
        0
    }
}

/// The place of a role's name, or 0.
fn role_number(roles: &[Text], name: &Text) -> u32
    requires { length roles.now < 2 ^ 32 }
    ensures { result ≡ role_number roles.now name.now }
{
    for (i, role) in roles.iter().enumerate() {
        if role.as_str() == name.as_str() {
            return i as u32;
        }
    }
    0
}

/// A term by numbers.
#[cycle(resolve)]
pub(crate) fn resolved(
    alloc: Global,
    atoms: &AtomIndex,
    formats: &[Format],
    tree: &Tree,
) -> Result<Term, NoMemory>
    requires few { AreFew formats.now }
    requires atoms { length atoms.now < 2 ^ 32 }
    ensures { IfOk result (λ t. term_tree t ≡ resolved atoms.now formats.now (tree_of tree.now)) }
{
    match tree {
        Tree::Name(name) => Ok(Term::Atom(atoms.number(name))),
        Tree::Apply(name, arguments) => {
            let operands = resolved_all(alloc, atoms, formats, arguments)?;
            Ok(Term::Node(format_op(formats, name), operands))
        }
        Tree::Hash(body) => {
            let body = resolved(alloc, atoms, formats, body)?;
            Ok(node(Op::Hash, vec![in alloc; body]?))
        }
        Tree::Mac(key, body) => {
            let key = resolved(alloc, atoms, formats, key)?;
            let body = resolved(alloc, atoms, formats, body)?;
            Ok(node(Op::Mac, vec![in alloc; key, body]?))
        }
        Tree::Seal(key, body) => {
            let key = resolved(alloc, atoms, formats, key)?;
            let body = resolved(alloc, atoms, formats, body)?;
            Ok(node(Op::Seal, vec![in alloc; key, body]?))
        }
        Tree::Wrap(key, context, body) => {
            let key = resolved(alloc, atoms, formats, key)?;
            let context = resolved(alloc, atoms, formats, context)?;
            let body = resolved(alloc, atoms, formats, body)?;
            Ok(node(Op::Wrap, vec![in alloc; key, context, body]?))
        }
    }
}

fn node(op: Op, operands: Vec<Term>) -> Term
    ensures { term_tree result ≡ term.node op (term.trees_of (map term_tree operands.items)) }
{
    Term::Node(op, Terms::new(operands))
}

/// Terms by numbers.
#[cycle(resolve)]
pub(crate) fn resolved_all(
    alloc: Global,
    atoms: &AtomIndex,
    formats: &[Format],
    trees: &Vec<Tree>,
) -> Result<Terms, NoMemory>
    requires few { AreFew formats.now }
    requires atoms { length atoms.now < 2 ^ 32 }
    ensures trees { IfOk result (λ ts.
        term.trees_of ts ≡ resolved_all atoms.now formats.now
        (trees_of (map tree_of trees.now.items))) }
    ensures list { IfOk result (λ ts.
        ts ≡ term.list_of (resolved_all atoms.now formats.now
        (trees_of (map tree_of trees.now.items)))) }
{
    let mut terms = Vec::new(alloc);
    for tree in trees {
        terms.push(resolved(alloc, atoms, formats, tree)?)?;
    }
    Ok(Terms::new(terms))
}

/// What each role knows.
pub(crate) fn knows_of(
    alloc: Global,
    atoms: &AtomIndex,
    formats: &[Format],
    roles: &[Text],
    lines: &Vec<KnowItem>,
) -> Result<Vec<Terms>, NoMemory>
    requires few { AreFew formats.now }
    requires atoms { length atoms.now < 2 ^ 32 }
    ensures { IfOk result (λ knows.
        knows.items ≡ map (λ role.
        term.list_of (resolved_all atoms.now formats.now
        (line_of (map know_of lines.now.items) role))) roles.now) }
{
    let mut knows = Vec::new(alloc);
    for role in roles {
        knows.push(known_by(alloc, atoms, formats, role, lines)?)?;
    }
    Ok(knows)
}

/// What one role knows.
fn known_by(
    alloc: Global,
    atoms: &AtomIndex,
    formats: &[Format],
    role: &Text,
    lines: &Vec<KnowItem>,
) -> Result<Terms, NoMemory>
    requires few { AreFew formats.now }
    requires atoms { length atoms.now < 2 ^ 32 }
    ensures { IfOk result (λ terms.
        terms ≡ term.list_of (resolved_all atoms.now formats.now
        (line_of (map know_of lines.now.items) role.now))) }
{
    for line in lines {
        if line.role.as_str() == role.as_str() {
            return resolved_all(alloc, atoms, formats, &line.terms);
        }
    }
    Ok(Terms::new(Vec::new(alloc)))
}

/// The actions by numbers.
pub(crate) fn actions_of(
    alloc: Global,
    atoms: &AtomIndex,
    formats: &[Format],
    roles: &[Text],
    items: &Vec<ActionItem>,
) -> Result<Vec<Action>, NoMemory>
    requires few { AreFew formats.now }
    requires atoms { length atoms.now < 2 ^ 32 }
    requires roles { length roles.now < 2 ^ 32 }
    ensures { IfOk result (λ actions.
        map action_value actions.items
        ≡ map (action_of atoms.now formats.now roles.now) (map action_item items.now.items)) }
{
    let mut actions = Vec::new(alloc);
    for item in items {
        let message = resolved(alloc, atoms, formats, &item.message)?;
        actions.push(Action {
            from: role_number(roles, &item.from),
            to: role_number(roles, &item.to),
            message,
        })?;
    }
    Ok(actions)
}
