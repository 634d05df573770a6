//! Places: what stands there, and how they are written.
ghost use Rattle.std.specs.Prelude.{◌≡◌, ◌++◌, map, slice_get, string_bytes, Some, None, IfOk, IfSome, IfNone, OnOk};
ghost use Rattle.anb_term.specs.View.{tree_of};
ghost use Rattle.anb_protocol.specs.Protocols.{ProtocolValue, role_name};
ghost use Rattle.anb_protocol.specs.Texts.{IsTermOf, op_text};
ghost use Rattle.anb_protocol.specs.Views.{action_value};
ghost use Rattle.anb_verdict.specs.Places.{around, head_text, is_own, joint, key_text, keys_text, narrated_at, narrated_part, operand, operand_text, own_action, own_of, part_at, part_text, place_in, place_text, sender_at};

use crate::place::Place;
use anb_base::{NoMemory, Text};
use anb_protocol::{Action, Protocol, protocols_hold};
use anb_term::{Op, Term};
use std::alloc::Global;

/// The action with the n-th message of those that a role sends and receives, from 1.
pub(crate) fn own_action(p: &Protocol, role: u32, n: usize) -> Option<&Action>
    ensures some { IfSome result (λ a. own_action p.now role n ≡ Some (action_value a.now)) }
    ensures none { IfNone result (own_action p.now role n ≡ None) }
    ensures term { IfSome result (λ a. IsTermOf p.now (tree_of a.now.message)) }
{
    protocols_hold();
    match own_of(p.messages(), role, n) {
        Some(action) => Some(action),
        None => None,
    }
}

/// The same of these actions.
fn own_of(actions: &[Action], role: u32, n: usize) -> Option<&Action>
    ensures some { IfSome result (λ a.
        own_of role (map action_value actions.now) n ≡ Some (action_value a.now)) }
    ensures none { IfNone result (own_of role (map action_value actions.now) n ≡ None) }
{
    let Some((action, rest)) = actions.split_first() else {
        return None;
    };
    if !is_own(role, action) {
        return own_of(rest, role, n);
    }
    if n == 1 {
        return Some(action);
    }
    own_of(rest, role, n.saturating_sub(1))
}

fn is_own(role: u32, action: &Action) -> bool
    ensures { result ≡ is_own role (action_value action.now) }
{
    action.from == role || action.to == role
}

/// The narrated term of what a role hears or says at an event.
pub(crate) fn narrated_at(p: &Protocol, role: u32, event: usize) -> Option<&Term>
    ensures some { IfSome result (λ t. narrated_at p.now role event ≡ Some (tree_of t.now)) }
    ensures none { IfNone result (narrated_at p.now role event ≡ None) }
    ensures term { IfSome result (λ t. IsTermOf p.now (tree_of t.now)) }
{
    match own_action(p, role, event) {
        Some(action) => Some(&action.message),
        None => None,
    }
}

/// The name of who sends what a role hears at an event.
pub(crate) fn sender_at(p: &Protocol, role: u32, event: usize) -> &str
    ensures { result.now ≡ sender_at p.now role event }
{
    match own_action(p, role, event) {
        Some(action) => role_name(p, action.from),
        None => "",
    }
}

/// The name of a role by its number.
pub(crate) fn role_name(p: &Protocol, role: u32) -> &str
    ensures { result.now ≡ role_name p.now role }
{
    match p.roles().get(role as usize) {
        Some(name) => name.as_str(),
        None => "",
    }
}

/// The operand with a number, from 0.
fn operand(t: &Term, i: usize) -> Option<&Term>
    ensures some { IfSome result (λ u. operand i (tree_of t.now) ≡ Some (tree_of u.now)) }
    ensures none { IfNone result (operand i (tree_of t.now) ≡ None) }
    ensures term { IfSome result (λ u. (p : ProtocolValue)
        → IsTermOf p (tree_of t.now) → IsTermOf p (tree_of u.now)) }
{
    match t {
        Term::Atom(_) => None,
        Term::Node(_, operands) => match operand_at(operands.as_slice(), i) {
            Some(inner) => Some(inner),
            None => None,
        },
    }
}

/// The same of these operands.
fn operand_at(operands: &[Term], i: usize) -> Option<&Term>
    ensures some { IfSome result (λ u.
        slice_get (map tree_of operands.now) i ≡ Some (tree_of u.now)) }
    ensures none { IfNone result (slice_get (map tree_of operands.now) i ≡ None) }
{
    if i < operands.len() {
        return Some(&operands[i]);
    }
    None
}

/// The part of a term at a place.
fn part_at<'a>(t: &'a Term, path: &[usize]) -> Option<&'a Term>
    ensures some { IfSome result (λ u. part_at (tree_of t.now) path.now ≡ Some (tree_of u.now)) }
    ensures none { IfNone result (part_at (tree_of t.now) path.now ≡ None) }
    ensures term { IfSome result (λ u. (p : ProtocolValue)
        → IsTermOf p (tree_of t.now) → IsTermOf p (tree_of u.now)) }
{
    let mut part = t;
    for i in path {
        match operand(part, *i) {
            Some(inner) => part = inner,
            None => return None,
        }
    }
    Some(part)
}

/// The narrated term at a place.
pub(crate) fn narrated_part<'a>(p: &'a Protocol, role: u32, place: &Place) -> Option<&'a Term>
    ensures some { IfSome result (λ u.
        narrated_part p.now role place.now ≡ Some (tree_of u.now)) }
    ensures none { IfNone result (narrated_part p.now role place.now ≡ None) }
    ensures term { IfSome result (λ u. IsTermOf p.now (tree_of u.now)) }
{
    match narrated_at(p, role, place.event) {
        Some(t) => part_at(t, &place.path),
        None => None,
    }
}

/// The text of the narrated term at a place of what a role hears; or none, where there is no such place.
pub fn part_text(alloc: Global, p: &Protocol, role: u32, place: &Place) -> Result<Text, NoMemory>
    ensures { IfOk result (λ text. text ≡ part_text p.now role place.now) }
{
    match narrated_part(p, role, place) {
        Some(t) => p.text_of_term(alloc, t),
        None => Ok(Text::new(String::new(alloc))),
    }
}

/// That of its operand with a number, from 0.
pub fn operand_text(
    alloc: Global,
    p: &Protocol,
    role: u32,
    place: &Place,
    i: usize,
) -> Result<Text, NoMemory>
    ensures { IfOk result (λ text. text ≡ operand_text p.now role place.now i) }
{
    match narrated_part(p, role, place) {
        Some(t) => match operand(t, i) {
            Some(u) => p.text_of_term(alloc, u),
            None => Ok(Text::new(String::new(alloc))),
        },
        None => Ok(Text::new(String::new(alloc))),
    }
}

/// How its operator is written.
pub(crate) fn head_text<'a>(p: &'a Protocol, role: u32, place: &Place) -> &'a str
    ensures { result.now ≡ head_text p.now role place.now }
{
    match narrated_part(p, role, place) {
        Some(Term::Node(op, _)) => op_name(p, *op),
        Some(Term::Atom(_)) => "",
        None => "",
    }
}

/// How an operator is written.
fn op_name(p: &Protocol, op: Op) -> &str
    ensures { result.now ≡ op_text p.now op }
{
    match op {
        Op::Hash => "h",
        Op::Mac => "mac",
        Op::Seal => "scrypt",
        Op::Wrap => "wrap",
        Op::Format { index, .. } => match p.formats().get(index as usize) {
            Some(format) => format.name().as_str(),
            None => "",
        },
    }
}

/// A place in what comes at an event: what is narrated there, and what stands around it, which is
/// joined first by this word.
pub(crate) fn place_text(
    alloc: Global,
    p: &Protocol,
    role: u32,
    word: &str,
    place: &Place,
) -> Result<Text, NoMemory>
    ensures { IfOk result (λ text. text ≡ place_text p.now role word.now place.now) }
{
    let mut out = String::new(alloc);
    if let Some(t) = narrated_at(p, role, place.event) {
        put_place(alloc, &mut out, p, word, t, &place.path)?;
    }
    Ok(Text::new(out))
}

/// Appends a place in a term.
fn put_place(
    alloc: Global,
    out: &mut String,
    p: &Protocol,
    word: &str,
    t: &Term,
    path: &[usize],
) -> Result<(), NoMemory>
    requires { IsTermOf p.now (tree_of t.now) }
    ensures { OnOk result (string_bytes out.new
        ≡ string_bytes out.old ++ place_in p.now word.now (tree_of t.now) path.now) }
{
    match path.split_first() {
        None => {
            let text = p.text_of_term(alloc, t)?;
            out.push_str(text.as_str())?;
            Ok(())
        }
        Some((i, inner)) => match operand(t, *i) {
            None => Ok(()),
            Some(u) => {
                put_place(alloc, out, p, word, u, inner)?;
                out.push_str(joint(word, inner))?;
                put_around(alloc, out, p, t)
            }
        },
    }
}

/// What joins a place with an operator around it, inside of which so much of the way is left.
fn joint<'a>(word: &'a str, path: &[usize]) -> &'a str
    ensures { result.now ≡ joint word.now path.now }
{
    if path.is_empty() { word } else { " in " }
}

/// Appends an operator around a place: its name, and its keys.
fn put_around(alloc: Global, out: &mut String, p: &Protocol, t: &Term) -> Result<(), NoMemory>
    requires { IsTermOf p.now (tree_of t.now) }
    ensures { OnOk result (string_bytes out.new
        ≡ string_bytes out.old ++ around p.now (tree_of t.now)) }
{
    let Term::Node(op, _) = t else {
        return Ok(());
    };
    let keys = keys_text(alloc, p, *op, t)?;
    let text = format!(in alloc; "{}({}..)", op_name(p, *op), keys.as_str())?;
    out.push_str(text.as_str())?;
    Ok(())
}

/// The keys of a term with this operator, each with a comma behind it.
fn keys_text(alloc: Global, p: &Protocol, op: Op, t: &Term) -> Result<Text, NoMemory>
    requires { IsTermOf p.now (tree_of t.now) }
    ensures { IfOk result (λ text. text ≡ keys_text p.now op (tree_of t.now)) }
{
    match op {
        Op::Hash => Ok(Text::new(String::new(alloc))),
        Op::Mac => key_text(alloc, p, t, 0),
        Op::Seal => key_text(alloc, p, t, 0),
        Op::Wrap => {
            let key = key_text(alloc, p, t, 0)?;
            let context = key_text(alloc, p, t, 1)?;
            let text = format!(in alloc; "{}{}", key.as_str(), context.as_str())?;
            Ok(Text::new(text))
        }
        Op::Format { .. } => Ok(Text::new(String::new(alloc))),
    }
}

/// An operand with a comma behind it.
fn key_text(alloc: Global, p: &Protocol, t: &Term, i: usize) -> Result<Text, NoMemory>
    requires { IsTermOf p.now (tree_of t.now) }
    ensures { IfOk result (λ text. text ≡ key_text p.now (tree_of t.now) i) }
{
    match operand(t, i) {
        Some(key) => {
            let key = p.text_of_term(alloc, key)?;
            let text = format!(in alloc; "{},", key.as_str())?;
            Ok(Text::new(text))
        }
        None => Ok(Text::new(String::new(alloc))),
    }
}
