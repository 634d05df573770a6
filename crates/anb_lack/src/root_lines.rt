//! The lines that say why terms are missing.
ghost use Rattle.std.specs.Prelude.{◌≡◌, ◌<◌, ◌++◌, ℕ, List, Bool, Some, IfOk, OnOk, codes, length, map, slice_get, option_map};
ghost use Rattle.std.specs.List.{flat_map, AllByRecursion};
ghost use Rattle.anb_term.specs.View.{tree_of};
ghost use Rattle.anb_protocol.specs.Texts.{term_text};
ghost use Rattle.anb_lack.specs.Rooted.{lock_value, root_value, HasTerms, LockHasTerms};
ghost use Rattle.anb_lack.specs.Roots.{doer, doers, knows, makes, or_else, place_text, root_line, stands_text, who};
ghost use Rattle.anb_lack.specs.Rows.{AreRows, IsColumn};

use crate::knowing::{knowing, making};
use crate::lines::{put, put_number};
use crate::origins::Origin;
use crate::roots::{Lock, Root};
use anb_base::{NoMemory, Text};
use anb_protocol::Protocol;
use anb_term::Term;
use std::alloc::Global;

/// Appends why terms are missing, a line each.
pub(crate) fn put_roots(
    alloc: Global,
    out: &mut Vec<u8>,
    protocol: &Protocol,
    sender: &Text,
    roots: &[Root],
) -> Result<(), NoMemory>
    requires { AllByRecursion (HasTerms protocol.now) (map root_value roots.now) }
    ensures { OnOk result (out.new.items ≡ out.old.items
        ++ flat_map (root_line protocol.now sender.now) (map root_value roots.now)) }
{
    let keys = keys_of(alloc, roots)?;
    let knowing = knowing(alloc, protocol, &keys)?;
    let making = making(alloc, protocol, &keys)?;
    put_root_lines(alloc, out, protocol, sender, roots, &knowing, &making)
}

/// The keys that are asked for.
fn keys_of(alloc: Global, roots: &[Root]) -> Result<Vec<Term>, NoMemory>
    ensures { IfOk result (λ keys. map tree_of keys.items
        ≡ map (λ r. r.key) (map root_value roots.now)) }
{
    let mut keys = Vec::new(alloc);
    for root in roots {
        keys.push(root.key.copy(alloc)?)?;
    }
    Ok(keys)
}

/// Appends the lines, where the rows tell for each role and key whether it knows and makes it.
fn put_root_lines(
    alloc: Global,
    out: &mut Vec<u8>,
    protocol: &Protocol,
    sender: &Text,
    roots: &[Root],
    knowing: &[Vec<bool>],
    making: &[Vec<bool>],
) -> Result<(), NoMemory>
    requires terms { AllByRecursion (HasTerms protocol.now) (map root_value roots.now) }
    requires knowing { AreRows (length protocol.now.roles)
        (map (λ r. r.key) (map root_value roots.now)) (knows protocol.now) knowing.now }
    requires making { AreRows (length protocol.now.roles)
        (map (λ r. r.key) (map root_value roots.now)) (makes protocol.now) making.now }
    ensures { OnOk result (out.new.items ≡ out.old.items
        ++ flat_map (root_line protocol.now sender.now) (map root_value roots.now)) }
{
    for i in 0..roots.len() {
        put_root_line(alloc, out, protocol, sender, &roots[i], knowing, making, i)?;
    }
    Ok(())
}

/// Appends a line, for the root at place i.
fn put_root_line(
    alloc: Global,
    out: &mut Vec<u8>,
    protocol: &Protocol,
    sender: &Text,
    root: &Root,
    knowing: &[Vec<bool>],
    making: &[Vec<bool>],
    i: usize,
) -> Result<(), NoMemory>
    requires terms { HasTerms protocol.now (root_value root.now) }
    requires knowing { IsColumn i (length protocol.now.roles)
        (knows protocol.now (tree_of root.now.key)) knowing.now }
    requires making { IsColumn i (length protocol.now.roles)
        (makes protocol.now (tree_of root.now.key)) making.now }
    ensures { OnOk result (out.new.items
        ≡ out.old.items ++ root_line protocol.now sender.now (root_value root.now)) }
{
    let key = protocol.text_of_term(alloc, &root.key)?;
    put_stands(alloc, out, protocol, sender, root, &key)?;
    put_who(out, protocol, &root.key, &key, knowing, making, i)?;
    put(out, "\n")?;
    Ok(())
}

/// Appends where a part stands, and which key this needs; or that the role lacks it.
fn put_stands(
    alloc: Global,
    out: &mut Vec<u8>,
    protocol: &Protocol,
    sender: &Text,
    root: &Root,
    key: &Text,
) -> Result<(), NoMemory>
    requires terms { HasTerms protocol.now (root_value root.now) }
    requires key { key.now ≡ term_text protocol.now (tree_of root.now.key) }
    ensures { OnOk result (out.new.items ≡ out.old.items
        ++ stands_text protocol.now sender.now (root_value root.now)
        (option_map lock_value root.now.lock)) }
{
    match &root.lock {
        Some(lock) => {
            let part = protocol.text_of_term(alloc, &root.part)?;
            put_behind(alloc, out, protocol, &part, lock)
        }
        None => {
            put(out, sender.as_str())?;
            put(out, " lacks ")?;
            put(out, key.as_str())?;
            Ok(())
        }
    }
}

/// Appends that a part stands in a lock.
fn put_behind(
    alloc: Global,
    out: &mut Vec<u8>,
    protocol: &Protocol,
    part: &Text,
    lock: &Lock,
) -> Result<(), NoMemory>
    requires { LockHasTerms protocol.now (lock_value lock.now) }
    ensures { OnOk result (out.new.items ≡ out.old.items
        ++ (part.now ++ (codes " stands in " ++ (term_text protocol.now (tree_of lock.now.term)
        ++ (place_text lock.now.from ++ (codes ", which needs "
        ++ term_text protocol.now (tree_of lock.now.key))))))) }
{
    let term = protocol.text_of_term(alloc, &lock.term)?;
    let key = protocol.text_of_term(alloc, &lock.key)?;
    put(out, part.as_str())?;
    put(out, " stands in ")?;
    put(out, term.as_str())?;
    put_place(out, lock.from)?;
    put(out, ", which needs ")?;
    put(out, key.as_str())?;
    Ok(())
}

/// Appends where a lock is from.
fn put_place(out: &mut Vec<u8>, from: Origin) -> Result<(), NoMemory>
    ensures { OnOk result (out.new.items ≡ out.old.items ++ place_text from) }
{
    match from {
        Origin::Known => put(out, ", known"),
        Origin::Made => put(out, ", made"),
        Origin::Built => put(out, ", built"),
        Origin::Received(action) => {
            put(out, " of action ")?;
            put_number(out, action)?;
            Ok(())
        }
    }
}

/// Appends who knows a key; where no role does, who makes it; and else that nobody knows it.
fn put_who(
    out: &mut Vec<u8>,
    protocol: &Protocol,
    term: &Term,
    key: &Text,
    knowing: &[Vec<bool>],
    making: &[Vec<bool>],
    i: usize,
) -> Result<(), NoMemory>
    requires key { key.now ≡ term_text protocol.now (tree_of term.now) }
    requires knowing { IsColumn i (length protocol.now.roles)
        (knows protocol.now (tree_of term.now)) knowing.now }
    requires making { IsColumn i (length protocol.now.roles)
        (makes protocol.now (tree_of term.now)) making.now }
    ensures { OnOk result (out.new.items
        ≡ out.old.items ++ who protocol.now (tree_of term.now)) }
{
    let _ = term;
    let before = out.len();
    put_doers(out, protocol.roles(), knowing, i, " knows ", key)?;
    if out.len() > before {
        return Ok(());
    }
    put_doers(out, protocol.roles(), making, i, " makes ", key)?;
    if out.len() > before {
        return Ok(());
    }
    put(out, "; nobody knows ")?;
    put(out, key.as_str())?;
    Ok(())
}

/// Appends each role whose row has a flag at this place.
fn put_doers(
    out: &mut Vec<u8>,
    names: &[Text],
    rows: &[Vec<bool>],
    i: usize,
    verb: &str,
    key: &Text,
) -> Result<(), NoMemory>
    requires long { length rows.now ≡ length names.now }
    requires column { (does : ℕ → Bool) × IsColumn i (length names.now) does rows.now }
    ensures { OnOk result ((does : ℕ → Bool) → IsColumn i (length names.now) does rows.now
        → out.new.items ≡ out.old.items ++ doers does verb.now key.now 0 names.now) }
{
    for role in 0..names.len() {
        put_if(out, rows[role][i], &names[role], verb, key)?;
    }
    Ok(())
}

/// Appends what a role does, where the flag is set.
fn put_if(out: &mut Vec<u8>, is: bool, name: &Text, verb: &str, key: &Text) -> Result<(), NoMemory>
    ensures { OnOk result (out.new.items
        ≡ out.old.items ++ doer is name.now verb.now key.now) }
{
    if is {
        put_doer(out, name, verb, key)?;
    }
    Ok(())
}

/// Appends what a role does.
fn put_doer(out: &mut Vec<u8>, name: &Text, verb: &str, key: &Text) -> Result<(), NoMemory>
    ensures { OnOk result (out.new.items
        ≡ out.old.items ++ (codes "; " ++ (name.now ++ (verb.now ++ key.now)))) }
{
    put(out, "; ")?;
    put(out, name.as_str())?;
    put(out, verb)?;
    put(out, key.as_str())?;
    Ok(())
}
