//! Classes of registers that are tied.
ghost use Rattle.std.specs.Prelude.{◌≡◌, ◌≢◌, ◌↔◌, ◌<◌, ◌≤◌, [], ℕ, List, Bool, Some, length, map, slice_get, true, IfOk};
ghost use Rattle.std.specs.List.{AllByRecursion};
ghost use Rattle.anb_term.specs.Tree.{Tree};
ghost use Rattle.anb_plays.specs.Codes.{Work};
ghost use Rattle.anb_certify.specs.Classes.{in_class, AreNamed, Saturated};
ghost use Rattle.anb_certify.specs.Falling.{weight, AreApart, AreFlat, AreLow, LinkApart};
ghost use Rattle.anb_certify.specs.Links.{AreTiedLinks};
ghost use Rattle.anb_certify.specs.Numbered.{AreBelow, AreGrouped, AreSettled};
ghost use Rattle.anb_certify.specs.Progress.{AreSet};
ghost use Rattle.anb_certify.specs.Tied.{Tied};
ghost use Rattle.anb_certify.specs.Works.{did_of, AreTold};

use crate::laws::classes_are_tied;
use crate::links::{Pair, links};
use crate::works::Done;
use anb_base::NoMemory;
use std::alloc::Global;

/// For each register, the register that its class is named by: two are tied exactly where these are
/// equal. Where each register is flagged as tied to the first of its term, that takes one look at
/// each; else each round of looks ties what the round before makes the rules tie.
pub(crate) fn classes(
    alloc: Global,
    firsts: &[u32],
    flags: &[bool],
    done: &[Done],
) -> Result<Vec<u32>, NoMemory>
    requires few { length firsts.now < 4294967296 }
    requires grouped { (ts : List Tree) × AreGrouped ts (map did_of done.now) firsts.now }
    requires long { length flags.now ≡ length firsts.now }
    requires settled { AreSettled (map did_of done.now) firsts.now flags.now }
    ensures long { IfOk result (λ names. length names.items ≡ length firsts.now) }
    ensures below { IfOk result (λ names. AreBelow (length firsts.now) names.items) }
    ensures exact { IfOk result (λ names. (a b : ℕ) → Tied (map did_of done.now) a b
        ↔ (in_class names.items a b ≡ true)) }
{
    classes_are_tied();
    let names = begun(alloc, firsts, flags)?;
    if all_set(flags, 0) {
        return Ok(names);
    }
    saturated(alloc, names, done)
}

/// Whether all flags from one on are set.
pub(crate) fn all_set(flags: &[bool], from: usize) -> bool
    ensures { result ≡ true → (i : ℕ) (b : Bool) → from ≤ i
        → slice_get flags.now i ≡ Some b → b ≡ true }
{
    for i in from..flags.len() {
        if !flags[i] {
            return false;
        }
    }
    true
}

/// A register with its flag set is named by the first of its term, and others by themselves.
fn begun(alloc: Global, firsts: &[u32], flags: &[bool]) -> Result<Vec<u32>, NoMemory>
    requires few { length firsts.now < 4294967296 }
    requires long { length flags.now ≡ length firsts.now }
    requires below { AreBelow (length firsts.now) firsts.now }
    ensures long { IfOk result (λ names. length names.items ≡ length firsts.now) }
    ensures below { IfOk result (λ names. AreBelow (length firsts.now) names.items) }
    ensures named { IfOk result (λ names. (did : List (ℕ × Work))
        → AreSettled did firsts.now flags.now → AreNamed did names.items) }
    ensures all { IfOk result (λ names. AreSet flags.now → names.items ≡ firsts.now) }
    ensures low { IfOk result (λ names. AreLow firsts.now → AreLow names.items) }
    ensures flat { IfOk result (λ names. AreFlat firsts.now → AreFlat names.items) }
{
    let mut names = Vec::new(alloc);
    for i in 0..firsts.len() {
        let name = if flags[i] { firsts[i] } else { i as u32 };
        names.push(name)?;
    }
    Ok(names)
}

/// Ties what the rules tie, until nothing is left. Each round ties two classes at least, so the sum of
/// the names falls, and it ends.
fn saturated(alloc: Global, mut names: Vec<u32>, done: &[Done]) -> Result<Vec<u32>, NoMemory>
    requires few { length names.items < 4294967296 }
    requires low { AreLow names.items }
    requires flat { AreFlat names.items }
    requires named { AreNamed (map did_of done.now) names.items }
    requires told { (ts : List Tree) × (length ts ≡ length names.items)
        × AreTold ts (map did_of done.now) }
    ensures long { IfOk result (λ all. length all.items ≡ length names.items) }
    ensures below { IfOk result (λ all. AreBelow (length names.items) all.items) }
    ensures named { IfOk result (λ all. AreNamed (map did_of done.now) all.items) }
    ensures saturated { IfOk result (λ all. Saturated (map did_of done.now) all.items) }
{
    loop {
        let links = links(alloc, &names, done)?;
        if links.is_empty() {
            return Ok(names);
        }
        tie_all(&mut names, &links);
    }
}

/// Ties all of these pairs, and then lets each register be named by the one that the others of its
/// class are named by.
fn tie_all(names: &mut [u32], links: &[Pair])
    requires low { AreLow names.old }
    requires flat { AreFlat names.old }
    requires some { links.now ≢ [] }
    requires apart { LinkApart names.old links.now }
    requires links { AllByRecursion (λ l. (l.0 < length names.old) × (l.1 < length names.old))
        links.now }
    ensures long { length names.new ≡ length names.old }
    ensures low { AreLow names.new }
    ensures flat { AreFlat names.new }
    ensures falls { weight names.new < weight names.old }
    ensures named { (did : List (ℕ × Work)) → AreNamed did names.old
        → AreTiedLinks (length names.old) did links.now → AreNamed did names.new }
{
    for link in links {
        tie(names, link.0, link.1);
    }
    flatten(names);
}

/// Lets each register be named by the first one on its way that is named by itself.
fn flatten(names: &mut [u32])
    requires low { AreLow names.old }
    ensures long { length names.new ≡ length names.old }
    ensures low { AreLow names.new }
    ensures flat { AreFlat names.new }
    ensures less { weight names.new ≤ weight names.old }
    ensures named { (did : List (ℕ × Work)) → AreNamed did names.old → AreNamed did names.new }
{
    for i in 0..names.len() {
        names[i] = names[names[i] as usize];
    }
}

/// Names the later of the roots of two registers by the earlier.
fn tie(names: &mut [u32], a: u32, b: u32)
    requires low { AreLow names.old }
    requires first { a < length names.old }
    requires second { b < length names.old }
    ensures long { length names.new ≡ length names.old }
    ensures low { AreLow names.new }
    ensures less { weight names.new ≤ weight names.old }
    ensures falls { AreFlat names.old → AreApart names.old a b
        → weight names.new < weight names.old }
    ensures named { (did : List (ℕ × Work)) → AreNamed did names.old → Tied did a b
        → AreNamed did names.new }
{
    let a = root(names, a);
    let b = root(names, b);
    if a < b {
        names[b as usize] = a;
    } else {
        names[a as usize] = b;
    }
}

/// The first register on the way from a register to the one that it is named by, and on.
fn root(names: &[u32], from: u32) -> u32
    requires low { AreLow names.now }
    requires within { from < length names.now }
    ensures own { slice_get names.now result ≡ Some result }
    ensures first { AreFlat names.now → slice_get names.now from ≡ Some result }
    ensures tied { (did : List (ℕ × Work)) → AreNamed did names.now → Tied did from result }
{
    let mut at = from;
    while names[at as usize] < at {
        at = names[at as usize];
    }
    at
}
