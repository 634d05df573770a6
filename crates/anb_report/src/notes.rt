//! What a role does with each message, in words.
ghost use Rattle.std.specs.Prelude.{◌≡◌, ◌+◌, ◌≤◌, ◌<◌, ◌^◌, ◌++◌, ◌∷◌, List, map, length, drop, take, filter, IfOk, OnOk};
ghost use Rattle.std.specs.List.{AllByRecursion};
ghost use Rattle.anb_format.specs.Formats.{field_count};
ghost use Rattle.anb_term.specs.Tree.{Tree};
ghost use Rattle.anb_term.specs.View.{tree_of};
ghost use Rattle.anb_code.specs.Verified.{count_registers};
ghost use Rattle.anb_protocol.specs.Texts.{IsTermOf};
ghost use Rattle.anb_report.specs.Looking.{is_message};
ghost use Rattle.anb_report.specs.News.{AreNew, AreOthers};
ghost use Rattle.anb_report.specs.Noting.{checked, is_new, learned, notes_at, notes_first, notes_from, notes_of, said, up_to_message};

use crate::lists::{is_new, once, put_terms, told_among, without};
use crate::news::new_ones;
use crate::others::others;
use crate::registers::{Use, used, written};
use anb_base::{Bytes, NoMemory};
use anb_code::{Instr, RoleCode};
use anb_explain::count_written;
use anb_format::Format;
use anb_pattern::Notes;
use anb_protocol::Protocol;
use anb_term::Term;
use std::alloc::Global;

/// The notes of each event of a code, from event 0 on. No term that is taken unchecked is told to be
/// checked.
pub fn notes_of(
    alloc: Global,
    protocol: &Protocol,
    code: &RoleCode,
    terms: &[Term],
    unchecked: &[Term],
) -> Result<Vec<Notes>, NoMemory>
    requires { AllByRecursion (IsTermOf protocol.now) (map tree_of terms.now) }
    ensures { IfOk result (λ notes. notes.items
        ≡ notes_of protocol.now code.now (map tree_of terms.now) (map tree_of unchecked.now)) }
{
    let told = new_ones(alloc, terms)?;
    let other = others(alloc, terms, unchecked)?;
    notes_in(
        alloc,
        protocol,
        code.formats(),
        terms,
        &other,
        &told,
        code.instrs(),
    )
}

fn notes_in(
    alloc: Global,
    protocol: &Protocol,
    formats: &[Format],
    terms: &[Term],
    other: &[bool],
    told: &[bool],
    instrs: &[Instr],
) -> Result<Vec<Notes>, NoMemory>
    requires fields { AllByRecursion (λ format. field_count format.pieces ≤ 32) formats.now }
    requires few { count_registers formats.now instrs.now < 2 ^ 32 }
    requires terms { AllByRecursion (IsTermOf protocol.now) (map tree_of terms.now) }
    requires told { AreNew (map tree_of terms.now) told.now }
    ensures { IfOk result (λ notes. (free : List Tree)
        → AreOthers (map tree_of terms.now) free other.now → notes.items
        ≡ notes_at formats.now protocol.now (map tree_of terms.now) free 0 (up_to_message instrs.now)
        ∷ notes_from formats.now protocol.now (map tree_of terms.now) free 0 instrs.now) }
{
    let mut out = Vec::new(alloc);
    let notes = notes_at(
        alloc,
        protocol,
        formats,
        terms,
        other,
        told,
        0,
        turn(instrs),
    )?;
    out.push(notes)?;
    put_notes(
        alloc, &mut out, protocol, formats, terms, other, told, instrs,
    )?;
    Ok(out)
}

/// Appends the notes of each message.
fn put_notes(
    alloc: Global,
    out: &mut Vec<Notes>,
    protocol: &Protocol,
    formats: &[Format],
    terms: &[Term],
    other: &[bool],
    told: &[bool],
    instrs: &[Instr],
) -> Result<(), NoMemory>
    requires fields { AllByRecursion (λ format. field_count format.pieces ≤ 32) formats.now }
    requires few { count_registers formats.now instrs.now < 2 ^ 32 }
    requires terms { AllByRecursion (IsTermOf protocol.now) (map tree_of terms.now) }
    requires told { AreNew (map tree_of terms.now) told.now }
    ensures { OnOk result ((free : List Tree)
        → AreOthers (map tree_of terms.now) free other.now → out.new.items ≡ out.old.items
        ++ notes_from formats.now protocol.now (map tree_of terms.now) free 0 instrs.now) }
{
    let mut next = 0;
    for (i, instr) in instrs.iter().enumerate() {
        let rest = rest_of(instrs, i);
        put_first(
            alloc, out, protocol, formats, terms, other, told, next, rest,
        )?;
        next += count_written(formats, instr) as u32;
    }
    Ok(())
}

/// Appends the notes of the first instruction, where that is a message.
fn put_first(
    alloc: Global,
    out: &mut Vec<Notes>,
    protocol: &Protocol,
    formats: &[Format],
    terms: &[Term],
    other: &[bool],
    told: &[bool],
    next: u32,
    instrs: &[Instr],
) -> Result<(), NoMemory>
    requires fields { AllByRecursion (λ format. field_count format.pieces ≤ 32) formats.now }
    requires few { next + count_registers formats.now instrs.now < 2 ^ 32 }
    requires terms { AllByRecursion (IsTermOf protocol.now) (map tree_of terms.now) }
    requires told { AreNew (map tree_of terms.now) told.now }
    requires some { 0 < length instrs.now }
    ensures { OnOk result ((free : List Tree)
        → AreOthers (map tree_of terms.now) free other.now → out.new.items ≡ out.old.items
        ++ notes_first formats.now protocol.now (map tree_of terms.now) free next instrs.now) }
{
    if !is_message(&instrs[0]) {
        return Ok(());
    }
    let notes = notes_at(
        alloc,
        protocol,
        formats,
        terms,
        other,
        told,
        next,
        message_turn(instrs),
    )?;
    out.push(notes)?;
    Ok(())
}

/// The instructions from a place on.
fn rest_of(instrs: &[Instr], start: usize) -> &[Instr]
    requires { start ≤ length instrs.now }
    ensures { result.now ≡ drop start instrs.now }
{
    let (_, rest) = instrs.split_at(start);
    rest
}

/// The instructions up to the first message.
fn turn(instrs: &[Instr]) -> &[Instr]
    ensures { result.now ≡ up_to_message instrs.now }
{
    let (front, _) = instrs.split_at(to_message(instrs));
    front
}

/// The first instruction, and what stands behind it up to a message.
fn message_turn(instrs: &[Instr]) -> &[Instr]
    requires { 0 < length instrs.now }
    ensures { result.now ≡ take (1 + length (up_to_message (drop 1 instrs.now))) instrs.now }
{
    let rest = rest_of(instrs, 1);
    let (front, _) = instrs.split_at(1 + to_message(rest));
    front
}

/// How many instructions there are before the first message.
fn to_message(instrs: &[Instr]) -> usize
    ensures count { result ≡ length (up_to_message instrs.now) }
    ensures within { result ≤ length instrs.now }
{
    for (i, instr) in instrs.iter().enumerate() {
        if is_message(instr) {
            return i;
        }
    }
    instrs.len()
}

fn is_message(instr: &Instr) -> bool
    ensures { result ≡ is_message instr.now }
{
    matches!(instr, Instr::Recv | Instr::Send(_))
}

/// The notes of some instructions, the first of which writes this register first.
fn notes_at(
    alloc: Global,
    protocol: &Protocol,
    formats: &[Format],
    terms: &[Term],
    other: &[bool],
    told: &[bool],
    next: u32,
    instrs: &[Instr],
) -> Result<Notes, NoMemory>
    requires fields { AllByRecursion (λ format. field_count format.pieces ≤ 32) formats.now }
    requires few { next + count_registers formats.now instrs.now < 2 ^ 32 }
    requires terms { AllByRecursion (IsTermOf protocol.now) (map tree_of terms.now) }
    requires told { AreNew (map tree_of terms.now) told.now }
    ensures { IfOk result (λ notes. (free : List Tree)
        → AreOthers (map tree_of terms.now) free other.now → notes
        ≡ notes_at formats.now protocol.now (map tree_of terms.now) free next instrs.now) }
{
    let mut items = Vec::new(alloc);
    let keys = once(alloc, terms, &used(alloc, Use::Key, instrs)?)?;
    put_said(alloc, &mut items, protocol, terms, b"opens with ", &keys)?;
    let checked = checked(alloc, terms, other, instrs)?;
    put_said(alloc, &mut items, protocol, terms, b"checks ", &checked)?;
    let learned = learned(alloc, formats, terms, told, next, instrs)?;
    put_said(alloc, &mut items, protocol, terms, b"learns ", &learned)?;
    Ok(Notes::new(items))
}

/// Appends a word and the terms of registers, where there are any.
fn put_said(
    alloc: Global,
    out: &mut Vec<Bytes>,
    protocol: &Protocol,
    terms: &[Term],
    word: &[u8],
    registers: &[u32],
) -> Result<(), NoMemory>
    requires { AllByRecursion (IsTermOf protocol.now) (map tree_of terms.now) }
    ensures { OnOk result (out.new.items ≡ out.old.items
        ++ said protocol.now (map tree_of terms.now) word.now registers.now) }
{
    if registers.is_empty() {
        return Ok(());
    }
    let mut text = Vec::from_slice(alloc, word)?;
    put_terms(alloc, &mut text, protocol, terms, registers)?;
    out.push(Bytes::new(text))?;
    Ok(())
}

/// The registers that are compared, each term once, but for those of terms that are taken unchecked.
fn checked(
    alloc: Global,
    terms: &[Term],
    other: &[bool],
    instrs: &[Instr],
) -> Result<Vec<u32>, NoMemory>
    ensures { IfOk result (λ rs. (free : List Tree)
        → AreOthers (map tree_of terms.now) free other.now
        → rs.items ≡ checked (map tree_of terms.now) free instrs.now) }
{
    let compared = used(alloc, Use::Checked, instrs)?;
    let others = told_among(alloc, other, &compared)?;
    Ok(once(alloc, terms, &others)?)
}

/// The registers of new terms.
fn learned(
    alloc: Global,
    formats: &[Format],
    terms: &[Term],
    told: &[bool],
    next: u32,
    instrs: &[Instr],
) -> Result<Vec<u32>, NoMemory>
    requires fields { AllByRecursion (λ format. field_count format.pieces ≤ 32) formats.now }
    requires few { next + count_registers formats.now instrs.now < 2 ^ 32 }
    requires told { AreNew (map tree_of terms.now) told.now }
    ensures { IfOk result (λ rs. rs.items
        ≡ learned formats.now (map tree_of terms.now) next instrs.now) }
{
    let opened = used(alloc, Use::Opened, instrs)?;
    let arrived = written(alloc, formats, false, next, instrs)?;
    let built = written(alloc, formats, true, next, instrs)?;
    let kept = without(alloc, &opened, &arrived)?;
    news_among(alloc, terms, told, &built, &kept)
}

fn news_among(
    alloc: Global,
    terms: &[Term],
    told: &[bool],
    built: &[u32],
    registers: &[u32],
) -> Result<Vec<u32>, NoMemory>
    requires { AreNew (map tree_of terms.now) told.now }
    ensures { IfOk result (λ rs. rs.items
        ≡ filter (is_new (map tree_of terms.now) built.now) registers.now) }
{
    let mut out = Vec::new(alloc);
    for r in registers {
        if is_new(terms, told, built, *r) {
            out.push(*r)?;
        }
    }
    Ok(out)
}
