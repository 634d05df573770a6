//! The order of the tokens of a branched text.
ghost use Rattle.std.specs.Prelude.{◌≡◌, ◌≤◌, ◌<◌, ◌+◌, ◌^◌, length, drop, Ok, Err, IfOk, MatchResult};
ghost use Rattle.std.specs.List.{count_by, list_any};
ghost use Rattle.anb_choice.specs.declared.marks.Kind.TheVariants as kinds;
ghost use Rattle.anb_choice.specs.declared.marks.Mark.{Mark as MarkValue};
ghost use Rattle.anb_choice.specs.Order.{before, kind_at, kind_eqb, past_at, place_at, stem_actions, stem_size};
ghost use Rattle.anb_choice.specs.Parsing.{arm_size, arms_at, closes_at, misfit, order};

use crate::marks::{Kind, Mark};
use anb_base::NoMemory;
use std::alloc::Global;

/// Bytes of the text, from an offset to another.
#[derive(Clone, Copy, Debug, Drop)]
pub(crate) struct Span {
    pub(crate) from: u32,
    pub(crate) to: u32,
}

/// The most arms, and the fewest.
const MOST: usize = 8;

const FEWEST: usize = 2;

fn kind_at(marks: &[Mark], i: usize) -> Kind
    ensures { result ≡ kind_at marks.now i }
{
    match marks.get(i) {
        Some(mark) => mark.kind,
        None => Kind::Other,
    }
}

pub(crate) fn place_at(marks: &[Mark], i: usize) -> u32
    ensures { result ≡ place_at marks.now i }
{
    match marks.get(i) {
        Some(mark) => mark.at,
        None => 0,
    }
}

pub(crate) fn past_at(marks: &[Mark], i: usize) -> u32
    ensures { result ≡ past_at marks.now i }
{
    match marks.get(i) {
        Some(mark) => mark.past,
        None => 0,
    }
}

/// The tokens behind the first ones, so many.
fn behind(marks: &[Mark], n: usize) -> &[Mark]
    requires { n ≤ length marks.now }
    ensures { result.now ≡ drop n marks.now }
{
    &marks[n..]
}

fn is_same_kind(one: Kind, other: Kind) -> bool
    ensures { result ≡ kind_eqb one other }
{
    one == other
}

fn is_one_of(kinds: &[Kind], kind: Kind) -> bool
    ensures { result ≡ list_any (kind_eqb kind) kinds.now }
{
    kinds.iter().any(|other| kind == *other)
}

/// How many tokens stand before the first of these kinds.
fn before(kinds: &[Kind], marks: &[Mark]) -> usize
    ensures size { result ≡ before kinds.now marks.now }
    ensures within { result ≤ length marks.now }
{
    for (i, mark) in marks.iter().enumerate() {
        if is_one_of(kinds, mark.kind) {
            return i;
        }
    }
    marks.len()
}

/// How many tokens the stem has.
pub(crate) fn stem_size(marks: &[Mark]) -> usize
    ensures size { result ≡ stem_size marks.now }
    ensures within { result ≤ length marks.now }
{
    before(&[Kind::Choice, Kind::Stop, Kind::Bad], marks)
}

/// How many tokens stand behind the heading of the arm at the front.
fn arm_size(marks: &[Mark]) -> usize
    requires { 2 ≤ length marks.now }
    ensures size { result ≡ arm_size marks.now }
    ensures within { 2 + result ≤ length marks.now }
{
    before(
        &[Kind::Choice, Kind::Actions, Kind::Stop, Kind::Bad],
        behind(marks, 2),
    )
}

/// Whether the first tokens, so many, end with `;`, or with `Actions` and `:`.
fn closes_at(marks: &[Mark], n: usize) -> bool
    ensures { result ≡ closes_at marks.now n }
{
    if n == 0 {
        return false;
    }
    match kind_at(marks, n - 1) {
        Kind::Semicolon => true,
        Kind::Colon => n >= 2 && matches!(kind_at(marks, n - 2), Kind::Actions),
        _ => false,
    }
}

/// The first of these tokens that isn't of its kind.
fn misfit(kinds: &[Kind], marks: &[Mark]) -> Option<u32>
    ensures { result ≡ misfit kinds.now marks.now }
{
    for (i, kind) in kinds.iter().enumerate() {
        if i >= marks.len() {
            return Some(0);
        }
        if !is_same_kind(*kind, kind_at(marks, i)) {
            return Some(place_at(marks, i));
        }
    }
    None
}

/// The bytes of the arms, or the first token that is out of order.
fn arms(alloc: Global, marks: &[Mark]) -> Result<Result<Vec<Span>, u32>, NoMemory>
    ensures { IfOk result (λ r. MatchResult r (λ spans. arms_at 2 8 marks.now ≡ Ok spans.items)
        (λ at. arms_at 2 8 marks.now ≡ Err at)) }
{
    let mut spans = Vec::new(alloc);
    let mut rest = marks;
    'arms: while !is_same_kind(kind_at(rest, 0), Kind::Stop) {
        if spans.len() == MOST {
            return Ok(Err(place_at(rest, 0)));
        }
        if let Some(at) = misfit(&[Kind::Actions, Kind::Colon], rest) {
            return Ok(Err(at));
        }
        let size = arm_size(rest);
        spans.push(Span {
            from: past_at(rest, 1),
            to: past_at(behind(rest, 1), size),
        })?;
        rest = behind(behind(rest, 2), size);
    }
    if spans.len() < FEWEST {
        return Ok(Err(place_at(rest, 0)));
    }
    Ok(Ok(spans))
}

/// The bytes of the arms of a branched text, or the first token that is out of order.
pub(crate) fn order(alloc: Global, marks: &[Mark]) -> Result<Result<Vec<Span>, u32>, NoMemory>
    ensures { IfOk result (λ r. MatchResult r (λ spans. order marks.now ≡ Ok spans.items)
        (λ at. order marks.now ≡ Err at)) }
{
    let size = stem_size(marks);
    let choice = behind(marks, size);
    if !closes_at(marks, size) {
        return Ok(Err(place_at(choice, 0)));
    }
    let heading = [Kind::Choice, Kind::Colon, Kind::Name, Kind::Semicolon];
    if let Some(at) = misfit(&heading, choice) {
        return Ok(Err(at));
    }
    arms(alloc, behind(choice, 4))
}

/// How many actions the stem has.
pub(crate) fn stem_actions(marks: &[Mark]) -> u32
    requires { length marks.now < 2 ^ 32 }
    ensures { result ≡ stem_actions marks.now }
{
    let stem = &marks[..stem_size(marks)];
    closed(&stem[before(&[Kind::Actions], stem)..])
}

/// How many of the tokens are `;`.
fn closed(marks: &[Mark]) -> u32
    requires { length marks.now < 2 ^ 32 }
    ensures { result ≡ count_by (λ (m : MarkValue). kind_eqb m.kind kinds.Semicolon) marks.now }
{
    let mut count = 0;
    for mark in marks {
        if matches!(mark.kind, Kind::Semicolon) {
            count += 1;
        }
    }
    count
}
