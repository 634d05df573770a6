//! Names that are near one another.
ghost use Rattle.std.specs.Prelude.{◌≡◌, ◌++◌, IfOk, OnOk, map};
ghost use Rattle.anb_syntax.specs.Views.{tok_of};
ghost use Rattle.anb_syntax.specs.Words.{head};
ghost use Rattle.anb_mistakes.specs.Near.{IsForked, hint, is_near, is_swapped, near_among, near_text, section_text, sections};

use crate::items::is_same;
use crate::pointing::put;
use crate::tokens::bytes_of;
use anb_base::NoMemory;
use anb_syntax::{Token, TokenKind};
use std::alloc::Global;

/// Appends the names that stand each behind a comma, where there are some.
pub fn put_near(out: &mut Vec<u8>, names: &[u8]) -> Result<(), NoMemory>
    ensures { OnOk result (out.new.items ≡ out.old.items ++ near_text names.now) }
{
    match names {
        [] => {}
        [_, names @ ..] => {
            put(out, b"; near:")?;
            put(out, names)?;
        }
    }
    Ok(())
}

/// Appends a name behind a comma, where it is near.
pub fn put_hint(out: &mut Vec<u8>, name: &[u8], other: &[u8]) -> Result<(), NoMemory>
    ensures { OnOk result (out.new.items ≡ out.old.items ++ hint name.now other.now) }
{
    if name.len() > 1 && other.len() > 1 && is_near(name, other) {
        put(out, b", ")?;
        put(out, other)?;
    }
    Ok(())
}

/// Whether one byte is another one, or is missing in one of the two, or two are swapped.
fn is_near(a: &[u8], b: &[u8]) -> bool
    ensures { result ≡ is_near a.now b.now }
{
    let mut i = 0;
    'same: while i < a.len() && i < b.len() && a[i] == b[i] {
        i += 1;
    }
    differ_by_one(&a[i..], &b[i..])
}

/// The same of two whose first bytes differ, if both have some.
fn differ_by_one(a: &[u8], b: &[u8]) -> bool
    requires { IsForked a.now b.now }
    ensures { result ≡ is_near a.now b.now }
{
    match (a, b) {
        ([], _) => b.len() == 1,
        (_, []) => a.len() == 1,
        ([_, more @ ..], [_, others @ ..]) => {
            is_same(more, others) || is_same(a, others) || is_same(more, b) || is_swapped(a, b)
        }
    }
}

/// Whether the first two bytes stand the other way round, and all else is the same.
fn is_swapped(a: &[u8], b: &[u8]) -> bool
    ensures { result ≡ is_swapped a.now b.now }
{
    match (a, b) {
        ([first, second, more @ ..], [other, another, others @ ..]) => {
            first == another && second == other && is_same(more, others)
        }
        _ => false,
    }
}

/// Appends the sections that are near the first of these tokens.
pub(crate) fn put_section(
    alloc: Global,
    out: &mut Vec<u8>,
    text: &[u8],
    tokens: &[Token],
) -> Result<(), NoMemory>
    ensures { OnOk result (out.new.items
        ≡ out.old.items ++ section_text (head (map (tok_of text.now) tokens.now))) }
{
    match tokens {
        [] => Ok(()),
        [token, ..] => match token.kind {
            TokenKind::Name => put_near(out, &near_sections(alloc, bytes_of(text, *token))?),
            _ => Ok(()),
        },
    }
}

/// The sections that are near a word, each behind a comma.
fn near_sections(alloc: Global, word: &[u8]) -> Result<Vec<u8>, NoMemory>
    ensures { IfOk result (λ v. v.items ≡ near_among sections word.now) }
{
    let mut out = Vec::new(alloc);
    put_hint(&mut out, word, b"Protocol")?;
    put_hint(&mut out, word, b"Suite")?;
    put_hint(&mut out, word, b"Types")?;
    put_hint(&mut out, word, b"Formats")?;
    put_hint(&mut out, word, b"Knowledge")?;
    put_hint(&mut out, word, b"Actions")?;
    put_hint(&mut out, word, b"Goals")?;
    Ok(out)
}
