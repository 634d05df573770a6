//! Values with names and repeats filled in.

use crate::case::No;
use std::alloc::Global;

/// A name, and what stands for it.
#[derive(Drop)]
pub(crate) struct Name {
    pub(crate) name: String,
    pub(crate) text: String,
}

/// The text where `{NAME}` is what stands for the name, `{TEXT*COUNT}` is the text so many times, and a
/// backslash with `n`, `r`, `t`, `0`, `s` or itself is a line's end, a carriage return, a tab, a NUL, a
/// space or a backslash. The key is that of the value.
pub(crate) fn filled(
    alloc: Global,
    names: &[Name],
    key: &'static str,
    text: &str,
) -> Result<String, No> {
    let mut out = String::new(alloc);
    let mut pieces = text.split('{');
    if let Some(piece) = pieces.next() {
        push_plain(&mut out, key, piece)?;
    }
    for piece in pieces {
        let Some((inner, behind)) = piece.split_once('}') else {
            return Err(No::Value(key));
        };
        match inner.split_once('*') {
            Some((repeated, count)) => push_repeated(alloc, &mut out, key, repeated, count)?,
            None => match text_of(names, inner) {
                Some(text) => out.push_str(text)?,
                None => return Err(No::Value(key)),
            },
        }
        push_plain(&mut out, key, behind)?;
    }
    Ok(out)
}

/// What stands for the name: the last one holds.
fn text_of<'n>(names: &'n [Name], name: &str) -> Option<&'n str> {
    for entry in names.iter().rev() {
        if entry.name.as_str() == name {
            return Some(entry.text.as_str());
        }
    }
    None
}

fn push_repeated(
    alloc: Global,
    out: &mut String,
    key: &'static str,
    text: &str,
    count: &str,
) -> Result<(), No> {
    let Ok(count) = count.parse::<u32>() else {
        return Err(No::Value(key));
    };
    let count = count as usize;
    let mut piece = String::new(alloc);
    push_plain(&mut piece, key, text)?;
    // By thousands first, since a file that is too long has many.
    let thousand = piece.repeat(alloc, 1000)?;
    out.push_str(&thousand.repeat(alloc, count / 1000)?)?;
    out.push_str(&piece.repeat(alloc, count % 1000)?)?;
    Ok(())
}

/// Appends the text with what its backslashes stand for.
fn push_plain(out: &mut String, key: &'static str, text: &str) -> Result<(), No> {
    let mut behind_backslash = false;
    for sign in text.chars() {
        if behind_backslash {
            match meant(sign) {
                Some(sign) => out.push(sign)?,
                None => return Err(No::Value(key)),
            }
            behind_backslash = false;
        } else if sign == '\\' {
            behind_backslash = true;
        } else {
            out.push(sign)?;
        }
    }
    if behind_backslash {
        return Err(No::Value(key));
    }
    Ok(())
}

/// What a sign behind a backslash stands for.
fn meant(sign: char) -> Option<char> {
    match sign {
        'n' => Some('\n'),
        'r' => Some('\r'),
        't' => Some('\t'),
        '0' => Some('\0'),
        's' => Some(' '),
        '\\' => Some('\\'),
        _ => None,
    }
}
