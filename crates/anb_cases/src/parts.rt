//! Case files, line by line.

use crate::case::No;
use std::alloc::{AllocError, Global};

/// How far an entry stands in, and again its rows.
const INDENT: &str = "    ";

/// The keys of a group, a row or a case whose values are bytes: text, or with `hex` behind the key
/// hexadecimal digits.
const BYTES: [&str; 13] = [
    "n",
    "v",
    "t",
    "r",
    "input",
    "seed",
    "output",
    "left",
    "kept",
    "kept values",
    "kept transcript",
    "kept files",
    "heard",
];

/// The other keys.
const WORDS: [&str; 23] = [
    "words",
    "there",
    "piece",
    "room",
    "wire fails",
    "file fails",
    "store fails",
    "sink fails",
    "each call fails",
    "unfailing wire",
    "cut",
    "status",
    "line",
    "line begins",
    "keep",
    "reached",
    "children",
    "children fail",
    "children silent",
    "roles",
    "roles fail",
    "roles silent",
    "asked",
];

/// A value under a key.
#[derive(Drop)]
pub(crate) struct Entry {
    pub(crate) key: String,
    pub(crate) hex: bool,
    pub(crate) value: String,
    /// Whether the value stands in rows below the key.
    block: bool,
}

/// What the entries of a part are for.
#[derive(Clone, Copy)]
pub(crate) enum Kind {
    /// What stands for names from here on.
    Names,
    /// What holds for all rows from here on.
    Group,
    /// A case with what its group says.
    Row,
    /// A case by itself.
    Case,
}

/// A part of a case file: its first line, and the entries below it.
#[derive(Drop)]
pub(crate) struct Part {
    pub(crate) kind: Kind,
    pub(crate) title: String,
    pub(crate) entries: Vec<Entry>,
}

/// The parts of a case file.
pub(crate) fn parts(alloc: Global, text: &str) -> Result<Vec<Part>, No> {
    let mut parts = Vec::new(alloc);
    let mut number = 0u32;
    for line in text.lines() {
        number = number.saturating_add(1);
        if !line.is_empty() && !line.starts_with('#') && !add_line(alloc, &mut parts, line)? {
            return Err(No::Line(number));
        }
    }
    Ok(parts)
}

/// Adds a line, where it may stand here.
fn add_line(alloc: Global, parts: &mut Vec<Part>, line: &str) -> Result<bool, AllocError> {
    let Some(inner) = line.strip_prefix(INDENT) else {
        return add_part(alloc, parts, line);
    };
    let Some(part) = parts.last_mut() else {
        return Ok(false);
    };
    match inner.strip_prefix(INDENT) {
        Some(row) => add_row(part, row),
        None if inner.starts_with('#') => Ok(true),
        None => add_entry(alloc, part, inner),
    }
}

fn add_part(alloc: Global, parts: &mut Vec<Part>, line: &str) -> Result<bool, AllocError> {
    let (kind, title) = if line == "names" {
        (Kind::Names, "")
    } else if let Some(title) = line.strip_prefix("group ") {
        (Kind::Group, title)
    } else if let Some(title) = line.strip_prefix("row ") {
        (Kind::Row, title)
    } else if let Some(title) = line.strip_prefix("case ") {
        (Kind::Case, title)
    } else {
        return Ok(false);
    };
    parts.push(Part {
        kind,
        title: String::from_str(alloc, title)?,
        entries: Vec::new(alloc),
    })?;
    Ok(true)
}

fn add_entry(alloc: Global, part: &mut Part, line: &str) -> Result<bool, AllocError> {
    let Some((word, value)) = line.split_once(':') else {
        return Ok(false);
    };
    let (key, hex) = match word.strip_suffix(" hex") {
        Some(key) => (key, true),
        None => (word, false),
    };
    if !takes(part, key, hex) {
        return Ok(false);
    }
    part.entries.push(Entry {
        key: String::from_str(alloc, key)?,
        hex,
        value: String::from_str(alloc, value.strip_prefix(' ').unwrap_or(value))?,
        block: value.is_empty(),
    })?;
    Ok(true)
}

/// Whether an entry with this key may stand behind those of the part. Outputs that may come stand
/// one behind another. How a line begins is said by each case itself, so that no row's line is
/// passed over.
fn takes(part: &Part, key: &str, hex: bool) -> bool {
    let known = match part.kind {
        Kind::Names => !hex,
        Kind::Group if key == "line begins" => false,
        _ => BYTES.contains(&key) || (!hex && WORDS.contains(&key)),
    };
    known && (key == "output" || !part.entries.iter().any(|entry| is_same(&entry.key, key)))
}

/// Whether two entries with these keys say one thing.
fn is_same(one: &str, other: &str) -> bool {
    one == other
        || one.strip_suffix(" begins") == Some(other)
        || other.strip_suffix(" begins") == Some(one)
}

fn add_row(part: &mut Part, row: &str) -> Result<bool, AllocError> {
    let Some(entry) = part.entries.last_mut() else {
        return Ok(false);
    };
    if !entry.block {
        return Ok(false);
    }
    entry.value.push_str(row)?;
    entry.value.push('\n')?;
    Ok(true)
}
