//! Labels that aren't asked for, that stand twice, or that are missing.
ghost use Rattle.std.specs.Prelude.{◌≡◌, ◌++◌, ◌≤◌, ℕ, List, [], All, IfOk, OnOk, codes, length};
ghost use Rattle.anb_base.specs.declared.TheConstants.{SMALL_FILE};
ghost use Rattle.anb_index.specs.Places.{among};
ghost use Rattle.anb_mistakes.specs.Near.{near_among};
ghost use Rattle.anb_value_mistakes.specs.Mistakes.{asked_text, label_texts, label_wrong, labels_in, labels_of, listed, missing, missing_text, remark_text, said_text, with_commas};

use crate::classes::{Class, count};
use crate::names::Names;
use crate::reading::{ReadLine, Saying};
use crate::telling::put;
use anb_base::{Bytes, NoMemory, Text};
use anb_index::TextIndex;
use anb_mistakes::{pointed_in, put_hint, put_near};
use std::alloc::Global;

/// What is said of a label, and what would mend it.
#[derive(Debug, Drop)]
pub struct Remark {
    pub message: Bytes,
    pub mend: Bytes,
}

/// Appends what is wrong with the labels of lines, and gives the labels.
pub(crate) fn put_label_texts<'r>(
    alloc: Global,
    out: &mut Vec<u8>,
    name: &Text,
    names: &Names,
    reads: &'r [ReadLine],
) -> Result<TextIndex<'r>, NoMemory>
    requires { All (λ read. length read.line ≤ SMALL_FILE) reads.now }
    ensures text { OnOk result (out.new.items
        ≡ out.old.items ++ label_texts name.now names.now 1 [] reads.now) }
    ensures labels { IfOk result (λ labels. labels ≡ labels_of reads.now) }
{
    let mut before = TextIndex::new(alloc);
    for (i, read) in reads.iter().enumerate() {
        put_said(alloc, out, name, names, i + 1, &mut before, read)?;
    }
    Ok(before)
}

/// Appends what is wrong with the label of a line, where these stand before it.
fn put_said<'r>(
    alloc: Global,
    out: &mut Vec<u8>,
    name: &Text,
    names: &Names,
    number: usize,
    before: &mut TextIndex<'r>,
    read: &'r ReadLine,
) -> Result<(), NoMemory>
    requires { length read.now.line ≤ SMALL_FILE }
    ensures text { OnOk result (out.new.items ≡ out.old.items
        ++ said_text name.now names.now number before.old read.now read.now.said) }
    ensures labels { OnOk result (before.new ≡ before.old ++ labels_in read.now.said) }
{
    match &read.said {
        Saying::Label(label) => {
            let is_twice = before.push(label.as_str())?;
            let remark = label_wrong(alloc, names, is_twice, read.is_long, label)?;
            put_remark(alloc, out, name, number, read.line.as_slice(), &remark)
        }
        Saying::Nothing => Ok(()),
        Saying::Faulty => Ok(()),
    }
}

/// Appends a remark at a line.
fn put_remark(
    alloc: Global,
    out: &mut Vec<u8>,
    name: &Text,
    number: usize,
    line: &[u8],
    remark: &Option<Remark>,
) -> Result<(), NoMemory>
    requires { length line.now ≤ SMALL_FILE }
    ensures { OnOk result (out.new.items
        ≡ out.old.items ++ remark_text name.now number line.now remark.now) }
{
    match remark {
        None => Ok(()),
        Some(remark) => {
            let (message, mend) = (remark.message.as_slice(), remark.mend.as_slice());
            let at = count(Class::Edge, line);
            let name = name.as_str().as_bytes();
            put(
                out,
                &pointed_in(alloc, name, number, line, at, message, mend)?,
            )
        }
    }
}

/// What is wrong with a label.
fn label_wrong(
    alloc: Global,
    names: &Names,
    is_twice: bool,
    is_long: bool,
    label: &Text,
) -> Result<Option<Remark>, NoMemory>
    ensures { (before : List (List ℕ)) → is_twice ≡ among before label.now
        → IfOk result (λ remark. remark ≡ label_wrong names.now before is_long label.now) }
{
    if !names.has(label.as_str()) {
        let mend = asked_text(alloc, names.as_slice(), label)?;
        Ok(Some(with_label(alloc, label, b" isn't asked for", mend)?))
    } else if is_twice {
        let mend = Vec::from_slice(alloc, b"a name has one line")?;
        Ok(Some(with_label(alloc, label, b" twice", mend)?))
    } else if is_long {
        let mend = Vec::from_slice(alloc, b"a value has at most 262144 bytes")?;
        Ok(Some(with_label(alloc, label, b" is too long", mend)?))
    } else {
        Ok(None)
    }
}

/// A remark that begins with a label.
fn with_label(alloc: Global, label: &Text, what: &[u8], mend: Vec<u8>) -> Result<Remark, NoMemory>
    ensures { IfOk result (λ r. r ≡ record { message = label.now ++ what.now; mend = mend.items }) }
{
    let mut message = Vec::from_slice(alloc, label.as_str().as_bytes())?;
    put(&mut message, what)?;
    Ok(Remark {
        message: Bytes::new(message),
        mend: Bytes::new(mend),
    })
}

/// What is asked for, and which of it is near.
fn asked_text(alloc: Global, names: &[Text], label: &Text) -> Result<Vec<u8>, NoMemory>
    ensures { IfOk result (λ v. v.items ≡ asked_text names.now label.now) }
{
    let mut out = Vec::new(alloc);
    put_listed(&mut out, &with_commas(alloc, names)?)?;
    put_near(&mut out, &near_among(alloc, names, label)?)?;
    Ok(out)
}

/// Appends names, each of which stands behind a comma.
fn put_listed(out: &mut Vec<u8>, names: &[u8]) -> Result<(), NoMemory>
    ensures { OnOk result (out.new.items ≡ out.old.items
        ++ listed (codes "asked for:") (codes "nothing is asked for") names.now) }
{
    match names {
        [] => put(out, b"nothing is asked for"),
        [_, names @ ..] => {
            put(out, b"asked for:")?;
            put(out, names)
        }
    }
}

/// Names, each behind a comma.
fn with_commas(alloc: Global, names: &[Text]) -> Result<Vec<u8>, NoMemory>
    ensures { IfOk result (λ v. v.items ≡ with_commas names.now) }
{
    let mut out = Vec::new(alloc);
    for name in names {
        put_name(&mut out, name)?;
    }
    Ok(out)
}

fn put_name(out: &mut Vec<u8>, name: &Text) -> Result<(), NoMemory>
    ensures { OnOk result (out.new.items ≡ out.old.items ++ (codes ", " ++ name.now)) }
{
    put(out, b", ")?;
    put(out, name.as_str().as_bytes())
}

/// The names that are near a label, each behind a comma.
fn near_among(alloc: Global, names: &[Text], label: &Text) -> Result<Vec<u8>, NoMemory>
    ensures { IfOk result (λ v. v.items ≡ near_among names.now label.now) }
{
    let mut out = Vec::new(alloc);
    for name in names {
        put_hint(
            &mut out,
            label.as_str().as_bytes(),
            name.as_str().as_bytes(),
        )?;
    }
    Ok(out)
}

/// Appends the names without a line.
pub(crate) fn put_missing(
    alloc: Global,
    out: &mut Vec<u8>,
    name: &Text,
    names: &[Text],
    labels: &TextIndex,
) -> Result<(), NoMemory>
    ensures { OnOk result (out.new.items ≡ out.old.items
        ++ missing_text name.now (with_commas (missing names.now labels.now))) }
{
    let missing = missing(alloc, names, labels)?;
    match missing.as_slice() {
        [] => Ok(()),
        [_, missing @ ..] => {
            put(out, name.as_str().as_bytes())?;
            put(out, b": missing:")?;
            put(out, missing)?;
            put(out, b"\n")
        }
    }
}

/// The names without a line, each behind a comma.
fn missing(alloc: Global, names: &[Text], labels: &TextIndex) -> Result<Vec<u8>, NoMemory>
    ensures { IfOk result (λ v. v.items ≡ with_commas (missing names.now labels.now)) }
{
    let mut out = Vec::new(alloc);
    for name in names {
        if !labels.contains(name.as_str()) {
            put_name(&mut out, name)?;
        }
    }
    Ok(out)
}
