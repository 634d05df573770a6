//! The text of all that is wrong with a values file.
ghost use Rattle.std.specs.Prelude.{◌≡◌, ◌++◌, ◌≤◌, All, IfOk, OnOk, length};
ghost use Rattle.std.specs.List.{list_any};
ghost use Rattle.anb_base.specs.declared.TheConstants.{SMALL_FILE};
ghost use Rattle.anb_value_mistakes.specs.Diagnosis.{diagnosis};
ghost use Rattle.anb_value_mistakes.specs.Mistakes.{faulty_text, faulty_texts, is_faulty, mistakes, pointed_wrong};

use crate::faults::diagnosis;
use crate::labels::{put_label_texts, put_missing};
use crate::names::Names;
use crate::reading::{ReadLine, Saying};
use crate::wording::{mend, message};
use anb_base::{NoMemory, Text};
use anb_mistakes::pointed_in;
use std::alloc::Global;

/// What is wrong with these lines.
pub(crate) fn mistakes(
    alloc: Global,
    name: &Text,
    names: &[Text],
    reads: &[ReadLine],
) -> Result<Vec<u8>, NoMemory>
    requires { All (λ read. length read.line ≤ SMALL_FILE) reads.now }
    ensures { IfOk result (λ v. v.items ≡ mistakes name.now names.now reads.now) }
{
    let mut out = Vec::new(alloc);
    if has_faulty(reads) {
        put_faulty_texts(alloc, &mut out, name, reads)?;
    } else {
        let labels = put_label_texts(alloc, &mut out, name, &Names::new(alloc, names)?, reads)?;
        put_missing(alloc, &mut out, name, names, &labels)?;
    }
    Ok(out)
}

/// Whether a line isn't of the grammar.
fn has_faulty(reads: &[ReadLine]) -> bool
    ensures { result ≡ list_any (λ read. is_faulty read.said) reads.now }
{
    for read in reads {
        if is_faulty(&read.said) {
            return true;
        }
    }
    false
}

fn is_faulty(said: &Saying) -> bool
    ensures { result ≡ is_faulty said.now }
{
    match said {
        Saying::Nothing => false,
        Saying::Label(_) => false,
        Saying::Faulty => true,
    }
}

/// Appends what is wrong with each line that isn't of the grammar.
fn put_faulty_texts(
    alloc: Global,
    out: &mut Vec<u8>,
    name: &Text,
    reads: &[ReadLine],
) -> Result<(), NoMemory>
    requires { All (λ read. length read.line ≤ SMALL_FILE) reads.now }
    ensures { OnOk result (out.new.items ≡ out.old.items ++ faulty_texts name.now 1 reads.now) }
{
    for (i, read) in reads.iter().enumerate() {
        put_faulty(alloc, out, name, i + 1, read)?;
    }
    Ok(())
}

/// Appends what is wrong with a line, where it isn't of the grammar.
fn put_faulty(
    alloc: Global,
    out: &mut Vec<u8>,
    name: &Text,
    number: usize,
    read: &ReadLine,
) -> Result<(), NoMemory>
    requires { length read.now.line ≤ SMALL_FILE }
    ensures { OnOk result (out.new.items
        ≡ out.old.items ++ faulty_text name.now number read.now) }
{
    if is_faulty(&read.said) {
        put_wrong(alloc, out, name, number, read.line.as_slice())
    } else {
        Ok(())
    }
}

/// Appends what is wrong with a line that isn't of the grammar.
fn put_wrong(
    alloc: Global,
    out: &mut Vec<u8>,
    name: &Text,
    number: usize,
    line: &[u8],
) -> Result<(), NoMemory>
    requires { length line.now ≤ SMALL_FILE }
    ensures { OnOk result (out.new.items
        ≡ out.old.items ++ pointed_wrong name.now number line.now (diagnosis line.now)) }
{
    let (at, wrong) = diagnosis(line);
    let name = name.as_str().as_bytes();
    let (message, mend) = (message(wrong).as_bytes(), mend(wrong).as_bytes());
    put(
        out,
        &pointed_in(alloc, name, number, line, at, message, mend)?,
    )
}

/// Appends bytes.
pub(crate) fn put(out: &mut Vec<u8>, bytes: &[u8]) -> Result<(), NoMemory>
    ensures { OnOk result (out.new.items ≡ out.old.items ++ bytes.now) }
{
    out.extend_from_slice(bytes)?;
    Ok(())
}
