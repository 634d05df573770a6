//! What came of a run, beside what its case expects.

use crate::case::{Case, No};
use crate::running::Ran;
use crate::{children, stages};
use anb_base::{MemWire, NoMemory, read_full};
use anb_store::MemStore;
use std::alloc::{AllocError, Global};

/// The faults of a wire: their statuses and their lines.
const FAULTS: [(u8, &str); 3] = [
    (9, "anb: can't reach stdio\n"),
    (14, "anb: read failed\n"),
    (15, "anb: write failed\n"),
];

/// How what is written goes with an output that is expected.
#[derive(Clone, Copy)]
pub(crate) enum Fit {
    /// It is the output.
    Whole,
    /// The output begins with it.
    Part,
    /// It may be anything.
    Any,
}

/// Whether the run ended with a fault of the wire.
pub(crate) fn is_fault(ran: &Ran) -> bool {
    FAULTS.iter().any(|(number, line)| ran.number == *number
        && ran.err.written() == line.as_bytes())
}

/// What came and isn't what the case expects, where there is such a thing.
pub(crate) fn difference(
    alloc: Global,
    case: Case,
    ran: &mut Ran,
    fit: Fit,
) -> Result<Option<String>, No> {
    let Some(status) = case.number("status")? else {
        return Err(No::Value("status"));
    };
    if u32::from(ran.number) != status || !has_line(alloc, case, ran)? {
        let line = String::from_utf8_lossy(alloc, ran.err.written())?;
        return Ok(Some(format!(in alloc; "status {} with the line {line:?}", ran.number)?));
    }
    if let Some(difference) = store_difference(alloc, case, &ran.store)? {
        return Ok(Some(difference));
    }
    if let Some(difference) = children_difference(alloc, case, ran)? {
        return Ok(Some(difference));
    }
    match &mut ran.wire {
        Some(wire) => wire_difference(alloc, case, wire, fit),
        None => Ok(None),
    }
}

/// The same of the children of a tested program, or of a stage: what they heard, and what was asked of
/// them, where the case says it. Where it says no children none is there.
fn children_difference(alloc: Global, case: Case, ran: &Ran) -> Result<Option<String>, No> {
    if let Some(words) = case.text(alloc, "asked")? {
        let asked = asked(alloc, case, ran)?;
        if asked.as_slice() != words.as_bytes() {
            return Ok(Some(told(alloc, "asked", &asked)?));
        }
    }
    if let Some(bytes) = case.bytes(alloc, "heard")? {
        let heard = heard(alloc, case, ran)?;
        if heard.as_slice() != bytes.as_slice() {
            return Ok(Some(told(alloc, "heard", &heard)?));
        }
    }
    Ok(None)
}

fn asked(alloc: Global, case: Case, ran: &Ran) -> Result<Vec<u8>, NoMemory> {
    match case.entry("roles") {
        Some(_) => stages::asked(alloc, &ran.spawner),
        None => children::asked(alloc, &ran.trials),
    }
}

fn heard(alloc: Global, case: Case, ran: &Ran) -> Result<Vec<u8>, NoMemory> {
    match case.entry("roles") {
        Some(_) => stages::heard(alloc, &ran.spawner),
        None => children::heard(alloc, &ran.trials),
    }
}

/// The same of the files that are kept: the one that the last word names, where one is expected.
fn store_difference(alloc: Global, case: Case, store: &MemStore) -> Result<Option<String>, No> {
    if let Some(transcript) = case.bytes(alloc, "kept transcript")? {
        return folder_difference(alloc, case, store, &transcript);
    }
    if let Some(files) = case.bytes(alloc, "kept files")? {
        let kept = all_kept(alloc, store)?;
        if kept == files {
            return Ok(None);
        }
        return Ok(Some(told(alloc, "kept files", &kept)?));
    }
    let Some(content) = case.bytes(alloc, "kept")? else {
        return Ok(kept_anyway(alloc, store)?);
    };
    let words = case.text(alloc, "words")?.unwrap_or(String::new(alloc));
    let is_kept = match (store.kept(), words.split_whitespace().last()) {
        ([(name, file)], Some(word)) => name.as_str() == word
            && file.as_slice() == content.as_slice(),
        _ => false,
    };
    if is_kept {
        return Ok(None);
    }
    match kept_anyway(alloc, store)? {
        None => Ok(Some(String::from_str(alloc, "no file is kept")?)),
        kept => Ok(kept),
    }
}

/// The same of the folder that the last word names: the transcript in it, and the values where these are
/// said too.
fn folder_difference(
    alloc: Global,
    case: Case,
    store: &MemStore,
    transcript: &[u8],
) -> Result<Option<String>, No> {
    let words = case.text(alloc, "words")?.unwrap_or(String::new(alloc));
    let folder = words.split_whitespace().last().unwrap_or("");
    let kept = last_kept(store, folder, "/transcript");
    if kept != transcript {
        return Ok(Some(told(alloc, "kept transcript", kept)?));
    }
    let Some(values) = case.bytes(alloc, "kept values")? else {
        return Ok(None);
    };
    let kept = last_kept(store, folder, "/values");
    if kept == values.as_slice() {
        return Ok(None);
    }
    Ok(Some(told(alloc, "kept values", kept)?))
}

/// What the file of the folder holds in the end, or nothing.
fn last_kept<'s>(store: &'s MemStore, folder: &str, file: &str) -> &'s [u8] {
    let mut last: &[u8] = b"";
    for (name, content) in store.kept() {
        if name.as_str().strip_prefix(folder) == Some(file) {
            last = content.as_slice();
        }
    }
    last
}

/// All files that are kept, as they first came: a line with the name, and what the file holds in the end.
fn all_kept(alloc: Global, store: &MemStore) -> Result<Vec<u8>, AllocError> {
    let mut all = Vec::new(alloc);
    let mut names: Vec<&str> = Vec::new(alloc);
    for (name, _) in store.kept() {
        let name = name.as_str();
        if !names.contains(&name) {
            names.push(name)?;
            all.extend_from_slice(name.as_bytes())?;
            all.push(b'\n')?;
            all.extend_from_slice(last_kept(store, name, ""))?;
        }
    }
    Ok(all)
}

/// The last file that is kept, where there is one.
pub(crate) fn kept_anyway(alloc: Global, store: &MemStore) -> Result<Option<String>, AllocError> {
    match store.kept() {
        [.., (name, file)] => {
            let file = told(alloc, "kept", file.as_slice())?;
            Ok(Some(format!(in alloc; "{}: {file}", name.as_str())?))
        }
        [] => Ok(None),
    }
}

fn has_line(alloc: Global, case: Case, ran: &Ran) -> Result<bool, No> {
    if let Some(begin) = case.text(alloc, "line begins")? {
        return Ok(ran.err.written().starts_with(begin.as_bytes()));
    }
    match case.text(alloc, "line")? {
        Some(line) => Ok(ran.err.written() == line.as_bytes()),
        None => Ok(ran.err.written().is_empty()),
    }
}

/// The same of what the wire tells.
fn wire_difference(
    alloc: Global,
    case: Case,
    wire: &mut MemWire,
    fit: Fit,
) -> Result<Option<String>, No> {
    if !has_output(alloc, case, wire.written(), fit)? {
        return Ok(Some(told(alloc, "output", wire.written())?));
    }
    if let Some(reached) = case.text(alloc, "reached")?
        && wire.reached() != reached.as_bytes()
    {
        return Ok(Some(told(alloc, "reached", wire.reached())?));
    }
    match case.bytes(alloc, "left")? {
        Some(left) => left_difference(alloc, wire, &left),
        None => Ok(None),
    }
}

/// Whether what is written goes with one of the outputs, or with nothing where none is expected.
pub(crate) fn has_output(alloc: Global, case: Case, written: &[u8], fit: Fit) -> Result<bool, No> {
    let outputs = case.all_bytes(alloc, "output")?;
    if outputs.is_empty() {
        return Ok(goes_with(written, b"", fit));
    }
    Ok(outputs.iter().any(|output| goes_with(written, output, fit)))
}

fn goes_with(written: &[u8], output: &[u8], fit: Fit) -> bool {
    match fit {
        Fit::Whole => written == output,
        Fit::Part => output.starts_with(written),
        Fit::Any => true,
    }
}

/// What is left of the input and isn't this, where that is so.
fn left_difference(alloc: Global, wire: &mut MemWire, left: &[u8]) -> Result<Option<String>, No> {
    let mut buffer = vec![in alloc; 0u8; left.len() + 1]?;
    let Ok(count) = read_full(wire, &mut buffer) else {
        return Ok(Some(String::from_str(alloc, "a read that fails")?));
    };
    let came = &buffer[..count];
    if came == left {
        return Ok(None);
    }
    Ok(Some(told(alloc, "left", came)?))
}

/// A key with bytes that came.
pub(crate) fn told(alloc: Global, key: &str, bytes: &[u8]) -> Result<String, AllocError> {
    let mut told = String::from_str(alloc, key)?;
    told.push_str(" hex:")?;
    for byte in bytes {
        write!(told, " {byte:02x}")?;
    }
    Ok(told)
}
