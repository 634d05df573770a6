//! Values files as they are written: one text for one content, so that files can be compared.
//!
//! Each value has a line with its label, ` = ` and the value: a literal where all its bytes are
//! printable, and `x` and lower-case digits else. A seed stands in the last line, in digits.
#![tactic(auto)]

ghost use Rattle.std.specs.Prelude.{◌≡◌, ◌≢◌, ◌≤◌, ◌++◌, ℕ, List, codes, length, All, AllPairs, IfOk, OnOk};
ghost use Rattle.std.specs.List.{AllByRecursion, list_all};
ghost use Rattle.anb_base.specs.Bytes.{IsBytes};
ghost use Rattle.anb_base.specs.declared.TheConstants.{ARRIVAL};
ghost use Rattle.anb_values.specs.Lines.{IsLabel, seed_label};
ghost use Rattle.anb_values_text.specs.Seeds.{IsSeedOf};
ghost use Rattle.anb_values_text.specs.Texts.{IsTextOf, digits_text, is_printable, line_text, lines_text, seed_text, value_text};

use anb_base::{Bytes, NoMemory, Text};
use anb_format::literal_text;
use std::alloc::Global;

/// The text of a values file that has these values by their labels, and this seed.
pub fn values_text(
    alloc: Global,
    labels: &[Text],
    values: &[Bytes],
    seed: Option<[u8; 32]>,
) -> Result<Bytes, NoMemory>
    requires labels { AllByRecursion IsLabel labels.now }
    requires differ { AllPairs (λ (one other : List ℕ). one ≢ other) labels.now }
    requires count { length values.now ≡ length labels.now }
    requires short { All (λ value. length value ≤ ARRIVAL) values.now }
    ensures { IfOk result (λ text.
        IsTextOf labels.now (record { values = values.now; seed = seed }) text) }
{
    all_bytes(values);
    is_seed(seed);
    let mut out = Vec::new(alloc);
    put_lines(alloc, &mut out, labels, values)?;
    put_seed(alloc, &mut out, seed)?;
    Ok(Bytes::new(out))
}

/// A law: these are strings of bytes.
fn all_bytes(values: &[Bytes])
    ensures { AllByRecursion IsBytes values.now }
{
    for value in values {
        are_bytes(value.as_slice());
    }
}

/// A law: a seed is a string of 32 bytes.
fn is_seed(seed: Option<[u8; 32]>)
    ensures { IsSeedOf seed }
{
    if let Some(seed) = seed {
        are_bytes(&seed);
    }
}

/// A law: a slice of bytes is a string of bytes.
fn are_bytes(bytes: &[u8])
    ensures { IsBytes bytes.now }
{
    let _ = bytes;
}

/// Appends a line for each label.
fn put_lines(
    alloc: Global,
    out: &mut Vec<u8>,
    labels: &[Text],
    values: &[Bytes],
) -> Result<(), NoMemory>
    requires { length values.now ≡ length labels.now }
    ensures { OnOk result (out.new.items ≡ out.old.items ++ lines_text labels.now values.now) }
{
    for i in 0..labels.len() {
        put_line(alloc, out, labels[i].as_str(), values[i].as_slice())?;
    }
    Ok(())
}

/// Appends the line of a label and its value.
fn put_line(alloc: Global, out: &mut Vec<u8>, label: &str, value: &[u8]) -> Result<(), NoMemory>
    ensures { OnOk result (out.new.items
        ≡ out.old.items ++ line_text label.now (value_text value.now)) }
{
    put_label(out, label)?;
    put_value(alloc, out, value)?;
    out.push(b'\n')?;
    Ok(())
}

/// Appends the line of the seed, where there is one.
fn put_seed(alloc: Global, out: &mut Vec<u8>, seed: Option<[u8; 32]>) -> Result<(), NoMemory>
    ensures { OnOk result (out.new.items ≡ out.old.items ++ seed_text seed) }
{
    match seed {
        None => Ok(()),
        Some(seed) => put_seed_line(alloc, out, &seed),
    }
}

/// Appends the line of a seed.
fn put_seed_line(alloc: Global, out: &mut Vec<u8>, seed: &[u8]) -> Result<(), NoMemory>
    ensures { OnOk result (out.new.items
        ≡ out.old.items ++ line_text seed_label (digits_text seed.now)) }
{
    put_label(out, "@seed")?;
    put_digits(alloc, out, seed)?;
    out.push(b'\n')?;
    Ok(())
}

/// Appends a label and what stands between it and its value.
fn put_label(out: &mut Vec<u8>, label: &str) -> Result<(), NoMemory>
    ensures { OnOk result (out.new.items ≡ out.old.items ++ (label.now ++ codes " = ")) }
{
    out.extend_from_slice(label.as_bytes())?;
    out.extend_from_slice(b" = ")?;
    Ok(())
}

/// Appends a value.
fn put_value(alloc: Global, out: &mut Vec<u8>, value: &[u8]) -> Result<(), NoMemory>
    ensures { OnOk result (out.new.items ≡ out.old.items ++ value_text value.now) }
{
    if !are_printable(value) {
        return put_digits(alloc, out, value);
    }
    let literal = literal_text(alloc, value)?;
    out.extend_from_slice(literal.as_slice())?;
    Ok(())
}

/// Whether all bytes are printable.
fn are_printable(bytes: &[u8]) -> bool
    ensures { result ≡ list_all is_printable bytes.now }
{
    bytes.iter().all(|byte| is_printable(*byte))
}

fn is_printable(byte: u8) -> bool
    ensures { result ≡ is_printable byte }
{
    (0x20..=0x7e).contains(&byte)
}

/// Appends `x` and the digits of the bytes.
fn put_digits(alloc: Global, out: &mut Vec<u8>, bytes: &[u8]) -> Result<(), NoMemory>
    ensures { OnOk result (out.new.items ≡ out.old.items ++ digits_text bytes.now) }
{
    let digits = hex::encode(alloc, bytes)?;
    out.push(b'x')?;
    out.extend_from_slice(digits.as_bytes())?;
    Ok(())
}
