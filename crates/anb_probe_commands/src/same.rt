//! Names that a program drew alike in two cases, and those that have the value of another one.
ghost use Rattle.std.specs.Prelude.{◌≡◌, ◌≤◌, ◌<◌, ◌++◌, ◌∷◌, ℕ, List, [], drop, length, take, slice_get, Option, Some, None, IfSome, IfNone, IfOk, OnOk};
ghost use Rattle.anb_attempts.specs.declared.attempts.TheConstants.{MOST};
ghost use Rattle.anb_code.specs.Uses.{is_among};
ghost use Rattle.anb_draws.specs.Draws.{value_in};
ghost use Rattle.anb_probe_commands.specs.Reports.{case_with, equal_lines, is_value, same_from, same_in, same_lines, twin_from, twin_in, twin_lines, twin_of, values_of};

use anb_base::{Bytes, NoMemory};
use anb_draws::{Draws, names_made, value_in};
use anb_protocol::Protocol;
use anb_verdict::{same_line, twin_line};
use std::alloc::Global;

/// The lines on them, in the order in which the role makes them.
pub(crate) fn same_lines(
    alloc: Global,
    p: &Protocol,
    role: u32,
    told: &[Draws],
) -> Result<Vec<Bytes>, NoMemory>
    requires role { role < length p.now.roles }
    requires most { length told.now ≤ MOST }
    ensures { IfOk result (λ lines. lines.items ≡ same_lines p.now role told.now) }
{
    let names = names_made(alloc, p, role)?;
    let lines = lines_on(alloc, p, told, &names)?;
    Ok(lines)
}

/// Those on these names.
fn lines_on(
    alloc: Global,
    p: &Protocol,
    told: &[Draws],
    names: &[u32],
) -> Result<Vec<Bytes>, NoMemory>
    requires { length told.now ≤ MOST }
    ensures { IfOk result (λ lines. lines.items ≡ equal_lines p.now told.now names.now) }
{
    let Ok(all) = u32::try_from(p.declared().len()) else {
        return Err(NoMemory);
    };
    let mut lines = Vec::new(alloc);
    for i in 0..names.len() {
        put_twin(alloc, &mut lines, p, all, told, &names[i..], names[i])?;
        put_same(alloc, &mut lines, p, told, names[i])?;
    }
    Ok(lines)
}

/// Puts the line on a name that has the value of another one, but of these, where there is one.
fn put_twin(
    alloc: Global,
    lines: &mut Vec<Bytes>,
    p: &Protocol,
    all: u32,
    told: &[Draws],
    apart: &[u32],
    name: u32,
) -> Result<(), NoMemory>
    requires all { all ≡ length p.now.atoms }
    requires most { length told.now ≤ MOST }
    ensures { OnOk result (lines.new.items
        ≡ lines.old.items ++ twin_lines p.now told.now apart.now name) }
{
    match twin_case(told, all, apart, name) {
        Some(Twin { other, case }) => {
            let line = twin_line(alloc, p, name, other, case)?;
            lines.push(Bytes::new(line))?;
            Ok(())
        }
        None => Ok(()),
    }
}

/// Another name, and the number of a case.
struct Twin {
    other: u32,
    case: u32,
}

/// The first case in which the name has the value of another one, but of these.
fn twin_case(told: &[Draws], all: u32, apart: &[u32], name: u32) -> Option<Twin>
    requires { length told.now ≤ MOST }
    ensures some { IfSome result (λ twin.
        twin_from all apart.now name 1 told.now ≡ Some (twin.other, twin.case)) }
    ensures none { IfNone result (twin_from all apart.now name 1 told.now ≡ None) }
{
    for i in 0..told.len() {
        if let Some(other) = twin_of(told[i].values(), all, apart, name) {
            return Some(Twin {
                other,
                case: i as u32 + 1,
            });
        }
    }
    None
}

/// The first name that has the value of a name, but these.
fn twin_of(values: &[Option<Bytes>], all: u32, apart: &[u32], name: u32) -> Option<u32>
    ensures { result ≡ twin_of all apart.now name values.now }
{
    match value_in(values, name) {
        Some(value) => twin_in(values, all, apart, value),
        None => None,
    }
}

/// The first that has this value.
fn twin_in(values: &[Option<Bytes>], all: u32, apart: &[u32], value: &[u8]) -> Option<u32>
    ensures { result ≡ twin_in apart.now value.now values.now 0 all }
{
    for name in 0..all {
        if has_value(values, name, value) && !is_among(apart, name) {
            return Some(name);
        }
    }
    None
}

/// Whether a name is told as this value.
fn has_value(values: &[Option<Bytes>], name: u32, value: &[u8]) -> bool
    ensures { result ≡ is_value value.now (value_in values.now name) }
{
    match value_in(values, name) {
        Some(other) => value == other,
        None => false,
    }
}

fn is_among(names: &[u32], name: u32) -> bool
    ensures { result ≡ is_among names.now name }
{
    names.contains(&name)
}

/// Puts the line on a name that is the same in two cases, where it is.
fn put_same(
    alloc: Global,
    lines: &mut Vec<Bytes>,
    p: &Protocol,
    told: &[Draws],
    name: u32,
) -> Result<(), NoMemory>
    requires { length told.now ≤ MOST }
    ensures { OnOk result (lines.new.items ≡ lines.old.items ++ same_in p.now told.now name) }
{
    let values = values_of(alloc, told, name)?;
    match same_cases(&values) {
        Some(Same { one, other }) => {
            let line = same_line(alloc, p, name, one, other)?;
            lines.push(Bytes::new(line))?;
            Ok(())
        }
        None => Ok(()),
    }
}

/// What a name is told as in the cases.
fn values_of(alloc: Global, told: &[Draws], name: u32) -> Result<Vec<Option<Bytes>>, NoMemory>
    ensures { IfOk result (λ values. values.items ≡ values_of name told.now) }
{
    let mut values = Vec::new(alloc);
    for draws in told {
        values.push(copy_of(alloc, value_in(draws.values(), name))?)?;
    }
    Ok(values)
}

fn copy_of(alloc: Global, value: Option<&[u8]>) -> Result<Option<Bytes>, NoMemory>
    ensures some { IfSome value.entry (λ bytes. IfOk result (λ copy. copy ≡ Some bytes.now)) }
    ensures none { IfNone value.entry (IfOk result (λ copy. copy ≡ None)) }
{
    match value {
        Some(bytes) => Ok(Some(Bytes::new(Vec::from_slice(alloc, bytes)?))),
        None => Ok(None),
    }
}

/// Two cases, by their numbers.
struct Same {
    one: u32,
    other: u32,
}

/// The first case with a value that another had before, and the first of those before.
fn same_cases(values: &[Option<Bytes>]) -> Option<Same>
    requires { length values.now ≤ MOST }
    ensures some { IfSome result (λ same.
        same_from [] values.now ≡ Some (same.one, same.other)) }
    ensures none { IfNone result (same_from [] values.now ≡ None) }
{
    for i in 0..values.len() {
        if let Some(one) = case_before(values, i) {
            return Some(Same {
                one,
                other: i as u32 + 1,
            });
        }
    }
    None
}

/// The first case before this one, whose number is i from 0, that has its value.
fn case_before(values: &[Option<Bytes>], i: usize) -> Option<u32>
    requires most { length values.now ≤ MOST }
    requires within { i < length values.now }
    ensures some { IfSome result (λ one. (value : Option (List ℕ))
        → slice_get values.now i ≡ Some value
        → case_with value 1 (take i values.now) ≡ Some one) }
    ensures none { IfNone result ((value : Option (List ℕ))
        → slice_get values.now i ≡ Some value
        → case_with value 1 (take i values.now) ≡ None) }
{
    match &values[i] {
        Some(value) => case_with(&values[..i], value.as_slice()),
        None => None,
    }
}

/// The number of the first of these cases that has this value.
fn case_with(values: &[Option<Bytes>], value: &[u8]) -> Option<u32>
    requires { length values.now ≤ MOST }
    ensures some { IfSome result (λ one. case_with (Some value.now) 1 values.now ≡ Some one) }
    ensures none { IfNone result (case_with (Some value.now) 1 values.now ≡ None) }
{
    for i in 0..values.len() {
        if is_value(value, &values[i]) {
            return Some(i as u32 + 1);
        }
    }
    None
}

/// Whether a value is also told as this one.
fn is_value(value: &[u8], told: &Option<Bytes>) -> bool
    ensures { result ≡ is_value value.now told.now }
{
    match told {
        Some(other) => value == other.as_slice(),
        None => false,
    }
}
