//! Why an instruction failed.
ghost use Rattle.std.specs.Prelude.{◌≡◌, ◌++◌, [], IfOk, OnOk, codes};
ghost use Rattle.anb_code.specs.Spelling.{name_at};
ghost use Rattle.std.specs.Option.{option_map_or};
ghost use Rattle.anb_format.specs.Formats.{pieces_at};
ghost use Rattle.anb_trace.specs.Misfits.{count_text};
ghost use Rattle.anb_trace.specs.Openers.{seal_key, wrap_key};
ghost use Rattle.anb_trace.specs.Tracing.{IsOurs, subject_in};
ghost use Rattle.anb_trace.specs.Arrivals.{last_arrivals, writer};
ghost use Rattle.anb_trace.specs.Words.{article, bytes_at, differing, opened, term_at, unequal, why};
ghost use Rattle.anb_trace.specs.Words.{under_with, unopened, unsealed_by, unwrapped_by, unwrapped_with};

use crate::arrivals::{arrival_at, comes_first, last_arrivals, writer};
use crate::differences::{Holding, Sides, put_difference};
use crate::misfits::put_misfit;
use crate::names::article;
use crate::openers::{seal_key, wrap_context, wrap_key};
use crate::shown::put_count;
use crate::subject::{Subject, put_term_at, term_at};
use anb_base::{Bytes, NoMemory};
use anb_code::{Instr, RoleCode};
use anb_format::Piece;
use std::alloc::Global;

/// Appends why an instruction failed, where the registers have these values.
pub(crate) fn put_reason(
    alloc: Global,
    out: &mut Vec<u8>,
    subject: &Subject<'_>,
    registers: &[Bytes],
    instr: &Instr,
) -> Result<(), NoMemory>
    requires { IsOurs subject.now }
    ensures { OnOk result (out.new.items
        ≡ out.old.items ++ why (subject_in subject.now) registers.now instr.now) }
{
    match instr {
        Instr::Unseal(key, of) => {
            put_unsealed(alloc, out, subject, *key)?;
            put_why_sealed(alloc, out, subject, registers, *of)
        }
        Instr::Unwrap(key, context, of) => {
            put_unwrapped(alloc, out, subject, *key, *context)?;
            put_why_wrapped(alloc, out, subject, registers, *key, *context, *of)
        }
        Instr::Parse(format, of) => {
            put_unlike(out, subject.code, *format, *of)?;
            let pieces = pieces_at(subject.code, *format);
            put_misfit(alloc, out, pieces, bytes_at(registers, *of))
        }
        Instr::Equal(a, b) => put_unequal(alloc, out, subject, registers, *a, *b),
        _ => Ok(()),
    }
}

/// Appends that nothing can be unsealed under this key.
fn put_unsealed(
    alloc: Global,
    out: &mut Vec<u8>,
    subject: &Subject<'_>,
    key: u32,
) -> Result<(), NoMemory>
    requires { IsOurs subject.now }
    ensures { OnOk result (out.new.items ≡ out.old.items
        ++ (codes "can't unseal under " ++ term_at (subject_in subject.now) key)) }
{
    out.extend_from_slice(b"can't unseal under ")?;
    put_term_at(alloc, out, subject, key)
}

/// Appends that nothing can be unwrapped under this key with this context.
fn put_unwrapped(
    alloc: Global,
    out: &mut Vec<u8>,
    subject: &Subject<'_>,
    key: u32,
    context: u32,
) -> Result<(), NoMemory>
    requires { IsOurs subject.now }
    ensures { OnOk result (out.new.items ≡ out.old.items
        ++ (codes "can't unwrap under " ++ (term_at (subject_in subject.now) key
        ++ (codes " with " ++ term_at (subject_in subject.now) context)))) }
{
    out.extend_from_slice(b"can't unwrap under ")?;
    put_term_at(alloc, out, subject, key)?;
    out.extend_from_slice(b" with ")?;
    put_term_at(alloc, out, subject, context)
}

/// Appends why a register isn't unsealed: its bytes are too few, or by what they open.
#[tactic(auto, unfolding(crate::specs::Words::unopened))]
fn put_why_sealed(
    alloc: Global,
    out: &mut Vec<u8>,
    subject: &Subject<'_>,
    registers: &[Bytes],
    of: u32,
) -> Result<(), NoMemory>
    requires { IsOurs subject.now }
    ensures { OnOk result (out.new.items ≡ out.old.items
        ++ unopened (bytes_at registers.now of) (codes "seal")
        (unsealed_by (subject_in subject.now)
        (seal_key subject.now.code.now registers.now of))) }
{
    let bytes = bytes_at(registers, of);
    if bytes.len() < 32 {
        return put_too_few(out, bytes.len(), b"seal");
    }
    out.extend_from_slice(b": ")?;
    put_unsealed_by(
        alloc,
        out,
        subject,
        seal_key(alloc, subject.code, registers, of)?,
    )
}

/// Appends which key opens what was sealed.
fn put_unsealed_by(
    alloc: Global,
    out: &mut Vec<u8>,
    subject: &Subject<'_>,
    key: Option<u32>,
) -> Result<(), NoMemory>
    requires { IsOurs subject.now }
    ensures { OnOk result (out.new.items
        ≡ out.old.items ++ unsealed_by (subject_in subject.now) key) }
{
    match key {
        Some(key) => {
            out.extend_from_slice(b"it opens under ")?;
            put_term_at(alloc, out, subject, key)
        }
        None => {
            out.extend_from_slice(b"no other key so far opens it")?;
            Ok(())
        }
    }
}

/// Appends why a register isn't unwrapped: its bytes are too few, or with what they open.
#[tactic(auto, unfolding(crate::specs::Words::unopened))]
fn put_why_wrapped(
    alloc: Global,
    out: &mut Vec<u8>,
    subject: &Subject<'_>,
    registers: &[Bytes],
    key: u32,
    context: u32,
    of: u32,
) -> Result<(), NoMemory>
    requires { IsOurs subject.now }
    ensures { OnOk result (out.new.items ≡ out.old.items
        ++ unopened (bytes_at registers.now of) (codes "wrapping")
        (unwrapped_by (subject_in subject.now) registers.now key context of
        (wrap_key subject.now.code.now registers.now context of))) }
{
    let bytes = bytes_at(registers, of);
    if bytes.len() < 32 {
        return put_too_few(out, bytes.len(), b"wrapping");
    }
    out.extend_from_slice(b": ")?;
    put_unwrapped_by(alloc, out, subject, registers, key, context, of)
}

/// Appends with which other key what was wrapped opens, or with which other context.
fn put_unwrapped_by(
    alloc: Global,
    out: &mut Vec<u8>,
    subject: &Subject<'_>,
    registers: &[Bytes],
    key: u32,
    context: u32,
    of: u32,
) -> Result<(), NoMemory>
    requires { IsOurs subject.now }
    ensures { OnOk result (out.new.items ≡ out.old.items
        ++ unwrapped_by (subject_in subject.now) registers.now key context of
        (wrap_key subject.now.code.now registers.now context of)) }
{
    match wrap_key(alloc, subject.code, registers, context, of)? {
        Some(other) => put_under_with(alloc, out, subject, other, context),
        None => {
            let other = wrap_context(alloc, subject.code, registers, key, of)?;
            put_unwrapped_with(alloc, out, subject, key, other)
        }
    }
}

/// Appends with which context a key opens what was wrapped.
fn put_unwrapped_with(
    alloc: Global,
    out: &mut Vec<u8>,
    subject: &Subject<'_>,
    key: u32,
    context: Option<u32>,
) -> Result<(), NoMemory>
    requires { IsOurs subject.now }
    ensures { OnOk result (out.new.items
        ≡ out.old.items ++ unwrapped_with (subject_in subject.now) key context) }
{
    match context {
        Some(context) => put_under_with(alloc, out, subject, key, context),
        None => {
            out.extend_from_slice(b"no other key or context so far opens it")?;
            Ok(())
        }
    }
}

/// Appends that what was wrapped opens under a key with a context.
fn put_under_with(
    alloc: Global,
    out: &mut Vec<u8>,
    subject: &Subject<'_>,
    key: u32,
    context: u32,
) -> Result<(), NoMemory>
    requires { IsOurs subject.now }
    ensures { OnOk result (out.new.items
        ≡ out.old.items ++ under_with (subject_in subject.now) key context) }
{
    out.extend_from_slice(b"it opens under ")?;
    put_term_at(alloc, out, subject, key)?;
    out.extend_from_slice(b" with ")?;
    put_term_at(alloc, out, subject, context)
}

/// Appends that so many bytes are too few for what has this name.
fn put_too_few(out: &mut Vec<u8>, count: usize, name: &[u8]) -> Result<(), NoMemory>
    ensures { OnOk result (out.new.items ≡ out.old.items ++ (codes ": "
        ++ (count_text count ++ (codes ", a " ++ (name.now ++ codes " has 32 or more"))))) }
{
    out.extend_from_slice(b": ")?;
    put_count(out, count)?;
    out.extend_from_slice(b", a ")?;
    out.extend_from_slice(name)?;
    out.extend_from_slice(b" has 32 or more")?;
    Ok(())
}

/// The bytes of a register.
fn bytes_at(registers: &[Bytes], register: u32) -> &[u8]
    ensures { result.now ≡ bytes_at registers.now register }
{
    match registers.get(register as usize) {
        Some(bytes) => bytes.as_slice(),
        None => b"",
    }
}

/// Appends that a register isn't of a format, with a colon and a space behind.
fn put_unlike(out: &mut Vec<u8>, code: &RoleCode, format: u16, of: u32) -> Result<(), NoMemory>
    ensures { OnOk result (out.new.items ≡ out.old.items
        ++ (option_map_or opened (writer code.now.formats code.now.instrs of) []
        ++ (codes "isn't " ++ (article (name_at code.now.formats format)
        ++ (name_at code.now.formats format ++ codes ": "))))) }
{
    let name = format_name(code, format);
    out.extend_from_slice(opened(code, of))?;
    out.extend_from_slice(b"isn't ")?;
    out.extend_from_slice(article(name))?;
    out.extend_from_slice(name)?;
    out.extend_from_slice(b": ")?;
    Ok(())
}

/// The pieces of a format by its place.
fn pieces_at(code: &RoleCode, format: u16) -> &[Piece]
    ensures { result.now ≡ pieces_at code.now.formats format }
{
    match code.formats().get(format as usize) {
        Some(format) => format.pieces(),
        None => &[],
    }
}

/// The name of a format by its place.
fn format_name(code: &RoleCode, format: u16) -> &[u8]
    ensures { result.now ≡ name_at code.now.formats format }
{
    match code.formats().get(format as usize) {
        Some(format) => format.name().as_str().as_bytes(),
        None => b"",
    }
}

/// How the bytes of a register were had.
fn opened(code: &RoleCode, register: u32) -> &'static [u8]
    ensures { result.now ≡ option_map_or opened (writer code.now.formats code.now.instrs register) [] }
{
    match writer(code, register) {
        Some(Instr::Unseal(_, _)) => b"unsealed, but ",
        Some(Instr::Unwrap(_, _, _)) => b"unwrapped, but ",
        _ => b"",
    }
}

/// Appends that two registers differ.
fn put_unequal(
    alloc: Global,
    out: &mut Vec<u8>,
    subject: &Subject<'_>,
    registers: &[Bytes],
    a: u32,
    b: u32,
) -> Result<(), NoMemory>
    requires { IsOurs subject.now }
    ensures { OnOk result (out.new.items ≡ out.old.items
        ++ unequal (subject_in subject.now) registers.now a b) }
{
    let arrivals = last_arrivals(alloc, subject.code)?;
    if comes_first(subject.code, &arrivals, b, a) {
        put_differing(alloc, out, subject, registers, &arrivals, b, a)
    } else {
        put_differing(alloc, out, subject, registers, &arrivals, a, b)
    }
}

/// Appends how two registers differ, of which the first has what is due.
fn put_differing(
    alloc: Global,
    out: &mut Vec<u8>,
    subject: &Subject<'_>,
    registers: &[Bytes],
    arrivals: &[u32],
    due: u32,
    came: u32,
) -> Result<(), NoMemory>
    requires ours { IsOurs subject.now }
    requires arrivals { arrivals.now ≡ last_arrivals subject.now.code.now }
    ensures { OnOk result (out.new.items
        ≡ out.old.items ++ differing (subject_in subject.now) registers.now due came) }
{
    let holding = Holding {
        code: subject.code,
        terms: subject.explanation.terms(),
        registers,
    };
    let Some(term) = term_at(holding.terms, due as usize) else {
        return Ok(());
    };
    let sides = Sides {
        due: copy_at(alloc, registers, due)?,
        came: copy_at(alloc, registers, came)?,
    };
    let has_come = arrival_at(arrivals, came) > 0;
    put_difference(
        alloc,
        out,
        subject.protocol,
        &holding,
        has_come,
        term,
        sides,
    )
}

/// The bytes of a register in memory of their own.
fn copy_at(alloc: Global, registers: &[Bytes], register: u32) -> Result<Bytes, NoMemory>
    ensures { IfOk result (λ copy. copy ≡ bytes_at registers.now register) }
{
    Ok(Bytes::new(Vec::from_slice(alloc, bytes_at(registers, register))?))
}
