//! What would mend a narration that isn't well formed.
ghost use Rattle.std.specs.Prelude.{◌≡◌, ◌≤◌, ◌++◌, IfOk, OnOk, codes, decimal, length, map};
ghost use Rattle.std.specs.List.{flat_map};
ghost use Rattle.anb_base.specs.declared.TheConstants.{SMALL_FILE};
ghost use Rattle.anb_syntax.specs.Views.{format_of, narration_of, tok_of, type_of};
ghost use Rattle.anb_mistakes.specs.Mends.{fields_text, given_text, lead, mend as mend_of, miscounted, most, near as near_in, overlap, shape_text, sort_text, unsorted, written};
ghost use Rattle.anb_mistakes.specs.Near.{hint, near_among, near_text};

use crate::items::{field_count, is_format, pieces_of, sort_of};
use crate::near::{put_hint, put_near};
use crate::pointing::put;
use crate::tokens::{arguments, begins, others};
use anb_base::{NoMemory, Text};
use anb_format::{FormatNo, Piece};
use anb_protocol::{Kind, ResolveNo};
use anb_syntax::{FormatItem, Narration, Sort, Token, TypeItem, put_piece};
use itoa::Buffer;
use std::alloc::Global;

/// What would mend it, where the tokens stand from its place on.
pub(crate) fn mend(
    alloc: Global,
    narration: &Narration,
    why: &ResolveNo,
    text: &[u8],
    tokens: &[Token],
) -> Result<Vec<u8>, NoMemory>
    requires { length tokens.now ≤ SMALL_FILE }
    ensures { IfOk result (λ v. v.items ≡ mend_of (narration_of narration.now) why.now
        (map (tok_of text.now) tokens.now)) }
{
    let _ = text;
    let mut out = Vec::new(alloc);
    match why {
        ResolveNo::Limit(kind, _) => {
            put(&mut out, b"at most ")?;
            put_number(&mut out, most(*kind))?;
        }
        ResolveNo::Twice(_) => put(
            &mut out,
            b"a name is declared once, and a role has one line of knowledge",
        )?,
        ResolveNo::Unknown(name) => put_unknown(
            alloc,
            &mut out,
            narration,
            name.as_str().as_bytes(),
        )?,
        ResolveNo::WrongSort(name) => {
            put_unsorted(
                &mut out,
                narration,
                name.as_str().as_bytes(),
                text,
                others(tokens),
            )?
        }
        ResolveNo::WrongCount(name) => {
            let given = arguments(others(others(tokens)));
            put_miscounted(&mut out, narration, name.as_str().as_bytes(), given)?
        }
        ResolveNo::FormatShape(_, why) => put(&mut out, shape_text(*why).as_bytes())?,
        ResolveNo::Overlap(one, other) => {
            let (one, other) = (one.as_str().as_bytes(), other.as_str().as_bytes());
            put_overlap(alloc, &mut out, narration, one, other)?
        }
        ResolveNo::SelfSend(_) => put(&mut out, b"an action goes to another role")?,
        ResolveNo::KnowledgeTwice(_, _) => put(&mut out, b"a term is listed once")?,
        ResolveNo::Wide(_) => put(&mut out, b"a term has at most 67108864 bytes")?,
        ResolveNo::NoMemory => {}
    }
    Ok(out)
}

fn most(kind: Kind) -> usize
    ensures { result ≡ most kind }
{
    match kind {
        Kind::Name => 64,
        Kind::Formats => 64,
        Kind::Fields => 32,
        Kind::Roles => 32,
        Kind::Actions => 256,
        Kind::TermNodes => 1024,
        Kind::AllNodes => 65536,
    }
}

fn put_number(out: &mut Vec<u8>, number: usize) -> Result<(), NoMemory>
    ensures { OnOk result (out.new.items ≡ out.old.items ++ decimal number) }
{
    let mut digits = Buffer::new();
    put(out, digits.format(number).as_bytes())?;
    Ok(())
}

fn put_fields(out: &mut Vec<u8>, count: usize) -> Result<(), NoMemory>
    ensures { OnOk result (out.new.items ≡ out.old.items ++ fields_text count) }
{
    if count == 1 {
        put(out, b"1 field")?;
        return Ok(());
    }
    put_number(out, count)?;
    put(out, b" fields")?;
    Ok(())
}

fn put_given(out: &mut Vec<u8>, count: usize) -> Result<(), NoMemory>
    ensures { OnOk result (out.new.items ≡ out.old.items ++ given_text count) }
{
    if count == 1 {
        put(out, b"1 is given")?;
        return Ok(());
    }
    put_number(out, count)?;
    put(out, b" are given")?;
    Ok(())
}

/// Appends that a name isn't declared, and those that are near.
fn put_unknown(
    alloc: Global,
    out: &mut Vec<u8>,
    narration: &Narration,
    name: &[u8],
) -> Result<(), NoMemory>
    ensures { OnOk result (out.new.items ≡ out.old.items
        ++ (name.now ++ (codes " isn't declared"
        ++ near_text (near_in (narration_of narration.now) name.now)))) }
{
    put(out, name)?;
    put(out, b" isn't declared")?;
    put_near(out, &near(alloc, narration, name)?)?;
    Ok(())
}

/// The declared names that are near, each behind a comma.
fn near(alloc: Global, narration: &Narration, name: &[u8]) -> Result<Vec<u8>, NoMemory>
    ensures { IfOk result (λ v. v.items ≡ near_in (narration_of narration.now) name.now) }
{
    let mut out = Vec::new(alloc);
    put_near_types(&mut out, &narration.types, name)?;
    put_near_formats(&mut out, &narration.formats, name)?;
    Ok(out)
}

fn put_near_types(out: &mut Vec<u8>, types: &[TypeItem], name: &[u8]) -> Result<(), NoMemory>
    ensures { OnOk result (out.new.items ≡ out.old.items
        ++ flat_map (λ i. near_among i.names name.now) (map type_of types.now)) }
{
    for item in types {
        put_near_among(out, item.names.as_slice(), name)?;
    }
    Ok(())
}

fn put_near_among(out: &mut Vec<u8>, names: &[Text], name: &[u8]) -> Result<(), NoMemory>
    ensures { OnOk result (out.new.items ≡ out.old.items ++ near_among names.now name.now) }
{
    for each in names {
        put_hint(out, name, each.as_str().as_bytes())?;
    }
    Ok(())
}

fn put_near_formats(out: &mut Vec<u8>, formats: &[FormatItem], name: &[u8]) -> Result<(), NoMemory>
    ensures { OnOk result (out.new.items ≡ out.old.items
        ++ flat_map (λ f. hint name.now f.title) (map format_of formats.now)) }
{
    for item in formats {
        put_hint(out, name, item.name.as_str().as_bytes())?;
    }
    Ok(())
}

/// Appends what a name is that is used as something else, where these tokens stand behind it.
fn put_unsorted(
    out: &mut Vec<u8>,
    narration: &Narration,
    name: &[u8],
    text: &[u8],
    tokens: &[Token],
) -> Result<(), NoMemory>
    ensures { OnOk result (out.new.items ≡ out.old.items
        ++ unsorted (narration_of narration.now) name.now (map (tok_of text.now) tokens.now)) }
{
    let _ = text;
    if !is_format(&narration.formats, name) {
        return put_sort(out, name, sort_of(&narration.types, name));
    }
    put(out, name)?;
    let count = field_count(pieces_of(&narration.formats, name));
    if count == 0 {
        put(out, b" is a format without fields")?;
        return put_written(out, name, text, tokens);
    }
    put(out, b" is a format with ")?;
    put_fields(out, count)?;
    Ok(())
}

/// Appends how a format without fields is written, but not in the place of a role.
fn put_written(
    out: &mut Vec<u8>,
    name: &[u8],
    text: &[u8],
    tokens: &[Token],
) -> Result<(), NoMemory>
    ensures { OnOk result (out.new.items ≡ out.old.items
        ++ written name.now (map (tok_of text.now) tokens.now)) }
{
    let _ = text;
    if begins(b':', tokens) || begins(b'-', tokens) {
        return Ok(());
    }
    put(out, b": write ")?;
    put(out, name)?;
    put(out, b"()")?;
    Ok(())
}

/// Appends the sort of a name.
fn put_sort(out: &mut Vec<u8>, name: &[u8], sort: Option<Sort>) -> Result<(), NoMemory>
    ensures { OnOk result (out.new.items
        ≡ out.old.items ++ (name.now ++ (codes " is declared as " ++ sort_text sort))) }
{
    put(out, name)?;
    put(out, b" is declared as ")?;
    put(out, sort_text(sort).as_bytes())?;
    Ok(())
}

fn sort_text(sort: Option<Sort>) -> &'static str
    ensures { result.now ≡ sort_text sort }
{
    match sort {
        None => "",
        Some(Sort::Agent) => "Agent",
        Some(Sort::Number) => "Number",
        Some(Sort::Key) => "Key",
    }
}

/// Appends how many fields a format has, and how many are given.
fn put_miscounted(
    out: &mut Vec<u8>,
    narration: &Narration,
    name: &[u8],
    given: usize,
) -> Result<(), NoMemory>
    ensures { OnOk result (out.new.items ≡ out.old.items
        ++ miscounted (narration_of narration.now) name.now given) }
{
    put(out, name)?;
    put(out, b" has ")?;
    put_fields(out, field_count(pieces_of(&narration.formats, name)))?;
    put(out, b", ")?;
    put_given(out, given)?;
    Ok(())
}

fn shape_text(why: FormatNo) -> &'static str
    ensures { result.now ≡ shape_text why }
{
    match why {
        FormatNo::NoHead => "it must begin with a literal that isn't empty",
        FormatNo::RestNotLast(_) => "rest must be the last field",
    }
}

/// Appends two formats with their heads.
fn put_overlap(
    alloc: Global,
    out: &mut Vec<u8>,
    narration: &Narration,
    one: &[u8],
    other: &[u8],
) -> Result<(), NoMemory>
    ensures { OnOk result (out.new.items
        ≡ out.old.items ++ overlap (narration_of narration.now) one.now other.now) }
{
    put(out, one)?;
    put(out, b" begins with")?;
    put_lead(alloc, out, pieces_of(&narration.formats, one))?;
    put(out, b", ")?;
    put(out, other)?;
    put(out, b" with")?;
    put_lead(alloc, out, pieces_of(&narration.formats, other))?;
    Ok(())
}

/// Appends the literals before the first field.
fn put_lead(alloc: Global, out: &mut Vec<u8>, pieces: &[Piece]) -> Result<(), NoMemory>
    ensures { OnOk result (out.new.items ≡ out.old.items ++ lead pieces.now) }
{
    for piece in pieces {
        match piece {
            Piece::Lit(_) => put_piece(alloc, out, piece)?,
            Piece::Field(_) => return Ok(()),
        }
    }
    Ok(())
}
