//! What cases show, and what can't be tried.
ghost use Rattle.std.specs.Prelude.{◌≡◌, ◌++◌, IfOk};
ghost use Rattle.anb_protocol.specs.Texts.{atom_name};
ghost use Rattle.anb_verdict.specs.Texts.{at_event, cases_front, cases_text, missing_line, missing_text, not_tried_line, other_text, same_line, twin_front, twin_line, twin_text};

use crate::lines::bytes;
use crate::notes::number_end;
use crate::place::Place;
use crate::places::{head_text, part_text, place_text, role_name};
use crate::titles::{joined, text};
use anb_base::{NoMemory, Text};
use anb_protocol::Protocol;
use std::alloc::Global;

/// What something that comes must be compared with.
#[derive(Clone, Copy, Debug, PartialEq, Eq, Drop)]
pub enum Other {
    /// The same, which the role drew.
    Drew,
    /// The same, which the role knows.
    Knows,
    /// The same, which came elsewhere.
    Came,
    /// What the role builds.
    Makes,
}

/// What a program lacks.
#[derive(Drop)]
pub enum Missing {
    /// What comes at a place isn't compared.
    Comparison(Place, Other),
    /// The tag of what comes at a place isn't.
    Tag(Place),
    /// A literal of the format there isn't.
    Literal(Place),
    NotMinimal,
    BeyondEnd,
    BytesBehind,
    Earlier,
}

/// That a program that plays this role lacks something.
pub fn missing_line(
    alloc: Global,
    p: &Protocol,
    role: u32,
    missing: &Missing,
) -> Result<Vec<u8>, NoMemory>
    ensures { IfOk result (λ bytes. bytes.items ≡ missing_line p.now role missing.now) }
{
    let lacks = missing_text(alloc, p, role, missing)?;
    let line = joined(alloc, "# missing: ", lacks.as_str(), "\n")?;
    bytes(alloc, line.as_str())
}

fn missing_text(alloc: Global, p: &Protocol, role: u32, missing: &Missing) -> Result<Text, NoMemory>
    ensures { IfOk result (λ text. text ≡ missing_text p.now role missing.now) }
{
    match missing {
        Missing::Comparison(place, other) => {
            let here = place_text(alloc, p, role, " inside ", place)?;
            let other = other_text(alloc, p, role, place, *other)?;
            joined(
                alloc,
                here.as_str(),
                " isn't compared with ",
                other.as_str(),
            )
        }
        Missing::Tag(place) => {
            let here = place_text(alloc, p, role, " in ", place)?;
            joined(alloc, "the tag of ", here.as_str(), " isn't compared")
        }
        Missing::Literal(place) => {
            let name = head_text(p, role, place);
            joined(alloc, "the literal of ", name, " isn't compared")
        }
        Missing::NotMinimal => text(alloc, "a length that isn't minimal is taken"),
        Missing::BeyondEnd => text(alloc, "a length beyond the end is taken"),
        Missing::BytesBehind => text(alloc, "bytes after the end are taken"),
        Missing::Earlier => text(alloc, "the message of an earlier session is taken"),
    }
}

/// What a part must be compared with.
fn other_text(
    alloc: Global,
    p: &Protocol,
    role: u32,
    place: &Place,
    other: Other,
) -> Result<Text, NoMemory>
    ensures { IfOk result (λ text. text ≡ other_text p.now role place.now other) }
{
    let name = role_name(p, role);
    let part = part_text(alloc, p, role, place)?;
    match other {
        Other::Drew => {
            let rest = joined(alloc, " that ", name, " drew")?;
            joined(alloc, "the ", part.as_str(), rest.as_str())
        }
        Other::Knows => {
            let rest = joined(alloc, " that ", name, " knows")?;
            joined(alloc, "the ", part.as_str(), rest.as_str())
        }
        Other::Came => joined(alloc, "the other ", part.as_str(), " that came"),
        Other::Makes => joined(alloc, "what ", name, " makes itself"),
    }
}

/// That what is narrated at a place can't be tried, and why.
pub fn not_tried_line(
    alloc: Global,
    p: &Protocol,
    role: u32,
    place: &Place,
    why: &str,
) -> Result<Vec<u8>, NoMemory>
    ensures { IfOk result (λ bytes. bytes.items ≡ not_tried_line p.now role place.now why.now) }
{
    let here = place_text(alloc, p, role, " in ", place)?;
    let at = at_event(alloc, place.event)?;
    let rest = joined(alloc, at.as_str(), why, "\n")?;
    let text = joined(alloc, "# not tried: ", here.as_str(), rest.as_str())?;
    bytes(alloc, text.as_str())
}

/// That a name that the role drew has the same value in two cases.
pub fn same_line(
    alloc: Global,
    p: &Protocol,
    name: u32,
    one: u32,
    other: u32,
) -> Result<Vec<u8>, NoMemory>
    ensures { IfOk result (λ bytes. bytes.items ≡ same_line p.now name one other) }
{
    let back = cases_text(alloc, one, other)?;
    let text = joined(alloc, "# ", name_text(p, name), back.as_str())?;
    bytes(alloc, text.as_str())
}

fn cases_text(alloc: Global, one: u32, other: u32) -> Result<Text, NoMemory>
    ensures { IfOk result (λ text. text ≡ cases_text one other) }
{
    let front = cases_front(alloc, one)?;
    let back = number_end(alloc, other)?;
    joined(alloc, front.as_str(), "", back.as_str())
}

fn cases_front(alloc: Global, one: u32) -> Result<Text, NoMemory>
    ensures { IfOk result (λ text. text ≡ cases_front one) }
{
    Ok(Text::new(format!(in alloc; " is the same in cases {} and ", one)?))
}

/// That a name that the role drew has the value of another one in a case.
pub fn twin_line(
    alloc: Global,
    p: &Protocol,
    name: u32,
    other: u32,
    case: u32,
) -> Result<Vec<u8>, NoMemory>
    ensures { IfOk result (λ bytes. bytes.items ≡ twin_line p.now name other case) }
{
    let back = twin_text(alloc, p, other, case)?;
    let text = joined(alloc, "# ", name_text(p, name), back.as_str())?;
    bytes(alloc, text.as_str())
}

fn twin_text(alloc: Global, p: &Protocol, other: u32, case: u32) -> Result<Text, NoMemory>
    ensures { IfOk result (λ text. text ≡ twin_text p.now other case) }
{
    let front = twin_front(alloc, p, other)?;
    let back = number_end(alloc, case)?;
    joined(alloc, front.as_str(), "", back.as_str())
}

fn twin_front(alloc: Global, p: &Protocol, other: u32) -> Result<Text, NoMemory>
    ensures { IfOk result (λ text. text ≡ twin_front p.now other) }
{
    joined(alloc, " is the same as ", name_text(p, other), " in case ")
}

fn at_event(alloc: Global, event: usize) -> Result<Text, NoMemory>
    ensures { IfOk result (λ text. text ≡ at_event event) }
{
    Ok(Text::new(format!(in alloc; " at event {}: ", event)?))
}

/// A name by its number.
fn name_text(p: &Protocol, name: u32) -> &str
    ensures { result.now ≡ atom_name p.now name }
{
    match p.declared().get(name as usize) {
        Some(atom) => atom.name.as_str(),
        None => "",
    }
}
