//! What a case does, as a text.
ghost use Rattle.std.specs.Prelude.{◌≡◌, ◌++◌, string_bytes, IfOk, OnOk};
ghost use Rattle.anb_verdict.specs.Texts.{changed_text, event_text, further_parts, parts_text, sized_text, title_text};

use crate::place::Place;
use crate::places::{part_text, place_text, sender_at};
use crate::title::Title;
use anb_base::{NoMemory, Text};
use anb_protocol::Protocol;
use std::alloc::Global;

/// Appends what a case of a role does.
pub(crate) fn put_title(
    alloc: Global,
    out: &mut Vec<u8>,
    p: &Protocol,
    role: u32,
    title: &Title,
) -> Result<(), NoMemory>
    ensures { OnOk result (out.new.items ≡ out.old.items ++ title_text p.now role title.now) }
{
    match title {
        Title::Narrated => {
            out.extend_from_slice(b"all as narrated")?;
            Ok(())
        }
        Title::Changed(place, words) => {
            put_changed(alloc, out, p, role, place, words.as_slice())
        }
        Title::Sized {
            event,
            places,
            bytes,
        } => {
            let text = sized_text(alloc, p, role, *event, places, *bytes)?;
            put(out, &text)
        }
        Title::Earlier(event) => {
            let at = event_text(alloc, p, role, *event)?;
            let text = joined(alloc, at.as_str(), "the message of an earlier session", "")?;
            put(out, &text)
        }
    }
}

/// Appends that the bytes at a place are changed.
fn put_changed(
    alloc: Global,
    out: &mut Vec<u8>,
    p: &Protocol,
    role: u32,
    place: &Place,
    words: &[u8],
) -> Result<(), NoMemory>
    ensures { OnOk result (out.new.items
        ≡ out.old.items ++ changed_text p.now role place.now words.now) }
{
    let at = event_text(alloc, p, role, place.event)?;
    let here = place_text(alloc, p, role, " in ", place)?;
    let front = joined(alloc, at.as_str(), here.as_str(), ", ")?;
    put(out, &front)?;
    out.extend_from_slice(words)?;
    Ok(())
}

/// What is taken unchecked has so many bytes.
fn sized_text(
    alloc: Global,
    p: &Protocol,
    role: u32,
    event: usize,
    places: &[Place],
    bytes: u32,
) -> Result<Text, NoMemory>
    ensures { IfOk result (λ text. text ≡ sized_text p.now role event places.now bytes) }
{
    let at = event_text(alloc, p, role, event)?;
    let these = parts_text(alloc, p, role, places)?;
    let text = format!(in alloc; "{}{} of {} bytes", at.as_str(), these.as_str(), bytes)?;
    Ok(Text::new(text))
}

/// Which event it is, and who sends what comes there.
fn event_text(alloc: Global, p: &Protocol, role: u32, event: usize) -> Result<Text, NoMemory>
    ensures { IfOk result (λ text. text ≡ event_text p.now role event) }
{
    let text = format!(in alloc; "event {}, from {}: ", event, sender_at(p, role, event))?;
    Ok(Text::new(text))
}

/// What is narrated at these places, with commas between them.
fn parts_text(alloc: Global, p: &Protocol, role: u32, places: &[Place]) -> Result<Text, NoMemory>
    ensures { IfOk result (λ text. text ≡ parts_text p.now role places.now) }
{
    let mut out = String::new(alloc);
    if let [first, rest @ ..] = places {
        let text = part_text(alloc, p, role, first)?;
        out.push_str(text.as_str())?;
        put_further(alloc, &mut out, p, role, rest)?;
    }
    Ok(Text::new(out))
}

/// Appends what is narrated at further places, each with a comma before it.
fn put_further(
    alloc: Global,
    out: &mut String,
    p: &Protocol,
    role: u32,
    places: &[Place],
) -> Result<(), NoMemory>
    ensures { OnOk result (string_bytes out.new
        ≡ string_bytes out.old ++ further_parts p.now role places.now) }
{
    for place in places {
        let text = part_text(alloc, p, role, place)?;
        out.push_str(", ")?;
        out.push_str(text.as_str())?;
    }
    Ok(())
}

/// Appends a text.
pub(crate) fn put(out: &mut Vec<u8>, text: &Text) -> Result<(), NoMemory>
    ensures { OnOk result (out.new.items ≡ out.old.items ++ text.now) }
{
    out.extend_from_slice(text.as_str().as_bytes())?;
    Ok(())
}

/// These words.
pub(crate) fn text(alloc: Global, words: &str) -> Result<Text, NoMemory>
    ensures { IfOk result (λ text. text ≡ words.now) }
{
    Ok(Text::new(String::from_str(alloc, words)?))
}

/// Three pieces in a row.
pub(crate) fn joined(
    alloc: Global,
    before: &str,
    middle: &str,
    after: &str,
) -> Result<Text, NoMemory>
    ensures { IfOk result (λ text. text ≡ before.now ++ middle.now ++ after.now) }
{
    let text = format!(in alloc; "{}{}{}", before, middle, after)?;
    Ok(Text::new(text))
}
