//! The lines of a refusal's text.
ghost use Rattle.std.specs.Prelude.{◌≡◌, ◌++◌, OnOk, codes, decimal, length, map};
ghost use Rattle.std.specs.List.{AllByRecursion, flat_map};
ghost use Rattle.anb_term.specs.View.{tree_of};
ghost use Rattle.anb_protocol.specs.Texts.{IsTermOf};
ghost use Rattle.anb_lack.specs.Lacking.{had_text, lacking_line, lacking_text};
ghost use Rattle.anb_lack.specs.Lacking.{origin_line, origin_lines, origin_text, refused_text};

use crate::origins::Origin;
use anb_base::{NoMemory, Text};
use anb_protocol::Protocol;
use anb_reason::Refusal;
use anb_term::Term;
use itoa::Buffer;
use std::alloc::Global;

/// Appends what the action is that can't be sent.
pub(crate) fn put_refused(
    alloc: Global,
    out: &mut Vec<u8>,
    protocol: &Protocol,
    sender: &Text,
    refusal: &Refusal,
) -> Result<(), NoMemory>
    requires { IsTermOf protocol.now (tree_of refusal.now.term) }
    ensures { OnOk result (out.new.items
        ≡ out.old.items ++ refused_text protocol.now sender.now refusal.now) }
{
    let message = protocol.text_of_term(alloc, &refusal.term)?;
    put(out, sender.as_str())?;
    put(out, " can't compose ")?;
    put(out, message.as_str())?;
    put(out, " at action ")?;
    put_number(out, refusal.action)?;
    Ok(())
}

/// Appends what the role has, with where each term is from.
pub(crate) fn put_had(
    alloc: Global,
    out: &mut Vec<u8>,
    protocol: &Protocol,
    terms: &[Term],
    origins: &[Origin],
) -> Result<(), NoMemory>
    requires terms { AllByRecursion (IsTermOf protocol.now) (map tree_of terms.now) }
    requires long { length origins.now ≡ length terms.now }
    ensures { OnOk result (out.new.items
        ≡ out.old.items ++ had_text protocol.now (map tree_of terms.now) origins.now) }
{
    if terms.is_empty() {
        return put(out, "it has nothing\n");
    }
    put(out, "it has:\n")?;
    put_had_lines(alloc, out, protocol, terms, origins)?;
    Ok(())
}

/// Appends the terms that the role has, a line each.
fn put_had_lines(
    alloc: Global,
    out: &mut Vec<u8>,
    protocol: &Protocol,
    terms: &[Term],
    origins: &[Origin],
) -> Result<(), NoMemory>
    requires terms { AllByRecursion (IsTermOf protocol.now) (map tree_of terms.now) }
    requires long { length origins.now ≡ length terms.now }
    ensures { OnOk result (out.new.items
        ≡ out.old.items ++ origin_lines protocol.now (map tree_of terms.now) origins.now) }
{
    for i in 0..terms.len() {
        put_had_line(alloc, out, protocol, &terms[i], origins[i])?;
    }
    Ok(())
}

/// Appends a term that the role has.
fn put_had_line(
    alloc: Global,
    out: &mut Vec<u8>,
    protocol: &Protocol,
    term: &Term,
    origin: Origin,
) -> Result<(), NoMemory>
    requires { IsTermOf protocol.now (tree_of term.now) }
    ensures { OnOk result (out.new.items
        ≡ out.old.items ++ origin_line protocol.now (tree_of term.now) origin) }
{
    let text = protocol.text_of_term(alloc, term)?;
    put(out, "  ")?;
    put(out, text.as_str())?;
    put(out, ", ")?;
    put_origin(out, origin)?;
    put(out, "\n")
}

/// Appends where a term is from.
fn put_origin(out: &mut Vec<u8>, origin: Origin) -> Result<(), NoMemory>
    ensures { OnOk result (out.new.items ≡ out.old.items ++ origin_text origin) }
{
    match origin {
        Origin::Known => put(out, "known"),
        Origin::Made => put(out, "made"),
        Origin::Built => put(out, "built"),
        Origin::Received(action) => put_action(out, action),
    }
}

/// Appends the parts that the role can't make.
pub(crate) fn put_lacking(
    alloc: Global,
    out: &mut Vec<u8>,
    protocol: &Protocol,
    parts: &[Term],
) -> Result<(), NoMemory>
    requires { AllByRecursion (IsTermOf protocol.now) (map tree_of parts.now) }
    ensures { OnOk result (out.new.items
        ≡ out.old.items ++ lacking_text protocol.now (map tree_of parts.now)) }
{
    put(out, "it can't make:\n")?;
    put_parts(alloc, out, protocol, parts)
}

/// Appends parts that the role can't make, a line each.
fn put_parts(
    alloc: Global,
    out: &mut Vec<u8>,
    protocol: &Protocol,
    parts: &[Term],
) -> Result<(), NoMemory>
    requires { AllByRecursion (IsTermOf protocol.now) (map tree_of parts.now) }
    ensures { OnOk result (out.new.items
        ≡ out.old.items ++ flat_map (lacking_line protocol.now) (map tree_of parts.now)) }
{
    for part in parts {
        put_part(alloc, out, protocol, part)?;
    }
    Ok(())
}

/// Appends a part that the role can't make.
fn put_part(
    alloc: Global,
    out: &mut Vec<u8>,
    protocol: &Protocol,
    part: &Term,
) -> Result<(), NoMemory>
    requires { IsTermOf protocol.now (tree_of part.now) }
    ensures { OnOk result (out.new.items
        ≡ out.old.items ++ lacking_line protocol.now (tree_of part.now)) }
{
    let text = protocol.text_of_term(alloc, part)?;
    put(out, "  ")?;
    put(out, text.as_str())?;
    put(out, "\n")
}

/// Appends the number of the action that brought a term.
fn put_action(out: &mut Vec<u8>, action: u32) -> Result<(), NoMemory>
    ensures { OnOk result (out.new.items
        ≡ out.old.items ++ (codes "from action " ++ decimal action)) }
{
    put(out, "from action ")?;
    put_number(out, action)?;
    Ok(())
}

/// Appends a number.
pub(crate) fn put_number(out: &mut Vec<u8>, number: u32) -> Result<(), NoMemory>
    ensures { OnOk result (out.new.items ≡ out.old.items ++ decimal number) }
{
    let mut digits = Buffer::new();
    put(out, digits.format(number))
}

/// Appends a text.
pub(crate) fn put(out: &mut Vec<u8>, text: &str) -> Result<(), NoMemory>
    ensures { OnOk result (out.new.items ≡ out.old.items ++ text.now) }
{
    out.extend_from_slice(text.as_bytes())?;
    Ok(())
}
