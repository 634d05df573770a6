//! Whom a trace is of.
ghost use Rattle.std.specs.Prelude.{◌≡◌, ◌++◌, OnOk, IfSome, IfNone, Some, None, map, slice_get};
ghost use Rattle.anb_term.specs.View.{tree_of};
ghost use Rattle.anb_protocol.specs.Texts.{IsTermOf, term_text};
ghost use Rattle.anb_trace.specs.Tracing.{IsOurs, subject_in};
ghost use Rattle.anb_trace.specs.Words.{term_at};

use anb_base::NoMemory;
use anb_code::RoleCode;
use anb_explain::Explanation;
use anb_protocol::Protocol;
use anb_term::Term;
use std::alloc::Global;

/// A role's code, with the role's plan and the terms of the code's registers.
#[derive(Clone, Copy, Drop)]
pub(crate) struct Subject<'t> {
    pub(crate) protocol: &'t Protocol,
    pub(crate) code: &'t RoleCode,
    pub(crate) explanation: &'t Explanation,
}

/// Appends the text of a term.
pub(crate) fn put_term(
    alloc: Global,
    out: &mut Vec<u8>,
    protocol: &Protocol,
    term: &Term,
) -> Result<(), NoMemory>
    requires { IsTermOf protocol.now (tree_of term.now) }
    ensures { OnOk result (out.new.items
        ≡ out.old.items ++ term_text protocol.now (tree_of term.now)) }
{
    let text = protocol.text_of_term(alloc, term)?;
    out.extend_from_slice(text.as_str().as_bytes())?;
    Ok(())
}

/// Appends the text of a register's term.
pub(crate) fn put_term_at(
    alloc: Global,
    out: &mut Vec<u8>,
    subject: &Subject<'_>,
    register: u32,
) -> Result<(), NoMemory>
    requires { IsOurs subject.now }
    ensures { OnOk result (out.new.items ≡ out.old.items ++ term_at (subject_in subject.now) register) }
{
    match term_at(subject.explanation.terms(), register as usize) {
        Some(term) => put_term(alloc, out, subject.protocol, term),
        None => Ok(()),
    }
}

/// The term at this place.
pub(crate) fn term_at(terms: &[Term], place: usize) -> Option<&Term>
    ensures some { IfSome result (λ term.
        slice_get (map tree_of terms.now) place ≡ Some (tree_of term.now)) }
    ensures none { IfNone result (slice_get (map tree_of terms.now) place ≡ None) }
{
    terms.get(place)
}
