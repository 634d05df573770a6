//! What is wrong with actions and knowledge.
ghost use Rattle.std.specs.Prelude.{◌≡◌, ◌≤◌, ◌<◌, [], length, map, IfOk, IfSome, IsTrue};
ghost use Rattle.std.specs.Option.{option_map};
ghost use Rattle.std.specs.List.{All};
ghost use Rattle.anb_base.specs.declared.TheConstants.{ARRIVAL, WIDE};
ghost use Rattle.anb_term.specs.Operator.{arity};
ghost use Rattle.anb_term.specs.Tree.{trees_of, IsFormed, AreFormed};
ghost use Rattle.anb_term.specs.View.{tree_of};
ghost use Rattle.anb_algebra.specs.ByteMeaning.{has_operator};
ghost use Rattle.anb_protocol.specs.Widths.{all_fit_width, at_most, fits_width, op_width, sealed_width, width_if, widths_if};

use crate::parts::Parts;
use crate::refusals::{Item, ResolveNo};
use anb_base::{ARRIVAL, NoMemory, Text, WIDE};
use anb_format::Format;
use anb_index::TextIndex;
use anb_term::{Op, Term};
use std::alloc::Global;

impl Parts {
    ghost use Rattle.std.specs.Prelude.{◌≡◌, ◌<◌, [], length, map, IfOk, IfSome};
    ghost use Rattle.std.specs.List.{AllByRecursion};
    ghost use Rattle.anb_term.specs.View.{tree_of};
    ghost use Rattle.anb_base.specs.declared.TheConstants.{ARRIVAL, WIDE};
    ghost use Rattle.anb_protocol.specs.Texts.{IsTermOf};
    ghost use Rattle.anb_protocol.specs.Checks.{again_at, first_fault, protocol_checks, self_send, known_again, known_twice, wide_knowledge, wide_message};
    ghost use Rattle.anb_protocol.specs.WellFormed.{AreToldApart, CanBeChecked};
    ghost use Rattle.anb_protocol.specs.Views.{value_of};

    /// The first of the actions and the terms that is wrong.
    pub fn fault(&self, alloc: Global) -> Result<Option<ResolveNo>, NoMemory>
        requires { CanBeChecked (value_of self.now) }
        ensures { IfOk result (λ no.
            no ≡ first_fault (protocol_checks ARRIVAL WIDE) (value_of self.now)) }
    {
        if let Some(no) = self.self_send() {
            return Ok(Some(no));
        }
        if let Some(no) = self.known_twice(alloc)? {
            return Ok(Some(no));
        }
        if let Some(no) = self.wide_knowledge(alloc)? {
            return Ok(Some(no));
        }
        self.wide_message(alloc)
    }

    /// The first action whose sender is its receiver.
    fn self_send(&self) -> Option<ResolveNo>
        requires { CanBeChecked (value_of self.now) }
        ensures { result ≡ self_send (value_of self.now) }
    {
        for (i, action) in self.actions.iter().enumerate() {
            if action.from == action.to {
                return Some(ResolveNo::SelfSend(i as u32 + 1));
            }
        }
        None
    }

    /// The first role that knows a term twice.
    fn known_twice(&self, alloc: Global) -> Result<Option<ResolveNo>, NoMemory>
        requires { CanBeChecked (value_of self.now) }
        ensures { IfOk result (λ no. no ≡ known_twice (value_of self.now)) }
    {
        let roles = self.roles.as_slice();
        for (i, terms) in self.knows.iter().enumerate() {
            let again = self.knows_again(alloc, &roles[i], terms.as_slice())?;
            match again {
                Some(no) => return Ok(Some(no)),
                None => {}
            }
        }
        Ok(None)
    }

    /// The first term of a role's knowledge that is one of those before it.
    fn knows_again(
        &self,
        alloc: Global,
        role: &Text,
        terms: &[Term],
    ) -> Result<Option<ResolveNo>, NoMemory>
        requires apart { AreToldApart (value_of self.now) }
        requires terms { AllByRecursion (IsTermOf (value_of self.now)) (map tree_of terms.now) }
        ensures { IfOk result (λ no.
            no ≡ known_again (value_of self.now) (role.now, map tree_of terms.now)) }
    {
        let again = self.known_again(alloc, terms)?;
        match again {
            Some(k) => {
                let text = self.text_of_term(alloc, &terms[k])?;
                Ok(Some(ResolveNo::KnowledgeTwice(role.copy(alloc)?, text)))
            }
            None => Ok(None),
        }
    }

    /// The place of the first term that is one of those before it, as texts tell them apart.
    fn known_again(&self, alloc: Global, terms: &[Term]) -> Result<Option<usize>, NoMemory>
        requires apart { AreToldApart (value_of self.now) }
        requires terms { AllByRecursion (IsTermOf (value_of self.now)) (map tree_of terms.now) }
        ensures place { IfOk result (λ place. place ≡ again_at [] (map tree_of terms.now)) }
        ensures within { IfOk result (λ place. IfSome place (λ k. k < length terms.now)) }
    {
        let texts = self.texts_of_terms(alloc, terms)?;
        let mut seen = TextIndex::new(alloc);
        for (i, text) in texts.iter().enumerate() {
            if seen.push(text.as_str())? {
                return Ok(Some(i));
            }
        }
        Ok(None)
    }

    /// The first role that knows a term that is too wide.
    fn wide_knowledge(&self, alloc: Global) -> Result<Option<ResolveNo>, NoMemory>
        requires { CanBeChecked (value_of self.now) }
        ensures { IfOk result (λ no. no ≡ wide_knowledge ARRIVAL WIDE (value_of self.now)) }
    {
        let roles = self.roles.as_slice();
        for (i, terms) in self.knows.iter().enumerate() {
            if !fit(alloc, &self.formats, terms.as_slice())? {
                return Ok(Some(ResolveNo::Wide(Item::Know(roles[i].copy(alloc)?))));
            }
        }
        Ok(None)
    }

    /// The first message that is too wide.
    fn wide_message(&self, alloc: Global) -> Result<Option<ResolveNo>, NoMemory>
        requires { CanBeChecked (value_of self.now) }
        ensures { IfOk result (λ no. no ≡ wide_message ARRIVAL WIDE (value_of self.now)) }
    {
        for (i, action) in self.actions.iter().enumerate() {
            if !fits(alloc, &self.formats, &action.message)? {
                return Ok(Some(ResolveNo::Wide(Item::Action(i as u32 + 1))));
            }
        }
        Ok(None)
    }
}

/// Whether no subterm of a term is too wide.
fn fits(alloc: Global, formats: &[Format], t: &Term) -> Result<bool, NoMemory>
    requires { IsFormed (has_operator formats.now) (tree_of t.now) }
    ensures { IfOk result (λ b. b ≡ fits_width ARRIVAL formats.now WIDE (tree_of t.now)) }
{
    let width = width_of(alloc, formats, t)?;
    Ok(width.is_some())
}

/// Whether no subterm of these terms is too wide.
fn fit(alloc: Global, formats: &[Format], terms: &[Term]) -> Result<bool, NoMemory>
    requires { AreFormed (has_operator formats.now) (trees_of (map tree_of terms.now)) }
    ensures { IfOk result (λ b.
        b ≡ all_fit_width ARRIVAL formats.now WIDE (map tree_of terms.now)) }
{
    let widths = widths_of(alloc, formats, terms)?;
    Ok(widths.is_some())
}

/// The width of a term, where no subterm of it is too wide.
#[cycle(width)]
fn width_of(alloc: Global, formats: &[Format], t: &Term) -> Result<Option<u32>, NoMemory>
    requires { IsFormed (has_operator formats.now) (tree_of t.now) }
    ensures { IfOk result (λ w. w ≡ width_if ARRIVAL formats.now WIDE (tree_of t.now)) }
{
    match t {
        Term::Atom(_) => Ok(Some(ARRIVAL)),
        Term::Node(op, operands) => {
            let Some(widths) = widths_of(alloc, formats, operands.as_slice())? else {
                return Ok(None);
            };
            Ok(op_width(formats, *op, &widths))
        }
    }
}

/// The widths of these terms, where no subterm of them is too wide.
#[cycle(width)]
fn widths_of(
    alloc: Global,
    formats: &[Format],
    terms: &[Term],
) -> Result<Option<Vec<u32>>, NoMemory>
    requires { AreFormed (has_operator formats.now) (trees_of (map tree_of terms.now)) }
    ensures { IfOk result (λ ws.
        option_map (λ v. v.items) ws
        ≡ widths_if ARRIVAL formats.now WIDE (trees_of (map tree_of terms.now))) }
{
    let mut widths = Vec::new(alloc);
    for t in terms {
        let Some(width) = width_of(alloc, formats, t)? else {
            return Ok(None);
        };
        widths.push(width)?;
    }
    Ok(Some(widths))
}

/// The width of an operator on operands of these widths, where it isn't too wide.
fn op_width(formats: &[Format], op: Op, widths: &[u32]) -> Option<u32>
    requires has { IsTrue (has_operator formats.now op) }
    requires count { length widths.now ≡ arity op }
    requires within { All (λ w. w ≤ WIDE) widths.now }
    ensures { result ≡ at_most WIDE (op_width ARRIVAL formats.now op widths.now) }
{
    match op {
        Op::Hash | Op::Mac => Some(ARRIVAL),
        Op::Seal | Op::Wrap => sealed_width(widths),
        Op::Format { index, .. } => formats[index as usize].width(widths),
    }
}

/// The width of a seal and of a wrap, where it isn't too wide.
fn sealed_width(widths: &[u32]) -> Option<u32>
    requires some { 0 < length widths.now }
    ensures { result ≡ at_most WIDE (sealed_width widths.now) }
{
    let body = widths[widths.len() - 1];
    if body <= WIDE - 32 {
        Some(body + 32)
    } else {
        None
    }
}
