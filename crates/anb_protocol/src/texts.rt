//! Terms as texts.
ghost use Rattle.std.specs.Prelude.{◌≡◌, ◌++◌, ◌∷◌, [], map, string_bytes, OnOk, if◌then◌else◌};
ghost use Rattle.anb_term.specs.Tree.{trees_of};
ghost use Rattle.anb_term.specs.View.{tree_of};
ghost use Rattle.anb_protocol.specs.Texts.{IsTermOf, AreTermsOf, term_text, op_text, operands_text};
ghost use Rattle.anb_protocol.specs.Views.{value_of};

use crate::parts::Parts;
use crate::seen::take_new;
use anb_base::{NoMemory, Text};
use anb_term::{Op, Term};
use std::alloc::Global;

impl Parts {
    ghost use Rattle.std.specs.Prelude.{◌≡◌, map, IfOk};
    ghost use Rattle.std.specs.List.{AllByRecursion};
    ghost use Rattle.anb_term.specs.View.{tree_of};
    ghost use Rattle.anb_protocol.specs.Texts.{IsTermOf, atom_name, known_by, known_terms, known_texts, known_names, op_text, term_text};
    ghost use Rattle.anb_protocol.specs.Views.{value_of};

    /// The canonical text of a term.
    pub(crate) fn text_of_term(&self, alloc: Global, t: &Term) -> Result<Text, NoMemory>
        requires { IsTermOf (value_of self.now) (tree_of t.now) }
        ensures { IfOk result (λ text. text ≡ term_text (value_of self.now) (tree_of t.now)) }
    {
        let mut out = String::new(alloc);
        put_term(self, &mut out, t)?;
        Ok(Text::new(out))
    }

    /// The texts of the terms that a role knows.
    pub(crate) fn known(&self, alloc: Global, role: u32) -> Result<Vec<Text>, NoMemory>
        requires { AllByRecursion (IsTermOf (value_of self.now))
            (known_by (value_of self.now) role) }
        ensures { IfOk result (λ texts. texts.items ≡ known_texts (value_of self.now) role) }
    {
        let terms = self.known_terms(role);
        self.texts_of_terms(alloc, terms)
    }

    /// The texts of these terms.
    pub(crate) fn texts_of_terms(
        &self,
        alloc: Global,
        terms: &[Term],
    ) -> Result<Vec<Text>, NoMemory>
        requires { AllByRecursion (IsTermOf (value_of self.now)) (map tree_of terms.now) }
        ensures { IfOk result (λ texts.
            texts.items ≡ map (term_text (value_of self.now)) (map tree_of terms.now)) }
    {
        let mut texts = Vec::new(alloc);
        for term in terms {
            texts.push(self.text_of_term(alloc, term)?)?;
        }
        Ok(texts)
    }

    /// The names that occur in some role's knowledge, each where it does first.
    pub(crate) fn known_names(&self, alloc: Global) -> Result<Vec<Text>, NoMemory>
        requires { AllByRecursion (IsTermOf (value_of self.now)) (known_terms (value_of self.now)) }
        ensures { IfOk result (λ names. names.items ≡ known_names (value_of self.now)) }
    {
        let atoms = self.known_atoms(alloc)?;
        let mut flags = self.no_flags(alloc)?;
        let new = take_new(alloc, &mut flags, &atoms)?;
        self.atom_texts(alloc, &new)
    }

    /// The names of these atoms.
    pub(crate) fn atom_texts(&self, alloc: Global, atoms: &[u32]) -> Result<Vec<Text>, NoMemory>
        ensures { IfOk result (λ names.
            names.items ≡ map (atom_name (value_of self.now)) atoms.now) }
    {
        let mut names = Vec::new(alloc);
        for a in atoms {
            names.push(self.atom_text(alloc, *a)?)?;
        }
        Ok(names)
    }

    /// An atom's name.
    fn atom_text(&self, alloc: Global, a: u32) -> Result<Text, NoMemory>
        ensures { IfOk result (λ text. text ≡ atom_name (value_of self.now) a) }
    {
        Ok(Text::new(String::from_str(alloc, self.atom_name(a))?))
    }

    fn atom_name(&self, a: u32) -> &str
        ensures { result.now ≡ atom_name (value_of self.now) a }
    {
        match self.atoms.get(a as usize) {
            Some(atom) => atom.name.as_str(),
            None => "",
        }
    }

    /// How an operator is written.
    fn op_name(&self, op: Op) -> &str
        ensures { result.now ≡ op_text (value_of self.now) op }
    {
        match op {
            Op::Hash => "h",
            Op::Mac => "mac",
            Op::Seal => "scrypt",
            Op::Wrap => "wrap",
            Op::Format { index, .. } => match self.formats.get(index as usize) {
                Some(format) => format.name().as_str(),
                None => "",
            },
        }
    }
}

/// Appends the text of a term.
#[cycle(put)]
fn put_term(parts: &Parts, out: &mut String, t: &Term) -> Result<(), NoMemory>
    requires { IsTermOf (value_of parts.now) (tree_of t.now) }
    ensures { OnOk result (string_bytes out.new
        ≡ string_bytes out.old ++ term_text (value_of parts.now) (tree_of t.now)) }
{
    match t {
        Term::Atom(a) => out.push_str(parts.atom_name(*a))?,
        Term::Node(op, operands) => {
            out.push_str(parts.op_name(*op))?;
            put_operands(parts, out, operands.as_slice())?;
        }
    }
    Ok(())
}

/// Appends operands between their parentheses.
#[cycle(put)]
fn put_operands(parts: &Parts, out: &mut String, operands: &[Term]) -> Result<(), NoMemory>
    requires { AreTermsOf (value_of parts.now) (trees_of (map tree_of operands.now)) }
    ensures { OnOk result (string_bytes out.new
        ≡ string_bytes out.old ++ operands_text (value_of parts.now)
        (trees_of (map tree_of operands.now))) }
{
    out.push_str("(")?;
    let mut first = true;
    for t in operands {
        put_comma(out, first)?;
        put_term(parts, out, t)?;
        first = false;
    }
    out.push_str(")")?;
    Ok(())
}

/// Appends a comma before each operand but the first.
fn put_comma(out: &mut String, first: bool) -> Result<(), NoMemory>
    ensures { OnOk result (string_bytes out.new
        ≡ (if first then string_bytes out.old else string_bytes out.old ++ 44 ∷ [])) }
{
    if first {
        return Ok(());
    }
    out.push_str(",")?;
    Ok(())
}
