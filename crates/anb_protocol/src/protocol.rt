//! Protocols.
use crate::parts::{Action, Atom, Parts};
use crate::plans::{Names, Plan};
use anb_base::{NoMemory, Suite, Text};
use anb_format::Format;
use anb_term::Term;
use std::alloc::Global;
use std::marker::Model;

/// A protocol: what a well-formed narration tells, by numbers. An atom's number is the place of its
/// name among all names of the type items, a format's index the place of its item, and roles are
/// numbered in the order in which they first head a line of knowledge or stand in an action, lines of
/// knowledge first; all from 0.
#[derive(Drop)]
pub struct Protocol {
    parts: Parts,
    makes: bool,
}

impl Model for Protocol {
    ghost use Rattle.std.specs.Prelude.{◌↔◌, IsTrue};
    ghost use Rattle.anb_base.specs.contracts.content.Suite as suite;
    ghost use Rattle.anb_format.specs.contracts.formats.Format as format;
    ghost use Rattle.anb_protocol.specs.contracts.parts.Atom as atom;
    ghost use Rattle.anb_protocol.specs.Protocols.{ProtocolValue};
    ghost use Rattle.anb_protocol.specs.Codes.{coded_protocol};

    ghost Value = { ProtocolValue };

    ghost coded = { coded_protocol suite.the_row.coded format.the_row.coded atom.the_row.coded };

    ghost use Rattle.anb_protocol.specs.Plans.{MakesNames};
    ghost use Rattle.anb_protocol.specs.WellFormed.{IsProtocol};
    ghost use Rattle.anb_protocol.specs.Views.{value_of};

    ghost view = { λ p. value_of p.parts };

    ghost invariant = { λ p. IsProtocol (value_of p.parts)
        × (IsTrue p.makes ↔ MakesNames (value_of p.parts)) };
}

impl Protocol {
    ghost use Rattle.std.specs.Prelude.{◌≡◌, ◌<◌, ◌↔◌, ℕ, List, map, length, slice_get, Some, false, IfOk, IfSome, IfNone, IsTrue};
    ghost use Rattle.std.specs.List.{list_any};
    ghost use Rattle.std.specs.Str.{bytes_eq};
    ghost use Rattle.anb_term.specs.View.{tree_of};
    ghost use Rattle.std.specs.List.{position_from};
    ghost use Rattle.anb_protocol.specs.Plans.{names_made, plan_of, MakesNames};
    ghost use Rattle.anb_protocol.specs.Texts.{IsTermOf, term_text, known_texts, known_names};
    ghost use Rattle.anb_protocol.specs.Views.{action_value, value_of};
    ghost use Rattle.anb_protocol.specs.WellFormed.{IsProtocol};

    /// The protocol that has these parts, in which some role makes a name or not.
    pub fn of(parts: Parts, makes: bool) -> Self
        requires protocol { IsProtocol (value_of parts) }
        requires makes { IsTrue makes ↔ MakesNames (value_of parts) }
        ensures { result ≡ value_of parts }
    {
        Protocol { parts, makes }
    }

    pub fn name(&self) -> &Text
        ensures name { result.now ≡ self.now.name }
        ensures protocol { IsProtocol self.now }
    {
        &self.parts.name
    }

    pub fn suite(&self) -> Suite
        ensures { result ≡ self.now.suite }
    {
        self.parts.suite
    }

    pub fn formats(&self) -> &[Format]
        ensures { result.now ≡ self.now.formats }
    {
        self.parts.formats.as_slice()
    }

    pub fn roles(&self) -> &[Text]
        ensures { result.now ≡ self.now.roles }
    {
        self.parts.roles.as_slice()
    }

    /// The actions, in order.
    pub fn messages(&self) -> &[Action]
        ensures actions { map action_value result.now ≡ self.now.actions }
        ensures protocol { IsProtocol self.now }
    {
        self.parts.actions.as_slice()
    }

    /// For each action, the names that its sender makes, in the order in which they first occur in
    /// the message.
    pub fn made(&self, alloc: Global) -> Result<Vec<Names>, NoMemory>
        ensures { IfOk result (λ made. made.items ≡ names_made self.now) }
    {
        self.parts.made(alloc)
    }

    /// How many actions there are.
    pub fn actions(&self) -> u32
        ensures { result ≡ length self.now.actions }
    {
        self.parts.actions.as_slice().len() as u32
    }

    /// Whether some role makes a name.
    pub fn has_fresh(&self) -> bool
        ensures { IsTrue result ↔ MakesNames self.now }
    {
        self.makes
    }

    /// The number of the role with this name.
    pub fn role_of(&self, name: &[u8]) -> Option<u32>
        ensures value { result ≡ position_from (λ y. bytes_eq y name.now) 0 self.now.roles }
        ensures some { IfSome result (λ role. slice_get self.now.roles role ≡ Some name.now) }
        ensures none { IfNone result (list_any (λ y. bytes_eq y name.now) self.now.roles ≡ false) }
    {
        self.parts.role_of(name)
    }

    /// What a role does, one event after another.
    pub fn plan(&self, alloc: Global, role: u32) -> Result<Plan, NoMemory>
        requires { role < length self.now.roles }
        ensures plan { IfOk result (λ plan. plan ≡ plan_of self.now role) }
        ensures protocol { IsProtocol self.now }
    {
        self.parts.plan(alloc, role)
    }

    /// The canonical text of a term.
    pub fn text_of_term(&self, alloc: Global, t: &Term) -> Result<Text, NoMemory>
        requires { IsTermOf self.now (tree_of t.now) }
        ensures { IfOk result (λ text. text ≡ term_text self.now (tree_of t.now)) }
    {
        self.parts.text_of_term(alloc, t)
    }

    /// All names that terms may have as an atom, by the numbers of their atoms.
    pub fn declared(&self) -> &[Atom]
        ensures { result.now ≡ self.now.atoms }
    {
        self.parts.atoms.as_slice()
    }

    /// The texts of the terms that a role knows, in order.
    pub fn known(&self, alloc: Global, role: u32) -> Result<Vec<Text>, NoMemory>
        requires { role < length self.now.roles }
        ensures { IfOk result (λ texts. texts.items ≡ known_texts self.now role) }
    {
        self.parts.known(alloc, role)
    }

    /// The names that occur in some role's knowledge, in the order in which they first do.
    pub fn atoms(&self, alloc: Global) -> Result<Vec<Text>, NoMemory>
        ensures { IfOk result (λ names. names.items ≡ known_names self.now) }
    {
        self.parts.known_names(alloc)
    }
}
