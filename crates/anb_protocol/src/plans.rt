//! The plans of roles.
ghost use Rattle.std.specs.Prelude.{◌≡◌, ◌++◌, OnOk, map};
ghost use Rattle.anb_protocol.specs.Plans.{own_events};
ghost use Rattle.anb_protocol.specs.Views.{action_value, plan_event};

use crate::parts::{Action, Parts};
use crate::seen::{put_all_atoms, put_atoms, take_new};
use anb_base::{NoMemory, Text};
use anb_syntax::Sort;
use anb_term::Term;
use std::alloc::Global;
use std::marker::Model;

/// What a role does next: it knows a term from the start, makes a new one, sends or receives. Actions
/// are numbered from 1.
#[derive(Drop)]
pub enum Event {
    Know(Term),
    Fresh(Term),
    Send { action: u32, term: Term },
    Recv { action: u32, term: Term },
}

impl Event {
    ghost use Rattle.std.specs.Prelude.{◌≡◌};
    ghost use Rattle.anb_term.specs.View.{tree_of};
    ghost use Rattle.anb_protocol.specs.Plans.{term_in};
    ghost use Rattle.anb_protocol.specs.Views.{plan_event};

    /// The term that the role knows, makes, sends or receives.
    pub fn term(&self) -> &Term
        ensures { tree_of result.now ≡ term_in (plan_event self.now) }
    {
        match self {
            Event::Know(term) => term,
            Event::Fresh(term) => term,
            Event::Send { term, .. } => term,
            Event::Recv { term, .. } => term,
        }
    }
}

/// What a role does, one event after another.
#[derive(Drop)]
pub struct Plan {
    pub events: Vec<Event>,
}

impl Model for Plan {
    ghost use Rattle.std.specs.Prelude.{List, map};
    ghost use Rattle.std.specs.Coded.{coded_list};
    ghost use Rattle.anb_protocol.specs.Plans.{PlanEvent};
    ghost use Rattle.anb_protocol.specs.Codes.{coded_event};

    ghost Value = { List PlanEvent };

    ghost coded = { coded_list coded_event };

    ghost use Rattle.anb_protocol.specs.Views.{plan_event};

    ghost view = { λ p. map plan_event p.events.items };
}

impl Plan {
    ghost use Rattle.std.specs.Prelude.{◌≡◌, map};
    ghost use Rattle.anb_protocol.specs.Views.{plan_event};

    /// A plan of these events, which keeps their memory.
    pub fn new(events: Vec<Event>) -> Plan
        ensures { result ≡ map plan_event events.items }
    {
        Plan { events }
    }

    pub fn events(&self) -> &[Event]
        ensures { map plan_event result.now ≡ self.now }
    {
        self.events.as_slice()
    }

    /// The events, with their memory.
    pub fn into_vec(self) -> Vec<Event>
        ensures { map plan_event result.items ≡ self }
    {
        let Plan { events } = self;
        events
    }
}

/// Names, in order.
#[derive(Drop)]
pub struct Names {
    items: Vec<Text>,
}

impl Model for Names {
    ghost use Rattle.std.specs.Prelude.{ℕ, List};

    ghost Value = { List (List ℕ) };

    ghost view = { λ names. names.items.items };
}

impl Names {
    ghost use Rattle.std.specs.Prelude.{◌≡◌};

    /// These names, which keep their memory.
    fn new(items: Vec<Text>) -> Names
        ensures { result ≡ items.items }
    {
        Names { items }
    }

    pub fn as_slice(&self) -> &[Text]
        ensures { result.now ≡ self.now }
    {
        self.items.as_slice()
    }
}

impl Parts {
    ghost use Rattle.std.specs.Prelude.{◌≡◌, ◌↔◌, ◌<◌, ◌^◌, length, map, filter, replicate, false, IfOk, OnOk, IsTrue};
    ghost use Rattle.std.specs.List.{AllByRecursion};
    ghost use Rattle.anb_term.specs.View.{tree_of};
    ghost use Rattle.anb_protocol.specs.Plans.{plan_of, names_made, names_number_or_key, to_know, MakesNames};
    ghost use Rattle.anb_protocol.specs.Protocols.{ActionValue};
    ghost use Rattle.anb_protocol.specs.Texts.{atoms_in, atoms_in_each, known_by, known_terms};
    ghost use Rattle.anb_protocol.specs.Seen.{marked, new_among};
    ghost use Rattle.anb_protocol.specs.Views.{plan_event, value_of};

    /// What a role does.
    pub(crate) fn plan(&self, alloc: Global, role: u32) -> Result<Plan, NoMemory>
        requires { length self.now.actions.items < 2 ^ 32 }
        ensures { IfOk result (λ plan. plan ≡ plan_of (value_of self.now) role) }
    {
        let mut events = self.known_events(alloc, role)?;
        let mut seen = self.known_flags(alloc)?;
        for (i, action) in self.actions.iter().enumerate() {
            let names = self.made_names(alloc, &mut seen, &action.message)?;
            put_events(alloc, &mut events, action, role, i as u32 + 1, &names)?;
        }
        Ok(Plan::new(events))
    }

    /// The events by which a role knows its terms.
    fn known_events(&self, alloc: Global, role: u32) -> Result<Vec<Event>, NoMemory>
        ensures { IfOk result (λ events.
            map plan_event events.items ≡ map to_know (known_by (value_of self.now) role)) }
    {
        let terms = self.known_terms(role);
        let mut events = Vec::new(alloc);
        for term in terms {
            events.push(Event::Know(term.copy(alloc)?))?;
        }
        Ok(events)
    }

    /// The terms that a role knows.
    pub(crate) fn known_terms(&self, role: u32) -> &[Term]
        ensures { map tree_of result.now ≡ known_by (value_of self.now) role }
    {
        match self.knows.get(role as usize) {
            Some(terms) => terms.as_slice(),
            None => &[],
        }
    }

    /// The atoms in what some role knows, in order.
    pub(crate) fn known_atoms(&self, alloc: Global) -> Result<Vec<u32>, NoMemory>
        ensures { IfOk result (λ atoms.
            atoms.items ≡ atoms_in_each (known_terms (value_of self.now))) }
    {
        let mut atoms = Vec::new(alloc);
        for terms in &self.knows {
            put_all_atoms(&mut atoms, terms.as_slice())?;
        }
        Ok(atoms)
    }

    /// A flag for each atom, which tells whether it occurs in what some role knows.
    fn known_flags(&self, alloc: Global) -> Result<Vec<bool>, NoMemory>
        ensures { IfOk result (λ flags.
            flags.items ≡ marked (replicate (length self.now.atoms.items) false)
            (atoms_in_each (known_terms (value_of self.now)))) }
    {
        let atoms = self.known_atoms(alloc)?;
        let mut flags = self.no_flags(alloc)?;
        let _ = take_new(alloc, &mut flags, &atoms)?;
        Ok(flags)
    }

    /// A flag for each atom, none of them set.
    pub(crate) fn no_flags(&self, alloc: Global) -> Result<Vec<bool>, NoMemory>
        ensures { IfOk result (λ flags.
            flags.items ≡ replicate (length self.now.atoms.items) false) }
    {
        Ok(vec![in alloc; false; self.atoms.len()]?)
    }

    /// The names that the sender of a message makes, where the flags tell which occur before. The
    /// atoms of the message are marked then.
    fn made_names(
        &self,
        alloc: Global,
        seen: &mut Vec<bool>,
        message: &Term,
    ) -> Result<Vec<u32>, NoMemory>
        ensures made { IfOk result (λ names.
            names.items ≡ filter (names_number_or_key (value_of self.now))
            (new_among seen.old.items (atoms_in (tree_of message.now)))) }
        ensures marks { OnOk result
            (seen.new.items ≡ marked seen.old.items (atoms_in (tree_of message.now))) }
    {
        let mut atoms = Vec::new(alloc);
        put_atoms(&mut atoms, message)?;
        let new = take_new(alloc, seen, &atoms)?;
        self.numbers_and_keys(alloc, &new)
    }

    /// Those of these atoms that are numbers or keys.
    fn numbers_and_keys(&self, alloc: Global, atoms: &[u32]) -> Result<Vec<u32>, NoMemory>
        ensures { IfOk result (λ names.
            names.items ≡ filter (names_number_or_key (value_of self.now)) atoms.now) }
    {
        let mut names = Vec::new(alloc);
        for a in atoms {
            if self.is_number_or_key(*a) {
                names.push(*a)?;
            }
        }
        Ok(names)
    }

    /// Whether some role makes a name.
    pub fn makes_names(&self, alloc: Global) -> Result<bool, NoMemory>
        requires { AllByRecursion (λ (a : ActionValue). a.from < length self.now.roles.items)
            (value_of self.now).actions }
        ensures { IfOk result (λ makes. IsTrue makes ↔ MakesNames (value_of self.now)) }
    {
        let mut seen = self.known_flags(alloc)?;
        for action in &self.actions {
            let names = self.made_names(alloc, &mut seen, &action.message)?;
            if !names.as_slice().is_empty() {
                return Ok(true);
            }
        }
        Ok(false)
    }

    /// For each action, the names that its sender makes.
    pub(crate) fn made(&self, alloc: Global) -> Result<Vec<Names>, NoMemory>
        ensures { IfOk result (λ made. made.items ≡ names_made (value_of self.now)) }
    {
        let mut seen = self.known_flags(alloc)?;
        let mut made = Vec::new(alloc);
        for action in &self.actions {
            let atoms = self.made_names(alloc, &mut seen, &action.message)?;
            made.push(Names::new(self.atom_texts(alloc, &atoms)?))?;
        }
        Ok(made)
    }

    fn is_number_or_key(&self, a: u32) -> bool
        ensures { result ≡ names_number_or_key (value_of self.now) a }
    {
        match self.atoms.get(a as usize) {
            Some(atom) => !matches!(atom.sort, Sort::Agent),
            None => false,
        }
    }
}

/// Appends what a role does at an action with this number, whose sender makes these names.
fn put_events(
    alloc: Global,
    events: &mut Vec<Event>,
    action: &Action,
    role: u32,
    number: u32,
    names: &[u32],
) -> Result<(), NoMemory>
    ensures { OnOk result (map plan_event events.new.items
        ≡ map plan_event events.old.items ++ own_events role number names.now
        (action_value action.now)) }
{
    if action.from == role {
        for a in names {
            events.push(Event::Fresh(Term::Atom(*a)))?;
        }
        let term = action.message.copy(alloc)?;
        events.push(Event::Send {
            action: number,
            term,
        })?;
    } else if action.to == role {
        let term = action.message.copy(alloc)?;
        events.push(Event::Recv {
            action: number,
            term,
        })?;
    }
    Ok(())
}
