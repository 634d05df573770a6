//! A plan's events, each done as instructions.
ghost use Rattle.std.specs.Prelude.{◌≡◌, ◌≢◌, ◌≤◌, ℕ, List, None, [], length, drop, map, IfOk, IfErr};
ghost use Rattle.anb_compile.specs.Sharing.{register_at};
ghost use Rattle.std.specs.List.{AllPairs};
ghost use Rattle.anb_code.specs.Taking.{take_texts};
ghost use Rattle.anb_compile.specs.Writing.{Context};
ghost use Rattle.anb_compile.specs.Emitting.{known_in, IsPlan, Emits, RefusesPlan};

use crate::CompileNo;
use crate::writer::Writer;
use anb_base::{NoMemory, Text};
use anb_basis::{Basis, Check};
use anb_code::Instr;
use anb_protocol::{Event, Plan};
use anb_term::Term;
use std::alloc::Global;

/// The code of a role while it is made: what is written, what the role can compose and has to check,
/// and how many of its initial values have an entry.
#[derive(Drop)]
pub(crate) struct Emission {
    pub(crate) writer: Writer,
    pub(crate) basis: Basis,
    pub(crate) known: u32,
}

impl Emission {
    ghost use Rattle.std.specs.Prelude.{◌≡◌, List, [], ◌∷◌, ◌++◌, ℕ, length, map, OnOk, IfErr, IfOk};
    ghost use Rattle.anb_term.specs.View.{tree_of};
    ghost use Rattle.anb_code.specs.declared.instr.Instr.TheVariants as instr;
    ghost use Rattle.anb_code.specs.Taking.{take_texts};
    ghost use Rattle.anb_protocol.specs.Plans.{PlanEvent, to_know, to_make, to_send, to_receive, term_in};
    ghost use Rattle.anb_protocol.specs.Views.{plan_event};
    ghost use Rattle.anb_compile.specs.Writing.{Context};
    ghost use Rattle.anb_close.specs.Entries.{HasAdded, IsKnown};
    ghost use Rattle.anb_basis.specs.Checks.{InOrder};
    ghost use Rattle.anb_compile.specs.Unsent.{label_of};
    ghost use Rattle.anb_compile.specs.Emitting.{WasKnown, IsPlan, HasDone, Labelled, Does, CanDo, Blocks, IsBegun, RefusesPlan, known_in};

    /// Does nothing, and tells what a basis keeps of its entries and checks.
    fn tell_basis(&self)
        ensures { WasKnown self.now.basis.0 self.now.basis.1 }
    {
        let _ = self.basis.given();
    }

    /// Takes the term of the next label. The checks to make now stand from a place on.
    fn learn(&mut self, alloc: Global, term: &Term) -> Result<u64, NoMemory>
        requires { (e : PlanEvent) × (term_in e ≡ tree_of term.now)
            × (label_of e ≡ tree_of term.now ∷ []) × CanDo self.old e }
        ensures writer { self.new.writer ≡ self.old.writer }
        ensures known { self.new.known ≡ self.old.known }
        ensures before { WasKnown self.old.basis.0 self.old.basis.1 }
        ensures entries { OnOk result (IsKnown self.new.basis.0) }
        ensures added { OnOk result (HasAdded self.old.basis.0 term.now self.new.basis.0) }
        ensures order { OnOk result
            (InOrder (length self.old.basis.0) self.new.basis.0 self.old.basis.1 self.new.basis.1) }
        ensures first { IfOk result (λ first. first ≡ length self.old.basis.1) }
    {
        self.tell_basis();
        let first = self.basis.next(alloc, term)?;
        self.tell_basis();
        Ok(first)
    }

    /// Writes the checks from a place on.
    fn check_from(&mut self, alloc: Global, first: u64) -> Result<(), NoMemory>
        requires { (c : Context) × (before : List PlanEvent) × (after : List PlanEvent)
            × IsPlan c (before ++ after) × Labelled c before after self.old first }
        ensures basis { self.new.basis ≡ self.old.basis }
        ensures texts { OnOk result
            (take_texts self.new.writer.code.items ≡ take_texts self.old.writer.code.items) }
        ensures done { OnOk result ((c : Context) (before after : List PlanEvent)
            → IsPlan c (before ++ after) → Labelled c before after self.old first
            → HasDone c before after self.new) }
    {
        let checks = behind(self.basis.given(), first as usize);
        self.writer.checks(alloc, checks)?;
        Ok(())
    }

    /// Gives an initial value its entry.
    fn know(&mut self, alloc: Global, term: &Term) -> Result<(), NoMemory>
        requires { CanDo self.old (to_know (tree_of term.now)) }
        ensures texts { OnOk result
            (take_texts self.new.writer.code.items ≡ take_texts self.old.writer.code.items) }
        ensures does { OnOk result (Does self.old self.new (to_know (tree_of term.now))) }
    {
        let first = self.learn(alloc, term)?;
        self.writer.place(self.known)?;
        self.known += 1;
        self.check_from(alloc, first)?;
        Ok(())
    }

    /// Makes a name.
    fn make(&mut self, alloc: Global, term: &Term) -> Result<(), NoMemory>
        requires { CanDo self.old (to_make (tree_of term.now)) }
        ensures texts { OnOk result
            (take_texts self.new.writer.code.items ≡ take_texts self.old.writer.code.items) }
        ensures does { OnOk result (Does self.old self.new (to_make (tree_of term.now))) }
    {
        let first = self.learn(alloc, term)?;
        self.writer.put_label(Instr::Fresh)?;
        self.check_from(alloc, first)?;
        Ok(())
    }

    /// Receives.
    fn receive(&mut self, alloc: Global, action: u32, term: &Term) -> Result<(), NoMemory>
        requires { CanDo self.old (to_receive action (tree_of term.now)) }
        ensures texts { OnOk result
            (take_texts self.new.writer.code.items ≡ take_texts self.old.writer.code.items) }
        ensures does { OnOk result (Does self.old self.new (to_receive action (tree_of term.now))) }
    {
        let _ = action;
        let first = self.learn(alloc, term)?;
        self.writer.put_label(Instr::Recv)?;
        self.check_from(alloc, first)?;
        Ok(())
    }

    /// Composes and sends a message.
    fn send(&mut self, alloc: Global, role: u32, action: u32, term: &Term) -> Result<(), CompileNo>
        requires { CanDo self.old (to_send action (tree_of term.now)) }
        ensures texts { OnOk result
            (take_texts self.new.writer.code.items ≡ take_texts self.old.writer.code.items) }
        ensures does { OnOk result (Does self.old self.new (to_send action (tree_of term.now))) }
        ensures blocks { IfErr result (Blocks self.old role (to_send action (tree_of term.now))) }
    {
        self.tell_basis();
        match self.basis.closure().compose(alloc, term)? {
            None => Err(CompileNo::CannotSend { action, role }),
            Some(made) => {
                let register = self.writer.compose(alloc, &made)?;
                self.writer.send(register)?;
                Ok(())
            }
        }
    }

    /// Does an event.
    pub(crate) fn event(&mut self, alloc: Global, role: u32, event: &Event) -> Result<(), CompileNo>
        requires { CanDo self.old (plan_event event.now) }
        ensures texts { OnOk result
            (take_texts self.new.writer.code.items ≡ take_texts self.old.writer.code.items) }
        ensures does { OnOk result (Does self.old self.new (plan_event event.now)) }
        ensures blocks { IfErr result (Blocks self.old role (plan_event event.now)) }
    {
        match event {
            Event::Know(term) => self.know(alloc, term)?,
            Event::Fresh(term) => self.make(alloc, term)?,
            Event::Send { action, term } => self.send(alloc, role, *action, term)?,
            Event::Recv { action, term } => self.receive(alloc, *action, term)?,
        }
        Ok(())
    }

    /// Does these events, where takes of the texts of what is known were written.
    fn events(&mut self, alloc: Global, role: u32, events: &[Event]) -> Result<(), CompileNo>
        requires plan { (c : Context) × IsPlan c (map plan_event events.now) }
        requires begun { (texts : List (List ℕ))
            × (length texts ≡ length (known_in (map plan_event events.now)))
            × IsBegun self.old texts }
        ensures texts { OnOk result
            (take_texts self.new.writer.code.items ≡ take_texts self.old.writer.code.items) }
        ensures done { OnOk result ((c : Context) → IsPlan c (map plan_event events.now)
            → HasDone c (map plan_event events.now) [] self.new) }
        ensures refused { IfErr result (RefusesPlan (map plan_event events.now) role) }
    {
        for event in events {
            match self.event(alloc, role, event) {
                Ok(()) => {}
                Err(no) => return Err(no),
            }
        }
        Ok(())
    }
}

/// Takes of these texts.
fn taken(alloc: Global, texts: Vec<Text>) -> Result<Writer, NoMemory>
    requires { length texts.items ≤ 65536 }
    ensures code { IfOk result (λ w. w.code.items ≡ map Instr.Take texts.items) }
    ensures next { IfOk result (λ w. w.next ≡ length texts.items) }
    ensures places { IfOk result (λ w. w.places.items ≡ []) }
    ensures built { IfOk result (λ w. (keys : List ℕ) → register_at w.built keys ≡ None) }
{
    let mut writer = Writer::new(alloc);
    for text in texts {
        writer.take(text)?;
    }
    Ok(writer)
}

/// The instructions for a plan of a role, whose initial values have these label texts.
pub(crate) fn emit(
    alloc: Global,
    role: u32,
    texts: Vec<Text>,
    plan: &Plan,
) -> Result<Vec<Instr>, CompileNo>
    requires plan { (c : Context) × IsPlan c plan.now }
    requires texts { length texts.items ≡ length (known_in plan.now) }
    requires differ { AllPairs (λ one other. one ≢ other) texts.items }
    ensures texts { IfOk result (λ code. take_texts code.items ≡ texts.items) }
    ensures emits { IfOk result (λ code. (c : Context) → IsPlan c plan.now
        → Emits c plan.now code.items) }
    ensures refused { IfErr result (RefusesPlan plan.now role) }
{
    let mut emission = Emission {
        writer: taken(alloc, texts)?,
        basis: Basis::new(alloc),
        known: 0,
    };
    match emission.events(alloc, role, plan.events()) {
        Ok(()) => {}
        Err(no) => return Err(no),
    }
    emission.tell_basis();
    let Emission {
        writer,
        basis: _,
        known: _,
    } = emission;
    let Writer {
        code,
        next: _,
        places: _,
        built: _,
    } = writer;
    Ok(code)
}

/// The checks from a place on.
fn behind(checks: &[Check], first: usize) -> &[Check]
    requires { first ≤ length checks.now }
    ensures { result.now ≡ drop first checks.now }
{
    &checks[first..]
}
