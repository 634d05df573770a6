//! What a role drew, and what it has beside that, by a transcript.
ghost use Rattle.std.specs.Prelude.{◌≡◌, ◌+◌, ◌<◌, ◌≤◌, ◌^◌, ◌++◌, ◌∷◌, [], ℕ, length, map, take, All, IfOk, OnOk};
ghost use Rattle.std.specs.List.{AllByRecursion};
ghost use Rattle.anb_base.specs.Bytes.{IsBytes};
ghost use Rattle.anb_base.specs.declared.TheConstants.{ARRIVAL};
ghost use Rattle.anb_machine.specs.Machines.{gives};
ghost use Rattle.anb_plays.specs.Plays.{done};
ghost use Rattle.anb_term.specs.View.{tree_of};
ghost use Rattle.anb_protocol.specs.Texts.{known_by};
ghost use Rattle.anb_judge.specs.Verdicts.{line_bytes};
ghost use Rattle.anb_draws.specs.Draws.{IsDrawn, Tells, gone_over, value_in};
ghost use Rattle.anb_compile.specs.Emitting.{known_in};
ghost use Rattle.anb_protocol.specs.Views.{plan_event};
ghost use Rattle.anb_draws.specs.Telling.{name_of, named, value_of};

use crate::draws::{Drawn, Draws, by_name};
use crate::names::names_by;
use crate::telling::{Teller, teller_of};
use anb_algebra::ByteAlgebra;
use anb_base::{ARRIVAL, Bytes, NoMemory};
use anb_judge::judge;
use anb_machine::{Machine, Turn};
use anb_plays::laws::runs_as_played;
use anb_protocol::{Event, Protocol, plans_know_first, protocols_hold, terms_of_plans};
use anb_term::Term;
use anb_transcript::{ReplayEnd, Transcript, TranscriptLine};
use std::alloc::Global;

/// The values of all names, of a role that begins with these values, as far as who sees the role can tell
/// them of the lines on which it goes on; none, where it drew nothing by then. It takes as long as judging
/// the transcript, compiling the role once more, and looking for each name among those that it knows.
pub fn drawn(
    alloc: Global,
    p: &Protocol,
    role: u32,
    initial: &[Bytes],
    transcript: &Transcript,
) -> Result<Draws, NoMemory>
    requires role { role < length p.now.roles }
    requires count { length initial.now ≡ length (known_by p.now role) }
    requires bytes { AllByRecursion IsBytes initial.now }
    requires short { All (λ value. length value ≤ ARRIVAL) initial.now }
    requires few { length transcript.now + 1 < 2 ^ 32 }
    requires lines { All (λ line. length (line_bytes line) ≤ ARRIVAL) transcript.now }
    ensures { IfOk result (IsDrawn (record {
      protocol = p.now;
      role = role;
      initial = initial.now;
      lines = transcript.now;
    })) }
{
    let end = judge(alloc, p, role, initial, transcript)?;
    let n = gone_over(&end, transcript.lines().len());
    drawn_by(alloc, p, role, initial, transcript.lines(), n)
}

/// Over how many of so many lines who sees the role goes on.
fn gone_over(end: &ReplayEnd, lines: usize) -> usize
    ensures { result ≡ gone_over end.now lines }
{
    match end {
        ReplayEnd::Follows | ReplayEnd::Short(_) => lines,
        ReplayEnd::Differs { line, .. } => line.saturating_sub(1) as usize,
        ReplayEnd::Stopped { line, .. } => line.saturating_sub(1) as usize,
        ReplayEnd::NoMemory => 0,
    }
}

/// The values of the names, by the role's first n messages.
fn drawn_by(
    alloc: Global,
    p: &Protocol,
    role: u32,
    initial: &[Bytes],
    lines: &[TranscriptLine],
    n: usize,
) -> Result<Draws, NoMemory>
    requires role { role < length p.now.roles }
    requires count { length initial.now ≡ length (known_by p.now role) }
    requires bytes { AllByRecursion IsBytes initial.now }
    requires short { All (λ value. length value ≤ ARRIVAL) initial.now }
    requires lines { All (λ line. length (line_bytes line) ≤ ARRIVAL) lines.now }
    ensures { IfOk result (λ draws. (name : ℕ) → Tells (record {
      protocol = p.now;
      role = role;
      initial = initial.now;
      lines = lines.now;
    }) n name (value_in draws name)) }
{
    protocols_hold();
    plans_know_first();
    terms_of_plans();
    let algebra = ByteAlgebra::new(p.formats(), p.suite());
    runs_as_played(&algebra);
    let plan = p.plan(alloc, role)?;
    let names = names_by(alloc, plan.events(), n)?;
    if names.is_empty() {
        return by_name(alloc, Vec::new(alloc));
    }
    let mut draws = known_names(alloc, plan.events(), initial)?;
    let Teller { code, names } = teller_of(alloc, p, role, n, &draws)?;
    let arrivals = first_bytes(alloc, lines, n)?;
    let mut machine = Machine::start(alloc, &code, initial, &[0; 32], 0)?;
    hear(alloc, &mut machine, arrivals)?;
    let mut others = said(alloc, &mut machine, names)?;
    draws.append(&mut others)?;
    by_name(alloc, draws)
}

/// The names that are known by these events, with their values.
fn known_names(alloc: Global, events: &[Event], values: &[Bytes]) -> Result<Vec<Drawn>, NoMemory>
    ensures { IfOk result (λ draws.
        draws.items ≡ named (known_in (map plan_event events.now)) values.now) }
{
    let mut draws = Vec::new(alloc);
    let mut i = 0;
    for event in events {
        match event {
            Event::Know(term) => {
                let Some(value) = values.get(i) else {
                    return Ok(draws);
                };
                i += 1;
                put_named(alloc, &mut draws, term, value)?;
            }
            Event::Fresh(_) | Event::Send { .. } | Event::Recv { .. } => {}
        }
    }
    Ok(draws)
}

/// Puts a term's value, where the term is a name.
fn put_named(
    alloc: Global,
    draws: &mut Vec<Drawn>,
    term: &Term,
    value: &Bytes,
) -> Result<(), NoMemory>
    ensures { OnOk result (draws.new.items
        ≡ draws.old.items ++ named (tree_of term.now ∷ []) (value.now ∷ [])) }
{
    match term {
        Term::Atom(name) => {
            let value = copy(alloc, value.as_slice())?;
            draws.push(Drawn { name: *name, value })?;
            Ok(())
        }
        Term::Node(_, _) => Ok(()),
    }
}

/// The bytes of the first n lines.
fn first_bytes(alloc: Global, lines: &[TranscriptLine], n: usize) -> Result<Vec<Bytes>, NoMemory>
    ensures same { IfOk result (λ bytes. bytes.items ≡ map line_bytes (take n lines.now)) }
    ensures bytes { IfOk result (λ bytes. AllByRecursion IsBytes bytes.items) }
{
    let mut bytes = Vec::new(alloc);
    let mut left = n;
    for line in lines {
        if left == 0 {
            return Ok(bytes);
        }
        left -= 1;
        bytes.push(copy(alloc, bytes_of(line))?)?;
    }
    Ok(bytes)
}

/// The bytes of a line.
fn bytes_of(line: &TranscriptLine) -> &[u8]
    ensures { result.now ≡ line_bytes line.now }
{
    match line {
        TranscriptLine::In(arrival) => arrival.as_slice(),
        TranscriptLine::Out(message) => message.as_slice(),
    }
}

fn copy(alloc: Global, bytes: &[u8]) -> Result<Bytes, NoMemory>
    ensures same { IfOk result (λ copy. copy ≡ bytes.now) }
    ensures bytes { IfOk result IsBytes }
{
    Ok(Bytes::new(Vec::from_slice(alloc, bytes)?))
}

/// Hands in these arrivals, each of which the machine wants.
fn hear(alloc: Global, machine: &mut Machine<'_>, arrivals: Vec<Bytes>) -> Result<(), NoMemory>
    requires { All (λ arrival. length arrival ≤ ARRIVAL) arrivals.items }
    ensures { OnOk result (gives machine.new [] ≡ gives machine.old arrivals.items) }
{
    for arrival in arrivals {
        match machine.advance(alloc) {
            Turn::Wants(_) => machine.arrive(arrival),
            // It goes on over these lines, so it wants each.
            Turn::Message(_) | Turn::Done | Turn::Stopped(_) | Turn::NoMemory => {
                return Err(NoMemory);
            }
        }
    }
    Ok(())
}

/// The values of these names, which the machine says next and then is done.
fn said(alloc: Global, machine: &mut Machine<'_>, names: Vec<u32>) -> Result<Vec<Drawn>, NoMemory>
    ensures names { IfOk result (λ draws. map name_of draws.items ≡ names.items) }
    ensures values { IfOk result (λ draws. gives machine.old []
        ≡ record { sent = map value_of draws.items; end = done; left = [] }) }
{
    let mut draws = Vec::new(alloc);
    for name in names {
        match machine.advance(alloc) {
            Turn::Message(value) => draws.push(Drawn { name, value })?,
            // It says a name for each.
            Turn::Wants(_) | Turn::Done | Turn::Stopped(_) | Turn::NoMemory => {
                return Err(NoMemory);
            }
        }
    }
    match machine.advance(alloc) {
        Turn::Done => Ok(draws),
        // And nothing else.
        Turn::Message(_) | Turn::Wants(_) | Turn::Stopped(_) | Turn::NoMemory => Err(NoMemory),
    }
}
