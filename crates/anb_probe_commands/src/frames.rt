//! What went over a program's pipes in a case, as comments of a report.
ghost use Rattle.std.specs.Prelude.{◌≡◌, ◌≤◌, ◌++◌, map, true, Some, None, IfOk, OnOk, IfSome, IfNone};
ghost use Rattle.anb_recording.specs.Lines.{line_text, spelled};
ghost use Rattle.anb_term.specs.Tree.{trees_of};
ghost use Rattle.anb_term.specs.View.{tree_of};
ghost use Rattle.anb_protocol.specs.Protocols.{role_name};
ghost use Rattle.anb_protocol.specs.Texts.{op_text};
ghost use Rattle.anb_protocol.specs.Views.{action_value};
ghost use Rattle.anb_verdict.specs.Places.{own_action, own_of, sender_at};
ghost use Rattle.anb_verdict.specs.Texts.{event_text};
ghost use Rattle.anb_probe_commands.specs.Frames.{comma, due_text, frame_text, frames_in, frames_text, heard_by, hearer_at, peer_text, said_by, shown_all, shown_at, shown_name, shown_term, to_text};

use crate::cases::is_own;
use anb_attempts::Scene;
use anb_base::{NoMemory, Text};
use anb_protocol::{Action, Protocol};
use anb_term::{Op, Term};
use anb_transcript::TranscriptLine;
use std::alloc::Global;

/// Appends the frames of a conversation in the scene with this number.
pub(crate) fn put_frames_in(
    alloc: Global,
    out: &mut Vec<u8>,
    p: &Protocol,
    role: u32,
    scenes: &[Scene],
    scene: usize,
    lines: &[TranscriptLine],
) -> Result<(), NoMemory>
    ensures { OnOk result (out.new.items
        ≡ out.old.items ++ frames_in p.now role scenes.now scene lines.now) }
{
    match scenes.get(scene) {
        Some(scene) => put_frames(alloc, out, p, role, scene, lines),
        None => Ok(()),
    }
}

/// Appends the frames of a conversation in a scene.
fn put_frames(
    alloc: Global,
    out: &mut Vec<u8>,
    p: &Protocol,
    role: u32,
    scene: &Scene,
    lines: &[TranscriptLine],
) -> Result<(), NoMemory>
    ensures { OnOk result (out.new.items
        ≡ out.old.items ++ frames_text p.now role scene.now lines.now) }
{
    let mut heard = 0;
    let mut said = 0;
    for (i, line) in lines.iter().enumerate() {
        put_frame(alloc, out, p, role, scene, i + 1, heard, said, line)?;
        heard += heard_by(line);
        said += said_by(line);
    }
    Ok(())
}

/// How many arrivals a line is.
fn heard_by(line: &TranscriptLine) -> usize
    ensures is { result ≡ heard_by line.now }
    ensures most { result ≤ 1 }
{
    match line {
        TranscriptLine::In(_) => 1,
        TranscriptLine::Out(_) => 0,
    }
}

/// How many messages it is.
fn said_by(line: &TranscriptLine) -> usize
    ensures is { result ≡ said_by line.now }
    ensures most { result ≤ 1 }
{
    match line {
        TranscriptLine::In(_) => 0,
        TranscriptLine::Out(_) => 1,
    }
}

/// Appends a frame of an event, where so many arrivals and messages came before.
fn put_frame(
    alloc: Global,
    out: &mut Vec<u8>,
    p: &Protocol,
    role: u32,
    scene: &Scene,
    event: usize,
    heard: usize,
    said: usize,
    line: &TranscriptLine,
) -> Result<(), NoMemory>
    ensures { OnOk result (out.new.items
        ≡ out.old.items ++ frame_text p.now role scene.now event heard said line.now) }
{
    let front = peer_text(alloc, p, role, event, line)?;
    put_text(out, "# ")?;
    put_text(out, front.as_str())?;
    put_due(p, out, scene, heard, said, line)?;
    put_text(out, "\n#   ")?;
    put_line(alloc, out, line)
}

/// At which event a role hears or says something, and with whom it speaks.
fn peer_text(
    alloc: Global,
    p: &Protocol,
    role: u32,
    event: usize,
    line: &TranscriptLine,
) -> Result<Text, NoMemory>
    ensures { IfOk result (λ text. text ≡ peer_text p.now role event line.now) }
{
    match line {
        TranscriptLine::In(_) => event_text(alloc, p, role, event),
        TranscriptLine::Out(_) => to_text(alloc, p, role, event),
    }
}

/// At which event a role hears something, and from whom.
fn event_text(alloc: Global, p: &Protocol, role: u32, event: usize) -> Result<Text, NoMemory>
    ensures { IfOk result (λ text. text ≡ event_text p.now role event) }
{
    let text = format!(in alloc; "event {}, from {}: ", event, sender_at(p, role, event))?;
    Ok(Text::new(text))
}

/// At which event it says something, and to whom.
fn to_text(alloc: Global, p: &Protocol, role: u32, event: usize) -> Result<Text, NoMemory>
    ensures { IfOk result (λ text. text ≡ to_text p.now role event) }
{
    let text = format!(in alloc; "event {}, to {}: ", event, hearer_at(p, role, event))?;
    Ok(Text::new(text))
}

/// Appends the term of a line, where so many arrivals and messages came before.
fn put_due(
    p: &Protocol,
    out: &mut Vec<u8>,
    scene: &Scene,
    heard: usize,
    said: usize,
    line: &TranscriptLine,
) -> Result<(), NoMemory>
    ensures { OnOk result (out.new.items
        ≡ out.old.items ++ due_text p.now scene.now heard said line.now) }
{
    match line {
        TranscriptLine::In(_) => put_term_at(p, out, &scene.arrivals, heard),
        TranscriptLine::Out(_) => put_term_at(p, out, &scene.messages, said),
    }
}

/// Appends a line of a transcript.
pub(crate) fn put_line(
    alloc: Global,
    out: &mut Vec<u8>,
    line: &TranscriptLine,
) -> Result<(), NoMemory>
    ensures { OnOk result (out.new.items ≡ out.old.items ++ line_text line.now) }
{
    match line {
        TranscriptLine::In(arrival) => put_spelled(alloc, out, b'<', arrival.as_slice()),
        TranscriptLine::Out(message) => put_spelled(alloc, out, b'>', message.as_slice()),
    }
}

/// Appends the line with this sign and the digits of these bytes.
fn put_spelled(alloc: Global, out: &mut Vec<u8>, sign: u8, bytes: &[u8]) -> Result<(), NoMemory>
    ensures { OnOk result (out.new.items ≡ out.old.items ++ spelled sign bytes.now) }
{
    let digits = hex::encode(alloc, bytes)?;
    out.push(sign)?;
    out.push(b' ')?;
    out.extend_from_slice(digits.as_bytes())?;
    out.push(b'\n')?;
    Ok(())
}

/// Who sends what a role hears at an event.
fn sender_at(p: &Protocol, role: u32, event: usize) -> &str
    ensures { result.now ≡ sender_at p.now role event }
{
    match own_action(p, role, event) {
        Some(action) => name_of(p, action.from),
        None => "",
    }
}

/// Who hears what a role says at an event.
fn hearer_at(p: &Protocol, role: u32, event: usize) -> &str
    ensures { result.now ≡ hearer_at p.now role event }
{
    match own_action(p, role, event) {
        Some(action) => name_of(p, action.to),
        None => "",
    }
}

/// The name of a role by its number.
fn name_of(p: &Protocol, role: u32) -> &str
    ensures { result.now ≡ role_name p.now role }
{
    match p.roles().get(role as usize) {
        Some(name) => name.as_str(),
        None => "",
    }
}

/// The action with the n-th message of those that a role sends and hears, from 1.
fn own_action(p: &Protocol, role: u32, n: usize) -> Option<&Action>
    ensures some { IfSome result (λ a. own_action p.now role n ≡ Some (action_value a.now)) }
    ensures none { IfNone result (own_action p.now role n ≡ None) }
{
    match own_of(p.messages(), role, n) {
        Some(action) => Some(action),
        None => None,
    }
}

/// The same of these actions.
fn own_of(actions: &[Action], role: u32, n: usize) -> Option<&Action>
    ensures some { IfSome result (λ a.
        own_of role (map action_value actions.now) n ≡ Some (action_value a.now)) }
    ensures none { IfNone result (own_of role (map action_value actions.now) n ≡ None) }
{
    let Some((action, rest)) = actions.split_first() else {
        return None;
    };
    if !is_own(action, role) {
        return own_of(rest, role, n);
    }
    if n == 1 {
        return Some(action);
    }
    own_of(rest, role, n.saturating_sub(1))
}

/// Appends the term with this number, from 0, where there is one.
fn put_term_at(p: &Protocol, out: &mut Vec<u8>, terms: &[Term], i: usize) -> Result<(), NoMemory>
    ensures { OnOk result (out.new.items ≡ out.old.items ++ shown_at p.now terms.now i) }
{
    match terms.get(i) {
        Some(t) => put_term(p, out, t),
        None => Ok(()),
    }
}

/// Appends a term of a scene.
#[cycle(show)]
fn put_term(p: &Protocol, out: &mut Vec<u8>, t: &Term) -> Result<(), NoMemory>
    ensures { OnOk result (out.new.items ≡ out.old.items ++ shown_term p.now (tree_of t.now)) }
{
    match t {
        Term::Atom(a) => put_text(out, shown_name(p, *a)),
        Term::Node(op, operands) => {
            put_text(out, op_text(p, *op))?;
            put_text(out, "(")?;
            put_operands(p, out, operands.as_slice())?;
            put_text(out, ")")
        }
    }
}

/// Appends operands with commas between them.
#[cycle(show)]
fn put_operands(p: &Protocol, out: &mut Vec<u8>, operands: &[Term]) -> Result<(), NoMemory>
    ensures { OnOk result (out.new.items
        ≡ out.old.items ++ shown_all p.now true (trees_of (map tree_of operands.now))) }
{
    let mut is_first = true;
    for t in operands {
        put_text(out, comma(is_first))?;
        put_term(p, out, t)?;
        is_first = false;
    }
    Ok(())
}

/// What stands before an operand.
fn comma(is_first: bool) -> &'static str
    ensures { result.now ≡ comma is_first }
{
    if is_first { "" } else { "," }
}

/// Appends a text.
fn put_text(out: &mut Vec<u8>, text: &str) -> Result<(), NoMemory>
    ensures { OnOk result (out.new.items ≡ out.old.items ++ text.now) }
{
    out.extend_from_slice(text.as_bytes())?;
    Ok(())
}

/// A name of a scene.
fn shown_name(p: &Protocol, a: u32) -> &str
    ensures { result.now ≡ shown_name p.now a }
{
    match p.declared().get(a as usize) {
        Some(atom) => atom.name.as_str(),
        None => "*",
    }
}

/// How an operator is written.
fn op_text(p: &Protocol, op: Op) -> &str
    ensures { result.now ≡ op_text p.now op }
{
    match op {
        Op::Hash => "h",
        Op::Mac => "mac",
        Op::Seal => "scrypt",
        Op::Wrap => "wrap",
        Op::Format { index, .. } => match p.formats().get(index as usize) {
            Some(format) => format.name().as_str(),
            None => "",
        },
    }
}
