//! Commands that say why a narration is refused, or that a role file's code fits a role. They read
//! nothing from the wire.
#![tactic(auto)]

ghost use Rattle.std.specs.Prelude.{◌≡◌, ◌++◌, [], ◌∷◌, map, decimal, IfOk, IfErr, OnOk, Some, false};
ghost use Rattle.std.specs.List.{AllByRecursion};
ghost use Rattle.anb_base.specs.Moves.{Rose};
ghost use Rattle.anb_base.specs.declared.place.Place.TheVariants as place;
ghost use Rattle.anb_term.specs.View.{tree_of};
ghost use Rattle.anb_protocol.specs.Texts.{IsTermOf, term_text};
ghost use Rattle.anb_reason.specs.Reach.{IsReason};
ghost use Rattle.anb_command.specs.Causes.{HasCause, NoneRose};
ghost use Rattle.anb_command.specs.Fetches.{Fetches, IfTold};
ghost use Rattle.anb_command.specs.Reaches.{Reaches};
ghost use Rattle.anb_command.specs.Reported.{TellsFaults, TellsFileFaults};
ghost use Rattle.anb_status.specs.Statuses.{IsEarly, phase_of};
ghost use Rattle.anb_command.specs.Steps.{IsFailure, refused, given};
ghost use Rattle.anb_command.specs.Touches.{Touches};
ghost use Rattle.anb_certify_commands.specs.WhyCommand.{CompletesWhy, DoesWhy};
ghost use Rattle.anb_certify_commands.specs.WhyCommand.{IsReasonText, IsRefusalText, WhyText, term_lines};

mod certifying;

use anb_base::{Bytes, NoMemory, Shelf, Text, Wire};
use anb_command::{Status, protocol_in_file, write_text};
use anb_protocol::Protocol;
use anb_read::{narrations_are_unique, none_is_both, refusals_are_unique};
use anb_reason::{Refusal, reason};
use anb_term::Term;
pub use certifying::certify;
use itoa::Buffer;
use std::alloc::Global;

/// Writes why the narration in the file is refused, or that all its roles can send. The text is made
/// in memory before the streams are reached. Beside what `reason` costs, time and memory are linear in
/// the text.
pub fn why<F: Shelf, W: Wire>(
    alloc: Global,
    shelf: &mut F,
    wire: &mut W,
    narration: &Text,
) -> Status
    ensures does { DoesWhy narration.now (F.files shelf.old)
        (W.state wire.old) (W.state wire.new) result }
    ensures completes { NoneRose (narration.now ∷ []) (F.faults shelf.old) (F.faults shelf.new)
        (W.state wire.old) (W.state wire.new)
        → CompletesWhy narration.now (F.files shelf.old) result }
    ensures faults { HasCause (narration.now ∷ []) (Some place.Stdio)
        (F.faults shelf.old) (F.faults shelf.new) (W.state wire.old) (W.state wire.new) result }
    ensures reported { TellsFaults (F.faults shelf.old) (F.faults shelf.new)
        (W.state wire.old) (W.state wire.new) result }
    ensures fetches { Fetches (narration.now ∷ [])
        (F.files shelf.old) (F.files shelf.new) (F.faults shelf.old) (F.faults shelf.new) }
    ensures reached { Reaches (Some place.Stdio) (phase_of result)
        (W.state wire.old).reached (W.state wire.new).reached }
    ensures touches { Touches false (phase_of result) (W.state wire.old) (W.state wire.new) }
{
    narrations_are_unique();
    refusals_are_unique();
    none_is_both();
    match why_text(alloc, shelf, narration) {
        Ok(text) => write_text(wire, text.as_slice()),
        Err(status) => status,
    }
}

/// What is written of the narration in the file.
fn why_text<F: Shelf>(alloc: Global, shelf: &mut F, narration: &Text) -> Result<Bytes, Status>
    ensures given { IfOk result (λ text. IfTold (F.files shelf.old) (λ files.
        WhyText files narration.now (given text))) }
    ensures refused { IfErr result (λ status. IsFailure status
        (λ file. (file ≡ narration.now) × Rose (F.faults shelf.old file) (F.faults shelf.new file))
        (IfTold (F.files shelf.old) (λ files. WhyText files narration.now (refused status)))) }
    ensures early { IfErr result IsEarly }
    ensures fetches { Fetches (narration.now ∷ [])
        (F.files shelf.old) (F.files shelf.new) (F.faults shelf.old) (F.faults shelf.new) }
    ensures told { TellsFileFaults result (F.faults shelf.old) (F.faults shelf.new) }
{
    let protocol = match protocol_in_file(alloc, shelf, narration) {
        Ok(protocol) => protocol,
        Err(status) => return Err(status),
    };
    match reason_text(alloc, &protocol) {
        Ok(text) => Ok(text),
        Err(NoMemory) => Err(Status::NoMemory),
    }
}

/// Why a narration is refused, or that all its roles can send.
pub fn reason_text(alloc: Global, protocol: &Protocol) -> Result<Bytes, NoMemory>
    ensures { IfOk result (IsReasonText protocol.now) }
{
    match reason(alloc, protocol)? {
        Some(refusal) => refusal_text(alloc, protocol, &refusal),
        None => Ok(Bytes::new(Vec::from_slice(alloc, b"all sendable\n")?)),
    }
}

/// A refusal as a text: a line for the action, and one for each term of the reason.
fn refusal_text(alloc: Global, protocol: &Protocol, refusal: &Refusal) -> Result<Bytes, NoMemory>
    requires reason { IsReason protocol.now refusal.now }
    requires message { IsTermOf protocol.now (tree_of refusal.now.term) }
    requires terms { AllByRecursion (IsTermOf protocol.now) refusal.now.terms }
    ensures { IfOk result (IsRefusalText protocol.now) }
{
    let sender = &protocol.roles()[refusal.role as usize];
    let message = protocol.text_of_term(alloc, &refusal.term)?;
    let mut digits = Buffer::new();
    let mut out = Vec::new(alloc);
    put(&mut out, sender.as_str())?;
    put(&mut out, " can't compose ")?;
    put(&mut out, message.as_str())?;
    put(&mut out, " at action ")?;
    put(&mut out, digits.format(refusal.action))?;
    put(&mut out, "\n")?;
    put_terms(alloc, &mut out, protocol, refusal.terms.as_slice())?;
    Ok(Bytes::new(out))
}

/// Appends the texts of terms, a line each.
fn put_terms(
    alloc: Global,
    out: &mut Vec<u8>,
    protocol: &Protocol,
    terms: &[Term],
) -> Result<(), NoMemory>
    requires { AllByRecursion (IsTermOf protocol.now) (map tree_of terms.now) }
    ensures { OnOk result (out.new.items
        ≡ out.old.items ++ term_lines protocol.now (map tree_of terms.now)) }
{
    for term in terms {
        let text = protocol.text_of_term(alloc, term)?;
        put(out, text.as_str())?;
        put(out, "\n")?;
    }
    Ok(())
}

/// Appends a text.
fn put(out: &mut Vec<u8>, text: &str) -> Result<(), NoMemory>
    ensures { OnOk result (out.new.items ≡ out.old.items ++ text.now) }
{
    out.extend_from_slice(text.as_bytes())?;
    Ok(())
}
