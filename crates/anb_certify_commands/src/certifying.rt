//! The command that certifies a role file.
ghost use Rattle.std.specs.Prelude.{◌≡◌, ◌≢◌, [], ◌∷◌, ◌<◌, codes, length, IfErr, OnOk, Some, false};
ghost use Rattle.anb_base.specs.Moves.{Rose};
ghost use Rattle.anb_base.specs.declared.place.Place.TheVariants as place;
ghost use Rattle.anb_command.specs.Causes.{HasCause, NoneRose};
ghost use Rattle.anb_command.specs.Fetches.{Fetches, IfTold, IsOneOf};
ghost use Rattle.anb_command.specs.Reaches.{Reaches};
ghost use Rattle.anb_command.specs.Reported.{TellsFaults, TellsFileFaults};
ghost use Rattle.anb_status.specs.Statuses.{IsEarly, phase_of};
ghost use Rattle.anb_command.specs.Steps.{IsFailure, refused, given};
ghost use Rattle.anb_command.specs.Touches.{Touches};
ghost use Rattle.anb_certify_commands.specs.CertifyCommand.{CertificateIs, CertificateOf, CertifyText, CompletesCertify, DoesCertify, IsReadToCertify};

use anb_base::{Shelf, Text, Wire};
use anb_certify::CertifyNo;
use anb_code::RoleCode;
use anb_command::{CertifyWords, Status, code_in_file, protocol_in_file, role_named, write_text};
use anb_compile::fitting_codes_play;
use anb_protocol::Protocol;
use anb_text::{codes_are_unique, faults_are_unique, files_are_unique};
use std::alloc::Global;

/// Certifies the code in a role file for the role of a narration, and writes so. It costs what
/// `anb_certify::certify` costs beside reading the files.
pub fn certify<F: Shelf, W: Wire>(
    alloc: Global,
    shelf: &mut F,
    wire: &mut W,
    words: CertifyWords,
) -> Status
    ensures does { DoesCertify words.entry.narration.now words.entry.name.now words.entry.code.now
        (F.files shelf.old) (W.state wire.old) (W.state wire.new) result }
    ensures completes { NoneRose (words.entry.narration.now ∷ words.entry.code.now ∷ [])
        (F.faults shelf.old) (F.faults shelf.new) (W.state wire.old) (W.state wire.new)
        → CompletesCertify words.entry.narration.now words.entry.name.now words.entry.code.now
        (F.files shelf.old) result }
    ensures faults { HasCause (words.entry.narration.now ∷ words.entry.code.now ∷ [])
        (Some place.Stdio) (F.faults shelf.old) (F.faults shelf.new)
        (W.state wire.old) (W.state wire.new) result }
    ensures reported { TellsFaults (F.faults shelf.old) (F.faults shelf.new)
        (W.state wire.old) (W.state wire.new) result }
    ensures fetches { Fetches (words.entry.narration.now ∷ words.entry.code.now ∷ [])
        (F.files shelf.old) (F.files shelf.new) (F.faults shelf.old) (F.faults shelf.new) }
    ensures reached { Reaches (Some place.Stdio) (phase_of result)
        (W.state wire.old).reached (W.state wire.new).reached }
    ensures touches { Touches false (phase_of result) (W.state wire.old) (W.state wire.new) }
{
    anb_read::narrations_are_unique();
    anb_read::refusals_are_unique();
    anb_read::none_is_both();
    files_are_unique();
    codes_are_unique();
    anb_text::none_is_both();
    faults_are_unique();
    anb_certify::none_is_both();
    anb_certify::refusals_are_unique();
    match certified_in_file(alloc, shelf, words) {
        Ok(()) => write_text(wire, b"certified\n"),
        Err(status) => status,
    }
}

/// Certifies the code in the role file for the role of the narration in its file.
fn certified_in_file<F: Shelf>(
    alloc: Global,
    shelf: &mut F,
    words: CertifyWords,
) -> Result<(), Status>
    ensures given { OnOk result (IfTold (F.files shelf.old) (λ files.
        CertifyText files words.entry.narration.now words.entry.name.now words.entry.code.now
        (given (codes "certified\n")))) }
    ensures refused { IfErr result (λ status. IsFailure status
        (λ each. IsOneOf (words.entry.narration.now ∷ words.entry.code.now ∷ []) each
        × Rose (F.faults shelf.old each) (F.faults shelf.new each)
        × IfTold (F.files shelf.old) (λ files. IsReadToCertify files
        words.entry.narration.now words.entry.name.now words.entry.code.now each))
        (IfTold (F.files shelf.old) (λ files. CertifyText files
        words.entry.narration.now words.entry.name.now words.entry.code.now (refused status)))) }
    ensures early { IfErr result IsEarly }
    ensures fetches { Fetches (words.entry.narration.now ∷ words.entry.code.now ∷ [])
        (F.files shelf.old) (F.files shelf.new) (F.faults shelf.old) (F.faults shelf.new) }
    ensures told { TellsFileFaults result (F.faults shelf.old) (F.faults shelf.new) }
{
    let protocol = match protocol_in_file(alloc, shelf, words.narration) {
        Ok(protocol) => protocol,
        Err(status) => return Err(status),
    };
    let role = match role_named(alloc, &protocol, words.name) {
        Ok(role) => role,
        Err(status) => return Err(status),
    };
    let code = match code_in_file(alloc, shelf, words.code) {
        Ok(code) => code,
        Err(status) => return Err(status),
    };
    certified_code(alloc, &protocol, role, &code)
}

/// Certifies a code for a role.
fn certified_code(
    alloc: Global,
    protocol: &Protocol,
    role: u32,
    code: &RoleCode,
) -> Result<(), Status>
    requires { role < length protocol.now.roles }
    ensures given { OnOk result
        (CertificateIs protocol.now role code.now (given (codes "certified\n"))) }
    ensures refused { IfErr result (λ status. IsFailure status (λ file. ⊥)
        (CertificateIs protocol.now role code.now (refused status))) }
    ensures early { IfErr result IsEarly }
{
    fitting_codes_play(protocol);
    match anb_certify::certify(alloc, protocol, role, code) {
        Ok(()) => Ok(()),
        Err(CertifyNo::NoMemory) => Err(Status::NoMemory),
        Err(why) => Err(Status::NotCertified(why)),
    }
}
