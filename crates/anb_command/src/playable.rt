//! A role that can be played: its protocol, its number, and its code.
ghost use Rattle.std.specs.Prelude.{◌≡◌, ◌⊎◌, ◌<◌, ℕ, List, [], ◌∷◌, length, slice_get, Some, IfOk, IfErr, OnOk};
ghost use Rattle.anb_base.specs.Moves.{Rose};
ghost use Rattle.anb_compile.specs.Fitting.{FitRoles, FitsRole};
ghost use Rattle.anb_command.specs.Fetches.{Fetches, IfTold};
ghost use Rattle.anb_command.specs.Reported.{TellsFileFaults};
ghost use Rattle.anb_command.specs.Roles.{AllSend, PartInFile, PartOf, RoleIs, SendableInFile};
ghost use Rattle.anb_status.specs.Statuses.{IsEarly};
ghost use Rattle.anb_command.specs.Steps.{IsFailure, refused, given};
ghost use Rattle.anb_status.specs.declared.status.Status.TheVariants as status;

use crate::files::protocol_in_file;
use anb_base::{NoMemory, Shelf, Text};
use anb_code::RoleCode;
use anb_compile::{CompileNo, compile_all};
use anb_protocol::Protocol;
use anb_status::Status;
use std::alloc::Global;

/// A role of a protocol whose roles can all send what they must, and its code.
#[derive(Drop)]
pub struct Playable {
    pub protocol: Protocol,
    pub role: u32,
    pub code: RoleCode,
}

/// The role with this name in a narration's file.
pub fn playable_in_file<F: Shelf>(
    alloc: Global,
    shelf: &mut F,
    narration: &Text,
    name: &Text,
) -> Result<Playable, Status>
    ensures given { IfOk result (λ p. IfTold (F.files shelf.old) (λ files.
        PartInFile files narration.now name.now
        (given (record { protocol = p.protocol; role = p.role })))) }
    ensures within { IfOk result (λ p. p.role < length p.protocol.roles) }
    ensures fits { IfOk result (λ p. FitsRole p.protocol p.role p.code) }
    ensures refused { IfErr result (λ status. IsFailure status
        (λ file. (file ≡ narration.now) × Rose (F.faults shelf.old file) (F.faults shelf.new file))
        (IfTold (F.files shelf.old) (λ files.
        PartInFile files narration.now name.now (refused status)))) }
    ensures early { IfErr result IsEarly }
    ensures fetches { Fetches (narration.now ∷ [])
        (F.files shelf.old) (F.files shelf.new) (F.faults shelf.old) (F.faults shelf.new) }
    ensures told { TellsFileFaults result (F.faults shelf.old) (F.faults shelf.new) }
{
    match protocol_in_file(alloc, shelf, narration) {
        Ok(protocol) => playable_of(alloc, protocol, name),
        Err(status) => Err(status),
    }
}

/// The protocol's role with this name.
pub fn playable_of(alloc: Global, protocol: Protocol, name: &Text) -> Result<Playable, Status>
    ensures given { IfOk result (λ p.
        PartOf protocol name.now (given (record { protocol = p.protocol; role = p.role }))) }
    ensures within { IfOk result (λ p. p.role < length p.protocol.roles) }
    ensures fits { IfOk result (λ p. FitsRole p.protocol p.role p.code) }
    ensures refused { IfErr result (λ status. IsFailure status (λ file. ⊥)
        (PartOf protocol name.now (refused status))) }
    ensures early { IfErr result IsEarly }
{
    let role = match role_named(alloc, &protocol, name) {
        Ok(role) => role,
        Err(status) => return Err(status),
    };
    match code_of(alloc, &protocol, role) {
        Ok(code) => Ok(Playable {
            protocol,
            role,
            code,
        }),
        Err(status) => Err(status),
    }
}

/// The number of the role with this name.
pub fn role_named(alloc: Global, protocol: &Protocol, name: &Text) -> Result<u32, Status>
    ensures given { IfOk result (λ role. RoleIs protocol.now name.now (given role)) }
    ensures within { IfOk result (λ role. role < length protocol.now.roles) }
    ensures refused { IfErr result (λ status. IsFailure status (λ file. ⊥)
        (RoleIs protocol.now name.now (refused status))) }
    ensures early { IfErr result IsEarly }
{
    match protocol.role_of(name.as_str().as_bytes()) {
        Some(role) => Ok(role),
        None => Err(no_role(alloc, name)),
    }
}

/// The status of a name that no role has.
pub fn no_role(alloc: Global, name: &Text) -> Status
    ensures { (result ≡ status.NoRole name.now) ⊎ (result ≡ status.NoMemory) }
{
    match name.copy(alloc) {
        Ok(name) => Status::NoRole(name),
        Err(NoMemory) => Status::NoMemory,
    }
}

/// The role's code, where all roles can send what they must.
fn code_of(alloc: Global, protocol: &Protocol, role: u32) -> Result<RoleCode, Status>
    requires { role < length protocol.now.roles }
    ensures given { IfOk result (λ code. AllSend protocol.now (given tt)) }
    ensures fits { IfOk result (λ code. FitsRole protocol.now role code) }
    ensures refused { IfErr result (λ status. IsFailure status (λ file. ⊥)
        (AllSend protocol.now (refused status))) }
    ensures early { IfErr result IsEarly }
{
    match codes_of(alloc, protocol) {
        Ok(mut codes) => Ok(codes.swap_remove(role as usize)),
        Err(status) => Err(status),
    }
}

/// The codes of all roles, in order, where all can send.
pub fn codes_of(alloc: Global, protocol: &Protocol) -> Result<Vec<RoleCode>, Status>
    ensures given { OnOk result (AllSend protocol.now (given tt)) }
    ensures fit { IfOk result (λ codes. FitRoles protocol.now codes.items) }
    ensures refused { IfErr result (λ status. IsFailure status (λ file. ⊥)
        (AllSend protocol.now (refused status))) }
    ensures early { IfErr result IsEarly }
{
    match compile_all(alloc, protocol) {
        Ok(codes) => Ok(codes),
        Err(CompileNo::CannotSend { action, role }) => {
            Err(cannot_send(alloc, protocol, action, role))
        }
        Err(CompileNo::NoMemory) => Err(Status::NoMemory),
    }
}

/// The protocol in a narration's file, where all its roles can send.
pub fn sendable_in_file<F: Shelf>(
    alloc: Global,
    shelf: &mut F,
    narration: &Text,
) -> Result<Protocol, Status>
    ensures given { IfOk result (λ p. IfTold (F.files shelf.old) (λ files.
        SendableInFile files narration.now (given p))) }
    ensures refused { IfErr result (λ status. IsFailure status
        (λ file. (file ≡ narration.now) × Rose (F.faults shelf.old file) (F.faults shelf.new file))
        (IfTold (F.files shelf.old) (λ files.
        SendableInFile files narration.now (refused status)))) }
    ensures early { IfErr result IsEarly }
    ensures fetches { Fetches (narration.now ∷ [])
        (F.files shelf.old) (F.files shelf.new) (F.faults shelf.old) (F.faults shelf.new) }
    ensures told { TellsFileFaults result (F.faults shelf.old) (F.faults shelf.new) }
{
    let protocol = match protocol_in_file(alloc, shelf, narration) {
        Ok(protocol) => protocol,
        Err(status) => return Err(status),
    };
    match codes_of(alloc, &protocol) {
        Ok(_) => Ok(protocol),
        Err(status) => Err(status),
    }
}

/// The status of a message that its sender can't compose.
fn cannot_send(alloc: Global, protocol: &Protocol, action: u32, role: u32) -> Status
    requires { role < length protocol.now.roles }
    ensures { (result ≡ status.NoMemory)
        ⊎ ((name : List ℕ) × (slice_get protocol.now.roles role ≡ Some name)
        × (result ≡ status.CannotSend action name)) }
{
    match protocol.roles()[role as usize].copy(alloc) {
        Ok(role) => Status::CannotSend { action, role },
        Err(NoMemory) => Status::NoMemory,
    }
}
