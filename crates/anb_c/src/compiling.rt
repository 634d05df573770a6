//! Role files from narrations.
ghost use Rattle.std.specs.Prelude.{◌≡◌, ◌≤◌, ◌<◌, length, pos, IfOk, IfErr};
ghost use Rattle.anb_base.specs.declared.TheConstants.{SMALL_FILE};
ghost use Rattle.anb_compile.specs.Fitting.{FitsRole};
ghost use Rattle.anb_compile.specs.Unsent.{IsFirstUnsentOfAll};
ghost use Rattle.anb_protocol.specs.Plays.{IsSendable};
ghost use Rattle.anb_text.specs.RoleFiles.{role_text};
ghost use Rattle.anb_c.specs.Compiling.{Compiles, IsCompiling, IsReadAs, RefusesCompiling, RefusesReading, RefusesSending, Tells, place_of, status_of};

use crate::statuses::{BAD_NARRATION, CANNOT_SEND, DONE, LONG, NO_MEMORY, NO_ROLE, SHORT};
use crate::telling::copy_out;
use anb_base::{Bytes, NoMemory, SMALL_FILE};
use anb_code::RoleCode;
use anb_compile::{CompileNo as SendNo, compile_all, fitting_codes_play};
use anb_protocol::{Protocol, ResolveNo};
use anb_read::{ReadNo, read};
use anb_resolve::{resolve, small_is_countable};
use anb_syntax::Narration;
use anb_text::{codes_are_not_refused, codes_are_unique, print};
use std::alloc::Global;

/// Why there is no role file: the first that holds.
#[derive(Debug, Drop)]
pub enum CompileNo {
    /// The narration's text is too long.
    Long,
    /// The text is no narration.
    Unread(ReadNo),
    /// The narration isn't well formed.
    IllFormed(ResolveNo),
    /// No role has the name.
    NoRole,
    /// The message of this action is the first that no recipe gives to its sender.
    CannotSend(u32),
    NoMemory,
}

/// Writes the role file of the narration's role with this name.
pub(crate) fn compile_into(
    alloc: Global,
    narration: &[u8],
    role: &[u8],
    out: &mut [u8],
    written: &mut usize,
    place: &mut u32,
) -> i32
    ensures { IsCompiling narration.now role.now result out.old out.new written.new place.new }
{
    match role_file(alloc, narration, role) {
        Ok(file) => {
            if copy_out(file.as_slice(), out, written) {
                DONE
            } else {
                SHORT
            }
        }
        Err(why) => {
            *place = place_of(&why);
            status_of(&why)
        }
    }
}

/// The status of a refusal.
fn status_of(why: &CompileNo) -> i32
    ensures { result ≡ pos (status_of why.now) }
{
    match why {
        CompileNo::Long => LONG,
        CompileNo::Unread(_) => BAD_NARRATION,
        CompileNo::IllFormed(_) => BAD_NARRATION,
        CompileNo::NoRole => NO_ROLE,
        CompileNo::CannotSend(_) => CANNOT_SEND,
        CompileNo::NoMemory => NO_MEMORY,
    }
}

/// The place of a refusal.
fn place_of(why: &CompileNo) -> u32
    ensures { result ≡ place_of why.now }
{
    match why {
        CompileNo::Unread(ReadNo::Token { at }) => *at,
        CompileNo::Unread(ReadNo::Grammar { at }) => *at,
        CompileNo::Unread(ReadNo::Deep { at }) => *at,
        CompileNo::CannotSend(action) => *action,
        _ => 0,
    }
}

/// The role file of the narration's role with this name.
pub(crate) fn role_file(alloc: Global, narration: &[u8], role: &[u8]) -> Result<Bytes, CompileNo>
    ensures compiled { IfOk result (Compiles narration.now role.now) }
    ensures refused { IfErr result (RefusesCompiling narration.now role.now) }
{
    let protocol = match protocol_of(alloc, narration) {
        Ok(protocol) => protocol,
        Err(no) => return Err(no),
    };
    let Some(number) = protocol.role_of(role) else {
        return Err(CompileNo::NoRole);
    };
    let code = match code_of(alloc, &protocol, number) {
        Ok(code) => code,
        Err(no) => return Err(no),
    };
    fitting_codes_play(&protocol);
    match file_of(alloc, &protocol, number, &code) {
        Ok(file) => Ok(file),
        Err(NoMemory) => Err(CompileNo::NoMemory),
    }
}

/// The role file of a code that fits a role.
fn file_of(
    alloc: Global,
    protocol: &Protocol,
    role: u32,
    code: &RoleCode,
) -> Result<Bytes, NoMemory>
    requires { FitsRole protocol.now role code.now }
    ensures text { IfOk result (λ file. file ≡ role_text code.now) }
    ensures read { IfOk result (λ file. IsReadAs file code.now) }
{
    let _lawful = protocol.name();
    let _verified = code.instrs();
    codes_are_unique();
    codes_are_not_refused();
    print(alloc, code)
}

/// The protocol that the text tells.
fn protocol_of(alloc: Global, text: &[u8]) -> Result<Protocol, CompileNo>
    ensures tells { IfOk result (Tells text.now) }
    ensures refused { IfErr result (RefusesReading text.now) }
{
    if text.len() > SMALL_FILE as usize {
        return Err(CompileNo::Long);
    }
    small_is_countable();
    match read(alloc, text) {
        Ok(narration) => match resolve(alloc, &narration) {
            Ok(protocol) => Ok(protocol),
            Err(ResolveNo::NoMemory) => Err(CompileNo::NoMemory),
            Err(why) => Err(CompileNo::IllFormed(why)),
        },
        Err(ReadNo::NoMemory) => Err(CompileNo::NoMemory),
        Err(why) => Err(CompileNo::Unread(why)),
    }
}

/// The role's code, where all roles can send what they must.
fn code_of(alloc: Global, protocol: &Protocol, role: u32) -> Result<RoleCode, CompileNo>
    requires { role < length protocol.now.roles }
    ensures sendable { IfOk result (λ code. IsSendable protocol.now) }
    ensures fits { IfOk result (λ code. FitsRole protocol.now role code) }
    ensures refused { IfErr result (RefusesSending protocol.now) }
{
    match compile_all(alloc, protocol) {
        Ok(mut codes) => Ok(codes.swap_remove(role as usize)),
        Err(SendNo::CannotSend { action, role: _ }) => Err(CompileNo::CannotSend(action)),
        Err(SendNo::NoMemory) => Err(CompileNo::NoMemory),
    }
}
