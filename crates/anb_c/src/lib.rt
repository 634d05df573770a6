//! Roles for programs in C: the calls of anb.h.
//!
//! C holds a session behind a pointer whose type it isn't told. Each call takes the session out,
//! works on it, and puts it back. A call costs what it asks of the session, and the copies of what
//! it is given and gives; an opening reads and verifies the role file.
#![tactic(auto)]

ghost use Rattle.std.specs.Prelude.{◌≡◌, ◌⊎◌, ◌<◌, ℕ, List, length, pos, None};
ghost use Rattle.anb_base.specs.declared.TheConstants.{ARRIVAL};
ghost use Rattle.anb_code.specs.CodeValue.{CodeValue};
ghost use Rattle.anb_park.specs.Records.{Parked};
ghost use Rattle.anb_c.specs.Compiling.{IsCompiling};
ghost use Rattle.anb_c.specs.Opening.{IsOpening, Opens, RefusesOpening, RefusesResuming, Resumes};
ghost use Rattle.anb_c.specs.Sessions.{IsArrival, IsAt, IsFailed, IsNext, IsParking};
ghost use Rattle.anb_c.specs.Statuses.{IsCopied, text_of};

mod compiling;
mod held;
mod opening;
mod owned;
mod session;
mod statuses;
mod telling;

pub use compiling::CompileNo;
use compiling::compile_into;
use held::{keep, put_in, take_out};
pub use held::{Handle, Held};
pub use opening::OpenNo;
use opening::{open, reopen, status_of};
pub use owned::Owned;
pub use session::Session;
use statuses::{DONE, MISUSED, SHORT, VERSION, text_of};
use std::alloc::Global;
use telling::{copy_out, hand_in, park_into, tell};

/// The version of the interface.
#[unsafe(no_mangle)]
pub extern "C" fn anb_version() -> u32
    ensures { result ≡ 1 }
{
    VERSION
}

/// What a status says.
#[unsafe(no_mangle)]
pub extern "C" fn anb_status_text(status: i32, out: &mut [u8], written: &mut usize) -> i32
    ensures { IsCopied (text_of status) result out.old out.new written.new }
{
    if copy_out(text_of(status).as_bytes(), out, written) {
        DONE
    } else {
        SHORT
    }
}

/// The role file of the narration's role with this name.
#[unsafe(no_mangle)]
pub extern "C" fn anb_compile(
    alloc: Global,
    narration: &[u8],
    role: &[u8],
    out: &mut [u8],
    written: &mut usize,
    place: &mut u32,
) -> i32
    ensures { IsCompiling narration.now role.now result out.old out.new written.new place.new }
{
    compile_into(alloc, narration, role, out, written, place)
}

/// Opens a session of the role that a role file spells.
#[unsafe(no_mangle)]
pub extern "C" fn anb_open(
    alloc: Global,
    handle: &mut Handle,
    role: &[u8],
    values: &[u8],
    seed: &[u8],
) -> i32
    ensures { IsOpening (Opens role.now values.now seed.now)
        (RefusesOpening role.now values.now seed.now handle.old.held.session)
        handle.old.held.session handle.new.held.session result }
{
    if handle.live {
        return MISUSED;
    }
    match open(alloc, role, values, seed) {
        Ok(session) => keep(alloc, handle, session),
        Err(why) => status_of(&why),
    }
}

/// What comes next of the role.
#[unsafe(no_mangle)]
pub extern "C" fn anb_next(
    alloc: Global,
    handle: &mut Handle,
    out: &mut [u8],
    written: &mut usize,
    event: &mut u32,
    instruction: &mut u32,
) -> i32
    ensures next { (code : CodeValue) (p : Parked) (sent : List (List ℕ))
        → IsAt code p sent handle.old.held.session
        → IsNext code p sent handle.new.held.session result
        out.old out.new written.new event.new instruction.new }
    ensures failed { IsFailed handle.old.held.session
        → (result ≡ pos 99) × IsFailed handle.new.held.session }
    ensures closed { handle.old.held.session ≡ None
        → (result ≡ pos 102) × (handle.new.held.session ≡ None) }
{
    let Some(mut session) = take_out(alloc, handle) else {
        return MISUSED;
    };
    let status = tell(alloc, &mut session, out, written, event, instruction);
    put_in(handle, session);
    status
}

/// Hands in the arrival that the role waits for.
#[unsafe(no_mangle)]
pub extern "C" fn anb_arrive(alloc: Global, handle: &mut Handle, bytes: &[u8]) -> i32
    ensures arrives { (code : CodeValue) (p : Parked) (sent : List (List ℕ))
        → IsAt code p sent handle.old.held.session
        → IsArrival code p sent handle.new.held.session result bytes.now }
    ensures failed { IsFailed handle.old.held.session
        → ((result ≡ pos 99) ⊎ ((result ≡ pos 13) × (ARRIVAL < length bytes.now)))
        × IsFailed handle.new.held.session }
    ensures closed { handle.old.held.session ≡ None
        → (result ≡ pos 102) × (handle.new.held.session ≡ None) }
{
    let Some(mut session) = take_out(alloc, handle) else {
        return MISUSED;
    };
    let status = hand_in(alloc, &mut session, bytes);
    put_in(handle, session);
    status
}

/// The sealed record of a session that waits.
#[unsafe(no_mangle)]
pub extern "C" fn anb_park(
    alloc: Global,
    handle: &mut Handle,
    key: &[u8],
    out: &mut [u8],
    written: &mut usize,
) -> i32
    ensures parks { (code : CodeValue) (p : Parked) (sent : List (List ℕ))
        → IsAt code p sent handle.old.held.session
        → IsParking code p sent handle.new.held.session result
        key.now out.old out.new written.new }
    ensures failed { IsFailed handle.old.held.session
        → (result ≡ pos 99) × IsFailed handle.new.held.session }
    ensures closed { handle.old.held.session ≡ None
        → (result ≡ pos 102) × (handle.new.held.session ≡ None) }
{
    let Some(mut session) = take_out(alloc, handle) else {
        return MISUSED;
    };
    let status = park_into(alloc, &mut session, key, out, written);
    put_in(handle, session);
    status
}

/// Opens the session that a record is of, where it waits.
#[unsafe(no_mangle)]
pub extern "C" fn anb_resume(
    alloc: Global,
    handle: &mut Handle,
    role: &[u8],
    key: &[u8],
    sealed: &[u8],
) -> i32
    ensures { IsOpening (Resumes role.now key.now sealed.now)
        (RefusesResuming role.now key.now sealed.now handle.old.held.session)
        handle.old.held.session handle.new.held.session result }
{
    if handle.live {
        return MISUSED;
    }
    match reopen(alloc, role, key, sealed) {
        Ok(session) => keep(alloc, handle, session),
        Err(why) => status_of(&why),
    }
}

/// Closes a session, and frees what it held.
#[unsafe(no_mangle)]
pub extern "C" fn anb_close(alloc: Global, handle: &mut Handle)
    ensures { handle.new.held.session ≡ None }
{
    let _closed = take_out(alloc, handle);
}
