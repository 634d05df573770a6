//! Sessions from role files: new ones, and parked ones.
ghost use Rattle.std.specs.Prelude.{◌≡◌, ◌≢◌, ◌≤◌, ℕ, List, length, pos, AllPairs, IfOk, IfErr, Some, None};
ghost use Rattle.anb_base.specs.declared.TheConstants.{LARGE_FILE};
ghost use Rattle.anb_code.specs.Taking.{take_texts};
ghost use Rattle.anb_text.specs.Refusals.{IsRefusal};
ghost use Rattle.anb_text.specs.declared.refusal.LoadNo.TheVariants as loading;
ghost use Rattle.anb_c.specs.Opening.{IsRoleRefusal, IsSeed, Opens, RefusesOpening, RefusesResuming, Resumes, Spells, seed_of, status_of};

use crate::owned::Owned;
use crate::session::Session;
use crate::statuses::{BAD_RECORD, BAD_ROLE_FILE, BAD_VALUES, LONG, MISUSED, NO_MEMORY, NO_SEED};
use anb_base::{LARGE_FILE, NoMemory, SMALL_FILE, Text};
use anb_code::RoleCode;
use anb_park::ParkNo;
use anb_seal::hash;
use anb_text::{LoadNo, load};
use anb_values::{ValuesNo, values};
use std::alloc::Global;

/// Why there is no session: the first that holds.
#[derive(Debug, Drop)]
pub enum OpenNo {
    /// A session was open, or the seed hasn't 32 bytes and not none.
    Misused,
    /// The role file is too long.
    RoleLong,
    /// The role file spells no code that is accepted.
    Role(LoadNo),
    /// The text of values is too long.
    ValuesLong,
    /// The values don't fit the code's takes.
    Values(ValuesNo),
    /// The code draws, and there is no seed.
    NoSeed,
    /// The record isn't one of this role file under this key, or its session doesn't wait.
    Record(ParkNo),
    NoMemory,
}

/// The status of a refusal.
pub(crate) fn status_of(why: &OpenNo) -> i32
    ensures { result ≡ pos (status_of why.now) }
{
    match why {
        OpenNo::RoleLong => LONG,
        OpenNo::ValuesLong => LONG,
        OpenNo::Values(_) => BAD_VALUES,
        OpenNo::NoSeed => NO_SEED,
        OpenNo::Role(_) => BAD_ROLE_FILE,
        OpenNo::Record(_) => BAD_RECORD,
        OpenNo::NoMemory => NO_MEMORY,
        OpenNo::Misused => MISUSED,
    }
}

/// Opens a session of the role file's code with the values of a text, before its first turn.
pub(crate) fn open(alloc: Global, role: &[u8], text: &[u8], seed: &[u8]) -> Result<Session, OpenNo>
    ensures opened { IfOk result (λ session. Opens role.now text.now seed.now (Some session)) }
    ensures refused { IfErr result (RefusesOpening role.now text.now seed.now None) }
{
    if !(seed.is_empty() || seed.len() == 32) {
        return Err(OpenNo::Misused);
    }
    let code = match code_of(alloc, role) {
        Ok(code) => code,
        Err(no) => return Err(no),
    };
    let Ok(names) = texts_of_takes(alloc, &code) else {
        return Err(OpenNo::NoMemory);
    };
    if text.len() > SMALL_FILE as usize {
        return Err(OpenNo::ValuesLong);
    }
    let fitted = match values(alloc, text, &names) {
        Ok(fitted) => fitted,
        Err(ValuesNo::NoMemory) => return Err(OpenNo::NoMemory),
        Err(why) => return Err(OpenNo::Values(why)),
    };
    let Some(seed) = seed_of(code.fresh() > 0, fitted.seed, seed) else {
        return Err(OpenNo::NoSeed);
    };
    match Owned::start(alloc, code, hash(role), fitted.values.as_slice(), &seed) {
        Ok(live) => Ok(Session {
            live: Some(live),
            pending: None,
        }),
        Err(NoMemory) => Err(OpenNo::NoMemory),
    }
}

/// Goes on from the record of a session of the role file's code.
pub(crate) fn reopen(
    alloc: Global,
    role: &[u8],
    key: &[u8],
    sealed: &[u8],
) -> Result<Session, OpenNo>
    ensures resumed { IfOk result (λ session. Resumes role.now key.now sealed.now (Some session)) }
    ensures refused { IfErr result (RefusesResuming role.now key.now sealed.now None) }
{
    let code = match code_of(alloc, role) {
        Ok(code) => code,
        Err(no) => return Err(no),
    };
    match Owned::resume(alloc, code, hash(role), key, sealed) {
        Ok(live) => Ok(Session {
            live: Some(live),
            pending: None,
        }),
        Err(ParkNo::NoMemory) => Err(OpenNo::NoMemory),
        Err(why) => Err(OpenNo::Record(why)),
    }
}

/// The code that the role file spells.
fn code_of(alloc: Global, role: &[u8]) -> Result<RoleCode, OpenNo>
    ensures spelled { IfOk result (Spells role.now) }
    ensures refused { IfErr result (IsRoleRefusal role.now) }
{
    if role.len() > LARGE_FILE as usize {
        return Err(OpenNo::RoleLong);
    }
    match load(alloc, role) {
        Ok(code) => {
            let _verified = code.instrs();
            Ok(code)
        }
        Err(LoadNo::NoMemory) => Err(OpenNo::NoMemory),
        Err(why) => Err(OpenNo::Role(why)),
    }
}

/// The texts of the code's takes.
fn texts_of_takes(alloc: Global, code: &RoleCode) -> Result<Vec<Text>, NoMemory>
    ensures texts { IfOk result (λ names. names.items ≡ take_texts code.now.instrs) }
    ensures differ { IfOk result (λ names.
        AllPairs (λ (one other : List ℕ). one ≢ other) names.items) }
{
    let _ = code.instrs();
    copy_takes(alloc, code)
}

/// Copies of the texts of the code's takes.
fn copy_takes(alloc: Global, code: &RoleCode) -> Result<Vec<Text>, NoMemory>
    ensures { IfOk result (λ names. names.items ≡ take_texts code.now.instrs) }
{
    let mut names = Vec::new(alloc);
    for i in 0..code.takes() {
        names.push(code.take_text(i).copy(alloc)?)?;
    }
    Ok(names)
}

/// The seed of the draws, where there is one or none is needed.
fn seed_of(draws: bool, told: Option<[u8; 32]>, given: &[u8]) -> Option<[u8; 32]>
    requires { IsSeed given.now }
    ensures { result ≡ seed_of draws told given.now }
{
    if told.is_some() {
        return told;
    }
    if given.len() == 32 {
        let mut seed = [0; 32];
        seed.copy_from_slice(given);
        return Some(seed);
    }
    if draws { None } else { Some([0; 32]) }
}
