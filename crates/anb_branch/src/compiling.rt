//! The codes of a role in all arms.
ghost use Rattle.std.specs.Prelude.{◌≡◌, ◌<◌, ◌≤◌, ◌+◌, length, true, All, IfOk, OnOk, IfErr};
ghost use Rattle.anb_index.specs.Places.{among};
ghost use Rattle.anb_protocol.specs.Protocols.{role_number};
ghost use Rattle.anb_protocol.specs.Plays.{IsSendable};
ghost use Rattle.anb_compile.specs.Fitting.{FitsRole};
ghost use Rattle.anb_compile.specs.Unsent.{IsFirstUnsentOfAll};
ghost use Rattle.anb_choice.specs.Lawful.{IsLawful, roles_in};
ghost use Rattle.anb_choice.specs.Views.{branched_of};
ghost use Rattle.anb_branch.specs.Arms.{FitArms, HaveRole, RefusesArm, RefusesArms};
ghost use Rattle.anb_branch.specs.declared.compiling.ArmNo.TheVariants as refusal;

use anb_base::{NoMemory, Text};
use anb_choice::Branched;
use anb_code::RoleCode;
use anb_compile::{CompileNo, compile_all};
use anb_protocol::Protocol;
use std::alloc::{AllocError, AllocFailed, Global};

/// Why a role has no codes.
#[derive(Debug, Drop)]
pub enum ArmNo {
    /// In this arm the role with this name can't compose the message of this action. Arms and
    /// actions are numbered from 1.
    CannotSend { arm: u32, action: u32, role: Text },
    NoMemory,
}

impl From<NoMemory> for ArmNo {
    ghost from_gives = { λ _ refused. refused ≡ refusal.NoMemory };

    fn from(_error: NoMemory) -> Self {
        ArmNo::NoMemory
    }
}

impl From<AllocError> for ArmNo {
    ghost from_gives = { λ _ refused. refused ≡ refusal.NoMemory };

    fn from(_error: AllocError) -> Self {
        ArmNo::NoMemory
    }
}

impl<T: Drop> From<AllocFailed<T>> for ArmNo {
    ghost from_gives = { λ _ refused. refused ≡ refusal.NoMemory };

    fn from(_failed: AllocFailed<T>) -> Self {
        ArmNo::NoMemory
    }
}

/// The codes of a role, one for each arm in order. Each arm is compiled once, for all its roles,
/// since a text is refused where any of them can't send.
pub fn compile_arms(alloc: Global, b: &Branched, role: &Text) -> Result<Vec<RoleCode>, ArmNo>
    requires lawful { IsLawful (branched_of b.now) }
    requires is_role { among (roles_in (branched_of b.now)) role.now ≡ true }
    ensures fit { IfOk result (λ codes. FitArms (branched_of b.now).arms role.now codes.items) }
    ensures sendable { OnOk result (All IsSendable (branched_of b.now).arms) }
    ensures refused { IfErr result (RefusesArms (branched_of b.now).arms) }
{
    codes_of(alloc, &b.arms, role)
}

/// The codes of a role in these arms.
fn codes_of(alloc: Global, arms: &[Protocol], role: &Text) -> Result<Vec<RoleCode>, ArmNo>
    requires few { length arms.now ≤ 8 }
    requires roles { HaveRole arms.now role.now }
    ensures fit { IfOk result (λ codes. FitArms arms.now role.now codes.items) }
    ensures sendable { OnOk result (All IsSendable arms.now) }
    ensures refused { IfErr result (RefusesArms arms.now) }
{
    let mut codes = Vec::new(alloc);
    for arm in arms {
        let number = codes.len() as u32 + 1;
        match code_of(alloc, arm, number, role) {
            Ok(code) => codes.push(code)?,
            Err(no) => return Err(no),
        }
    }
    Ok(codes)
}

/// The code of a role in the arm with this number.
fn code_of(alloc: Global, arm: &Protocol, number: u32, role: &Text) -> Result<RoleCode, ArmNo>
    requires { role_number arm.now.roles role.now < length arm.now.roles }
    ensures fits { IfOk result (FitsRole arm.now (role_number arm.now.roles role.now)) }
    ensures sendable { OnOk result (IsSendable arm.now) }
    ensures refused { IfErr result (RefusesArm arm.now number) }
{
    match compile_all(alloc, arm) {
        Ok(mut codes) => Ok(codes.swap_remove(number_of(arm, role) as usize)),
        Err(CompileNo::CannotSend { action, role }) => {
            Err(cannot_send(alloc, arm, number, action, role))
        }
        Err(CompileNo::NoMemory) => Err(ArmNo::NoMemory),
    }
}

/// The number of the role with this name in the arm.
pub(crate) fn number_of(arm: &Protocol, role: &Text) -> u32
    ensures { result ≡ role_number arm.now.roles role.now }
{
    arm.role_of(role.as_str().as_bytes()).unwrap_or(0)
}

/// The refusal of an action in the arm with this number, which the role can't send.
fn cannot_send(alloc: Global, arm: &Protocol, number: u32, action: u32, role: u32) -> ArmNo
    requires { IsFirstUnsentOfAll arm.now role action }
    ensures { RefusesArm arm.now number result }
{
    match arm.roles()[role as usize].copy(alloc) {
        Ok(name) => ArmNo::CannotSend {
            arm: number,
            action,
            role: name,
        },
        Err(NoMemory) => ArmNo::NoMemory,
    }
}
