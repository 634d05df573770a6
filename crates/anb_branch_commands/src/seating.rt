//! A role of a branched text, and its codes in all arms.
ghost use Rattle.std.specs.Prelude.{◌≡◌, ◌≤◌, [], ◌∷◌, length, true, IfOk, IfErr, OnOk};
ghost use Rattle.anb_index.specs.Places.{among};
ghost use Rattle.anb_base.specs.Moves.{Rose};
ghost use Rattle.anb_choice.specs.Lawful.{IsLawful, roles_in};
ghost use Rattle.anb_choice.specs.Views.{branched_of};
ghost use Rattle.anb_branch.specs.Arms.{FitArms};
ghost use Rattle.anb_command.specs.declared.limits.TheConstants.{NARRATION_LIMIT};
ghost use Rattle.anb_command.specs.Fetches.{Fetches, IfTold};
ghost use Rattle.anb_command.specs.Reported.{TellsFileFaults};
ghost use Rattle.anb_status.specs.Statuses.{IsEarly};
ghost use Rattle.anb_command.specs.Steps.{IsFailure, refused, given};
ghost use Rattle.anb_branch_commands.specs.Arming.{IsSeated};
ghost use Rattle.anb_branch_commands.specs.BranchJobs.{ArmsSend, BranchInFile, BranchIs, SeatOf, misfit};

use anb_base::{Shelf, Text};
use anb_branch::{ArmNo, compile_arms};
use anb_choice::{BranchNo, Branched, split};
use anb_code::RoleCode;
use anb_command::{NARRATION_LIMIT, Status, fetch_file, no_role};
use std::alloc::Global;

/// The choice that is told in the file.
pub(crate) fn branch_in_file<F: Shelf>(
    alloc: Global,
    shelf: &mut F,
    name: &Text,
) -> Result<Branched, Status>
    ensures given { IfOk result (λ b. IfTold (F.files shelf.old) (λ files.
        BranchInFile files name.now (given (branched_of b)))) }
    ensures lawful { IfOk result (λ b. IsLawful (branched_of b)) }
    ensures refused { IfErr result (λ status. IsFailure status
        (λ file. (file ≡ name.now) × Rose (F.faults shelf.old file) (F.faults shelf.new file))
        (IfTold (F.files shelf.old) (λ files. BranchInFile files name.now (refused status)))) }
    ensures early { IfErr result IsEarly }
    ensures fetches { Fetches (name.now ∷ [])
        (F.files shelf.old) (F.files shelf.new) (F.faults shelf.old) (F.faults shelf.new) }
    ensures told { TellsFileFaults result (F.faults shelf.old) (F.faults shelf.new) }
{
    match fetch_file(alloc, shelf, name, NARRATION_LIMIT) {
        Ok(text) => branch_of_text(alloc, text.as_slice()),
        Err(status) => Err(status),
    }
}

/// The choice that the text tells.
fn branch_of_text(alloc: Global, text: &[u8]) -> Result<Branched, Status>
    requires { length text.now ≤ NARRATION_LIMIT }
    ensures given { IfOk result (λ b. BranchIs text.now (given (branched_of b))) }
    ensures lawful { IfOk result (λ b. IsLawful (branched_of b)) }
    ensures refused { IfErr result (λ status. IsFailure status (λ file. ⊥)
        (BranchIs text.now (refused status))) }
    ensures early { IfErr result IsEarly }
{
    match split(alloc, text) {
        Ok(b) => Ok(b),
        Err(BranchNo::NoMemory) => Err(Status::NoMemory),
        Err(why) => Err(Status::BadBranch(why)),
    }
}

/// The role's codes in all arms, where there is such a role, all can send, and what it is told
/// fits.
pub(crate) fn codes_for(
    alloc: Global,
    b: &Branched,
    role: &Text,
    told: Option<u32>,
) -> Result<Vec<RoleCode>, Status>
    requires { IsLawful (branched_of b.now) }
    ensures given { OnOk result
        (SeatOf role.now told (branched_of b.now) (given (branched_of b.now))) }
    ensures seated { IfOk result (λ codes.
        IsSeated (branched_of b.now) role.now told codes.items) }
    ensures refused { IfErr result (λ status. IsFailure status (λ file. ⊥)
        (SeatOf role.now told (branched_of b.now) (refused status))) }
    ensures early { IfErr result IsEarly }
{
    if !b.has_role(role) {
        return Err(no_role(alloc, role));
    }
    let codes = match arm_codes(alloc, b, role) {
        Ok(codes) => codes,
        Err(status) => return Err(status),
    };
    match misfit(b, role, told) {
        None => Ok(codes),
        Some(number) => Err(Status::BadArm(number)),
    }
}

/// The role's codes in all arms, where all can send.
fn arm_codes(alloc: Global, b: &Branched, role: &Text) -> Result<Vec<RoleCode>, Status>
    requires lawful { IsLawful (branched_of b.now) }
    requires is_role { among (roles_in (branched_of b.now)) role.now ≡ true }
    ensures given { OnOk result (ArmsSend (branched_of b.now) (given tt)) }
    ensures fit { IfOk result (λ codes. FitArms (branched_of b.now).arms role.now codes.items) }
    ensures refused { IfErr result (λ status. IsFailure status (λ file. ⊥)
        (ArmsSend (branched_of b.now) (refused status))) }
    ensures early { IfErr result IsEarly }
{
    match compile_arms(alloc, b, role) {
        Ok(codes) => Ok(codes),
        Err(ArmNo::CannotSend { arm, action, role }) => {
            Err(Status::ArmCannotSend { arm, action, role })
        }
        Err(ArmNo::NoMemory) => Err(Status::NoMemory),
    }
}

/// The number that doesn't fit of what the role is told, 0 where it is to be told one.
fn misfit(b: &Branched, role: &Text, told: Option<u32>) -> Option<u32>
    ensures { result ≡ misfit (branched_of b.now) role.now told }
{
    if role.as_str() != b.chooser.as_str() {
        return told;
    }
    match told {
        None => Some(0),
        Some(number) if 1 <= number && number as usize <= b.arms.len() => None,
        Some(number) => Some(number),
    }
}
