//! Laws of the arms of a branched text.
ghost use Rattle.std.specs.Prelude.{◌≡◌, true};
ghost use Rattle.anb_index.specs.Places.{among};
ghost use Rattle.anb_choice.specs.Lawful.{IsLawful, roles_in};
ghost use Rattle.anb_choice.specs.Views.{branched_of};
ghost use Rattle.anb_branch.specs.Arms.{FitArms};
ghost use Rattle.anb_branch.specs.Laws.{ArmsKnowAlike, ArmsPlayAlike};
ghost use Rattle.anb_branch.specs.Taken.{IsTold, PlaysTaken, TakeAll, run_taken};

use crate::playing::{all_play, are_bytes_all};
use anb_base::{Bytes, Text};
use anb_choice::Branched;
use anb_code::RoleCode;

/// Law: up to the arrival that tells the arm, the plays of a role that sees the choice are the same
/// in any two arms.
pub fn arms_play_alike()
    ensures { ArmsPlayAlike }
{}

/// Law: what a role knows has the same texts in any two arms.
pub fn arms_know_alike()
    ensures { ArmsKnowAlike }
{}

/// Law: where there is a fitting code for each arm, the run of the arm that is taken is the role's
/// play in this arm, and there is no other.
pub fn fitting_arms_play(
    b: &Branched,
    codes: &[RoleCode],
    role: &Text,
    told: Option<u32>,
    init: &[Bytes],
    seed: &[u8; 32],
)
    requires lawful { IsLawful (branched_of b.now) }
    requires is_role { among (roles_in (branched_of b.now)) role.now ≡ true }
    requires fit { FitArms (branched_of b.now).arms role.now codes.now }
    requires told { IsTold (branched_of b.now) role.now told }
    requires count { TakeAll codes.now init.now }
    ensures { PlaysTaken (branched_of b.now) role.now told init.now seed.now
        (run_taken (branched_of b.now) role.now told init.now seed.now codes.now) }
{
    are_bytes_all(init);
    all_play(&b.arms);
}
