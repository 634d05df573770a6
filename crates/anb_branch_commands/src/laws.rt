//! Laws of playing texts with a choice.
ghost use Rattle.anb_branch_commands.specs.Laws.{ArmsAreNarrations, ArmsArePlayed};

use anb_branch::arms_know_alike;
use anb_choice::{branch_refusals_are_unique, choices_are_unique, no_choice_is_refused};
use anb_read::{narrations_are_unique, none_is_both, refusals_are_unique};
use anb_values::one_fit;

/// A law: what `branch` plays in an arm is what `play` plays of the common actions with that arm.
pub fn arms_are_narrations()
    ensures { ArmsAreNarrations }
{
    arms_know_alike();
}

/// A law: what `branch` does with an input is what `play` does with it, of the common actions with
/// the arm that is taken.
pub fn arms_are_played()
    ensures { ArmsArePlayed }
{
    arms_are_narrations();
    choices_are_unique();
    branch_refusals_are_unique();
    no_choice_is_refused();
    narrations_are_unique();
    refusals_are_unique();
    none_is_both();
    one_fit();
}
