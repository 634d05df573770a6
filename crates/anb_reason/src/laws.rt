//! What a shut list shows: a law, a function that does nothing.
ghost use Rattle.anb_reason.specs.Shut.{ShutHasNone};

use anb_close::laws::every_recipe_composes;

/// A law: where a list is shut for labels and a term, no recipe over the labels has the term.
pub fn shut_has_none()
    ensures { ShutHasNone }
{
    every_recipe_composes();
}
