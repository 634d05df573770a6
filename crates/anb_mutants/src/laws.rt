//! Laws of programs that lack checks, each a function that does nothing.
ghost use Rattle.anb_mutants.specs.Laws.{ChecksAreTried, MutantsAreSeen, MutantsAreTold};

use anb_algebra::ByteAlgebra;
use anb_partner::partners_play;
use anb_plays::laws::runs_as_played;
use anb_protocol::{Protocol, made_is_new, plans_know_first, protocols_hold, terms_of_plans};
use anb_term::laws::new_atom_agrees;

/// A law: a child that runs the role's code less some checks is called wrong in each attempt in the
/// scene of the case of one of them, if it is known there that the role stops, and nothing failed.
pub fn mutants_are_told(p: &Protocol)
    ensures { MutantsAreTold p.now }
{
    let _ = p.name();
    protocols_hold();
    terms_of_plans();
    plans_know_first();
    made_is_new();
    partners_play(p);
    runs_as_played(&ByteAlgebra::new(p.formats(), p.suite()));
}

/// A law: so it is where that isn't known, if the bytes of the check's two sides differ in the
/// attempt, and what the role made before it stops can be told.
pub fn mutants_are_seen(p: &Protocol)
    ensures { MutantsAreSeen p.now }
{
    let _ = p.name();
    protocols_hold();
    terms_of_plans();
    plans_know_first();
    made_is_new();
    partners_play(p);
    let bytes = ByteAlgebra::new(p.formats(), p.suite());
    runs_as_played(&bytes);
    new_atom_agrees(&bytes);
}

/// A law: a suite with room for all has an attempt in the scene of the case of each check behind
/// the first arrival, where the check has a case and its terms aren't too large.
pub fn checks_are_tried(p: &Protocol)
    ensures { ChecksAreTried p.now }
{}
