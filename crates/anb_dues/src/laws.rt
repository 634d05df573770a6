//! Laws of the attempts of a suite, each a function that does nothing.
ghost use Rattle.anb_dues.specs.Laws.{DuesAreKnown, LaxProgramsAreTold, RightProgramsPass, ValuesAreOfNames};

use anb_algebra::ByteAlgebra;
use anb_partner::partners_play;
use anb_plays::laws::runs_as_played;
use anb_protocol::{Protocol, made_is_new, plans_know_first, protocols_hold, terms_of_plans};

/// A law: where the suite of a role says that the role stops at an event, the role hears something
/// there, and no draws go on over it, in every attempt on a program that the suite has.
pub fn dues_are_known(p: &Protocol)
    ensures { DuesAreKnown p.now }
{
    let _ = p.name();
    protocols_hold();
    terms_of_plans();
    plans_know_first();
    made_is_new();
    partners_play(p);
    runs_as_played(&ByteAlgebra::new(p.formats(), p.suite()));
}

/// A law: what a role begins with in trials, and what its partner is handed, are the bytes of names, as
/// the others ask it of an attempt.
pub fn values_are_of_names(p: &Protocol)
    ensures { ValuesAreOfNames p.now }
{
    plans_know_first();
}

/// A law: so no right program is called wrong in an attempt of a suite. That its partner refuses none
/// of its messages isn't asked. Only where something is made wrong and it isn't known that the role
/// stops then, what the child had made before it stops can be told; and sealed bytes that are changed
/// don't open, which nothing excludes, since a tag may fit by chance.
pub fn right_programs_pass(p: &Protocol)
    ensures { RightProgramsPass p.now }
{
    let _ = p.name();
    protocols_hold();
    terms_of_plans();
    plans_know_first();
    made_is_new();
    partners_play(p);
    runs_as_played(&ByteAlgebra::new(p.formats(), p.suite()));
    dues_are_known(p);
    anb_tries::right_programs_pass(p);
    anb_tries::right_programs_pass_as_narrated(p);
}

/// A law: and a lax program is told there.
pub fn lax_programs_are_told(p: &Protocol)
    ensures { LaxProgramsAreTold p.now }
{
    dues_are_known(p);
    anb_tries::lax_programs_are_told(p);
}
