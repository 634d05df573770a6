//! Laws of the cases that `probe` plays, each a function that does nothing.
ghost use Rattle.anb_probed.specs.Laws.{CasesAreAttempts, DoneIsAsTheRole, LaxProgramsAreTold, MutantsAreSeen, MutantsAreTold, ReportsArePlayed, RightProgramsAreDone, RightProgramsPass};

use anb_dues::values_are_of_names;
use anb_protocol::{Protocol, protocols_hold, terms_of_plans};

/// A law: each case that `probe` plays is an attempt on a program, as the suite of the role has it.
pub fn cases_are_attempts(p: &Protocol)
    ensures { CasesAreAttempts p.now }
{
    let _ = p.name();
    protocols_hold();
    terms_of_plans();
    values_are_of_names(p);
}

/// A law: so no right program is called wrong in a case.
pub fn right_programs_pass(p: &Protocol)
    ensures { RightProgramsPass p.now }
{
    cases_are_attempts(p);
    anb_dues::right_programs_pass(p);
}

/// A law: and a lax program is told there.
pub fn lax_programs_are_told(p: &Protocol)
    ensures { LaxProgramsAreTold p.now }
{
    cases_are_attempts(p);
    anb_dues::lax_programs_are_told(p);
}

/// A law: where all cases are played and the program is right in each, nothing failed.
pub fn right_programs_are_done(p: &Protocol)
    ensures { RightProgramsAreDone p.now }
{
    right_programs_pass(p);
}

/// A law: and where nothing failed, what was seen in each case is what the role does.
pub fn done_is_as_the_role(p: &Protocol)
    ensures { DoneIsAsTheRole p.now }
{
    lax_programs_are_told(p);
}

/// A law: and where the child of a case runs the role's code less some checks, one of which is tried
/// there, and it is known that the role stops then, something failed.
pub fn mutants_are_told(p: &Protocol)
    ensures { MutantsAreTold p.now }
{
    let _ = p.name();
    protocols_hold();
    terms_of_plans();
    values_are_of_names(p);
    anb_mutants::mutants_are_told(p);
}

/// A law: so it is where that isn't known, if the bytes of the check's two sides differ, and what the
/// role made before it stops then can be told.
pub fn mutants_are_seen(p: &Protocol)
    ensures { MutantsAreSeen p.now }
{
    cases_are_attempts(p);
    anb_mutants::mutants_are_seen(p);
}

/// A law: where `probe` ends with a report, by its clause, all cases were played and the status is that of
/// their ends; or a case was asked for that isn't there.
pub fn reports_are_played()
    ensures { ReportsArePlayed }
{}
