//! Laws of what is taken unchecked.
ghost use Rattle.anb_report.specs.Laws.{ChecksNothingUnchecked, PlaysStayFree, UncheckedIsFree};

use anb_plays::laws::{exec_is_run, runs_as_played};
use anb_term::Algebra;

/// No term that a role takes unchecked is told to be checked, whatever its code compares.
pub fn checks_nothing_unchecked()
    ensures { ChecksNothingUnchecked }
{}

/// What a code takes unchecked may have any bytes: where such parts of arrivals are replaced, and what
/// they were opened from is built anew around them, the run over these arrivals ends alike, after as
/// many messages, and has the new bytes in these registers.
pub fn unchecked_is_free<A: Algebra>(a: &A)
    ensures { UncheckedIsFree (A.meaning a.now) }
{
    let _ = a;
}

/// So does the play of a plan that the code fits: it goes on where it went on before.
pub fn plays_stay_free<A: Algebra>(a: &A)
    ensures { PlaysStayFree (A.meaning a.now) }
{
    runs_as_played(a);
    exec_is_run(a);
}
