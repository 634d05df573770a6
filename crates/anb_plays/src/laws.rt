// What holds of plays, of runs and of codes that fit, in every lawful algebra.

ghost use Rattle.anb_plays.specs.Statements.{PlaysAreOne, PlaysAreThere, RunsAsPlayed, ExecIsRun, RunGrows, HonestAgree, HonestPlays};
ghost use Rattle.anb_plays.specs.Reaches.{ReachesOn, ReachesFit};

use anb_term::Algebra;
use anb_term::laws::new_atom_agrees;

/// A plan has at most one play.
pub fn plays_are_one<A: Algebra>(a: &A)
    ensures { PlaysAreOne (A.meaning a.now) }
{
    let _ = a;
}

/// It can't be that a plan has no play, where each message has a recipe and each fresh atom is new.
pub fn plays_are_there<A: Algebra>(a: &A)
    ensures { PlaysAreThere (A.meaning a.now) }
{
    new_atom_agrees(a);
}

/// The run of a code that fits is the plan's play, in both directions.
pub fn runs_as_played<A: Algebra>(a: &A)
    ensures { RunsAsPlayed (A.meaning a.now) }
{
    new_atom_agrees(a);
}

/// A run over the values of registers is the code's run.
pub fn exec_is_run<A: Algebra>(a: &A)
    ensures { ExecIsRun (A.meaning a.now) }
{
    let _ = a;
}

/// Over more arrivals a run goes on from where it waited; a run that stopped or is done stays so.
pub fn run_grows<A: Algebra>(a: &A)
    ensures { RunGrows (A.meaning a.now) }
{
    let _ = a;
}

/// Labels with honest values agree, and each recipe has the honest value of its term.
pub fn honest_agree<A: Algebra>(a: &A)
    ensures { HonestAgree (A.meaning a.now) }
{
    let _ = a;
}

/// A role that hears honest values alone never stops, and sends honest values.
pub fn honest_plays<A: Algebra>(a: &A)
    ensures { HonestPlays (A.meaning a.now) }
{
    let _ = a;
}

/// A code that was made piece by piece fits, where each piece goes on from the place before it and
/// enough is asked at the end.
pub fn pieces_fit<A: Algebra>(a: &A)
    ensures on { ReachesOn (A.meaning a.now) }
    ensures fit { ReachesFit (A.meaning a.now) }
{
    let _ = a;
}
