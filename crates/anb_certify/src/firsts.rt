//! Which registers are seen at once to be tied to the first of their term.
ghost use Rattle.std.specs.Prelude.{◌≡◌, ℕ, List, length};
ghost use Rattle.anb_basis.specs.Checks.{MarksStay};
ghost use Rattle.anb_term.specs.Tree.{Tree};
ghost use Rattle.anb_plays.specs.Codes.{Work};
ghost use Rattle.anb_certify.specs.Tied.{Did};
ghost use Rattle.anb_certify.specs.Works.{work_of, TellsTerms};
ghost use Rattle.anb_certify.specs.Numbered.{AreGrouped, AreSettled};

use crate::works::Job;

/// Where two registers are compared, one of which is flagged, flags both.
pub(crate) fn settle(job: &Job, flags: &mut Vec<bool>)
    requires { (ts : List Tree) × (at : ℕ) × (length ts ≡ length flags.old.items)
        × TellsTerms ts at (work_of job.now) }
    ensures long { length flags.new.items ≡ length flags.old.items }
    ensures kept { MarksStay flags.old.items flags.new.items }
    ensures settled { (did : List (ℕ × Work)) (ts : List Tree) (firsts : List ℕ) (at : ℕ)
        → AreGrouped ts did firsts → Did did at (work_of job.now)
        → AreSettled did firsts flags.old.items → AreSettled did firsts flags.new.items }
{
    if let Job::Equal(a, b) = job {
        if flags[*a as usize] || flags[*b as usize] {
            flags[*a as usize] = true;
            flags[*b as usize] = true;
        }
    }
}
