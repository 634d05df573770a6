//! Laws of recordings.
ghost use Rattle.anb_outsider.specs.Laws.{RecordingsGoOn};

use anb_plays::laws::honest_agree;
use anb_term::Algebra;
use anb_term::laws::{new_atom_agrees, one_value_is_given};

/// Where a role takes a recording of a run in which it drew other names, its play over the values of
/// what came goes on to the end, whatever the values of both runs' names are.
pub fn recordings_go_on<A: Algebra>(a: &A)
    ensures { RecordingsGoOn (A.meaning a.now) }
{
    honest_agree(a);
    one_value_is_given(a);
    new_atom_agrees(a);
}
