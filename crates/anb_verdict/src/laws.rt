//! Verdicts are exact.
ghost use Rattle.anb_verdict.specs.Laws.{LinesAreExact};

use anb_algebra::ByteAlgebra;
use anb_judge::observed_are_conversations;
use anb_protocol::{Protocol, plans_know_first};

/// Of a conversation of a role nothing is said against the program where for some draws this is what
/// the role does; and where nothing is said there are such draws, if the names that the role makes can
/// be told.
pub fn lines_are_exact(p: &Protocol)
    ensures { LinesAreExact p.now }
{
    plans_know_first();
    let algebra = ByteAlgebra::new(p.formats(), p.suite());
    observed_are_conversations(&algebra);
}
