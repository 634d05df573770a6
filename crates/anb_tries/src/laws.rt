//! Verdicts on attempts are right.
ghost use Rattle.anb_tries.specs.Laws.{LaxProgramsAreTold, RightMessagesPass, RightProgramsPass, RightProgramsPassAsNarrated};

use anb_algebra::ByteAlgebra;
use anb_partner::partners_play;
use anb_plays::laws::honest_agree;
use anb_protocol::{Protocol, made_is_new, plans_know_first};
use anb_term::laws::new_atom_agrees;
use anb_verdict::lines_are_exact;

/// No right program is called wrong: nothing is said against a child whose output and end are those of
/// the role over what came to it, for some draws, where the partner refused none of its messages,
/// and each stop was known beforehand, or the names that the role had made by then can be told.
pub fn right_programs_pass(p: &Protocol)
    ensures { RightProgramsPass p.now }
{
    partners_play(p);
    lines_are_exact(p);
    made_is_new();
    plans_know_first();
    new_atom_agrees(&ByteAlgebra::new(p.formats(), p.suite()));
}

/// Where nothing is said against a program, what was seen of it is what the role does, for some draws,
/// if the names that the role makes can be told.
pub fn lax_programs_are_told(p: &Protocol)
    ensures { LaxProgramsAreTold p.now }
{
    partners_play(p);
    lines_are_exact(p);
}

/// The partner refuses no right message: none that has the bytes of the term that is due, where all
/// before had those of theirs.
pub fn right_messages_pass(p: &Protocol)
    ensures { RightMessagesPass p.now }
{
    partners_play(p);
    honest_agree(&ByteAlgebra::new(p.formats(), p.suite()));
}

/// Where all is as narrated no right program is called wrong, whatever it draws: the partner refuses
/// none of its messages, and the role doesn't stop.
pub fn right_programs_pass_as_narrated(p: &Protocol)
    ensures { RightProgramsPassAsNarrated p.now }
{
    partners_play(p);
    lines_are_exact(p);
    honest_agree(&ByteAlgebra::new(p.formats(), p.suite()));
}
