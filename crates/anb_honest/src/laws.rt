//! Laws of rehearsals, each a function that does nothing.
ghost use Rattle.anb_honest.specs.Laws.{CompleteIsTested, FittingCodesFollow, HonestBytesExist, KnownNamesDiffer, PlaysAreHonest, RehearsalsAreHonest};

use anb_algebra::ByteAlgebra;
use anb_compile::fitting_codes_play;
use anb_plays::laws::honest_plays;
use anb_protocol::{Protocol, honest_agrees, protocols_hold};

/// A law: a code that fits a role keeps the order of the role's plan.
pub fn fitting_codes_follow()
    ensures { FittingCodesFollow }
{}

/// A law: the test for complete schedules is true exactly of them.
pub fn complete_is_tested()
    ensures { CompleteIsTested }
{}

/// A law: there are honest bytes of all atoms, whatever bytes the names in knowledge have.
pub fn honest_bytes_exist()
    ensures { HonestBytesExist }
{}

/// A law: the names that values are asked for differ.
pub fn known_names_differ()
    ensures { KnownNamesDiffer }
{}

/// A law: where each code fits, the joint run ends as it does among honest roles. No role is ever
/// stuck, and the messages are the honest bytes of those that were sent.
pub fn rehearsals_are_honest(p: &Protocol)
    ensures { RehearsalsAreHonest p.now }
{
    protocols_hold();
    let _ = p.name();
    honest_plays(&ByteAlgebra::new(p.formats(), p.suite()));
    honest_agrees(p);
    fitting_codes_play(p);
}

/// A law: among honest roles the play of each over what it took in a schedule does not stop. It has
/// sent the honest bytes of all that stands before the first receive that the role did not take.
pub fn plays_are_honest(p: &Protocol)
    ensures { PlaysAreHonest p.now }
{
    protocols_hold();
    let _ = p.name();
    honest_plays(&ByteAlgebra::new(p.formats(), p.suite()));
}
