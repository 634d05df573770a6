//! A law on partners.
ghost use Rattle.anb_partner.specs.Laws.{PartnersPlay};

use anb_algebra::ByteAlgebra;
use anb_plays::laws::runs_as_played;
use anb_protocol::Protocol;

/// A law: the run of a partner's code is the play of its plan, and its only one.
pub fn partners_play(p: &Protocol)
    ensures { PartnersPlay p.now }
{
    runs_as_played(&ByteAlgebra::new(p.formats(), p.suite()));
}
