//! What holds of relays, and of stages of honest children.
ghost use Rattle.anb_stage.specs.Due.{RelaysAreDue};
ghost use Rattle.anb_stage.specs.Honest.{RelaysAreComplete, StagesAreHonest};

use anb_algebra::ByteAlgebra;
use anb_base::ARRIVAL;
use anb_frame::one_cut;
use anb_plays::laws::{honest_plays, plays_are_one};
use anb_protocol::{Protocol, protocols_hold};

/// A law: where all children play their roles honestly, each message that is relayed has the honest
/// bytes of its term, none is missing, and no child's play stops. The turns of the senders and
/// receivers are a complete schedule.
pub fn stages_are_honest(p: &Protocol)
    ensures honest { StagesAreHonest p.now }
    ensures complete { RelaysAreComplete p.now }
{
    protocols_hold();
    let _ = p.name();
    let algebra = ByteAlgebra::new(p.formats(), p.suite());
    honest_plays(&algebra);
    plays_are_one(&algebra);
    one_cut(ARRIVAL);
}

/// A law: where the children's outputs and statuses are told, a relay is refused by the first
/// message that is missing, or else by the first child that ended badly, and is whole where there is
/// neither. So it has one outcome, but for faults of children and want of memory.
pub fn relays_are_due()
    ensures { RelaysAreDue }
{}
