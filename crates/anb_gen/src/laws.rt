//! Laws of drills.
ghost use Rattle.anb_gen.specs.Laws.{GeneratedIsRead, TurnsAlternate};

/// A law: the canonical text of the narration of a drill is a text of this narration.
pub fn generated_is_read()
    ensures { GeneratedIsRead }
{}

/// A law: each action of a drill has two turns, its sender's and then its receiver's, and there are no
/// others.
pub fn turns_alternate()
    ensures { TurnsAlternate }
{}
