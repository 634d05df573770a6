//! Laws of codes, each a function that does nothing.
ghost use Rattle.anb_code.specs.Laws.{QuarterAccepts, VerifiedIsRunnable, VerifiedIsSpelled, WiderAccepts};

/// Laws on the two limits: a code that is accepted with some limits is accepted with wider ones.
pub fn wider_limits_accept()
    ensures fourfold { WiderAccepts }
    ensures quarter { QuarterAccepts }
{}

/// A law: a verified code can be run over the values of registers.
pub fn verified_is_runnable()
    ensures { VerifiedIsRunnable }
{}

/// A law: each verified code is spelled by a raw code that is accepted, and comes of it again.
pub fn verified_is_spelled()
    ensures { VerifiedIsSpelled }
{}
