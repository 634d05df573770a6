//! What a role drew is told in one way.
ghost use Rattle.anb_draws.specs.Laws.{DrawsOne};

/// Of each name one value comes at most.
pub fn one_drawing()
    ensures { DrawsOne }
{}
