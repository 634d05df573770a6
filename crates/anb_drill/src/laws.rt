//! Laws of drills, each a function that does nothing.
ghost use Rattle.anb_drill.specs.Laws.{DrillsAreDone, DrillsAreWellFormed, DrillsAskFor, DrillsCanBeSent, DrillsHaveTwoRoles};

/// A law: the narration of a drill is well formed.
pub fn drills_are_well_formed()
    ensures { DrillsAreWellFormed }
{}

/// A law: the roles of a drill are `A` and `B`, in this order.
pub fn drills_have_two_roles()
    ensures { DrillsHaveTwoRoles }
{}

/// A law: each message of a drill has a recipe.
pub fn drills_can_be_sent()
    ensures { DrillsCanBeSent }
{}

/// A law: a drill asks for three values, and its turns are those of its roles.
pub fn drills_ask_for()
    ensures { DrillsAskFor }
{}

/// A law: in its turns honest roles do all of a drill, and pass over none of them.
pub fn drills_are_done()
    ensures { DrillsAreDone }
{}
