//! Laws of codes over terms, each a function that does nothing.
ghost use Rattle.anb_distinguish.specs.Laws.{RunsAreSolutions, SameSidesAreImplied, TwoSidesMakeACase};

/// A code goes on to its end exactly over the arrivals that solve its equations.
pub fn runs_are_solutions()
    ensures { RunsAreSolutions }
{}

/// A check whose sides are one term in the most general solution of all else is implied.
pub fn same_sides_are_implied()
    ensures { SameSidesAreImplied }
{}

/// Where the sides are two terms there, a variable that tells them apart makes a case.
pub fn two_sides_make_a_case()
    ensures { TwoSidesMakeACase }
{}
