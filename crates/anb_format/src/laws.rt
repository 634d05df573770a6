//! Laws of formats and literals, each a function that does nothing.
ghost use Rattle.anb_format.specs.Laws.{ApartSharesNothing, BuiltIsBytes, BuiltIsWithin};
ghost use Rattle.anb_format.specs.Laws.{CanonicalIsLiteral, LiteralsAreUnique};
ghost use Rattle.anb_format.specs.Laws.{PartsAreExact, PartsAreUnique, PartsAreWithin};

/// A law: some bytes are built from one list of arguments at most.
pub fn parts_are_unique()
    ensures { PartsAreUnique }
{}

/// A law: the definition by which parts are computed gives the arguments that build some bytes,
/// exactly where there are any.
pub fn parts_are_exact()
    ensures { PartsAreExact }
{}

/// A law: what a format builds of byte strings is a byte string.
pub fn built_is_bytes()
    ensures { BuiltIsBytes }
{}

/// Laws on lengths: a format's width bounds what it builds, and no argument is longer than that.
pub fn widths_bound_bytes()
    ensures built { BuiltIsWithin }
    ensures parts { PartsAreWithin }
{}

/// A law: formats that are apart build no bytes in common.
pub fn apart_shares_nothing()
    ensures { ApartSharesNothing }
{}

/// A law: the canonical literal of some bytes is a literal of them.
pub fn canonical_is_literal()
    ensures { CanonicalIsLiteral }
{}

/// A law: at an offset of a text one literal begins at most.
pub fn literals_are_unique()
    ensures { LiteralsAreUnique }
{}
