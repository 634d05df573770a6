//! Why the checks are enough, and why a stop is justified.

ghost use Rattle.std.specs.Prelude.{List};
ghost use Rattle.anb_close.specs.declared.entry.Entry.{Entry};
ghost use Rattle.anb_close.specs.Entries.{IsKnown};
ghost use Rattle.anb_basis.specs.declared.check.Check.{Check};
ghost use Rattle.anb_basis.specs.Checks.{AreAll, AllFit};
ghost use Rattle.anb_basis.specs.Statements.{AreEnough, AreJustified, AreTrueInTerms};

use crate::basis::Basis;
use anb_term::Algebra;

/// All the checks that entries have are enough: where they hold, any two recipes that have one term
/// have one defined value, however large they are.
pub fn checks_are_enough<A: Algebra>(a: &A)
    ensures { (es : List Entry) (cs : List Check) → IsKnown es → AreAll es cs
        → AreEnough (A.meaning a.now) es cs }
{
    let _ = a;
}

/// Each check that an entry has is true of terms, and holds wherever recipes with one term agree.
pub fn checks_are_justified<A: Algebra>(a: &A)
    ensures in_terms { (es : List Entry) (cs : List Check) → IsKnown es → AllFit es cs
        → AreTrueInTerms (A.meaning a.now) es cs }
    ensures justified { (es : List Entry) (cs : List Check) → IsKnown es → AllFit es cs
        → AreJustified (A.meaning a.now) es cs }
{
    let _ = a;
}

/// The checks that a basis has given so far are true of terms, and they hold exactly where any two
/// recipes that have one term have one defined value.
pub fn basis_is_exact<A: Algebra>(a: &A, basis: &Basis)
    ensures in_terms { AreTrueInTerms (A.meaning a.now) basis.now.0 basis.now.1 }
    ensures enough { AreEnough (A.meaning a.now) basis.now.0 basis.now.1 }
    ensures justified { AreJustified (A.meaning a.now) basis.now.0 basis.now.1 }
{
    let _ = a;
    let _ = basis.given();
}
