// What holds of recipes' values, of agreement and of demands, in every lawful algebra.

ghost use Rattle.std.specs.Prelude.{Bool};
ghost use Rattle.anb_term.specs.declared.term.Op.{Op};
ghost use Rattle.anb_term.specs.Lawful.{Lawful};
ghost use Rattle.anb_term.specs.FreeAlgebra.{terms_over};
ghost use Rattle.anb_term.specs.Statements.{PartInTerms, TermsAreTrees, OneValue, BuildsByOwn, UndoesByOwn, GiveValues, GivesOne, NewAtomAgrees, AgreeHolds};

use crate::algebra::Algebra;

/// Trees obey the laws of an algebra, whichever operators there are; their parts are operands, and
/// recipes have the same values over terms as over trees.
pub fn trees_are_lawful()
    ensures lawful { (has : Op → Bool) → Lawful (terms_over has) }
    ensures part { PartInTerms }
    ensures terms { TermsAreTrees }
{}

/// A recipe has at most one value, and none by an operator that the algebra lacks or by another
/// number of operands or keys than the operator has.
pub fn recipes_have_one_value<A: Algebra>(a: &A)
    ensures one { OneValue (A.meaning a.now) }
    ensures builds { BuildsByOwn (A.meaning a.now) }
    ensures undoes { UndoesByOwn (A.meaning a.now) }
    ensures values { GiveValues (A.meaning a.now) }
{
    let _ = a;
}

/// Where the labels agree, exactly one value is given for each term that has a recipe.
pub fn one_value_is_given<A: Algebra>(a: &A)
    ensures { GivesOne (A.meaning a.now) }
{
    let _ = a;
}

/// A label for an atom that no earlier label's term has in it may have any value.
pub fn new_atom_agrees<A: Algebra>(a: &A)
    ensures { NewAtomAgrees (A.meaning a.now) }
{
    let _ = a;
}

/// Where the labels agree, each demand that holds of the terms holds of the values.
pub fn demands_hold<A: Algebra>(a: &A)
    ensures { AgreeHolds (A.meaning a.now) }
{
    let _ = a;
}
