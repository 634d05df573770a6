// What composes from entries, as a law over the definitions.

ghost use Rattle.anb_close.specs.Closed.{EveryRecipeComposes};

/// Whatever has a recipe, of any size, over labels that compose from closed entries composes from
/// those entries.
pub fn every_recipe_composes()
    ensures { EveryRecipeComposes }
{}
