//! Laws of branched texts.
ghost use Rattle.anb_choice.specs.Laws.{ArmTextsAreUnique, ChoicesAreUnique, EachIsEither, FaultlessIsLawful, NoneIsBoth, NoneIsUntold, RefusalsAreUnique};

use anb_read::{narrations_are_unique, none_is_both, refusals_are_unique};
use anb_syntax::tokens_are_unique;

/// A law: a text tells one choice at most.
pub fn choices_are_unique()
    ensures { ChoicesAreUnique }
{
    tokens_are_unique();
    narrations_are_unique();
}

/// A law: a text has one refusal at most.
pub fn branch_refusals_are_unique()
    ensures { RefusalsAreUnique }
{
    tokens_are_unique();
    narrations_are_unique();
    refusals_are_unique();
    none_is_both();
}

/// A law: no text tells a lawful choice and is refused.
pub fn no_choice_is_refused()
    ensures { NoneIsBoth }
{
    tokens_are_unique();
    narrations_are_unique();
    none_is_both();
}

/// A law: a text that tells a choice without a fault tells a lawful one. The arms have the stem in
/// common, so their narrations do, and the plans up to the choice.
pub fn faultless_is_lawful()
    ensures { FaultlessIsLawful }
{
    tokens_are_unique();
    narrations_are_unique();
}

/// A law: each text tells a lawful choice, or is refused.
pub fn each_is_either()
    ensures { EachIsEither }
{
    anb_read::each_is_either();
    faultless_is_lawful();
}

/// Laws: the texts of a text's arms are one list; and no text tells a choice, lawful or not, and is
/// refused as telling none.
pub fn arm_texts_are_unique()
    ensures texts { ArmTextsAreUnique }
    ensures untold { NoneIsUntold }
{
    tokens_are_unique();
    narrations_are_unique();
    none_is_both();
}
