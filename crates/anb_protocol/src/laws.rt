//! Laws of protocols, plans and plays.
ghost use Rattle.anb_protocol.specs.Laws.{HonestAgrees, KnownTextsDiffer, MadeIsNew, PlansKnowFirst, PlayIsOne, PlayIsThere, ProtocolsHold, TermsOfPlans};

use crate::protocol::Protocol;
use anb_algebra::ByteAlgebra;
use anb_plays::laws::{honest_agree, plays_are_one, plays_are_there};

/// A law: what holds of every protocol.
pub fn protocols_hold()
    ensures { ProtocolsHold }
{}

/// A law: the texts of the terms that a role knows differ.
pub fn known_texts_differ()
    ensures { KnownTextsDiffer }
{}

/// A law: a plan begins with what the role knows, and knows nothing later.
pub fn plans_know_first()
    ensures { PlansKnowFirst }
{}

/// A law: each term of a plan is a term of the protocol, and so has a text.
pub fn terms_of_plans()
    ensures { TermsOfPlans }
{}

/// A law: a name that a role makes occurs in nothing that the role has by then.
pub fn made_is_new()
    ensures { MadeIsNew }
{}

/// A law: one play at most comes of a role's plan.
pub fn play_is_one(p: &Protocol)
    ensures { PlayIsOne p.now }
{
    plays_are_one(&ByteAlgebra::new(p.formats(), p.suite()));
}

/// A law: it can't be that no play comes of a role's plan, where each message has a recipe.
pub fn play_is_there(p: &Protocol)
    ensures { PlayIsThere p.now }
{
    plays_are_there(&ByteAlgebra::new(p.formats(), p.suite()));
}

/// A law: the honest bytes of terms agree with the terms.
pub fn honest_agrees(p: &Protocol)
    ensures { HonestAgrees p.now }
{
    honest_agree(&ByteAlgebra::new(p.formats(), p.suite()));
}
