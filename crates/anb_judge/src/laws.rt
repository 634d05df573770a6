//! What somebody who sees a role can say of it, in every lawful algebra.
ghost use Rattle.anb_judge.specs.Laws.{ConversationsAreObserved, JudgesOne, ObservedAreConversations};

use anb_term::Algebra;
use anb_term::laws::{new_atom_agrees, recipes_have_one_value};

/// Whatever a role draws, who sees its conversation goes on over it to the end.
pub fn conversations_are_observed<A: Algebra>(a: &A)
    ensures { ConversationsAreObserved (A.meaning a.now) }
{
    new_atom_agrees(a);
}

/// Where the names that a role makes can be told from what is known, heard and said, each conversation
/// over which who sees it goes on is one of the role, for some draws.
pub fn observed_are_conversations<A: Algebra>(a: &A)
    ensures { ObservedAreConversations (A.meaning a.now) }
{
    recipes_have_one_value(a);
}

/// Of each transcript one thing comes at most.
pub fn one_judgement()
    ensures { JudgesOne }
{}
