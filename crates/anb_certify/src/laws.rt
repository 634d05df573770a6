//! What a certificate is worth: laws, each a function that does nothing.
ghost use Rattle.anb_certify.specs.Classes.{ClassesAreTied, RulesAreDecided, RulesTie};
ghost use Rattle.anb_certify.specs.Statements.{CertifiedFits, EachIsEither, FramesFollow, NoneIsBoth};
ghost use Rattle.anb_certify.specs.Statements.{RefusalsAreUnique};

use anb_code::verified_is_runnable;
use anb_term::Algebra;

/// A law: a verified code of which nothing is found fits its plan, in every lawful algebra.
pub fn certified_fits<A: Algebra>(a: &A)
    ensures { CertifiedFits (A.meaning a.now) }
{
    let _ = a;
}

/// A law: classes of registers that only join what the rules tie, with nothing left to tie, tell
/// exactly what is tied, and decide whether a register keeps the rules.
pub fn classes_are_tied()
    ensures exact { ClassesAreTied }
    ensures rules { RulesTie }
    ensures decided { RulesAreDecided }
{}

/// A law: no code is both certified and refused.
pub fn none_is_both()
    ensures { NoneIsBoth }
{}

/// A law: a code has one refusal at most.
pub fn refusals_are_unique()
    ensures { RefusalsAreUnique }
{}

/// A law: a verified code is certified or has a refusal; it can't be that it is neither.
pub fn each_is_either()
    ensures { EachIsEither }
{
    verified_is_runnable();
}

/// A law: a code has a role's frame exactly where it keeps the order of the role's plan.
pub fn frames_follow()
    ensures { FramesFollow }
{}
