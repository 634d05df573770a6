//! Reads branched texts.
ghost use Rattle.std.specs.Prelude.{◌≡◌, ◌≢◌, ◌⊎◌, ◌≤◌, ◌+◌, ℕ, List, length, IfOk, IfErr, MatchResult};
ghost use Rattle.std.specs.List.{AllByRecursion, AllZip};
ghost use Rattle.anb_base.specs.declared.TheConstants.{SMALL_FILE};
ghost use Rattle.anb_choice.specs.declared.order.Span.{Span as SpanValue};
ghost use Rattle.anb_outcomes.specs.declared.choices.BranchNo.{BranchNo as No};
ghost use Rattle.anb_choice.specs.Branching.{ArmIsRefused, BranchedText, IsOrdered, IsRefusal, IsUntold, Tells, choice_fault, straights};
ghost use Rattle.anb_choice.specs.Lawful.{BranchedValue, IsLawful};
ghost use Rattle.anb_choice.specs.Order.{chooser_in, stem_end};
ghost use Rattle.anb_choice.specs.Standing.{IsSpanOf, Stand};
ghost use Rattle.anb_choice.specs.Views.{branched_of};

use crate::alike::{among, other_roles};
use crate::arms::arm_of;
use crate::blindness::blind;
use crate::branched::{Branched, roles_in};
use crate::laws::{
    branch_refusals_are_unique, choices_are_unique, faultless_is_lawful, no_choice_is_refused,
};
use crate::marks::{Mark, bad_at, marks};
use crate::order::{Span, order, past_at, place_at, stem_actions, stem_size};
use crate::parts::{bytes_between, straight};
use anb_base::{NoMemory, Text};
use anb_outcomes::BranchNo;
use anb_protocol::Protocol;
use anb_syntax::name_text;
use std::alloc::Global;

/// What the text tells: the role that chooses, the number of common actions, and each arm's
/// protocol. Only what stands before the first `Goals` is looked at. Its time is that of reading
/// and resolving each arm with the stem.
pub fn split(alloc: Global, text: &[u8]) -> Result<Branched, BranchNo>
    requires { length text.now ≤ SMALL_FILE }
    // What is told is the text's choice, and lawful; each text of a lawful choice tells it.
    ensures tells { IfOk result (λ b. BranchedText text.now (branched_of b)) }
    ensures lawful { IfOk result (λ b. IsLawful (branched_of b)) }
    ensures only { (b : BranchedValue) → BranchedText text.now b → IsLawful b
        → MatchResult result (λ c. branched_of c ≡ b) (λ e. e ≡ BranchNo.NoMemory) }
    // What is refused has the refusal, and each text with a refusal is refused so.
    ensures refused { IfErr result (λ e. e ≢ BranchNo.NoMemory → IsRefusal text.now e) }
    ensures exact { (e : No) → IsRefusal text.now e
        → MatchResult result (λ b. ⊥) (λ f. (f ≡ e) ⊎ (f ≡ BranchNo.NoMemory)) }
{
    choices_are_unique();
    branch_refusals_are_unique();
    no_choice_is_refused();
    match lawful_choice(alloc, text) {
        Ok(b) => Ok(b),
        Err(no) => Err(no),
    }
}

/// What the text tells, where it is lawful, or its refusal.
fn lawful_choice(alloc: Global, text: &[u8]) -> Result<Branched, BranchNo>
    requires { length text.now ≤ SMALL_FILE }
    ensures tells { IfOk result (λ b. BranchedText text.now (branched_of b)) }
    ensures lawful { IfOk result (λ b. IsLawful (branched_of b)) }
    ensures refused { IfErr result (λ no. no ≢ BranchNo.NoMemory → IsRefusal text.now no) }
{
    faultless_is_lawful();
    let branched = match told_choice(alloc, text) {
        Ok(branched) => branched,
        Err(no) => return Err(no),
    };
    match choice_fault(alloc, &branched) {
        Ok(None) => Ok(branched),
        Ok(Some(no)) => Err(no),
        Err(NoMemory) => Err(BranchNo::NoMemory),
    }
}

/// The choice that the text tells, lawful or not; or why it tells none.
pub fn told_choice(alloc: Global, text: &[u8]) -> Result<Branched, BranchNo>
    requires { length text.now ≤ SMALL_FILE }
    ensures tells { IfOk result (λ b. BranchedText text.now (branched_of b)) }
    ensures few { IfOk result (λ b. length b.arms.items ≤ 8) }
    ensures refused { IfErr result (λ no. no ≢ BranchNo.NoMemory → IsUntold text.now no) }
{
    let marks = match marks(alloc, text) {
        Ok(marks) => marks,
        Err(NoMemory) => return Err(BranchNo::NoMemory),
    };
    if let Some(at) = bad_at(&marks) {
        return Err(BranchNo::Token(at));
    }
    match order(alloc, &marks) {
        Ok(Ok(spans)) => branched_in(alloc, text, &marks, &spans),
        Ok(Err(at)) => Err(BranchNo::Shape(at)),
        Err(NoMemory) => Err(BranchNo::NoMemory),
    }
}

/// What the text tells, whose tokens are in order.
fn branched_in(
    alloc: Global,
    text: &[u8],
    marks: &[Mark],
    spans: &[Span],
) -> Result<Branched, BranchNo>
    requires size { length text.now ≤ SMALL_FILE }
    requires ordered { IsOrdered text.now marks.now spans.now }
    requires stand { (to : ℕ) × Stand text.now 0 marks.now to }
    requires count { length marks.now ≤ length text.now + 1 }
    ensures tells { IfOk result (λ b. BranchedText text.now (branched_of b)) }
    ensures few { IfOk result (λ b. length b.arms.items ≤ 8) }
    ensures refused { IfErr result (λ no. no ≢ BranchNo.NoMemory → IsUntold text.now no) }
{
    let arms = match arms_in(alloc, text, marks, spans) {
        Ok(arms) => arms,
        Err(no) => return Err(no),
    };
    let chooser = match chooser_in(alloc, text, marks) {
        Ok(chooser) => chooser,
        Err(NoMemory) => return Err(BranchNo::NoMemory),
    };
    Ok(Branched {
        chooser,
        stem: stem_actions(marks),
        arms,
    })
}

/// The protocols of the arms.
fn arms_in(
    alloc: Global,
    text: &[u8],
    marks: &[Mark],
    spans: &[Span],
) -> Result<Vec<Protocol>, BranchNo>
    requires size { length text.now ≤ SMALL_FILE }
    requires few { length spans.now ≤ 8 }
    requires spans { AllByRecursion (IsSpanOf text.now (stem_end marks.now)) spans.now }
    ensures told { IfOk result (λ arms.
        AllZip Tells (straights text.now marks.now spans.now) arms.items) }
    ensures refused { IfErr result (λ no. no ≢ BranchNo.NoMemory
        → ArmIsRefused (straights text.now marks.now spans.now) no) }
{
    let stem_end = stem_end(marks);
    let mut arms = Vec::new(alloc);
    for (i, span) in spans.iter().enumerate() {
        let straight = match straight(alloc, text, stem_end, *span) {
            Ok(straight) => straight,
            Err(NoMemory) => return Err(BranchNo::NoMemory),
        };
        let arm = match arm_of(alloc, i as u32 + 1, &straight) {
            Ok(arm) => arm,
            Err(no) => return Err(no),
        };
        arms.push(arm)?;
    }
    Ok(arms)
}

/// The offset past the stem.
pub(crate) fn stem_end(marks: &[Mark]) -> u32
    ensures { result ≡ stem_end marks.now }
{
    match stem_size(marks) {
        0 => past_at(marks, 0),
        size => past_at(marks, size - 1),
    }
}

/// The name of the role that chooses.
fn chooser_in(alloc: Global, text: &[u8], marks: &[Mark]) -> Result<Text, NoMemory>
    requires ordered { (spans : List SpanValue) × IsOrdered text.now marks.now spans }
    requires stand { (to : ℕ) × Stand text.now 0 marks.now to }
    ensures { IfOk result (λ name. name ≡ chooser_in text.now marks.now) }
{
    let at = stem_size(marks) + 2;
    let span = Span {
        from: place_at(marks, at),
        to: past_at(marks, at),
    };
    name_text(alloc, bytes_between(text, span))
}

/// Why a choice isn't lawful.
pub fn choice_fault(alloc: Global, b: &Branched) -> Result<Option<BranchNo>, NoMemory>
    requires { length b.now.arms.items ≤ 8 }
    ensures { IfOk result (λ r. r ≡ choice_fault (branched_of b.now)) }
{
    if let Some(arm) = other_roles(b) {
        return Ok(Some(BranchNo::Roles(arm)));
    }
    if !among(roles_in(b), &b.chooser) {
        return Ok(Some(BranchNo::Chooser));
    }
    match blind(alloc, b)? {
        Some((role, arm)) => Ok(Some(BranchNo::Blind { role, arm })),
        None => Ok(None),
    }
}
