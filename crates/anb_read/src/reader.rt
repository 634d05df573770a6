//! Reads narrations.

ghost use Rattle.std.specs.Prelude.{◌≡◌, ◌≤◌, ◌⊎◌, length, IfOk, IfErr, MatchResult};
ghost use Rattle.anb_base.specs.declared.TheConstants.{SMALL_FILE};
ghost use Rattle.anb_syntax.specs.Grammar.{Narration as Told, IsSpellable};
ghost use Rattle.anb_syntax.specs.Views.{narration_of};
ghost use Rattle.anb_syntax.specs.Text.{Text};
ghost use Rattle.anb_read.specs.Laws.{EachIsEither, NarrationsAreUnique, RefusalsAreUnique, NoneIsBoth};
ghost use Rattle.anb_read.specs.Refusals.{IsRefusal, UnlessNoMemory};
ghost use Rattle.anb_syntax.specs.Sizes.{size};
ghost use Rattle.anb_read.specs.declared.refusal.ReadNo.{ReadNo as No};

use crate::places::places;
use crate::refusal::ReadNo;
use crate::sections::{narration, told};
use anb_syntax::Narration;
use std::alloc::Global;

/// The narration that the text is. Behind `Goals` and its colon nothing is looked at.
pub fn read(alloc: Global, text: &[u8]) -> Result<Narration, ReadNo>
    requires { length text.now ≤ SMALL_FILE }
    // What is read is the text's narration, and each narration's text is read.
    ensures found { IfOk result (λ n. Text (narration_of n) text.now) }
    ensures only { (n : Told) → Text n text.now
        → MatchResult result (λ m. narration_of m ≡ n) (λ e. e ≡ ReadNo.NoMemory) }
    // It can be spelled, and is no larger than its text, which calls on narrations ask for.
    ensures spellable { IfOk result (λ n. IsSpellable (narration_of n)) }
    ensures size { IfOk result (λ n. size (narration_of n) ≤ length text.now) }
    // What is refused has the refusal, and each text with a refusal is refused so.
    ensures refused { IfErr result (λ e. UnlessNoMemory e (IsRefusal text.now e)) }
    ensures exact { (e : No) → IsRefusal text.now e
        → MatchResult result (λ n. ⊥) (λ f. (f ≡ e) ⊎ (f ≡ ReadNo.NoMemory)) }
{
    let all = places(alloc, text)?;
    match narration(alloc, text, &all) {
        Ok((written, _rest)) => Ok(told(alloc, written)),
        Err(no) => Err(no),
    }
}

/// A law: a text is that of one narration at most.
pub fn narrations_are_unique()
    ensures { NarrationsAreUnique }
{}

/// A law: a text has one refusal at most.
pub fn refusals_are_unique()
    ensures { RefusalsAreUnique }
{}

/// A law: no text is a narration's and is refused.
pub fn none_is_both()
    ensures { NoneIsBoth }
{}

/// A law: each text is a narration's, or is refused.
pub fn each_is_either()
    ensures { EachIsEither }
{}
