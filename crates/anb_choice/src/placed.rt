//! The texts of arms, each token where it stands in the text.
ghost use Rattle.std.specs.Prelude.{◌≡◌, ◌≤◌, ◌<◌, ◌++◌, ℕ, List, length, map, take, IfOk, OnOk};
ghost use Rattle.std.specs.List.{AllByRecursion};
ghost use Rattle.anb_base.specs.declared.TheConstants.{SMALL_FILE};
ghost use Rattle.anb_choice.specs.Branching.{AreArmTexts, HasArms, IsOrdered};
ghost use Rattle.anb_choice.specs.Order.{blank, bytes_between, in_place, stem_end};
ghost use Rattle.anb_choice.specs.Standing.{IsSpanOf};

use crate::marks::{Mark, marks};
use crate::order::{Span, order};
use crate::parts::bytes_between;
use crate::splitting::stem_end;
use anb_base::{Bytes, NoMemory};
use anb_read::narrations_are_unique;
use anb_syntax::tokens_are_unique;
use std::alloc::Global;

/// For each arm the text with blanks between the stem and the arm, up to the arm's end. It is a
/// narration's text where that of the stem and the arm is one, and each token stands where it stands
/// in the text.
pub fn arm_texts(alloc: Global, text: &[u8]) -> Result<Vec<Bytes>, NoMemory>
    requires size { length text.now ≤ SMALL_FILE }
    requires ordered { HasArms text.now }
    ensures are { IfOk result (λ texts. AreArmTexts text.now texts.items) }
    ensures short { IfOk result (λ texts.
        AllByRecursion (λ (t : List ℕ). length t ≤ length text.now) texts.items) }
{
    tokens_are_unique();
    narrations_are_unique();
    let marks = marks(alloc, text)?;
    let found = order(alloc, &marks)?;
    match found {
        Ok(spans) => texts_of(alloc, text, &marks, &spans),
        Err(_at) => Ok(Vec::new(alloc)),
    }
}

/// The texts of these arms.
fn texts_of(
    alloc: Global,
    text: &[u8],
    marks: &[Mark],
    spans: &[Span],
) -> Result<Vec<Bytes>, NoMemory>
    requires spans { AllByRecursion (IsSpanOf text.now (stem_end marks.now)) spans.now }
    ensures are { IfOk result (λ texts. texts.items ≡ map (in_place text.now marks.now) spans.now) }
    ensures short { IfOk result (λ texts.
        AllByRecursion (λ (t : List ℕ). length t ≤ length text.now) texts.items) }
{
    let stem_end = stem_end(marks);
    let mut texts = Vec::new(alloc);
    for i in 0..spans.len() {
        let placed = in_place(alloc, text, stem_end, spans[i])?;
        texts.push(placed)?;
    }
    Ok(texts)
}

/// The stem, which ends before this offset, blanks, and an arm.
fn in_place(alloc: Global, text: &[u8], stem_end: u32, arm: Span) -> Result<Bytes, NoMemory>
    requires { IsSpanOf text.now stem_end arm }
    ensures text { IfOk result (λ t. t ≡ take stem_end text.now
        ++ (map blank (bytes_between text.now stem_end arm.from)
        ++ bytes_between text.now arm.from arm.to)) }
    ensures short { IfOk result (λ t. length t ≤ length text.now) }
{
    let between = Span {
        from: stem_end,
        to: arm.from,
    };
    let mut out = Vec::from_slice(alloc, &text[..stem_end as usize])?;
    put_blanks(&mut out, bytes_between(text, between))?;
    out.extend_from_slice(bytes_between(text, arm))?;
    Ok(Bytes::new(out))
}

/// Appends blanks in place of bytes.
fn put_blanks(out: &mut Vec<u8>, bytes: &[u8]) -> Result<(), NoMemory>
    ensures { OnOk result (out.new.items ≡ out.old.items ++ map blank bytes.now) }
{
    for b in bytes {
        out.push(blank(*b))?;
    }
    Ok(())
}

/// A line's end, or a space in place of another byte.
fn blank(b: u8) -> u8
    ensures { result ≡ blank b }
{
    if b == b'\n' { b'\n' } else { b' ' }
}
