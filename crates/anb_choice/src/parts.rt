//! The texts that stand in a branched text: the chooser's name, and the stem with an arm.
ghost use Rattle.std.specs.Prelude.{◌≡◌, ◌≤◌, ◌<◌, ◌+◌, ◌∷◌, ◌++◌, length, take, IfOk};
ghost use Rattle.anb_choice.specs.Order.{bytes_between};

use crate::order::Span;
use anb_base::NoMemory;
use std::alloc::Global;

/// The bytes of the text from an offset to another.
pub(crate) fn bytes_between(text: &[u8], span: Span) -> &[u8]
    requires from { span.from ≤ span.to }
    requires to { span.to ≤ length text.now }
    ensures { result.now ≡ bytes_between text.now span.from span.to }
{
    &text[span.from as usize..span.to as usize]
}

/// The stem, which ends before this offset, a line's end, and an arm.
pub(crate) fn straight(
    alloc: Global,
    text: &[u8],
    stem_end: u32,
    arm: Span,
) -> Result<Vec<u8>, NoMemory>
    requires stem { stem_end < arm.from }
    requires from { arm.from ≤ arm.to }
    requires to { arm.to ≤ length text.now }
    ensures text { IfOk result (λ straight.
        straight.items ≡ take stem_end text.now ++ 10 ∷ bytes_between text.now arm.from arm.to) }
    ensures short { IfOk result (λ straight. length straight.items ≤ length text.now) }
{
    let mut straight = Vec::new(alloc);
    straight.extend_from_slice(&text[..stem_end as usize])?;
    straight.push(b'\n')?;
    straight.extend_from_slice(bytes_between(text, arm))?;
    Ok(straight)
}
