//! Reads what stands in lists.

ghost use Rattle.std.specs.Prelude.{◌≡◌, ◌≤◌, List, Bool, Result, length, map};
ghost use Rattle.anb_base.specs.declared.TheConstants.{SMALL_FILE};
ghost use Rattle.anb_syntax.specs.Words.{Word, Tok, head};
ghost use Rattle.anb_read.specs.declared.refusal.ReadNo.{ReadNo};
ghost use Rattle.anb_read.specs.Productions.{many, with_front};
ghost use Rattle.anb_read.specs.Places.{toks, Finds};

use crate::places::Place;
use crate::refusal::ReadNo;
use std::alloc::Global;

/// What stands in a list, as long as the next word begins one.
pub(crate) trait Listed: Sized {
    ghost Told: { Type 0 };

    ghost view: { Self → Told };

    ghost starts: { Word → Bool };

    ghost item_at: { List Tok → Result (Told × List Tok) ReadNo };

    /// Whether the first word begins one.
    fn begins(text: &[u8], places: &[Place]) -> bool
        ensures { result ≡ starts (head (toks text.now places.now)) };

    fn read<'p>(
        alloc: Global,
        text: &[u8],
        places: &'p [Place],
    ) -> Result<(Self, &'p [Place]), ReadNo>
        requires { length text.now ≤ SMALL_FILE }
        ensures { Finds (λ x. (view x.0, toks text.now x.1.now)) result
            (item_at (toks text.now places.now)) };
}

/// Reads items behind those that it is given. There are no more of them than tokens.
pub(crate) fn many<'p, T: Listed + Drop>(
    alloc: Global,
    mut items: Vec<T>,
    text: &[u8],
    places: &'p [Place],
) -> Result<(Vec<T>, &'p [Place]), ReadNo>
    requires { length text.now ≤ SMALL_FILE }
    ensures { Finds (λ x. (map T.view x.0.items, toks text.now x.1.now)) result
        (with_front (map T.view items.items) (many T.starts T.item_at (toks text.now places.now))) }
{
    let mut rest = places;
    for _ in 0..places.len() {
        if !T::begins(text, rest) {
            return Ok((items, rest));
        }
        let (item, after) = T::read(alloc, text, rest)?;
        items.push(item)?;
        rest = after;
    }
    Ok((items, rest))
}
