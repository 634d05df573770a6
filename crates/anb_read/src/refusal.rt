//! Why a text is no narration.

ghost use Rattle.std.specs.Prelude.{◌≡◌, true, false};
ghost use Rattle.anb_syntax.specs.Words.{place as place_of};
ghost use Rattle.anb_read.specs.Productions.{fault};
ghost use Rattle.anb_read.specs.Places.{toks};
ghost use Rattle.anb_read.specs.Refusals.{offset as offset_of};

use crate::places::{Place, Word, first};
use anb_base::NoMemory;
use std::alloc::{AllocError, AllocFailed};

/// Why a text is no narration. Each `at` is an offset in bytes; no two refusals share one.
#[derive(Clone, Copy, Debug, PartialEq, Eq, Drop)]
pub enum ReadNo {
    /// No token begins here.
    Token { at: u32 },
    /// This token continues no narration, or the text ends here and more is needed.
    Grammar { at: u32 },
    /// This token begins a term at level 65.
    Deep { at: u32 },
    /// No memory was left.
    NoMemory,
}

impl ReadNo {
    /// Its offset in the text, which is 0 for want of memory.
    pub fn offset(self) -> u32
        ensures { result ≡ offset_of self }
    {
        match self {
            Self::Token { at } | Self::Grammar { at } | Self::Deep { at } => at,
            Self::NoMemory => 0,
        }
    }
}

impl From<NoMemory> for ReadNo {
    ghost use Rattle.anb_read.specs.declared.refusal.ReadNo.TheVariants as refusal;

    ghost from_gives = { λ _ e. e ≡ refusal.NoMemory };

    fn from(_error: NoMemory) -> Self {
        ReadNo::NoMemory
    }
}

impl From<AllocError> for ReadNo {
    ghost use Rattle.anb_read.specs.declared.refusal.ReadNo.TheVariants.{NoMemory};

    ghost from_gives = { λ _ e. e ≡ NoMemory };

    fn from(_error: AllocError) -> Self {
        ReadNo::NoMemory
    }
}

impl<T: Drop> From<AllocFailed<T>> for ReadNo {
    ghost use Rattle.anb_read.specs.declared.refusal.ReadNo.TheVariants.{NoMemory};

    ghost from_gives = { λ _ e. e ≡ NoMemory };

    fn from(_failed: AllocFailed<T>) -> Self {
        ReadNo::NoMemory
    }
}

/// Where the first token begins.
fn offset(text: &[u8], places: &[Place]) -> u32
    ensures { result ≡ place_of (toks text.now places.now) }
{
    let _ = text;
    match places {
        [] => 0,
        [place, ..] => place.at(),
    }
}

/// The refusal of the first token.
pub(crate) fn refusal(text: &[u8], places: &[Place]) -> ReadNo
    ensures { result ≡ fault false (toks text.now places.now) }
{
    let at = offset(text, places);
    match first(text, places) {
        Word::Bad => ReadNo::Token { at },
        _ => ReadNo::Grammar { at },
    }
}

/// The refusal of a term that begins too deep.
pub(crate) fn too_deep(text: &[u8], places: &[Place]) -> ReadNo
    ensures { result ≡ fault true (toks text.now places.now) }
{
    ReadNo::Deep {
        at: offset(text, places),
    }
}
