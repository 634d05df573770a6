//! Laws of narrations that are well formed.
ghost use Rattle.anb_resolve.specs.Laws.{LimitsGrow, SmallIsCountable};

/// A law: a narration that is well formed with some limits on widths is so with limits four times as
/// high. Today's are so against 65,536 bytes for an arrival and a width of 16,777,216.
pub fn limits_grow()
    ensures { LimitsGrow }
{}

/// A law: a narration that can be written has counts below 2^32 where its parts take fewer bytes than
/// that.
pub fn small_is_countable()
    ensures { SmallIsCountable }
{}
