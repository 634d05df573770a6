//! How a right value is made a wrong one.
ghost use Rattle.std.specs.Prelude.{◌≡◌, IfOk};
ghost use Rattle.anb_spoil.specs.Wrongs.{has_tag, respoilt, retagged_first, retagged_in, wrong_by};

use crate::{Change, Closing, Row, changed, retag, spoil};
use anb_base::{Bytes, NoMemory, Suite};
use anb_format::Format;
use std::alloc::Global;

/// How a right value is made a wrong one.
#[derive(Clone, Copy, Debug, PartialEq, Eq, Drop)]
pub enum Wrong {
    /// It is changed.
    Changed(Change),
    /// It is of the format at this place of a protocol, and is built anew of the same parts, spoilt in
    /// the way of a row.
    Spoilt(u16, Row),
    /// It is of the format at this place of a protocol, and its first part is closed in this way under
    /// the second one. That part gets a false tag, and nothing else of the value is used.
    FalseTag(Suite, Closing, u16),
}

/// What is made of these right bytes, where it can be: bytes of another format than the one that is to
/// be spoilt have no parts, and some rows ask for what isn't there. The time is linear in the bytes.
pub fn wrong_for(
    alloc: Global,
    formats: &[Format],
    wrong: Wrong,
    right: &[u8],
) -> Result<Option<Bytes>, NoMemory>
    ensures { IfOk result (λ r. r ≡ wrong_by formats.now wrong right.now) }
{
    match wrong {
        Wrong::Changed(change) => changed(alloc, change, right),
        Wrong::Spoilt(place, row) => match formats.get(place as usize) {
            Some(format) => respoil(alloc, format, row, right),
            None => Ok(None),
        },
        Wrong::FalseTag(suite, closing, place) => match formats.get(place as usize) {
            Some(format) => retag_in(alloc, format, suite, closing, right),
            None => Ok(None),
        },
    }
}

/// These bytes of a format, spoilt in the way of a row.
fn respoil(
    alloc: Global,
    format: &Format,
    row: Row,
    right: &[u8],
) -> Result<Option<Bytes>, NoMemory>
    ensures { IfOk result (λ r. r ≡ respoilt format.now.pieces row right.now) }
{
    match format.parts(alloc, right)? {
        Some(parts) => spoil(alloc, format, row, parts.as_slice()),
        None => Ok(None),
    }
}

/// The first part of these bytes of a format, which is closed under the second one, with a false tag.
fn retag_in(
    alloc: Global,
    format: &Format,
    suite: Suite,
    closing: Closing,
    right: &[u8],
) -> Result<Option<Bytes>, NoMemory>
    ensures { IfOk result (λ r. r ≡ retagged_in format.now.pieces suite closing right.now) }
{
    match format.parts(alloc, right)? {
        Some(parts) => retag_first(alloc, suite, closing, parts.as_slice()),
        None => Ok(None),
    }
}

/// The same of these parts.
fn retag_first(
    alloc: Global,
    suite: Suite,
    closing: Closing,
    parts: &[Bytes],
) -> Result<Option<Bytes>, NoMemory>
    ensures { IfOk result (λ r. r ≡ retagged_first suite closing parts.now) }
{
    let [c, k, ..] = parts else {
        return Ok(None);
    };
    if !has_tag(c.as_slice()) {
        return Ok(None);
    }
    Ok(Some(retag(alloc, suite, closing, k.as_slice(), c.as_slice())?))
}

/// Whether closed bytes have a whole tag, and are no longer than any may be.
fn has_tag(c: &[u8]) -> bool
    ensures { result ≡ has_tag c.now }
{
    c.len() >= 32 && c.len() < 4_294_967_296
}
