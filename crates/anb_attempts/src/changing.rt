//! The attempts that change the value at a place.
ghost use Rattle.std.specs.Prelude.{◌≡◌, ◌<◌, ◌++◌, ℕ, length, IfOk};
ghost use Rattle.std.specs.List.{AllZip};
ghost use Rattle.anb_protocol.specs.Protocols.{ProtocolValue};
ghost use Rattle.anb_spoil.specs.Words.{change_words};
ghost use Rattle.anb_verdict.specs.Places.{place_value};
ghost use Rattle.anb_attempts.specs.Attempts.{changes_tried, other_for, reading_words, IsAttempt, SaysChanged};

use crate::attempts::Attempt;
use crate::placing::copy_of;
use anb_base::{Bytes, NoMemory};
use anb_protocol::Protocol;
use anb_spoil::{CHANGES, Change, MORE_CHANGES, Wrong, change_words};
use anb_suite::Reading;
use anb_verdict::{Missing, Other, Place, Title, other_of};
use std::alloc::Global;

/// The changes that are tried of each value.
pub(crate) fn changes_tried(alloc: Global, all: bool) -> Result<Vec<Change>, NoMemory>
    ensures { IfOk result (λ changes. changes.items ≡ changes_tried all) }
{
    let mut changes = Vec::from_slice(alloc, &CHANGES)?;
    if all {
        changes.extend_from_slice(&MORE_CHANGES)?;
    }
    Ok(changes)
}

/// The attempts of a scene that change the value at a place in these ways, for programs that read so.
pub(crate) fn attempts_at(
    alloc: Global,
    p: &Protocol,
    role: u32,
    scene: usize,
    place: &Place,
    reading: Reading,
    changes: &[Change],
) -> Result<Vec<Attempt>, NoMemory>
    requires { role < length p.now.roles }
    ensures { IfOk result (λ attempts.
        AllZip (IsAttempt p.now role scene (place_value place.now) reading)
        changes.now attempts.items) }
{
    let other = other_of(alloc, p, role, place)?;
    let mut attempts = Vec::new(alloc);
    for change in changes {
        let attempt = attempt_at(alloc, scene, place, other, reading, *change)?;
        attempts.push(attempt)?;
    }
    Ok(attempts)
}

fn attempt_at(
    alloc: Global,
    scene: usize,
    place: &Place,
    other: Other,
    reading: Reading,
    change: Change,
) -> Result<Attempt, NoMemory>
    ensures { (p : ProtocolValue) (role : ℕ) → other ≡ other_for p role (place_value place.now)
        → IfOk result (IsAttempt p role scene (place_value place.now) reading change) }
{
    let title = read_title(alloc, place, reading, change)?;
    let here = copy_of(alloc, place)?;
    Ok(Attempt {
        scene,
        wrong: Wrong::Changed(change),
        title,
        lacks: Some(Missing::Comparison(here, other)),
    })
}

/// The title of an attempt for programs that read so.
fn read_title(
    alloc: Global,
    place: &Place,
    reading: Reading,
    change: Change,
) -> Result<Title, NoMemory>
    ensures { IfOk result (SaysChanged (place_value place.now)
        (change_words change 2 ++ reading_words reading)) }
{
    let mut words = Vec::from_slice(alloc, change_words(change, USUAL_SIZE).as_bytes())?;
    words.extend_from_slice(reading_words(reading).as_bytes())?;
    Ok(Title::Changed(copy_of(alloc, place)?, Bytes::new(words)))
}

/// How a report tells a program that reads one of the two values for the other.
fn reading_words(reading: Reading) -> &'static str
    ensures { result.now ≡ reading_words reading }
{
    match reading {
        Reading::Both => "",
        Reading::First | Reading::Second => ", one value used for both",
    }
}

/// Titles are those of values of more than one byte.
pub(crate) const USUAL_SIZE: usize = 2;

/// The title of an attempt that changes a value of this many bytes at a place.
pub fn changed_title(
    alloc: Global,
    place: &Place,
    change: Change,
    size: usize,
) -> Result<Title, NoMemory>
    ensures { IfOk result (SaysChanged (place_value place.now) (change_words change size)) }
{
    let words = Vec::from_slice(alloc, change_words(change, size).as_bytes())?;
    Ok(Title::Changed(copy_of(alloc, place)?, Bytes::new(words)))
}
