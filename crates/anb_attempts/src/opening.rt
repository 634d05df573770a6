//! What is tried of one opening.
ghost use Rattle.std.specs.Prelude.{◌≡◌, ◌<◌, ℕ, length, IfOk};
ghost use Rattle.std.specs.List.{AllZip};
ghost use Rattle.anb_compile.specs.Fitting.{FitsRole};
ghost use Rattle.anb_format.specs.Formats.{FormatValue};
ghost use Rattle.anb_openings.specs.Openings.{HasOpening};
ghost use Rattle.anb_verdict.specs.Places.{place_value};
ghost use Rattle.anb_attempts.specs.Attempts.{name_at, way_words, why_not, IsOpeningAttempt, IsPartOfOpened, IsPartOfOpening, IsPartOfTag, IsPartOfTried, SaysChanged};
ghost use Rattle.anb_attempts.specs.Parts.{part_value, retagging_value};
ghost use Rattle.anb_attempts.specs.Retagging.{retagging_at};
ghost use Rattle.anb_term.specs.View.{tree_of};

use crate::attempts::{Attempt, Why};
use crate::changing::{USUAL_SIZE, changed_title};
use crate::parts::{Part, one_gap, one_scene};
use crate::placing::{copy_of, place_at};
use crate::retagging::{Retagging, retagging_at};
use crate::scenes::{scene_of_opening, scene_of_tag, terms_may_stand};
use crate::ways::{lack_by, ways_of};
use anb_base::{Bytes, NoMemory, Text};
use anb_code::RoleCode;
use anb_format::Format;
use anb_openings::{Obstacle, OpeningCase, OpeningFinding, opened_format, opening_finding};
use anb_protocol::Protocol;
use anb_spoil::{Row, Wrong, argument_of, false_tag_words, put_row_words};
use anb_verdict::{Place, Title, operand_text};
use std::alloc::Global;

/// What is tried of an opening in a scene with this number.
pub(crate) fn part_of_opening(
    alloc: Global,
    p: &Protocol,
    role: u32,
    code: &RoleCode,
    all: bool,
    scene: usize,
    instruction: u32,
) -> Result<Part, NoMemory>
    requires role { role < length p.now.roles }
    requires fits { FitsRole p.now role code.now }
    requires opening { HasOpening code.now instruction }
    ensures { IfOk result (λ part.
        IsPartOfOpening p.now role code.now all scene instruction (part_value part)) }
{
    let parsed = opened_format(code, instruction);
    match opening_finding(alloc, p, role, code, instruction)? {
        OpeningFinding::Case(case) => part_of_found(alloc, p, role, all, parsed, scene, case),
        OpeningFinding::NoCase(none) => {
            let place = place_at(alloc, p, role, &none.arrivals, none.event)?;
            one_gap(alloc, place, why_not(none.why))
        }
    }
}

/// Why there is no case.
fn why_not(why: Obstacle) -> Why
    ensures { result ≡ why_not why }
{
    match why {
        Obstacle::Earlier(_instruction) => Why::Before,
        Obstacle::OwnTerm => Why::Own,
        Obstacle::Later(_instruction) => Why::After,
    }
}

/// The same of an opening's case: with a false tag, or in the other ways.
fn part_of_found(
    alloc: Global,
    p: &Protocol,
    role: u32,
    all: bool,
    parsed: Option<u16>,
    scene: usize,
    case: OpeningCase,
) -> Result<Part, NoMemory>
    requires { role < length p.now.roles }
    ensures { IfOk result (λ part. IsPartOfTried p.now role all parsed
        (retagging_at p.now parsed (tree_of case.opened)) scene case (part_value part)) }
{
    match retagging_at(alloc, p, parsed, &case.opened)? {
        Some(tag) => part_of_tag(alloc, p, role, scene, case, tag),
        None => part_of_opened(alloc, p, role, all, parsed, scene, case),
    }
}

/// The same of an opening's case with a false tag.
fn part_of_tag(
    alloc: Global,
    p: &Protocol,
    role: u32,
    scene: usize,
    case: OpeningCase,
    tag: Retagging,
) -> Result<Part, NoMemory>
    requires { role < length p.now.roles }
    ensures { IfOk result (λ part.
        IsPartOfTag p.now role (retagging_value tag) scene case (part_value part)) }
{
    let place = place_at(alloc, p, role, &case.arrivals, case.event)?;
    if !terms_may_stand(alloc, p, &case.arrivals, &case.messages, &tag.pair)? {
        return one_gap(alloc, place, Why::Large);
    }
    let attempt = attempt_in(alloc, p, role, scene, &place, tag.way)?;
    let mut attempts = Vec::new(alloc);
    attempts.push(attempt)?;
    one_scene(alloc, scene_of_tag(case, tag.pair), attempts)
}

/// The same of an opening's case in the other ways.
fn part_of_opened(
    alloc: Global,
    p: &Protocol,
    role: u32,
    all: bool,
    parsed: Option<u16>,
    scene: usize,
    case: OpeningCase,
) -> Result<Part, NoMemory>
    requires { role < length p.now.roles }
    ensures { IfOk result (λ part.
        IsPartOfOpened p.now role all parsed scene case (part_value part)) }
{
    let place = place_at(alloc, p, role, &case.arrivals, case.event)?;
    if !terms_may_stand(alloc, p, &case.arrivals, &case.messages, &case.opened)? {
        return one_gap(alloc, place, Why::Large);
    }
    let ways = ways_of(alloc, p, all, parsed)?;
    let attempts = attempts_in(alloc, p, role, scene, &place, &ways)?;
    one_scene(alloc, scene_of_opening(parsed, case), attempts)
}

/// The attempts of a scene that make the value at a place wrong in these ways.
fn attempts_in(
    alloc: Global,
    p: &Protocol,
    role: u32,
    scene: usize,
    place: &Place,
    ways: &[Wrong],
) -> Result<Vec<Attempt>, NoMemory>
    ensures { IfOk result (λ attempts.
        AllZip (IsOpeningAttempt p.now role scene (place_value place.now))
        ways.now attempts.items) }
{
    let mut attempts = Vec::new(alloc);
    for way in ways {
        let attempt = attempt_in(alloc, p, role, scene, place, *way)?;
        attempts.push(attempt)?;
    }
    Ok(attempts)
}

fn attempt_in(
    alloc: Global,
    p: &Protocol,
    role: u32,
    scene: usize,
    place: &Place,
    way: Wrong,
) -> Result<Attempt, NoMemory>
    ensures { IfOk result (IsOpeningAttempt p.now role scene (place_value place.now) way) }
{
    let title = title_of(alloc, p, role, place, way)?;
    let lacks = lack_by(alloc, way, place)?;
    Ok(Attempt {
        scene,
        wrong: way,
        title,
        lacks,
    })
}

/// The title of an attempt that makes the value at a place wrong in a way.
fn title_of(
    alloc: Global,
    p: &Protocol,
    role: u32,
    place: &Place,
    way: Wrong,
) -> Result<Title, NoMemory>
    ensures { IfOk result (SaysChanged (place_value place.now)
        (way_words p.now role (place_value place.now) way)) }
{
    match way {
        Wrong::Changed(change) => changed_title(alloc, place, change, USUAL_SIZE),
        Wrong::Spoilt(format, row) => {
            let words = row_words_at(alloc, p, role, place, format, row)?;
            Ok(Title::Changed(copy_of(alloc, place)?, Bytes::new(words)))
        }
        Wrong::FalseTag(_suite, _way, _format) => {
            let words = Vec::from_slice(alloc, false_tag_words().as_bytes())?;
            Ok(Title::Changed(copy_of(alloc, place)?, Bytes::new(words)))
        }
    }
}

/// How a report names a row of the format at a place of the protocol.
fn row_words_at(
    alloc: Global,
    p: &Protocol,
    role: u32,
    place: &Place,
    format: u16,
    row: Row,
) -> Result<Vec<u8>, NoMemory>
    ensures { IfOk result (λ words. words.items
        ≡ way_words p.now role (place_value place.now) (Wrong.Spoilt format row)) }
{
    match p.formats().get(format as usize) {
        Some(format) => {
            let name = name_at(alloc, p, role, place, format, row)?;
            let mut words = Vec::new(alloc);
            put_row_words(alloc, &mut words, format, row, name.as_str().as_bytes())?;
            Ok(words)
        }
        None => Ok(Vec::new(alloc)),
    }
}

/// The text of the argument that a row speaks of; or none.
fn name_at(
    alloc: Global,
    p: &Protocol,
    role: u32,
    place: &Place,
    format: &Format,
    row: Row,
) -> Result<Text, NoMemory>
    ensures { IfOk result (λ name.
        name ≡ name_at p.now role (place_value place.now) format.now.pieces row) }
{
    match argument_of(format, row) {
        Some(i) => operand_text(alloc, p, role, place, i),
        None => Ok(Text::new(String::new(alloc))),
    }
}
