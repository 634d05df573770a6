//! What is tried of one check.
ghost use Rattle.std.specs.Prelude.{◌≡◌, ◌+◌, ◌<◌, ◌^◌, length, IfOk};
ghost use Rattle.anb_compile.specs.Fitting.{FitsRole};
ghost use Rattle.anb_suite.specs.Suites.{HasCheck};
ghost use Rattle.anb_attempts.specs.Attempts.{IsJoined, IsPartOfCase, IsPartOfCases, IsPartOfCheck, IsPartOfNew, IsPartOfOwn, IsPartOfReading};
ghost use Rattle.anb_attempts.specs.Parts.{part_value};

use crate::attempts::Why;
use crate::changing::attempts_at;
use crate::heard::is_heard;
use crate::inner::cases_within;
use crate::parts::{Part, join, nothing, one_gap, one_scene};
use crate::placing::{count_names, place_at};
use crate::scenes::{scene_of, terms_may_stand};
use anb_base::NoMemory;
use anb_code::RoleCode;
use anb_protocol::Protocol;
use anb_spoil::Change;
use anb_suite::{Case, Finding, Reading, finding};
use std::alloc::Global;

/// What is tried of a check in scenes with numbers from this one.
pub(crate) fn part_of_check(
    alloc: Global,
    p: &Protocol,
    role: u32,
    code: &RoleCode,
    changes: &[Change],
    scene: usize,
    check: u32,
) -> Result<Part, NoMemory>
    requires role { role < length p.now.roles }
    requires fits { FitsRole p.now role code.now }
    requires check { HasCheck code.now check }
    requires scene { scene < 2 ^ 63 }
    ensures { IfOk result (λ part.
        IsPartOfCheck p.now role code.now changes.now scene check (part_value part)) }
{
    let own = part_of_own(alloc, p, role, code, changes, scene, check)?;
    let first = part_of_reading(alloc, p, role, code, Reading::First, &own, scene, check)?;
    let both = joined(own, first)?;
    let second = part_of_reading(alloc, p, role, code, Reading::Second, &both, scene, check)?;
    joined(both, second)
}

/// The same of the code as it is.
fn part_of_own(
    alloc: Global,
    p: &Protocol,
    role: u32,
    code: &RoleCode,
    changes: &[Change],
    scene: usize,
    check: u32,
) -> Result<Part, NoMemory>
    requires role { role < length p.now.roles }
    requires fits { FitsRole p.now role code.now }
    requires check { HasCheck code.now check }
    requires scene { scene < 2 ^ 63 }
    ensures { IfOk result (λ part.
        IsPartOfOwn p.now role code.now changes.now scene check (part_value part)) }
{
    match finding(alloc, p, role, code, check, Reading::Both)? {
        Finding::Implied => Ok(nothing(alloc)),
        Finding::Case(case) => part_of_cases(alloc, p, role, changes, scene, case),
    }
}

/// The same of the code that reads one of the check's two values for the other, in scenes behind those of
/// a part: nothing where that has what arrives.
fn part_of_reading(
    alloc: Global,
    p: &Protocol,
    role: u32,
    code: &RoleCode,
    reading: Reading,
    before: &Part,
    scene: usize,
    check: u32,
) -> Result<Part, NoMemory>
    requires role { role < length p.now.roles }
    requires fits { FitsRole p.now role code.now }
    requires check { HasCheck code.now check }
    requires scene { scene < 2 ^ 63 }
    ensures { IfOk result (λ part.
        IsPartOfReading p.now role code.now reading (part_value before.now)
        (scene + length before.now.scenes.items) check (part_value part)) }
{
    let next = scene_behind(scene, before);
    match finding(alloc, p, role, code, check, reading)? {
        Finding::Case(case) => part_of_new(alloc, p, role, reading, before, next, case),
        Finding::Implied => Ok(nothing(alloc)),
    }
}

/// The same of such a code's case.
fn part_of_new(
    alloc: Global,
    p: &Protocol,
    role: u32,
    reading: Reading,
    before: &Part,
    scene: usize,
    case: Case,
) -> Result<Part, NoMemory>
    requires { role < length p.now.roles }
    ensures { IfOk result (λ part. IsPartOfNew p.now role reading (part_value before.now)
        scene case (part_value part)) }
{
    if is_heard(&before.scenes, &case.arrivals) {
        return Ok(nothing(alloc));
    }
    part_of_case(alloc, p, role, reading, &[Change::LastByte], scene, case)
}

/// One part, and then another.
fn joined(part: Part, more: Part) -> Result<Part, NoMemory>
    ensures { IfOk result (λ both.
        IsJoined (part_value part) (part_value more) (part_value both)) }
{
    let mut both = part;
    join(&mut both, more)?;
    Ok(both)
}

/// The same of a check's case, and of the cases for the parts of what is made wrong there.
fn part_of_cases(
    alloc: Global,
    p: &Protocol,
    role: u32,
    changes: &[Change],
    scene: usize,
    case: Case,
) -> Result<Part, NoMemory>
    requires role { role < length p.now.roles }
    requires scene { scene < 2 ^ 63 }
    ensures { IfOk result (λ part.
        IsPartOfCases p.now role changes.now scene case (part_value part)) }
{
    let spare = count_names(p)?;
    let within = cases_within(alloc, p, spare, &case)?;
    let mut part = part_of_case(alloc, p, role, Reading::Both, changes, scene, case)?;
    for inner in within {
        let next = scene_behind(scene, &part);
        let more = part_of_case(alloc, p, role, Reading::Both, changes, next, inner)?;
        join(&mut part, more)?;
    }
    Ok(part)
}

/// The number of the scene after those of a part.
fn scene_behind(scene: usize, part: &Part) -> usize
    requires { scene < 2 ^ 63 }
    ensures { result ≡ scene + length part.now.scenes.items }
{
    scene + part.scenes.len()
}

/// The same of a check's case.
fn part_of_case(
    alloc: Global,
    p: &Protocol,
    role: u32,
    reading: Reading,
    changes: &[Change],
    scene: usize,
    case: Case,
) -> Result<Part, NoMemory>
    requires { role < length p.now.roles }
    ensures { IfOk result (λ part.
        IsPartOfCase p.now role reading changes.now scene case (part_value part)) }
{
    let place = place_at(alloc, p, role, &case.arrivals, case.event)?;
    if !terms_may_stand(alloc, p, &case.arrivals, &case.messages, &case.wrong)? {
        return one_gap(alloc, place, Why::Large);
    }
    let spare = count_names(p)?;
    let attempts = attempts_at(alloc, p, role, scene, &place, reading, changes)?;
    one_scene(alloc, scene_of(spare, case), attempts)
}
