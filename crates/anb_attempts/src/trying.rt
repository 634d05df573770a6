//! All that is tried of a role.
ghost use Rattle.std.specs.Prelude.{◌≡◌, ◌+◌, ◌<◌, ◌≤◌, ◌++◌, ◌^◌, ◌↔◌, false, length, IfOk, OnOk, IsTrue};
ghost use Rattle.std.specs.List.{All};
ghost use Rattle.anb_compile.specs.Fitting.{FitsRole};
ghost use Rattle.anb_attempts.specs.Attempts.{points_of, BeginsHonestly, Covers, HasPoint, IsPartOfPoint, IsSuite, SceneMayStand};
ghost use Rattle.anb_attempts.specs.Parts.{part_value, HasPut};
ghost use Rattle.anb_attempts.specs.declared.attempts.TheConstants.{MOST};

use crate::attempts::{MOST, Suite};
use crate::changing::changes_tried;
use crate::checking::part_of_check;
use crate::opening::part_of_opening;
use crate::parts::Part;
use crate::points::{Point, points_of};
use crate::scenes::begin;
use anb_base::NoMemory;
use anb_code::RoleCode;
use anb_protocol::Protocol;
use std::alloc::Global;

/// All that is tried of a role with this code; of each value all changes, and of each format all rows,
/// or those that are tried by default. It takes the time of one comparison for each comparison and each
/// opening that the code has.
pub fn suite_of(
    alloc: Global,
    p: &Protocol,
    role: u32,
    code: &RoleCode,
    all: bool,
) -> Result<Suite, NoMemory>
    requires role { role < length p.now.roles }
    requires fits { FitsRole p.now role code.now }
    ensures is { IfOk result (IsSuite p.now role code.now all) }
    ensures first { IfOk result (λ suite. BeginsHonestly suite.attempts.items) }
    ensures within { IfOk result (λ suite.
        All (λ a. a.scene < length suite.scenes.items) suite.attempts.items) }
    ensures stand { IfOk result (λ suite. All (SceneMayStand p.now) suite.scenes.items) }
    ensures most { IfOk result (λ suite. length suite.attempts.items ≤ MOST) }
{
    let points = points_of(alloc, code)?;
    let mut suite = begin(alloc, p, role)?;
    put_points(alloc, p, role, code, all, &points, &mut suite)?;
    Ok(suite)
}

/// Adds what is tried at these instructions, as long as there is room.
fn put_points(
    alloc: Global,
    p: &Protocol,
    role: u32,
    code: &RoleCode,
    all: bool,
    points: &[Point],
    suite: &mut Suite,
) -> Result<(), NoMemory>
    requires role { role < length p.now.roles }
    requires fits { FitsRole p.now role code.now }
    requires points { All (HasPoint code.now) points.now }
    requires more { suite.old.more ≡ false }
    requires most { length suite.old.attempts.items ≤ MOST }
    ensures covers { OnOk result (Covers (IsPartOfPoint p.now role code.now all)
        points.now suite.old suite.new) }
    ensures most { OnOk result (length suite.new.attempts.items ≤ MOST) }
{
    for point in points {
        let scene = suite.scenes.len();
        let part = part_of_point(alloc, p, role, code, all, scene, *point)?;
        if !has_room(suite, &part) {
            suite.more = true;
            return Ok(());
        }
        put(suite, part)?;
    }
    Ok(())
}

/// What is tried at one instruction, in a scene with this number.
fn part_of_point(
    alloc: Global,
    p: &Protocol,
    role: u32,
    code: &RoleCode,
    all: bool,
    scene: usize,
    point: Point,
) -> Result<Part, NoMemory>
    requires role { role < length p.now.roles }
    requires fits { FitsRole p.now role code.now }
    requires point { HasPoint code.now point }
    requires scene { scene < 2 ^ 63 }
    ensures { IfOk result (λ part.
        IsPartOfPoint p.now role code.now all scene point (part_value part)) }
{
    match point {
        Point::Check(check) => {
            let changes = changes_tried(alloc, all)?;
            part_of_check(alloc, p, role, code, &changes, scene, check)
        }
        Point::Opening(instruction) => {
            part_of_opening(alloc, p, role, code, all, scene, instruction)
        }
    }
}

/// Whether the attempts of a part are few enough.
fn has_room(suite: &Suite, part: &Part) -> bool
    ensures { IsTrue result
        ↔ (length suite.now.attempts.items + length part.now.attempts.items ≤ MOST) }
{
    suite.attempts.len() <= MOST && part.attempts.len() <= MOST - suite.attempts.len()
}

/// Adds a part.
fn put(suite: &mut Suite, part: Part) -> Result<(), NoMemory>
    ensures { OnOk result (HasPut (part_value part) suite.old suite.new) }
{
    let mut scenes = part.scenes;
    let mut attempts = part.attempts;
    let mut gaps = part.gaps;
    suite.scenes.append(&mut scenes)?;
    suite.attempts.append(&mut attempts)?;
    suite.gaps.append(&mut gaps)?;
    Ok(())
}
