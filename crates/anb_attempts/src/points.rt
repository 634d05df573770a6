//! The instructions of a code at which something is tried.
ghost use Rattle.std.specs.Prelude.{◌≡◌, ◌++◌, map, IfOk, OnOk};
ghost use Rattle.std.specs.List.{All};
ghost use Rattle.anb_attempts.specs.Attempts.{points_of, HasPoint};

use anb_base::NoMemory;
use anb_code::RoleCode;
use anb_openings::openings;
use anb_suite::checks;
use std::alloc::Global;

/// An instruction of a code at which something is tried, by its number from 1.
#[derive(Clone, Copy, Debug, PartialEq, Eq, Drop)]
pub enum Point {
    /// A comparison.
    Check(u32),
    /// A parse, an unsealing or an unwrapping.
    Opening(u32),
}

/// Those of a code behind its first arrival: its comparisons, and then its openings.
pub(crate) fn points_of(alloc: Global, code: &RoleCode) -> Result<Vec<Point>, NoMemory>
    ensures are { IfOk result (λ points. points.items ≡ points_of code.now) }
    ensures each { IfOk result (λ points. All (HasPoint code.now) points.items) }
{
    let checks = checks(alloc, code)?;
    let openings = openings(alloc, code)?;
    let mut points = Vec::new(alloc);
    put_checks(&mut points, &checks)?;
    put_openings(&mut points, &openings)?;
    Ok(points)
}

/// Appends comparisons.
fn put_checks(points: &mut Vec<Point>, checks: &[u32]) -> Result<(), NoMemory>
    ensures { OnOk result (points.new.items ≡ points.old.items ++ map Point.Check checks.now) }
{
    for check in checks {
        points.push(Point::Check(*check))?;
    }
    Ok(())
}

/// Appends openings.
fn put_openings(points: &mut Vec<Point>, openings: &[u32]) -> Result<(), NoMemory>
    ensures { OnOk result (points.new.items
        ≡ points.old.items ++ map Point.Opening openings.now) }
{
    for opening in openings {
        points.push(Point::Opening(*opening))?;
    }
    Ok(())
}
