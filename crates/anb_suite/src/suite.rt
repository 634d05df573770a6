//! What is found of a check.
ghost use Rattle.std.specs.Prelude.{◌≡◌, ◌<◌, length, count_by, IfOk};
ghost use Rattle.anb_compile.specs.Fitting.{FitsRole};
ghost use Rattle.anb_suite.specs.Suites.{HasCheck, IsFinding};
ghost use Rattle.anb_suite.specs.Sparing.{event_before, is_exchange};

use crate::cases::Finding;
use crate::reading::Reading;
use crate::solving::solve;
use crate::sparing::{case_of, nth};
use anb_base::NoMemory;
use anb_code::{Instr, RoleCode};
use anb_distinguish::{same_sides_are_implied, two_sides_make_a_case, variable_apart};
use anb_protocol::Protocol;
use std::alloc::Global;

/// A case of a comparison of a role's code, as it is read behind that, or that the others imply it. The
/// spare name of a case has the number of names. Near-linear in the code and in the nodes of the terms of
/// its registers.
pub fn finding(
    alloc: Global,
    p: &Protocol,
    role: u32,
    code: &RoleCode,
    check: u32,
    reading: Reading,
) -> Result<Finding, NoMemory>
    requires role { role < length p.now.roles }
    requires fits { FitsRole p.now role code.now }
    requires check { HasCheck code.now check }
    ensures { IfOk result (IsFinding p.now role code.now reading check) }
{
    same_sides_are_implied();
    two_sides_make_a_case();
    let solved = solve(alloc, p, role, code, check, reading)?;
    let one = nth(&solved.patterns, solved.count);
    let other = nth(&solved.patterns, solved.count + 1);
    match variable_apart(solved.spare, one, other) {
        None => Ok(Finding::Implied),
        Some(v) => {
            let event = event_before(code, check);
            let case = case_of(alloc, &solved, v, check, event)?;
            Ok(Finding::Case(case))
        }
    }
}

/// The number of sends and receives before an instruction.
fn event_before(code: &RoleCode, check: u32) -> u32
    requires { HasCheck code.now check }
    ensures { result ≡ event_before code.now.instrs check }
{
    count_exchanges(&code.instrs()[..check as usize - 1]) as u32
}

fn count_exchanges(instrs: &[Instr]) -> usize
    ensures { result ≡ count_by is_exchange instrs.now }
{
    instrs
        .iter()
        .filter(|instr| matches!(instr, Instr::Recv | Instr::Send(_)))
        .count()
}
