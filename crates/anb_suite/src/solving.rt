//! The most general solution of a code less a check.
ghost use Rattle.std.specs.Prelude.{◌≡◌, ◌+◌, ◌<◌, ◌≤◌, ◌++◌, ◌∷◌, ℕ, List, length, IfOk};
ghost use Rattle.anb_format.specs.Formats.{FormatValue};
ghost use Rattle.anb_plays.specs.Codes.{works, equal};
ghost use Rattle.anb_code.specs.Meaning.{act_of, acts_of};
ghost use Rattle.anb_compile.specs.Fitting.{FitsRole};
ghost use Rattle.anb_distinguish.specs.Finding.{IsCheck};
ghost use Rattle.anb_suite.specs.Suites.{HasCheck};
ghost use Rattle.anb_suite.specs.Sparing.{IsSolvedAs};
ghost use Rattle.anb_suite.specs.Walks.{gone_by, used_by};

use crate::reading::Reading;
use crate::walking::walk_over;
use anb_base::NoMemory;
use anb_code::{Instr, RoleCode, verified_is_runnable};
use anb_explain::{Explanation, explanation_of};
use anb_protocol::Protocol;
use anb_term::Term;
use anb_unify::most_general;
use std::alloc::Global;

/// What the most general solution of a code less a check has, beside the narrated one.
#[derive(Drop)]
pub(crate) struct Solved {
    /// The number of names.
    pub(crate) spare: u32,
    /// The plan, and the narrated terms of the registers.
    pub(crate) explanation: Explanation,
    /// How many arrivals there are.
    pub(crate) count: usize,
    /// The patterns of what arrives, of the check's two sides, and of what is sent.
    pub(crate) patterns: Vec<Term>,
}

/// Solves the equations of a code less a check, as it is read behind that.
pub(crate) fn solve(
    alloc: Global,
    p: &Protocol,
    role: u32,
    code: &RoleCode,
    check: u32,
    reading: Reading,
) -> Result<Solved, NoMemory>
    requires role { role < length p.now.roles }
    requires fits { FitsRole p.now role code.now }
    requires check { HasCheck code.now check }
    ensures solved { IfOk result (IsSolvedAs p.now role code.now reading check) }
    ensures many { IfOk result (λ solved. solved.count + 2 ≤ length solved.patterns.items) }
{
    verified_is_runnable();
    let _ = code.formats();
    let explanation = explanation_of(alloc, p, role, code)?;
    let spare = count_names(p)?;
    let (a, b) = compared(code, check);
    let (gone, used) = read_in_place(reading, a, b);
    let events = explanation.events();
    let walked = walk_over(alloc, spare + 1, events, code, check, gone, used)?;
    let at = asked(alloc, &walked.received, a, b, &walked.sent)?;
    let terms = explanation.terms();
    let patterns = most_general(alloc, spare + 1, terms, &walked.equations, &at)?;
    Ok(Solved {
        spare,
        explanation,
        count: walked.received.len(),
        patterns,
    })
}

/// The two registers that a check compares.
fn compared(code: &RoleCode, check: u32) -> (u32, u32)
    requires { HasCheck code.now check }
    ensures { IsCheck (acts_of code.now) check result.0 result.1 }
{
    let instrs = code.instrs();
    let at = check as usize - 1;
    sides_of(&instrs[at])
}

/// Which register of these two is read for which.
fn read_in_place(reading: Reading, a: u32, b: u32) -> (u32, u32)
    ensures gone { result.0 ≡ gone_by reading a b }
    ensures used { result.1 ≡ used_by reading a b }
{
    match reading {
        Reading::Both => (a, a),
        Reading::First => (b, a),
        Reading::Second => (a, b),
    }
}

/// The two registers that an instruction compares, if it does.
fn sides_of(instr: &Instr) -> (u32, u32)
    ensures { (formats : List FormatValue) (a b : ℕ)
        → act_of formats instr.now ≡ works (equal a b) → (result.0 ≡ a) × (result.1 ≡ b) }
{
    match instr {
        Instr::Equal(a, b) => (*a, *b),
        Instr::Take(_) | Instr::Fresh | Instr::Recv | Instr::Send(_) => (0, 0),
        Instr::Hash(_) | Instr::Mac(..) | Instr::Seal(..) | Instr::Wrap(..) => (0, 0),
        Instr::Unseal(..) | Instr::Unwrap(..) | Instr::Build(..) | Instr::Parse(..) => (0, 0),
    }
}

/// How many names there are, where there is a number for one more.
fn count_names(p: &Protocol) -> Result<u32, NoMemory>
    ensures is { IfOk result (λ n. n ≡ length p.now.atoms) }
    ensures more { IfOk result (λ n. n + 1 < 4294967296) }
{
    let names = p.declared().len();
    if names >= u32::MAX as usize {
        return Err(NoMemory);
    }
    Ok(names as u32)
}

/// These registers in order.
fn asked(
    alloc: Global,
    received: &[u32],
    a: u32,
    b: u32,
    sent: &[u32],
) -> Result<Vec<u32>, NoMemory>
    ensures { IfOk result (λ at. at.items ≡ received.now ++ a ∷ b ∷ sent.now) }
{
    let mut at = Vec::from_slice(alloc, received)?;
    at.push(a)?;
    at.push(b)?;
    at.extend_from_slice(sent)?;
    Ok(at)
}
