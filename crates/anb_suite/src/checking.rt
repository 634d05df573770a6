//! The checks of a code behind its first arrival.
ghost use Rattle.std.specs.Prelude.{◌≡◌, List, IfOk, All};
ghost use Rattle.anb_format.specs.Formats.{FormatValue};
ghost use Rattle.anb_code.specs.Meaning.{act_of, acts_of};
ghost use Rattle.anb_probe.specs.Cases.{is_comparison};
ghost use Rattle.anb_suite.specs.Suites.{checks_of, is_receive, HasCheck};

use anb_base::NoMemory;
use anb_code::{Instr, RoleCode};
use std::alloc::Global;

/// The comparisons of a code behind its first arrival, by the numbers of their instructions, in order.
/// One pass.
pub fn checks(alloc: Global, code: &RoleCode) -> Result<Vec<u32>, NoMemory>
    ensures are { IfOk result (λ checks. checks.items ≡ checks_of (acts_of code.now)) }
    ensures each { IfOk result (λ checks. All (HasCheck code.now) checks.items) }
{
    let mut checks = Vec::new(alloc);
    let mut came = false;
    for (i, instr) in code.instrs().iter().enumerate() {
        if came && is_comparison(instr) {
            checks.push(i as u32 + 1)?;
        }
        came = came || is_receive(instr);
    }
    Ok(checks)
}

fn is_comparison(instr: &Instr) -> bool
    ensures { (formats : List FormatValue)
        → result ≡ is_comparison (act_of formats instr.now) }
{
    matches!(instr, Instr::Equal(..))
}

fn is_receive(instr: &Instr) -> bool
    ensures { (formats : List FormatValue) → result ≡ is_receive (act_of formats instr.now) }
{
    matches!(instr, Instr::Recv)
}
