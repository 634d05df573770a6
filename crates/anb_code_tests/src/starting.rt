//! Codes of role files, and machines that run them.

ghost use Rattle.std.specs.Prelude.{◌≤◌, length};
ghost use Rattle.anb_base.specs.declared.TheConstants.{LARGE_FILE};

use anb_base::LARGE_FILE;
use anb_code::RoleCode;
use anb_machine::Machine;
use anb_text::{LoadNo, load};
use std::alloc::Global;
use std::process::Abort;
use std::test::Fail;

/// The code of a text. The caller is told nothing of it, so that no later proof reads what is known.
fn loaded(alloc: Global, text: &[u8]) -> Result<RoleCode, LoadNo>
    requires size { length text.now ≤ LARGE_FILE }
{
    load(alloc, text)
}

/// The code of a role file: what stands behind the names of the protocol and the role.
pub(crate) fn code(rt: &impl Abort, alloc: Global, rest: &str) -> Result<RoleCode, Fail> {
    let text = format!(in alloc; "anb-role 1\nprotocol P\nrole A\n{rest}end\n")?;
    assert!(rt; text.len() <= LARGE_FILE as usize);
    Ok(loaded(alloc, text.as_bytes())?)
}

/// A machine of a code without takes, for session 0 under a seed of zeros.
pub(crate) fn start<'c>(
    rt: &impl Abort,
    alloc: Global,
    code: &'c RoleCode,
) -> Result<Machine<'c>, Fail> {
    assert!(rt; code.takes() == 0);
    Ok(Machine::start(alloc, code, &[], &[0; 32], 0)?)
}
