//! Equations between terms over names and variables.
ghost use Rattle.std.specs.Prelude.{◌≡◌, ◌+◌, IfOk};

use anb_base::NoMemory;
use anb_term::Term;

/// That a variable is a term.
#[derive(Drop)]
pub struct Equation {
    /// The variable's number, from 0.
    pub variable: u32,
    /// A term over the names and the variables.
    pub term: Term,
}

/// The atom of a variable, where there is a number for it.
pub fn variable(names: u32, number: u32) -> Result<u32, NoMemory>
    ensures { IfOk result (λ v. v ≡ names + number) }
{
    if number > u32::MAX - names {
        return Err(NoMemory);
    }
    Ok(names + number)
}
