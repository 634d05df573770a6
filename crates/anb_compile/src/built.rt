//! What was built from which registers, so that each thing is built once.
ghost use Rattle.std.specs.Prelude.{◌≡◌, IfOk};
ghost use Rattle.anb_compile.specs.Sharing.{key};

use anb_base::NoMemory;
use anb_term::Op;
use std::alloc::Global;
use std::collections::BTreeMap;

/// The register of each operator on registers that was built. It is ordered, so no choice of names
/// makes it slow: to find one or to keep one more takes as many comparisons of operands as the
/// logarithm of how many there are.
#[derive(Drop)]
pub(crate) struct Built {
    pub(crate) registers: BTreeMap<Vec<u32>, u32>,
}

impl Built {
    ghost use Rattle.std.specs.Prelude.{◌≡◌, ℕ, List, None, OnOk};
    ghost use Rattle.anb_compile.specs.Sharing.{register_at, Keeps};

    pub(crate) fn new(alloc: Global) -> Self
        ensures { (keys : List ℕ) → register_at result keys ≡ None }
    {
        Built {
            registers: BTreeMap::new(alloc),
        }
    }

    /// The register of what was built so.
    pub(crate) fn find(&self, key: &[u32]) -> Option<u32>
        ensures { result ≡ register_at self.now key.now }
    {
        self.registers.get(key).copied()
    }

    /// Keeps a register.
    pub(crate) fn keep(&mut self, key: Vec<u32>, register: u32) -> Result<(), NoMemory>
        requires { register_at self.old key.items ≡ None }
        ensures { OnOk result (Keeps self.old self.new key.items register) }
    {
        self.registers.insert(key, register)?;
        Ok(())
    }
}

/// An operator and registers as one list of numbers.
pub(crate) fn key_of(alloc: Global, op: Op, at: &[u32]) -> Result<Vec<u32>, NoMemory>
    ensures { IfOk result (λ numbers. numbers.items ≡ key op at.now) }
{
    let mut numbers = Vec::new(alloc);
    match op {
        Op::Hash => numbers.push(0)?,
        Op::Mac => numbers.push(1)?,
        Op::Seal => numbers.push(2)?,
        Op::Wrap => numbers.push(3)?,
        Op::Format { index, arity } => {
            numbers.push(4)?;
            numbers.push(index as u32)?;
            numbers.push(arity as u32)?;
        }
    }
    numbers.extend_from_slice(at)?;
    Ok(numbers)
}
