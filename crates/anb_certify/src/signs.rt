//! What was done on which classes of registers, each with the first that did it.
ghost use Rattle.std.specs.Prelude.{◌≡◌, ◌+◌, ◌<◌, ◌≤◌, ℕ, None, length, map, replicate, All, IfOk, OnOk};
ghost use Rattle.anb_term.specs.Tree.{leaf, Tree};
ghost use Rattle.anb_certify.specs.Signs.{classes_in, sign_of, signs_in, HasSigned, IsSigns, Owned, Owns};

use crate::table::numbers_at;
use anb_base::NoMemory;
use anb_intern::{Node, NodeId, Pool};
use anb_reason::put_all;
use anb_term::{Op, Term};
use std::alloc::Global;

/// Operators on classes, by number, and for each number the first register that such a work wrote.
#[derive(Drop)]
pub(crate) struct Signs {
    pub(crate) pool: Pool,
    pub(crate) classes: Vec<NodeId>,
    pub(crate) owners: Vec<Option<u32>>,
}

impl Signs {
    /// None, for registers of these classes.
    pub(crate) fn new(alloc: Global, names: &[u32]) -> Result<Signs, NoMemory>
        ensures signs { IfOk result IsSigns }
        ensures classes { IfOk result (λ signs. classes_in signs ≡ map leaf names.now) }
        ensures none { IfOk result (λ signs. (s : Tree) (x : ℕ) → Owns (signs_in signs) s x → ⊥) }
    {
        let mut atoms = Vec::new(alloc);
        for name in names {
            atoms.push(Term::Atom(*name))?;
        }
        let mut pool = Pool::new(alloc);
        let classes = put_all(alloc, &mut pool, &atoms)?;
        let owners = no_owners(alloc, pool.len())?;
        Ok(Signs {
            pool,
            classes,
            owners,
        })
    }

    /// The first register that this operator wrote on operands of these classes, which is this one
    /// where there is none yet.
    pub(crate) fn sign(
        &mut self,
        alloc: Global,
        op: Op,
        operands: &[u32],
        at: u32,
    ) -> Result<u32, NoMemory>
        requires signs { IsSigns self.old }
        requires within { All (λ r. r < length (classes_in self.old)) operands.now }
        ensures signs { OnOk result (IsSigns self.new) }
        ensures signed { IfOk result (HasSigned (signs_in self.old)
            (sign_of (classes_in self.old) op operands.now) at (signs_in self.new)) }
    {
        let operands = numbers_at(alloc, &self.classes, operands)?;
        if self.pool.len() == u32::MAX {
            return Err(NoMemory);
        }
        let id = self.pool.put(Node::Apply(op, operands))?;
        let _ = self.pool.len();
        let owner = owner(&mut self.owners, id.0, at)?;
        Ok(owner)
    }
}

/// Places of so many signs that nothing owns.
fn no_owners(alloc: Global, count: u32) -> Result<Vec<Option<u32>>, NoMemory>
    ensures { IfOk result (λ owners. owners.items ≡ replicate count None) }
{
    let mut owners = Vec::new(alloc);
    for i in 0..count {
        let _ = i;
        owners.push(None)?;
    }
    Ok(owners)
}

/// The owner of a sign, which is this one where there is none yet.
fn owner(owners: &mut Vec<Option<u32>>, id: u32, at: u32) -> Result<u32, NoMemory>
    requires { id ≤ length owners.old.items }
    ensures long { OnOk result ((id < length owners.old.items
        → length owners.new.items ≡ length owners.old.items)
        × (id ≡ length owners.old.items
        → length owners.new.items ≡ length owners.old.items + 1)) }
    ensures owned { IfOk result (Owned owners.old.items id at owners.new.items) }
{
    if id as usize == owners.len() {
        owners.push(Some(at))?;
        return Ok(at);
    }
    if let Some(first) = owners[id as usize] {
        return Ok(first);
    }
    owners[id as usize] = Some(at);
    Ok(at)
}
