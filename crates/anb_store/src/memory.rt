//! A store in memory.

ghost use Rattle.std.specs.Prelude.{◌≡◌, ◌≤◌, ◌++◌, ◌∷◌, ◌↔◌, [], IsTrue, IfOk, OnOk, IsErrOf};
ghost use Rattle.anb_base.specs.Memory.{fails_after, raised};
ghost use Rattle.anb_store.specs.Memory.{called, failed, kept_then, state_of};
ghost use Rattle.anb_store.specs.Stores.{replaced};

use crate::{Store, StoreNo};
use anb_base::{Bytes, NoMemory, Text};
use std::alloc::Global;
use std::marker::Model;

/// A store in memory, which tells all that it holds. It keeps each file that came, in order, so
/// a call costs a copy of its bytes; calls fail by their numbers.
#[derive(Debug, Drop)]
pub struct MemStore {
    kept: Vec<(Text, Bytes)>,
    calls: u64,
    fails: Vec<u32>,
    faults: u64,
}

impl Model for MemStore {
    ghost use Rattle.anb_store.specs.Memory.{MemoryStore};

    ghost Value = { MemoryStore };

    ghost view = { λ store. record {
      kept = store.kept.items;
      calls = store.calls;
      fails = store.fails.items;
      faults = store.faults;
    } };
}

impl MemStore {
    ghost use Rattle.anb_store.specs.Memory.{fresh_store};

    /// A store without files. The calls whose numbers from 1 stand in `fails` answer `Failed`.
    pub fn new(alloc: Global, fails: Vec<u32>) -> Self
        ensures { result ≡ fresh_store fails.items }
    {
        MemStore {
            kept: Vec::new(alloc),
            calls: 0,
            fails,
            faults: 0,
        }
    }

    /// The names and the bytes that were kept, in order, with those that were replaced later.
    pub fn kept(&self) -> &[(Text, Bytes)]
        ensures { result.now ≡ self.now.kept }
    {
        &self.kept
    }

    /// Counts the call that comes now, and its fault where it fails. Says whether it does.
    fn next_fails(&mut self) -> bool
        ensures fails { result ≡ fails_after self.old.calls self.old.fails }
        ensures failed { IsTrue result → self.new ≡ failed self.old }
        ensures called { (IsTrue result → ⊥) → self.new ≡ called self.old }
        ensures never_falls { self.old.faults ≤ self.new.faults }
    {
        self.calls = self.calls.saturating_add(1);
        let number = self.calls;
        let fails = self.fails.iter().any(|fails| u64::from(*fails) == number);
        if fails {
            self.faults = self.faults.saturating_add(1);
        }
        fails
    }
}

/// A file with copies of the name and the bytes.
fn file_of(alloc: Global, name: &str, bytes: &[u8]) -> Result<(Text, Bytes), NoMemory>
    ensures { IfOk result (λ file. file ≡ (name.now, bytes.now)) }
{
    let name = Text::new(String::from_str(alloc, name)?);
    Ok((name, Bytes::new(Vec::from_slice(alloc, bytes)?)))
}

impl Store for MemStore {
    ghost state = { state_of };

    #[tactic(auto, using(crate::proofs::Kept::files_after_then))]
    fn replace(&mut self, alloc: Global, name: &str, bytes: &[u8]) -> Result<(), StoreNo>
        ensures fails { IsErrOf result StoreNo.Failed
            ↔ IsTrue (fails_after self.old.calls self.old.fails) }
        ensures failed { IsErrOf result StoreNo.Failed → self.new ≡ failed self.old }
        ensures kept { OnOk result (self.new ≡ kept_then self.old name.now bytes.now) }
        ensures wanting { IsErrOf result StoreNo.NoMemory → self.new ≡ called self.old }
        ensures never_falls { self.old.faults ≤ self.new.faults }
        ensures replaced { OnOk result
            (state_of self.new ≡ replaced (state_of self.old) name.now bytes.now) }
    {
        if self.next_fails() {
            return Err(StoreNo::Failed);
        }
        let file = file_of(alloc, name, bytes)?;
        let Ok(()) = self.kept.push(file) else {
            return Err(StoreNo::NoMemory);
        };
        Ok(())
    }
}
