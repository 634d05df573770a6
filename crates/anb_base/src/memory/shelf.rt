//! A shelf in memory.

ghost use Rattle.std.specs.Prelude.{◌≡◌, ◌≢◌, ℕ, ◌<◌, ◌≤◌, ◌↔◌, ◌⊎◌, List, length, Some, None, IsTrue, IfOk, IsErrOf, replicate, IfSome};
ghost use Rattle.anb_base.specs.Memory.{NamesDiffer, place_of, content_at, content_of, faults_at, faults_of, fetched, failed_at, failed_for, FetchFails};
ghost use Rattle.anb_base.specs.Moves.{Rose};

use super::calls::{Calls, one_more};
use crate::{Bytes, NoMemory, Shelf, ShelfNo, Text};
use std::alloc::Global;
use std::marker::Model;

/// A shelf in memory. Fetches fail by their numbers, which count over all names, and always for a
/// name that isn't there.
#[derive(Debug, Drop)]
pub struct MemShelf {
    files: Vec<(Text, Bytes)>,
    faults: Vec<u64>,
    calls: Calls,
}

impl Model for MemShelf {
    ghost use Rattle.std.specs.Prelude.{◌≡◌, length};
    ghost use Rattle.anb_base.specs.Memory.{MemoryShelf};

    ghost Value = { MemoryShelf };

    ghost view = { λ shelf. record {
      files = shelf.files.items;
      faults = shelf.faults.items;
      calls = shelf.calls.count;
      fails = shelf.calls.fails.items;
    } };

    ghost invariant = { λ shelf. length shelf.faults.items ≡ length shelf.files.items };
}

impl MemShelf {
    ghost use Rattle.anb_base.specs.Memory.{fresh_shelf};

    /// A shelf with these files by name. The fetches whose numbers from 1 stand in `fails` answer
    /// `Failed`.
    pub fn new(alloc: Global, files: Vec<(Text, Bytes)>, fails: Vec<u32>) -> Result<Self, NoMemory>
        requires { NamesDiffer files.items }
        ensures { IfOk result (λ shelf. shelf ≡ fresh_shelf files.items fails.items) }
    {
        let faults = vec![in alloc; 0u64; files.len()]?;
        Ok(MemShelf {
            files,
            faults,
            calls: Calls::new(fails),
        })
    }

    /// Where the file of this name stands.
    fn place(&self, name: &str) -> Option<usize>
        ensures place { result ≡ place_of self.now name.now }
        ensures within { IfSome result (λ place. place < length self.now.files) }
    {
        self.files.iter().position(|file| file.0.as_str() == name)
    }

    fn content(&self, place: usize) -> &Bytes
        requires { place < length self.now.files }
        ensures { content_at self.now place ≡ Some result.now }
    {
        &self.files[place].1
    }

    /// Counts a fault of the file at this place.
    fn fault(&mut self, place: usize)
        requires { place < length self.old.files }
        ensures failed { self.new ≡ failed_at self.old (Some place) }
        ensures cause { Rose (faults_at self.old (Some place)) (faults_at self.new (Some place)) }
        ensures never_falls { (each : List ℕ)
            → faults_of self.old each ≤ faults_of self.new each }
        ensures others { (other : List ℕ) → place_of self.old other ≢ Some place
            → faults_of self.new other ≡ faults_of self.old other }
    {
        self.faults[place] = one_more(self.faults[place]);
    }
}

impl Shelf for MemShelf {
    ghost files = { λ shelf. Some (content_of shelf) };

    ghost faults = { faults_of };

    fn fetch(&mut self, alloc: Global, name: &str, limit: u32) -> Result<Bytes, ShelfNo>
        ensures content { IfOk result (λ bytes. content_of self.old name.now ≡ Some bytes) }
        ensures within { IfOk result (λ bytes. length bytes ≤ limit) }
        ensures long { IsErrOf result ShelfNo.Long
            → IfSome (content_of self.old name.now) (λ bytes. limit < length bytes) }
        ensures fails { IsErrOf result ShelfNo.Failed ↔ FetchFails self.old name.now }
        ensures failed { IsErrOf result ShelfNo.Failed
            → self.new ≡ failed_for self.old name.now }
        ensures cause { IsErrOf result ShelfNo.Failed
            → Rose (faults_of self.old name.now) (faults_of self.new name.now) }
        ensures quiet { (IsErrOf result ShelfNo.Failed → ⊥)
            → (each : List ℕ) → faults_of self.new each ≡ faults_of self.old each }
        ensures never_falls { (each : List ℕ)
            → faults_of self.old each ≤ faults_of self.new each }
        ensures others { (other : List ℕ) → other ≢ name.now
            → faults_of self.new other ≡ faults_of self.old other }
        ensures counted { (IsErrOf result ShelfNo.Failed → ⊥)
            → self.new ≡ fetched self.old }
    {
        let fails = self.calls.next_fails();
        let Some(place) = self.place(name) else {
            return Err(ShelfNo::Failed);
        };
        if fails {
            self.fault(place);
            return Err(ShelfNo::Failed);
        }
        let content = self.content(place);
        if content.as_slice().len() > limit as usize {
            return Err(ShelfNo::Long);
        }
        Ok(content.copy(alloc)?)
    }
}
