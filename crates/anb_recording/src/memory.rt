//! A store in memory as a journal.

ghost use Rattle.std.specs.Prelude.{◌≡◌, ◌≢◌, ◌++◌, [], Some, None, Err, IfOk, IfSome, IfNone, OnOk, IsErrOf, true, false, unwrap_or};
ghost use Rattle.anb_store.specs.Memory.{files_after};
ghost use Rattle.anb_store.specs.Stores.{HasFailed, replaced};

use crate::{BeginNo, Journal};
use anb_base::{Bytes, NoMemory, Text};
use anb_store::{MemStore, Store, StoreNo};
use std::alloc::Global;

/// The bytes of the last of these files that has this name.
fn last_of<'f>(kept: &'f [(Text, Bytes)], name: &str) -> Option<&'f [u8]>
    ensures some { IfSome result (λ bytes.
        files_after (λ _. None) kept.now name.now ≡ Some bytes.now) }
    ensures none { IfNone result (files_after (λ _. None) kept.now name.now ≡ None) }
{
    let mut found = None;
    for file in kept {
        if name == file.0.as_str() {
            found = Some(file.1.as_slice());
        }
    }
    found
}

/// These bytes behind those that stood there.
fn behind(alloc: Global, before: &[u8], bytes: &[u8]) -> Result<Bytes, NoMemory>
    ensures { IfOk result (λ all. all ≡ before.now ++ bytes.now) }
{
    let mut all = Vec::from_slice(alloc, before)?;
    all.extend_from_slice(bytes)?;
    Ok(Bytes::new(all))
}

/// The file of this name with these bytes behind what it holds.
fn grown(alloc: Global, kept: &[(Text, Bytes)], name: &str, bytes: &[u8]) -> Result<Bytes, NoMemory>
    ensures { IfOk result (λ all. all
        ≡ unwrap_or (files_after (λ _. None) kept.now name.now) [] ++ bytes.now) }
{
    match last_of(kept, name) {
        Some(before) => behind(alloc, before, bytes),
        None => behind(alloc, b"", bytes),
    }
}

/// Keeps a file.
fn make<S: Store>(store: &mut S, alloc: Global, name: &str, bytes: &[u8]) -> Result<(), BeginNo>
    ensures replaced { OnOk result
        (S.state store.new ≡ replaced (S.state store.old) name.now bytes.now) }
    ensures failed { IsErrOf result BeginNo.Failed
        → HasFailed (S.state store.old) (S.state store.new) }
    ensures wanting { IsErrOf result BeginNo.NoMemory
        → S.state store.new ≡ S.state store.old }
    ensures not_first { result ≢ Err BeginNo.First }
    ensures not_second { result ≢ Err BeginNo.Second }
{
    match store.replace(alloc, name, bytes) {
        Ok(()) => Ok(()),
        Err(StoreNo::Failed) => Err(BeginNo::Failed),
        Err(StoreNo::NoMemory) => Err(BeginNo::NoMemory),
    }
}

/// Whether a file of this name was kept.
fn is_kept(kept: &[(Text, Bytes)], name: &str) -> bool
    ensures there { result ≡ true → files_after (λ _. None) kept.now name.now ≢ None }
    ensures absent { result ≡ false → files_after (λ _. None) kept.now name.now ≡ None }
{
    match last_of(kept, name) {
        Some(_) => true,
        None => false,
    }
}

impl Journal for MemStore {
    fn begin(
        &mut self,
        alloc: Global,
        first: &str,
        bytes: &[u8],
        second: &str,
    ) -> Result<(), BeginNo> {
        if is_kept(self.kept(), first) {
            return Err(BeginNo::First);
        }
        if is_kept(self.kept(), second) {
            return Err(BeginNo::Second);
        }
        match make(self, alloc, first, bytes) {
            Ok(()) => make(self, alloc, second, b""),
            Err(no) => Err(no),
        }
    }

    fn has(&self, name: &str) -> bool {
        is_kept(self.kept(), name)
    }

    fn make(&mut self, alloc: Global, name: &str, bytes: &[u8]) -> Result<(), StoreNo> {
        self.replace(alloc, name, bytes)
    }

    /// A call costs a copy of all that the file holds by then.
    fn append(&mut self, alloc: Global, name: &str, bytes: &[u8]) -> Result<(), StoreNo> {
        match grown(alloc, self.kept(), name, bytes) {
            Ok(all) => self.replace(alloc, name, all.as_slice()),
            Err(NoMemory) => Err(StoreNo::NoMemory),
        }
    }
}
