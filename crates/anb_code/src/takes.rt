//! What the check knows of the takes among the instructions before.
ghost use Rattle.std.specs.Prelude.{◌≡◌, ◌∷◌, ◌++◌, [], List, OnOk};
ghost use Rattle.anb_code.specs.Checking.{KnowsTakes};
ghost use Rattle.anb_code.specs.RawValue.{RawInstrValue};
ghost use Rattle.anb_code.specs.Table.{is_late, is_take, is_taken};

use crate::{RawInstr, What};
use anb_base::NoMemory;
use std::alloc::Global;
use std::collections::BTreeMap;

/// Whether another instruction stood there, and the takes' texts, in an ordered map, so that no
/// choice of texts makes it slow: with n takes a call compares with about log n texts.
#[derive(Drop)]
pub(crate) struct Takes<'a> {
    pub(crate) others: bool,
    pub(crate) texts: BTreeMap<&'a str, ()>,
}

impl<'a> Takes<'a> {
    pub(crate) fn new(alloc: Global) -> Self
        ensures { KnowsTakes [] result }
    {
        Takes {
            others: false,
            texts: BTreeMap::new(alloc),
        }
    }

    pub(crate) fn is_late(&self, instr: &RawInstr) -> bool
        ensures { (before : List RawInstrValue) → KnowsTakes before self.now
            → result ≡ is_late before instr.now }
    {
        is_take(instr) && self.others
    }

    pub(crate) fn is_taken(&self, instr: &RawInstr) -> bool
        ensures { (before : List RawInstrValue) → KnowsTakes before self.now
            → result ≡ is_taken before instr.now }
    {
        is_take(instr) && self.texts.contains_key(instr.name.as_str())
    }

    pub(crate) fn push(&mut self, instr: &'a RawInstr) -> Result<(), NoMemory>
        ensures { OnOk result ((before : List RawInstrValue) → KnowsTakes before self.old
            → KnowsTakes (before ++ instr.now ∷ []) self.new) }
    {
        if is_take(instr) {
            match self.texts.insert(instr.name.as_str(), ()) {
                Ok(_) => {}
                Err(_) => return Err(NoMemory),
            }
        } else {
            self.others = true;
        }
        Ok(())
    }
}

fn is_take(instr: &RawInstr) -> bool
    ensures { result ≡ is_take instr.now.what }
{
    instr.what == What::Take
}
