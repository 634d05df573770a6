//! A case: its values by key.

use crate::filling::{Name, filled};
use crate::parts::Entry;
use anb_base::NoMemory;
use std::alloc::{AllocError, AllocFailed, Global};
use std::fmt;

/// Why a case can't be run.
#[derive(Clone, Copy)]
pub(crate) enum No {
    /// The line of this number, from 1, stands in no case file here.
    Line(u32),
    /// The value under this key is missing, or can't be read.
    Value(&'static str),
    Memory,
}

impl fmt::Display for No {
    fn fmt<W: fmt::Write>(&self, f: &mut fmt::Formatter<W>) -> fmt::Result {
        match self {
            No::Line(number) => write!(f, "can't read line {number}"),
            No::Value(key) => write!(f, "can't read {key}"),
            No::Memory => write!(f, "no memory"),
        }
    }
}

impl From<AllocError> for No {
    fn from(_error: AllocError) -> Self {
        No::Memory
    }
}

impl<T: Drop> From<AllocFailed<T>> for No {
    fn from(_failed: AllocFailed<T>) -> Self {
        No::Memory
    }
}

impl From<NoMemory> for No {
    fn from(_none: NoMemory) -> Self {
        No::Memory
    }
}

/// The entries of a case, and those of its group, which hold under each key that the case lacks.
#[derive(Clone, Copy)]
pub(crate) struct Case<'e, 'n> {
    pub(crate) own: &'e [Entry],
    pub(crate) group: &'e [Entry],
    pub(crate) names: &'n [Name],
}

impl<'e, 'n> Case<'e, 'n> {
    /// The entries under this key.
    fn entries(self, key: &str) -> &'e [Entry] {
        if self.own.iter().any(|entry| entry.key.as_str() == key) {
            self.own
        } else {
            self.group
        }
    }

    /// The first entry under this key.
    pub(crate) fn entry(self, key: &str) -> Option<&'e Entry> {
        for entry in self.entries(key) {
            if entry.key.as_str() == key {
                return Some(entry);
            }
        }
        None
    }

    /// The text under this key.
    pub(crate) fn text(self, alloc: Global, key: &'static str) -> Result<Option<String>, No> {
        match self.entry(key) {
            Some(entry) => Ok(Some(filled(alloc, self.names, key, &entry.value)?)),
            None => Ok(None),
        }
    }

    /// The bytes under this key.
    pub(crate) fn bytes(self, alloc: Global, key: &'static str) -> Result<Option<Vec<u8>>, No> {
        match self.entry(key) {
            Some(entry) => Ok(Some(self.bytes_of(alloc, key, entry)?)),
            None => Ok(None),
        }
    }

    /// The bytes of each entry under this key.
    pub(crate) fn all_bytes(self, alloc: Global, key: &'static str) -> Result<Vec<Vec<u8>>, No> {
        let mut all = Vec::new(alloc);
        for entry in self.entries(key) {
            if entry.key.as_str() == key {
                all.push(self.bytes_of(alloc, key, entry)?)?;
            }
        }
        Ok(all)
    }

    fn bytes_of(self, alloc: Global, key: &'static str, entry: &Entry) -> Result<Vec<u8>, No> {
        let text = filled(alloc, self.names, key, &entry.value)?;
        if !entry.hex {
            return Ok(text.into_bytes());
        }
        let mut digits = String::new(alloc);
        for word in text.split_whitespace() {
            digits.push_str(word)?;
        }
        hex::decode(alloc, digits.as_bytes()).map_err(|_| No::Value(key))
    }

    /// The number under this key.
    pub(crate) fn number(self, key: &'static str) -> Result<Option<u32>, No> {
        match self.entry(key) {
            Some(entry) => Ok(Some(number_of(key, &entry.value)?)),
            None => Ok(None),
        }
    }

    /// The numbers under this key, none where there is no such key.
    pub(crate) fn numbers(self, alloc: Global, key: &'static str) -> Result<Vec<u32>, No> {
        let mut numbers = Vec::new(alloc);
        if let Some(entry) = self.entry(key) {
            for word in entry.value.split_whitespace() {
                numbers.push(number_of(key, word)?)?;
            }
        }
        Ok(numbers)
    }

    /// Whether the value under this key is `yes`. It is nothing else.
    pub(crate) fn is_set(self, key: &'static str) -> Result<bool, No> {
        match self.entry(key) {
            Some(entry) if entry.value.as_str() == "yes" => Ok(true),
            Some(_) => Err(No::Value(key)),
            None => Ok(false),
        }
    }
}

/// The number that stands here as the value of this key, or as a part of it.
pub(crate) fn number_of(key: &'static str, text: &str) -> Result<u32, No> {
    text.parse::<u32>().map_err(|_| No::Value(key))
}
