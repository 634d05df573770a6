//! A list of texts that finds the place of each.
//!
//! The places stand in an ordered map, so that no choice of texts makes it slow: with n texts, `push`,
//! `place_of` and `contains` compare with about log n of them.
#![tactic(auto)]

ghost use Rattle.std.specs.Prelude.{◌≡◌, [], ◌∷◌, ◌++◌, IfOk, OnOk, OnErr};
ghost use Rattle.anb_index.specs.Places.{among, place_of};

use std::alloc::{AllocError, Global};
use std::collections::BTreeMap;
use std::marker::Model;

/// A list of texts with the place at which each stands first.
#[derive(Drop)]
pub struct TextIndex<'a> {
    texts: Vec<&'a str>,
    places: BTreeMap<&'a str, usize>,
}

impl<'a> Model for TextIndex<'a> {
    ghost use Rattle.std.specs.Prelude.{◌≡◌, ℕ, List, map};
    ghost use Rattle.std.specs.BTreeMap.{get_by};
    ghost use Rattle.std.specs.Cmp.Lexicographic.{slice_cmp};
    ghost use Rattle.std.specs.Ordering.{nat_cmp};
    ghost use Rattle.anb_index.specs.Places.{place_of};

    ghost Value = { List (List ℕ) };

    ghost view = { λ i. map (λ t. t.now) i.texts.items };

    ghost invariant = { λ i. (q : List ℕ) → get_by (λ k. slice_cmp nat_cmp q k.now) i.places ≡ place_of (map (λ t. t.now) i.texts.items) q };
}

impl<'a> TextIndex<'a> {
    ghost use Rattle.std.specs.Prelude.{◌≡◌, [], ◌∷◌, ◌++◌, IfOk, OnOk, OnErr};
    ghost use Rattle.anb_index.specs.Places.{among, place_of};

    /// The empty list.
    pub fn new(alloc: Global) -> Self
        ensures { result ≡ [] }
    {
        TextIndex {
            texts: Vec::new(alloc),
            places: BTreeMap::new(alloc),
        }
    }

    /// Appends a text, and says whether it stood there already. Without memory the list stays.
    pub fn push(&mut self, text: &'a str) -> Result<bool, AllocError>
        ensures pushed { OnOk result (self.new ≡ self.old ++ text.now ∷ []) }
        ensures found { IfOk result (λ found. found ≡ among self.old text.now) }
        ensures unchanged { OnErr result (self.new ≡ self.old) }
    {
        let place = self.texts.len();
        let found = self.places.contains_key(text);
        self.texts.push(text)?;
        if !found {
            match self.places.insert(text, place) {
                Ok(_) => {}
                Err(_) => {
                    self.texts.pop();
                    return Err(AllocError);
                }
            }
        }
        Ok(found)
    }

    /// The place at which a text stands first.
    pub fn place_of(&self, text: &str) -> Option<usize>
        ensures { result ≡ place_of self.now text.now }
    {
        self.places.get(text).copied()
    }

    /// Whether a text stands there.
    pub fn contains(&self, text: &str) -> bool
        ensures { result ≡ among self.now text.now }
    {
        self.places.contains_key(text)
    }
}
