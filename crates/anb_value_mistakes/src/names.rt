//! The names that are asked for.
ghost use Rattle.std.specs.Prelude.{◌≡◌, ◌∷◌, IfOk};
ghost use Rattle.anb_index.specs.Places.{among};
ghost use Rattle.anb_values.specs.Lines.{seed_label};

use anb_base::{NoMemory, Text};
use anb_index::TextIndex;
use std::alloc::Global;
use std::marker::Model;

/// The names that are asked for, which are found beside the label of a seed.
#[derive(Drop)]
pub(crate) struct Names<'n> {
    names: &'n [Text],
    asked: TextIndex<'n>,
}

impl<'n> Model for Names<'n> {
    ghost use Rattle.std.specs.Prelude.{◌≡◌, ◌∷◌, ℕ, List};
    ghost use Rattle.anb_values.specs.Lines.{seed_label};

    ghost Value = { List (List ℕ) };

    ghost view = { λ n. n.names.now };

    ghost invariant = { λ n. n.asked ≡ seed_label ∷ n.names.now };
}

impl<'n> Names<'n> {
    ghost use Rattle.std.specs.Prelude.{◌≡◌, ◌∷◌, IfOk};
    ghost use Rattle.anb_index.specs.Places.{among};
    ghost use Rattle.anb_values.specs.Lines.{seed_label};

    pub(crate) fn new(alloc: Global, names: &'n [Text]) -> Result<Self, NoMemory>
        ensures { IfOk result (λ n. n ≡ names.now) }
    {
        let mut asked = TextIndex::new(alloc);
        asked.push("@seed")?;
        for name in names {
            asked.push(name.as_str())?;
        }
        Ok(Names { names, asked })
    }

    pub(crate) fn as_slice(&self) -> &[Text]
        ensures { result.now ≡ self.now }
    {
        self.names
    }

    /// Whether a label is one of the names, or that of a seed.
    pub(crate) fn has(&self, label: &str) -> bool
        ensures { result ≡ among (seed_label ∷ self.now) label.now }
    {
        self.asked.contains(label)
    }
}
