//! Files of a record that are made at once.

ghost use Rattle.std.specs.Prelude.{◌≢◌};

use anb_base::Text;

/// The names of two files of a record that are made at once: lines go to the first.
#[derive(Drop)]
pub(crate) struct Both {
    pub(crate) lined: Text,
    pub(crate) beside: Text,
    ghost differ: { lined ≢ beside },
}
