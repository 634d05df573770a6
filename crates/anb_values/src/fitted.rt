//! What a text gives for some names.
ghost use Rattle.std.specs.Prelude.{◌≡◌, ℕ, List};

use anb_base::Bytes;
use std::marker::Model;

/// The values of some names, in their order.
#[derive(Debug, Drop)]
pub struct ValueList {
    inner: Vec<Bytes>,
}

impl Model for ValueList {
    ghost Value = { List (List ℕ) };

    ghost view = { λ v. v.inner.items };
}

impl ValueList {
    pub fn new(inner: Vec<Bytes>) -> Self
        ensures { result ≡ inner.items }
    {
        ValueList { inner }
    }

    pub fn as_slice(&self) -> &[Bytes]
        ensures { result.now ≡ self.now }
    {
        self.inner.as_slice()
    }

    pub fn into_vec(self) -> Vec<Bytes>
        ensures { result.items ≡ self }
    {
        let ValueList { inner } = self;
        inner
    }
}

/// The values that were asked for, and the seed where the text has one.
#[derive(Debug, Drop)]
pub struct Fitted {
    pub values: ValueList,
    pub seed: Option<[u8; 32]>,
}
