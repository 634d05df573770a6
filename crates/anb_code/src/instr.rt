//! Instructions over registers.
ghost use Rattle.std.specs.Prelude.{◌≡◌, ℕ, List};

use anb_base::Text;
use std::marker::Model;

/// Registers in order, by their numbers.
#[derive(Debug, Drop)]
pub struct Registers {
    inner: Vec<u32>,
}

impl Model for Registers {
    ghost Value = { List ℕ };

    ghost view = { λ r. r.inner.items };
}

impl Registers {
    pub fn new(inner: Vec<u32>) -> Self
        ensures { result ≡ inner.items }
    {
        Registers { inner }
    }

    pub fn as_slice(&self) -> &[u32]
        ensures { result.now ≡ self.now }
    {
        self.inner.as_slice()
    }

    pub fn into_vec(self) -> Vec<u32>
        ensures { result.items ≡ self }
    {
        let Registers { inner } = self;
        inner
    }
}

/// An instruction. Registers are numbered from 0 in the order of writing. `Take`, `Fresh`, `Recv` and
/// the operators write the next register; `Parse` writes the next ones, one per field; `Equal` and
/// `Send` write none. A format is named by its place.
#[derive(Debug, Drop)]
pub enum Instr {
    /// The initial value with this label text.
    Take(Text),
    /// The next nonce.
    Fresh,
    /// The next arrival.
    Recv,
    Hash(u32),
    /// Key and body.
    Mac(u32, u32),
    /// Key and body.
    Seal(u32, u32),
    /// Key and sealed value.
    Unseal(u32, u32),
    /// Key, context and body.
    Wrap(u32, u32, u32),
    /// Key, context and wrapped value.
    Unwrap(u32, u32, u32),
    Build(u16, Registers),
    Parse(u16, u32),
    /// Demands that both hold the same bytes.
    Equal(u32, u32),
    Send(u32),
}
