//! Writing a text to a sink, a part at a time.
ghost use Rattle.std.specs.Prelude.{◌≡◌, ℕ, List, IfOk};
ghost use Rattle.anb_text.specs.Writing.{IsWritten};

use anb_base::{Failed, NoMemory, Sink, write_whole};

/// Why a text isn't written whole.
#[derive(Clone, Copy, Debug, PartialEq, Eq, Drop)]
pub enum WriteNo {
    /// The sink failed.
    Failed,
    NoMemory,
}

/// Writes bytes.
pub fn write_bytes<K: Sink>(snk: &mut K, bytes: &[u8]) -> Result<(), WriteNo>
    ensures written { IsWritten bytes.now result
        (K.written snk.old) (K.written snk.new) (K.faults snk.old) (K.faults snk.new) }
    ensures kept { K.kept snk.new ≡ K.kept snk.old }
{
    match write_whole(snk, bytes) {
        Ok(()) => Ok(()),
        Err(Failed) => Err(WriteNo::Failed),
    }
}

/// Writes a part of a text, where there was memory to make it.
pub fn write_part<K: Sink>(snk: &mut K, part: Result<Vec<u8>, NoMemory>) -> Result<(), WriteNo>
    ensures written { (text : List ℕ) → IfOk part (λ bytes. bytes.items ≡ text)
        → IsWritten text result
        (K.written snk.old) (K.written snk.new) (K.faults snk.old) (K.faults snk.new) }
    ensures kept { K.kept snk.new ≡ K.kept snk.old }
{
    match part {
        Ok(bytes) => write_bytes(snk, &bytes),
        Err(NoMemory) => Err(WriteNo::NoMemory),
    }
}
