//! The traits of a wire, which is a source and a sink of bytes, and the calls that read and write
//! to the end.

ghost use Rattle.std.specs.Prelude.{◌≡◌, ◌<◌, ◌≤◌, ℕ, List, [], ◌∷◌, length, take, Option, IfOk, OnOk, OnErr};
ghost use Rattle.anb_base.specs.Moves.{Rose, Took, Put, AtEnd, TookLess, PutPrefix, Stamped, count_written};
ghost use Rattle.anb_base.specs.Places.{line_of};
ghost use Rattle.anb_base.specs.Wires.{WireState};

use crate::{Failed, Place};

/// Where bytes come from.
pub trait Source {
    /// The bytes that are left, where they are told.
    ghost left: { Self → Option (List ℕ) };

    /// For each byte that was taken, in order, how many bytes had been written by then, where
    /// this is told. Where it is told, the bytes that are left are too.
    ghost taken_at: { Self → Option (List ℕ) };

    /// How often reading has failed, up to the last value of a `u64`.
    ghost faults: { Self → ℕ };

    /// What else the object holds beside its side as a source.
    ghost kept: { Self → List (Option (List ℕ) × ℕ) };

    /// Takes the next bytes, at most as many as the buffer has room for. `Ok(0)` on a buffer that
    /// isn't empty is the end of input.
    fn read(&mut self, buf: &mut [u8]) -> Result<usize, Failed>
        ensures within { IfOk result (λ n. n ≤ length buf.new) }
        ensures took { IfOk result (λ n. Took (left self.old) (left self.new) (take n buf.new)) }
        ensures stamped { IfOk result (λ n.
            Stamped (taken_at self.old) (taken_at self.new) (count_written (kept self.old)) n) }
        ensures end { IfOk result (λ n. 0 < length buf.new → n ≡ 0 → AtEnd (left self.old)) }
        ensures failed { OnErr result (left self.new ≡ left self.old) }
        ensures unstamped { OnErr result (taken_at self.new ≡ taken_at self.old) }
        ensures cause { OnErr result (Rose (faults self.old) (faults self.new)) }
        ensures quiet { OnOk result (faults self.new ≡ faults self.old) }
        ensures never_falls { faults self.old ≤ faults self.new }
        ensures kept { kept self.new ≡ kept self.old };
}

/// Where bytes go.
pub trait Sink {
    /// The bytes that are written, where they are told.
    ghost written: { Self → Option (List ℕ) };

    /// How often writing has failed, up to the last value of a `u64`.
    ghost faults: { Self → ℕ };

    /// What else the object holds beside its side as a sink.
    ghost kept: { Self → List (Option (List ℕ) × ℕ) };

    /// Appends the first bytes of the piece, one at least where it isn't empty. A sink that can
    /// take nothing fails.
    fn write(&mut self, piece: &[u8]) -> Result<usize, Failed>
        ensures within { IfOk result (λ n. n ≤ length piece.now) }
        ensures some { IfOk result (λ n. 0 < length piece.now → 0 < n) }
        ensures put { IfOk result (λ n.
            Put (written self.old) (written self.new) (take n piece.now)) }
        ensures failed { OnErr result (written self.new ≡ written self.old) }
        ensures cause { OnErr result (Rose (faults self.old) (faults self.new)) }
        ensures quiet { OnOk result (faults self.new ≡ faults self.old) }
        ensures never_falls { faults self.old ≤ faults self.new }
        ensures kept { kept self.new ≡ kept self.old };
}

/// A source and a sink that are reached at a place.
pub trait Wire: Source + Sink {
    /// The lines of the places that were reached, where they are told.
    ghost reached: { Self → Option (List ℕ) };

    /// How often a place wasn't reached, up to the last value of a `u64`.
    ghost reach_faults: { Self → ℕ };

    /// All that the wire tells.
    ghost state: { Self → WireState };

    /// Reaches the place, from where bytes then come and to where they go.
    fn reach(&mut self, place: &Place) -> Result<(), Failed>
        ensures reached { OnOk result
            (Put (reached self.old) (reached self.new) (line_of place.now)) }
        ensures failed { OnErr result (reached self.new ≡ reached self.old) }
        ensures cause { OnErr result (Rose (reach_faults self.old) (reach_faults self.new)) }
        ensures quiet { OnOk result (reach_faults self.new ≡ reach_faults self.old) }
        ensures never_falls { reach_faults self.old ≤ reach_faults self.new }

        // All else stays as it is.
        ensures left { Self.left self.new ≡ Self.left self.old }
        ensures taken_at { Self.taken_at self.new ≡ Self.taken_at self.old }
        ensures read_faults { Self.Source.faults self.new ≡ Self.Source.faults self.old }
        ensures written { Self.written self.new ≡ Self.written self.old }
        ensures write_faults { Self.Sink.faults self.new ≡ Self.Sink.faults self.old };

    /// From now on reaching a place, or a single wait for the peer, that takes more than so many
    /// seconds is a fault.
    fn wait_at_most(&mut self, seconds: u32)
        ensures same { state self.new ≡ state self.old };

    /// What a wire tells is what its sides and its places tell.
    ghost state_tells: { (w : Self) → state w ≡ record {
      left = Self.left w;
      taken_at = Self.taken_at w;
      read_faults = Self.Source.faults w;
      written = Self.written w;
      write_faults = Self.Sink.faults w;
      reached = reached w;
      reach_faults = reach_faults w;
    } };

    /// Beside the source stand the sink and the places.
    ghost beside_source: { (w : Self) → Self.Source.kept w
        ≡ (Self.written w, Self.Sink.faults w) ∷ (reached w, reach_faults w) ∷ [] };

    /// Beside the sink stand the source, the places, and when each byte was taken.
    ghost beside_sink: { (w : Self) → Self.Sink.kept w
        ≡ (Self.left w, Self.Source.faults w) ∷ (reached w, reach_faults w)
        ∷ (Self.taken_at w, 0) ∷ [] };
}

/// Reads until the buffer is full or the input ends. Fewer bytes than the buffer holds mean the
/// end.
pub fn read_full<S: Source>(src: &mut S, buf: &mut [u8]) -> Result<usize, Failed>
    ensures within { IfOk result (λ n. n ≤ length buf.new) }
    ensures took { IfOk result (λ n. Took (S.left src.old) (S.left src.new) (take n buf.new)) }
    ensures stamped { IfOk result (λ n.
        Stamped (S.taken_at src.old) (S.taken_at src.new) (count_written (S.kept src.old)) n) }
    ensures end { IfOk result (λ n. n < length buf.new → AtEnd (S.left src.new)) }
    ensures failed { OnErr result
        (TookLess (S.left src.old) (S.left src.new) (S.taken_at src.old) (S.taken_at src.new)
        (count_written (S.kept src.old)) (length buf.old)) }
    ensures cause { OnErr result (Rose (S.faults src.old) (S.faults src.new)) }
    ensures quiet { OnOk result (S.faults src.new ≡ S.faults src.old) }
    ensures never_falls { S.faults src.old ≤ S.faults src.new }
    ensures kept { S.kept src.new ≡ S.kept src.old }
{
    let mut have = 0;
    while have < buf.len() {
        let n = src.read(&mut buf[have..])?;
        if n == 0 {
            break;
        }
        have += n;
    }
    Ok(have)
}

/// Writes all the bytes.
pub fn write_whole<K: Sink>(snk: &mut K, bytes: &[u8]) -> Result<(), Failed>
    ensures put { OnOk result (Put (K.written snk.old) (K.written snk.new) bytes.now) }
    ensures failed { OnErr result
        (PutPrefix (K.written snk.old) (K.written snk.new) bytes.now) }
    ensures cause { OnErr result (Rose (K.faults snk.old) (K.faults snk.new)) }
    ensures quiet { OnOk result (K.faults snk.new ≡ K.faults snk.old) }
    ensures never_falls { K.faults snk.old ≤ K.faults snk.new }
    ensures kept { K.kept snk.new ≡ K.kept snk.old }
{
    let mut done = 0;
    while done < bytes.len() {
        done += snk.write(&bytes[done..])?;
    }
    Ok(())
}
