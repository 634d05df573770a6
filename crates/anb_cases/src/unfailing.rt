//! Runs over a wire that never fails.

ghost use Rattle.std.specs.Prelude.{◌≡◌};
ghost use Rattle.anb_status.specs.Statuses.{OnUnreached};
ghost use Rattle.anb_status.specs.declared.status.Status.TheVariants as status;

use anb_base::{NeverFails, Shelf, Sink, Text};
use anb_run::{Status, run};
use std::alloc::Global;

/// Over a wire that never fails no fault of a wire is answered.
pub(crate) fn run_unfailing<F: Shelf, E: Sink>(
    alloc: Global,
    words: &[Text],
    shelf: &mut F,
    wire: &mut NeverFails,
    err: &mut E,
    seed: Option<[u8; 32]>,
) -> Status
    ensures reads { result ≡ status.ReadFault → ⊥ }
    ensures writes { result ≡ status.WriteFault → ⊥ }
    ensures reaches { OnUnreached result (λ place. ⊥) }
{
    run(alloc, words, shelf, wire, err, seed)
}
