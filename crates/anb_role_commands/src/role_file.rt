//! The run of a role file's code over a wire.
ghost use Rattle.std.specs.Prelude.{◌≡◌, [], ◌∷◌, length, IfOk, IfErr, Some, true, ◌≤◌, All};
ghost use Rattle.anb_base.specs.declared.TheConstants.{ARRIVAL};
ghost use Rattle.anb_base.specs.Moves.{Rose};
ghost use Rattle.anb_code.specs.Taking.{take_texts};
ghost use Rattle.anb_command.specs.Causes.{HasCause, NoneRose};
ghost use Rattle.anb_words.specs.Commands.{place_by};
ghost use Rattle.anb_command.specs.Fetches.{Fetches, IfTold, IsOneOf};
ghost use Rattle.anb_command.specs.Reaches.{Reaches};
ghost use Rattle.anb_command.specs.Reported.{TellsFaults, TellsFileFaults};
ghost use Rattle.anb_status.specs.Statuses.{IsEarly, phase_of};
ghost use Rattle.anb_command.specs.Steps.{IsFailure, refused, given};
ghost use Rattle.anb_command.specs.Touches.{Touches};
ghost use Rattle.anb_role_commands.specs.EnactCommand.{CompletesEnact, DoesEnact, ErrandIs, IsReadFor};

use anb_base::{Shelf, Wire};
use anb_command::{EnactWords, Prepared, Status, code_in_file, prepare_code, run_over};
use anb_text::{codes_are_unique, faults_are_unique, files_are_unique, none_is_both};
use anb_values::one_fit;
use std::alloc::Global;

/// Runs the code over the wire.
pub fn enact<F: Shelf, W: Wire>(
    alloc: Global,
    shelf: &mut F,
    wire: &mut W,
    words: EnactWords,
    host_seed: Option<[u8; 32]>,
) -> Status
    ensures does { DoesEnact words.entry.code.now words.entry.values.now
        (F.files shelf.old) host_seed (W.state wire.old) (W.state wire.new) result }
    ensures completes { NoneRose (words.entry.code.now ∷ words.entry.values.now ∷ [])
        (F.faults shelf.old) (F.faults shelf.new) (W.state wire.old) (W.state wire.new)
        → CompletesEnact words.entry.code.now words.entry.values.now
        (F.files shelf.old) host_seed (W.state wire.old) (W.state wire.new) result }
    ensures faults { HasCause (words.entry.code.now ∷ words.entry.values.now ∷ [])
        (Some (place_by words.entry.endpoint)) (F.faults shelf.old) (F.faults shelf.new)
        (W.state wire.old) (W.state wire.new) result }
    ensures reported { TellsFaults (F.faults shelf.old) (F.faults shelf.new)
        (W.state wire.old) (W.state wire.new) result }
    ensures fetches { Fetches (words.entry.code.now ∷ words.entry.values.now ∷ [])
        (F.files shelf.old) (F.files shelf.new) (F.faults shelf.old) (F.faults shelf.new) }
    ensures reached { Reaches (Some (place_by words.entry.endpoint)) (phase_of result)
        (W.state wire.old).reached (W.state wire.new).reached }
    ensures touches { Touches true (phase_of result) (W.state wire.old) (W.state wire.new) }
{
    files_are_unique();
    codes_are_unique();
    none_is_both();
    faults_are_unique();
    one_fit();
    match load_prepared(alloc, shelf, words, host_seed) {
        Ok(prepared) => run_over(alloc, wire, words.endpoint, &prepared),
        Err(status) => status,
    }
}

/// Reads the files of a run.
pub fn load_prepared<F: Shelf>(
    alloc: Global,
    shelf: &mut F,
    words: EnactWords,
    host_seed: Option<[u8; 32]>,
) -> Result<Prepared, Status>
    ensures given { IfOk result (λ p. IfTold (F.files shelf.old) (λ files.
        ErrandIs files words.entry.code.now words.entry.values.now host_seed
        (given (record { code = p.code; initial = p.initial; seed = p.seed })))) }
    ensures takes { IfOk result (λ p. length p.initial ≡ length (take_texts p.code.instrs)) }
    ensures short { IfOk result (λ p. All (λ value. length value ≤ ARRIVAL) p.initial) }
    ensures refused { IfErr result (λ status. IsFailure status
        (λ name. IsOneOf (words.entry.code.now ∷ words.entry.values.now ∷ []) name
        × Rose (F.faults shelf.old name) (F.faults shelf.new name)
        × IfTold (F.files shelf.old) (λ files.
        IsReadFor files words.entry.code.now words.entry.values.now name))
        (IfTold (F.files shelf.old) (λ files.
        ErrandIs files words.entry.code.now words.entry.values.now host_seed (refused status)))) }
    ensures early { IfErr result IsEarly }
    ensures fetches { Fetches (words.entry.code.now ∷ words.entry.values.now ∷ [])
        (F.files shelf.old) (F.files shelf.new) (F.faults shelf.old) (F.faults shelf.new) }
    ensures told { TellsFileFaults result (F.faults shelf.old) (F.faults shelf.new) }
{
    match code_in_file(alloc, shelf, words.code) {
        Ok(code) => prepare_code(alloc, shelf, words.values, code, host_seed),
        Err(status) => Err(status),
    }
}
