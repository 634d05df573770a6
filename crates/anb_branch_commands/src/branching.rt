//! A role of a branched text over a wire.
ghost use Rattle.std.specs.Prelude.{◌≡◌, ◌⊎◌, [], ◌∷◌, IfOk, IfErr, Some, true};
ghost use Rattle.anb_base.specs.declared.place.Place.{Place};
ghost use Rattle.anb_base.specs.Moves.{Rose};
ghost use Rattle.anb_session.specs.Sessions.{IsPrompt};
ghost use Rattle.anb_choice.specs.Views.{branched_of};
ghost use Rattle.anb_branch.specs.Taken.{PlaysTaken, run_taken};
ghost use Rattle.anb_command.specs.Causes.{HasCause, HasWireCause, NoneRose};
ghost use Rattle.anb_words.specs.Commands.{place_by};
ghost use Rattle.anb_command.specs.Fetches.{Fetches, IfTold, IsOneOf};
ghost use Rattle.anb_command.specs.OverWire.{OverWire, StaysReached};
ghost use Rattle.anb_command.specs.Prepared.{RunsOn};
ghost use Rattle.anb_command.specs.Reaches.{Reaches};
ghost use Rattle.anb_command.specs.Reported.{TellsFaults, TellsFileFaults, TellsWireFaults};
ghost use Rattle.anb_status.specs.Statuses.{IsEarly, after_reach, before_reach, phase_of};
ghost use Rattle.anb_command.specs.Steps.{IsFailure, refused, given};
ghost use Rattle.anb_command.specs.Touches.{Touches};
ghost use Rattle.anb_status.specs.declared.status.Status.TheVariants as status;
ghost use Rattle.anb_branch_commands.specs.Arming.{IsArmed};
ghost use Rattle.anb_branch_commands.specs.BranchCommand.{CompletesBranch, DoesBranch};
ghost use Rattle.anb_branch_commands.specs.BranchJobs.{BranchJobIs, IsReadToBranch};

use crate::seating::{branch_in_file, codes_for};
use crate::valuing::{Means, means_in_file};
use anb_base::{ARRIVAL, Failed, NoMemory, Shelf, Wire};
use anb_branch::{branch_play, fitting_arms_play};
use anb_choice::{Branched, branch_refusals_are_unique, choices_are_unique, no_choice_is_refused};
use anb_code::RoleCode;
use anb_command::{BranchWords, Status, reach, status_of};
use anb_frame::one_cut;
use anb_values::one_fit;
use std::alloc::Global;

/// What a role of a branched text is played with, from the files of its words.
#[derive(Drop)]
pub struct Prepared {
    pub branched: Branched,
    pub codes: Vec<RoleCode>,
    pub means: Means,
}

/// Plays the role over the wire, in the arm that is taken.
pub fn branch<F: Shelf, W: Wire>(
    alloc: Global,
    shelf: &mut F,
    wire: &mut W,
    words: BranchWords,
    host_seed: Option<[u8; 32]>,
) -> Status
    ensures does { DoesBranch words.entry.play.narration.now words.entry.play.name.now
        words.entry.play.values.now words.entry.told (F.files shelf.old) host_seed
        (W.state wire.old) (W.state wire.new) result }
    ensures completes { NoneRose (words.entry.play.narration.now ∷ words.entry.play.values.now ∷ [])
        (F.faults shelf.old) (F.faults shelf.new) (W.state wire.old) (W.state wire.new)
        → CompletesBranch words.entry.play.narration.now words.entry.play.name.now
        words.entry.play.values.now words.entry.told (F.files shelf.old) host_seed
        (W.state wire.old) (W.state wire.new) result }
    ensures faults { HasCause (words.entry.play.narration.now ∷ words.entry.play.values.now ∷ [])
        (Some (place_by words.entry.play.endpoint)) (F.faults shelf.old) (F.faults shelf.new)
        (W.state wire.old) (W.state wire.new) result }
    ensures reported { TellsFaults (F.faults shelf.old) (F.faults shelf.new)
        (W.state wire.old) (W.state wire.new) result }
    ensures fetches { Fetches (words.entry.play.narration.now ∷ words.entry.play.values.now ∷ [])
        (F.files shelf.old) (F.files shelf.new) (F.faults shelf.old) (F.faults shelf.new) }
    ensures reached { Reaches (Some (place_by words.entry.play.endpoint)) (phase_of result)
        (W.state wire.old).reached (W.state wire.new).reached }
    ensures touches { Touches true (phase_of result) (W.state wire.old) (W.state wire.new) }
{
    choices_are_unique();
    branch_refusals_are_unique();
    no_choice_is_refused();
    one_fit();
    one_cut(ARRIVAL);
    match prepare(alloc, shelf, words, host_seed) {
        Ok(prepared) => branch_over(alloc, wire, words, &prepared),
        Err(status) => status,
    }
}

/// Plays the role over the wire, which it reaches at the place of the words.
pub fn branch_over<W: Wire>(
    alloc: Global,
    wire: &mut W,
    words: BranchWords,
    prepared: &Prepared,
) -> Status
    requires { IsArmed (branched_of prepared.now.branched) words.play.name.now
        words.told prepared.now.codes.items prepared.now.means.initial }
    ensures plays { PlaysTaken (branched_of prepared.now.branched) words.entry.play.name.now
        words.entry.told prepared.now.means.initial prepared.now.means.seed
        (run_taken (branched_of prepared.now.branched) words.entry.play.name.now words.entry.told
        prepared.now.means.initial prepared.now.means.seed prepared.now.codes.items) }
    ensures runs { RunsOn
        (run_taken (branched_of prepared.now.branched) words.entry.play.name.now words.entry.told
        prepared.now.means.initial prepared.now.means.seed prepared.now.codes.items)
        (W.state wire.old) (W.state wire.new) result }
    ensures prompt { IsPrompt
        (run_taken (branched_of prepared.now.branched) words.entry.play.name.now words.entry.told
        prepared.now.means.initial prepared.now.means.seed prepared.now.codes.items)
        (W.state wire.old) (W.state wire.new) }
    ensures late { phase_of result ≡ before_reach → ⊥ }
    ensures wire { OverWire (place_by words.entry.play.endpoint) true result
        (W.state wire.old) (W.state wire.new) }
{
    let Prepared {
        branched,
        codes,
        means,
    } = prepared;
    let initial = means.initial.as_slice();
    fitting_arms_play(
        branched,
        codes,
        words.play.name,
        words.told,
        initial,
        &means.seed,
    );
    let place = match words.play.endpoint.place(alloc) {
        Ok(place) => place,
        Err(NoMemory) => return Status::NoMemory,
    };
    match reach(wire, &place, words.play.endpoint.timeout()) {
        Ok(()) => branch_now(alloc, wire, words, prepared),
        Err(Failed) => Status::Unreached(place),
    }
}

/// Plays the role over a wire that was reached.
fn branch_now<W: Wire>(
    alloc: Global,
    wire: &mut W,
    words: BranchWords,
    prepared: &Prepared,
) -> Status
    requires { IsArmed (branched_of prepared.now.branched) words.play.name.now
        words.told prepared.now.codes.items prepared.now.means.initial }
    ensures runs { RunsOn
        (run_taken (branched_of prepared.now.branched) words.entry.play.name.now words.entry.told
        prepared.now.means.initial prepared.now.means.seed prepared.now.codes.items)
        (W.state wire.old) (W.state wire.new) result }
    ensures prompt { IsPrompt
        (run_taken (branched_of prepared.now.branched) words.entry.play.name.now words.entry.told
        prepared.now.means.initial prepared.now.means.seed prepared.now.codes.items)
        (W.state wire.old) (W.state wire.new) }
    ensures after { (phase_of result ≡ after_reach) ⊎ (result ≡ status.NoMemory) }
    ensures cause { (place : Place)
        → HasWireCause (Some place) (W.state wire.old) (W.state wire.new) result }
    ensures told { TellsWireFaults (W.state wire.old) (W.state wire.new) result }
    ensures reached { StaysReached (W.state wire.old) (W.state wire.new) }
{
    let Prepared {
        branched,
        codes,
        means,
    } = prepared;
    let initial = means.initial.as_slice();
    status_of(branch_play(
        alloc,
        branched,
        codes,
        words.play.name,
        words.told,
        initial,
        &means.seed,
        wire,
    ))
}

/// Reads the files of the words.
pub fn prepare<F: Shelf>(
    alloc: Global,
    shelf: &mut F,
    words: BranchWords,
    host_seed: Option<[u8; 32]>,
) -> Result<Prepared, Status>
    ensures given { IfOk result (λ p. IfTold (F.files shelf.old) (λ files.
        BranchJobIs files words.entry.play.narration.now words.entry.play.name.now
        words.entry.play.values.now words.entry.told host_seed
        (given (record {
          branched = branched_of p.branched;
          role = words.entry.play.name.now;
          told = words.entry.told;
          initial = p.means.initial;
          seed = p.means.seed;
        })))) }
    ensures armed { IfOk result (λ p. IsArmed (branched_of p.branched) words.entry.play.name.now
        words.entry.told p.codes.items p.means.initial) }
    ensures refused { IfErr result (λ status. IsFailure status
        (λ file. IsOneOf (words.entry.play.narration.now ∷ words.entry.play.values.now ∷ []) file
        × Rose (F.faults shelf.old file) (F.faults shelf.new file)
        × IfTold (F.files shelf.old) (λ files.
        IsReadToBranch files words.entry.play.narration.now words.entry.play.name.now
        words.entry.play.values.now words.entry.told file))
        (IfTold (F.files shelf.old) (λ files.
        BranchJobIs files words.entry.play.narration.now words.entry.play.name.now
        words.entry.play.values.now words.entry.told host_seed (refused status)))) }
    ensures early { IfErr result IsEarly }
    ensures fetches { Fetches (words.entry.play.narration.now ∷ words.entry.play.values.now ∷ [])
        (F.files shelf.old) (F.files shelf.new) (F.faults shelf.old) (F.faults shelf.new) }
    ensures told { TellsFileFaults result (F.faults shelf.old) (F.faults shelf.new) }
{
    let branched = match branch_in_file(alloc, shelf, words.play.narration) {
        Ok(branched) => branched,
        Err(status) => return Err(status),
    };
    let codes = match codes_for(alloc, &branched, words.play.name, words.told) {
        Ok(codes) => codes,
        Err(status) => return Err(status),
    };
    match means_in_file(alloc, shelf, words, &branched, &codes, host_seed) {
        Ok(means) => Ok(Prepared {
            branched,
            codes,
            means,
        }),
        Err(status) => Err(status),
    }
}
