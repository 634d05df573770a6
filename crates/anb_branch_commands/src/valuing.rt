//! The values and the seed that a role of a branched text is played with.
ghost use Rattle.std.specs.Prelude.{◌≡◌, ◌≢◌, ◌≤◌, ℕ, List, [], ◌∷◌, length, true, All, AllPairs, IfOk, IfErr};
ghost use Rattle.std.specs.List.{list_any};
ghost use Rattle.anb_index.specs.Places.{among};
ghost use Rattle.anb_base.specs.declared.TheConstants.{ARRIVAL};
ghost use Rattle.anb_base.specs.Moves.{Rose};
ghost use Rattle.anb_choice.specs.Lawful.{IsLawful, roles_in};
ghost use Rattle.anb_choice.specs.Views.{branched_of};
ghost use Rattle.anb_command.specs.Errands.{draws};
ghost use Rattle.anb_command.specs.Fetches.{Fetches, IfTold};
ghost use Rattle.anb_command.specs.Reported.{TellsFileFaults};
ghost use Rattle.anb_status.specs.Statuses.{IsEarly};
ghost use Rattle.anb_command.specs.Steps.{IsFailure, refused, given};
ghost use Rattle.anb_branch_commands.specs.Arming.{IsArmed, IsSeated};
ghost use Rattle.anb_branch_commands.specs.BranchJobs.{BranchJobOf, known_in};

use anb_base::{NoMemory, Shelf, Text};
use anb_branch::arms_know_alike;
use anb_choice::Branched;
use anb_code::RoleCode;
use anb_command::{BranchWords, Status, seed_of, values_in_file};
use anb_protocol::known_texts_differ;
use anb_values::ValueList;
use std::alloc::Global;

/// The initial values of a role, which serve in all arms, and the seed of its draws.
#[derive(Drop)]
pub struct Means {
    pub initial: ValueList,
    pub seed: [u8; 32],
}

/// What the role of the words is played with, from the values in their file.
pub(crate) fn means_in_file<F: Shelf>(
    alloc: Global,
    shelf: &mut F,
    words: BranchWords,
    b: &Branched,
    codes: &[RoleCode],
    host_seed: Option<[u8; 32]>,
) -> Result<Means, Status>
    requires { IsSeated (branched_of b.now) words.play.name.now words.told codes.now }
    ensures given { IfOk result (λ means. IfTold (F.files shelf.old) (λ files.
        BranchJobOf files words.entry.play.name.now words.entry.play.values.now words.entry.told
        host_seed (branched_of b.now)
        (given (record {
          branched = branched_of b.now;
          role = words.entry.play.name.now;
          told = words.entry.told;
          initial = means.initial;
          seed = means.seed;
        })))) }
    ensures armed { IfOk result (λ means. IsArmed (branched_of b.now)
        words.entry.play.name.now words.entry.told codes.now means.initial) }
    ensures refused { IfErr result (λ status. IsFailure status
        (λ file. (file ≡ words.entry.play.values.now)
        × Rose (F.faults shelf.old file) (F.faults shelf.new file))
        (IfTold (F.files shelf.old) (λ files.
        BranchJobOf files words.entry.play.name.now words.entry.play.values.now words.entry.told
        host_seed (branched_of b.now) (refused status)))) }
    ensures early { IfErr result IsEarly }
    ensures fetches { Fetches (words.entry.play.values.now ∷ [])
        (F.files shelf.old) (F.files shelf.new) (F.faults shelf.old) (F.faults shelf.new) }
    ensures told { TellsFileFaults result (F.faults shelf.old) (F.faults shelf.new) }
{
    arms_know_alike();
    let names = match texts_known(alloc, b, words.play.name) {
        Ok(names) => names,
        Err(NoMemory) => return Err(Status::NoMemory),
    };
    let fitted = match values_in_file(alloc, shelf, words.play.values, &names) {
        Ok(fitted) => fitted,
        Err(status) => return Err(status),
    };
    match seed_of(draws_somewhere(codes), fitted.seed, host_seed) {
        Ok(seed) => Ok(Means {
            initial: fitted.values,
            seed,
        }),
        Err(status) => Err(status),
    }
}

/// The texts of what the role knows. Those of arm 1 are those of each arm.
pub fn texts_known(alloc: Global, b: &Branched, role: &Text) -> Result<Vec<Text>, NoMemory>
    requires { among (roles_in (branched_of b.now)) role.now ≡ true }
    ensures texts { IfOk result (λ names. names.items ≡ known_in (branched_of b.now) role.now) }
    ensures differ { IfOk result (λ names.
        AllPairs (λ (one other : List ℕ). one ≢ other) names.items) }
{
    known_texts_differ();
    match b.arms.as_slice() {
        [one, ..] => {
            let _ = one.name();
            one.known(alloc, one.role_of(role.as_str().as_bytes()).unwrap_or(0))
        }
        [] => Ok(Vec::new(alloc)),
    }
}

/// Whether the role makes a name in some arm.
fn draws_somewhere(codes: &[RoleCode]) -> bool
    ensures { result ≡ list_any draws codes.now }
{
    codes.iter().any(|code| code.fresh() > 0)
}
