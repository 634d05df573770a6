//! What a code needs before the wire is touched.
ghost use Rattle.std.specs.Prelude.{◌≡◌, ◌≢◌, ℕ, List, [], ◌∷◌, length, AllPairs, IfOk, IfErr, ◌≤◌, All};
ghost use Rattle.anb_base.specs.declared.TheConstants.{ARRIVAL};
ghost use Rattle.std.specs.List.{AllByRecursion, sum_by};
ghost use Rattle.anb_base.specs.Bytes.{IsBytes};
ghost use Rattle.anb_base.specs.Moves.{Rose};
ghost use Rattle.anb_code.specs.Taking.{take_texts};
ghost use Rattle.anb_command.specs.declared.limits.TheConstants.{VALUES_LIMIT};
ghost use Rattle.anb_command.specs.Errands.{ErrandOf};
ghost use Rattle.anb_command.specs.Fetches.{Fetches, IfTold};
ghost use Rattle.anb_command.specs.Reported.{TellsFileFaults};
ghost use Rattle.anb_command.specs.Seeds.{SeedIs};
ghost use Rattle.anb_status.specs.Statuses.{IsEarly};
ghost use Rattle.anb_command.specs.Steps.{IsFailure, refused, given};

use crate::files::values_in_file;
use anb_base::{NoMemory, Shelf, Text};
use anb_code::RoleCode;
use anb_status::Status;
use anb_values::ValueList;
use std::alloc::Global;

/// All that a run takes from its files: the code, its initial values, and the seed of its draws.
#[derive(Drop)]
pub struct Prepared {
    pub code: RoleCode,
    pub initial: ValueList,
    pub seed: [u8; 32],
}

/// What the code runs with from the values in the file.
pub fn prepare_code<F: Shelf>(
    alloc: Global,
    shelf: &mut F,
    values: &Text,
    code: RoleCode,
    host_seed: Option<[u8; 32]>,
) -> Result<Prepared, Status>
    ensures given { IfOk result (λ p. IfTold (F.files shelf.old) (λ files.
        ErrandOf files values.now host_seed code
        (given (record { code = p.code; initial = p.initial; seed = p.seed })))) }
    ensures same { IfOk result (λ p. p.code ≡ code) }
    ensures takes { IfOk result (λ p. length p.initial ≡ length (take_texts p.code.instrs)) }
    ensures bytes { IfOk result (λ p. AllByRecursion IsBytes p.initial) }
    ensures short { IfOk result (λ p. All (λ value. length value ≤ ARRIVAL) p.initial) }
    ensures total { IfOk result (λ p. sum_by length p.initial ≤ VALUES_LIMIT) }
    ensures refused { IfErr result (λ status. IsFailure status
        (λ file. (file ≡ values.now) × Rose (F.faults shelf.old file) (F.faults shelf.new file))
        (IfTold (F.files shelf.old) (λ files.
        ErrandOf files values.now host_seed code (refused status)))) }
    ensures early { IfErr result IsEarly }
    ensures fetches { Fetches (values.now ∷ [])
        (F.files shelf.old) (F.files shelf.new) (F.faults shelf.old) (F.faults shelf.new) }
    ensures told { TellsFileFaults result (F.faults shelf.old) (F.faults shelf.new) }
{
    let names = match texts_of_takes(alloc, &code) {
        Ok(names) => names,
        Err(NoMemory) => return Err(Status::NoMemory),
    };
    let fitted = match values_in_file(alloc, shelf, values, &names) {
        Ok(fitted) => fitted,
        Err(status) => return Err(status),
    };
    let seed = match seed_of(code.fresh() > 0, fitted.seed, host_seed) {
        Ok(seed) => seed,
        Err(status) => return Err(status),
    };
    Ok(Prepared {
        code,
        initial: fitted.values,
        seed,
    })
}

/// The texts of the code's takes.
pub fn texts_of_takes(alloc: Global, code: &RoleCode) -> Result<Vec<Text>, NoMemory>
    ensures texts { IfOk result (λ names. names.items ≡ take_texts code.now.instrs) }
    ensures differ { IfOk result (λ names.
        AllPairs (λ (one other : List ℕ). one ≢ other) names.items) }
{
    let _ = code.instrs();
    copy_takes(alloc, code)
}

/// Copies of the texts of the code's takes.
fn copy_takes(alloc: Global, code: &RoleCode) -> Result<Vec<Text>, NoMemory>
    ensures { IfOk result (λ names. names.items ≡ take_texts code.now.instrs) }
{
    let mut names = Vec::new(alloc);
    for i in 0..code.takes() {
        names.push(code.take_text(i).copy(alloc)?)?;
    }
    Ok(names)
}

/// The seed of the draws, where a name is made or where it isn't.
pub fn seed_of(
    makes: bool,
    file_seed: Option<[u8; 32]>,
    host_seed: Option<[u8; 32]>,
) -> Result<[u8; 32], Status>
    ensures given { IfOk result (λ seed. SeedIs makes file_seed host_seed (given seed)) }
    ensures refused { IfErr result (λ status. IsFailure status (λ file. ⊥)
        (SeedIs makes file_seed host_seed (refused status))) }
    ensures early { IfErr result IsEarly }
{
    if let Some(seed) = file_seed {
        return Ok(seed);
    }
    if let Some(seed) = host_seed {
        return Ok(seed);
    }
    if makes {
        Err(Status::NoSeed)
    } else {
        Ok([0; 32])
    }
}
