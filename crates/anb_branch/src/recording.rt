//! A branched text played over a wire, and recorded.
ghost use Rattle.std.specs.Prelude.{◌≡◌, ◌≢◌, ◌≤◌, ◌<◌, ℕ, List, [], ◌∷◌, IfOk, IfErr, OnOk, length, All, true, None};
ghost use Rattle.std.specs.List.{AllByRecursion};
ghost use Rattle.anb_index.specs.Places.{among};
ghost use Rattle.anb_base.specs.Bytes.{IsBytes};
ghost use Rattle.anb_base.specs.declared.TheConstants.{ARRIVAL};
ghost use Rattle.anb_frame.specs.Cuts.{Tail, CutLeft};
ghost use Rattle.anb_plays.specs.Runs.{without_place};
ghost use Rattle.anb_code.specs.Taking.{take_texts};
ghost use Rattle.anb_machine.specs.ByteRuns.{run_bytes};
ghost use Rattle.anb_machine.specs.Machines.{gives, waits};
ghost use Rattle.anb_compile.specs.Laws.{FittingCodesPlay};
ghost use Rattle.anb_session.specs.Faults.{IsQuiet, TellsEnd};
ghost use Rattle.anb_session.specs.Sessions.{Runs, IsPrompt};
ghost use Rattle.anb_session.specs.Standing.{IsNext};
ghost use Rattle.anb_session.specs.Turns.{Closes};
ghost use Rattle.anb_session.specs.declared.PlayEnd.TheVariants as ended;
ghost use Rattle.anb_choice.specs.Lawful.{IsLawful, roles_in};
ghost use Rattle.anb_choice.specs.Views.{branched_of};
ghost use Rattle.anb_branch.specs.Arms.{FitArms};
ghost use Rattle.anb_branch.specs.Taken.{IsTold, PlaysTaken, TakeAll, run_taken};
ghost use Rattle.anb_branch.specs.Stems.{AreShort, CameBy, CameWithin, Chooses, EndsBefore, HeardUpTo, WaitsAt};
ghost use Rattle.anb_branch.specs.Choices.{Decides, goes_behind};
ghost use Rattle.anb_branch.specs.Recorded.{CodesPlay, GoesOnAgain, Lines, RecordsTaken, RecordsTo};

use crate::playing::{all_play, are_bytes_all};
use crate::signs::{Sign, is_free_somewhere, place_begun, signs_of};
use crate::stem::{Choice, no_halt, play_on, play_to_choice, run_again};
use anb_base::{Bytes, NoMemory, Text, Wire};
use anb_choice::Branched;
use anb_code::RoleCode;
use anb_machine::Machine;
use anb_recording::{Journal, Kept, Recorded, Recording, record_play};
use anb_session::PlayEnd;
use std::alloc::Global;

/// Plays a role as [`branch_play`](crate::branch_play) does, and appends the line of each message and
/// of each arrival to the file of the journal, just before it is sent or used. What is recorded is a
/// transcript of the arm that is taken.
pub fn branch_record<W: Wire, J: Journal>(
    alloc: Global,
    b: &Branched,
    codes: &[RoleCode],
    role: &Text,
    told: Option<u32>,
    init: &[Bytes],
    seed: &[u8; 32],
    wire: &mut W,
    journal: &mut J,
    file: &Text,
) -> Recorded
    requires lawful { IsLawful (branched_of b.now) }
    requires is_role { among (roles_in (branched_of b.now)) role.now ≡ true }
    requires fit { FitArms (branched_of b.now).arms role.now codes.now }
    requires told { IsTold (branched_of b.now) role.now told }
    requires count { TakeAll codes.now init.now }
    requires short { All (λ value. length value ≤ ARRIVAL) init.now }
    ensures runs { (arrivals : List (List ℕ)) (tail : Tail)
        → CutLeft ARRIVAL (W.left wire.old) arrivals tail
        → Runs (run_taken (branched_of b.now) role.now told init.now seed.now codes.now)
        arrivals tail (W.left wire.old) (W.left wire.new)
        (W.written wire.old) (W.written wire.new) result.end }
    ensures prompt { IsPrompt
        (run_taken (branched_of b.now) role.now told init.now seed.now codes.now)
        (W.state wire.old) (W.state wire.new) }
    ensures plays { PlaysTaken (branched_of b.now) role.now told init.now seed.now
        (run_taken (branched_of b.now) role.now told init.now seed.now codes.now) }
    ensures arms { CodesPlay (branched_of b.now) role.now init.now seed.now codes.now }
    ensures faults { TellsEnd (W.state wire.old) (W.state wire.new) result.end }
    ensures recorded { result.end ≢ ended.NoMemory
        → RecordsTaken (branched_of b.now) role.now told init.now seed.now codes.now file.now
        (J.state journal.old) (J.state journal.new) result.kept (W.state wire.old).left
        result.end }
{
    are_bytes_all(init);
    all_play(&b.arms);
    match told {
        Some(number) => {
            let code = &codes[number as usize - 1];
            record_code(alloc, code, init, seed, wire, journal, file)
        }
        None => record_untold(alloc, b, codes, role, init, seed, wire, journal, file),
    }
}

/// Plays a role that isn't told an arm.
fn record_untold<W: Wire, J: Journal>(
    alloc: Global,
    b: &Branched,
    codes: &[RoleCode],
    role: &Text,
    init: &[Bytes],
    seed: &[u8; 32],
    wire: &mut W,
    journal: &mut J,
    file: &Text,
) -> Recorded
    requires lawful { IsLawful (branched_of b.now) }
    requires is_role { among (roles_in (branched_of b.now)) role.now ≡ true }
    requires fit { FitArms (branched_of b.now).arms role.now codes.now }
    requires told { IsTold (branched_of b.now) role.now None }
    requires count { TakeAll codes.now init.now }
    requires short { All (λ value. length value ≤ ARRIVAL) init.now }
    requires bytes { AllByRecursion IsBytes init.now }
    requires play { AllByRecursion FittingCodesPlay (branched_of b.now).arms }
    ensures closes { Closes
        (run_taken (branched_of b.now) role.now None init.now seed.now codes.now)
        (W.state wire.old) (W.state wire.new) result.end }
    ensures faults { TellsEnd (W.state wire.old) (W.state wire.new) result.end }
    ensures recorded { result.end ≢ ended.NoMemory
        → RecordsTaken (branched_of b.now) role.now None init.now seed.now codes.now file.now
        (J.state journal.old) (J.state journal.new) result.kept (W.state wire.old).left
        result.end }
{
    let Ok(signs) = signs_of(alloc, b, role) else {
        return nothing();
    };
    if is_free_somewhere(&signs) {
        record_seeing(alloc, b, codes, &signs, init, seed, wire, journal, file)
    } else {
        record_code(alloc, &codes[0], init, seed, wire, journal, file)
    }
}

/// Plays a role up to the arrival that tells the arm, and goes on in that arm.
fn record_seeing<W: Wire, J: Journal>(
    alloc: Global,
    b: &Branched,
    codes: &[RoleCode],
    signs: &[Sign],
    init: &[Bytes],
    seed: &[u8; 32],
    wire: &mut W,
    journal: &mut J,
    file: &Text,
) -> Recorded
    requires some { 0 < length (branched_of b.now).arms }
    requires few { length (branched_of b.now).arms ≤ 8 }
    requires signs { length signs.now ≡ length (branched_of b.now).arms }
    requires codes { length codes.now ≡ length (branched_of b.now).arms }
    requires count { TakeAll codes.now init.now }
    requires short { All (λ value. length value ≤ ARRIVAL) init.now }
    requires decides { (role : List ℕ)
        × Decides (branched_of b.now) role init.now seed.now codes.now signs.now }
    ensures closes { (role : List ℕ)
        → Decides (branched_of b.now) role init.now seed.now codes.now signs.now
        → Closes (run_taken (branched_of b.now) role None init.now seed.now codes.now)
        (W.state wire.old) (W.state wire.new) result.end }
    ensures faults { TellsEnd (W.state wire.old) (W.state wire.new) result.end }
    ensures recorded { (role : List ℕ)
        → Decides (branched_of b.now) role init.now seed.now codes.now signs.now
        → result.end ≢ ended.NoMemory
        → RecordsTaken (branched_of b.now) role None init.now seed.now codes.now file.now
        (J.state journal.old) (J.state journal.new) result.kept (W.state wire.old).left
        result.end }
{
    let Ok(mut machine) = Machine::start(alloc, &codes[0], init, seed, 0) else {
        return nothing();
    };
    let receives = signs[0].receives;
    let mut kept = Kept::Whole;
    match record_stem(
        alloc,
        &mut machine,
        receives,
        wire,
        journal,
        file,
        &mut kept,
    ) {
        Ok(choice) => {
            let place = place_begun(b, signs, choice.arrival.as_slice());
            if place == 0 {
                record_on(
                    alloc,
                    &mut machine,
                    choice.arrival,
                    wire,
                    journal,
                    file,
                    kept,
                )
            } else {
                drop(machine);
                let code = &codes[place];
                record_again(alloc, code, init, seed, choice, wire, journal, file, kept)
            }
        }
        Err(end) => Recorded { end, kept },
    }
}

/// Plays a code from its beginning.
fn record_code<W: Wire, J: Journal>(
    alloc: Global,
    code: &RoleCode,
    init: &[Bytes],
    seed: &[u8; 32],
    wire: &mut W,
    journal: &mut J,
    file: &Text,
) -> Recorded
    requires count { length init.now ≡ length (take_texts code.now.instrs) }
    requires short { All (λ value. length value ≤ ARRIVAL) init.now }
    ensures closes { Closes (λ more. without_place (run_bytes code.now init.now seed.now 0 more))
        (W.state wire.old) (W.state wire.new) result.end }
    ensures faults { TellsEnd (W.state wire.old) (W.state wire.new) result.end }
    ensures recorded { result.end ≢ ended.NoMemory
        → RecordsTo (run_bytes code.now init.now seed.now 0) file.now
        (J.state journal.old) (J.state journal.new) result.kept (W.state wire.old).left
        result.end }
{
    match Machine::start(alloc, code, init, seed, 0) {
        Ok(mut machine) => record_whole(alloc, &mut machine, wire, journal, file),
        Err(NoMemory) => nothing(),
    }
}

/// Plays a machine from its beginning, and tells no instruction.
fn record_whole<W: Wire, J: Journal>(
    alloc: Global,
    machine: &mut Machine<'_>,
    wire: &mut W,
    journal: &mut J,
    file: &Text,
) -> Recorded
    ensures closes { Closes (λ more. without_place (gives machine.old more))
        (W.state wire.old) (W.state wire.new) result.end }
    ensures faults { TellsEnd (W.state wire.old) (W.state wire.new) result.end }
    ensures recorded { result.end ≢ ended.NoMemory
        → RecordsTo (gives machine.old) file.now (J.state journal.old) (J.state journal.new)
        result.kept (W.state wire.old).left result.end }
{
    let Recorded { end, kept } = record_play(alloc, machine, wire, journal, file);
    Recorded {
        end: no_halt(end),
        kept,
    }
}

/// Plays a machine to the arrival behind so many.
fn record_stem<W: Wire, J: Journal>(
    alloc: Global,
    machine: &mut Machine<'_>,
    receives: usize,
    wire: &mut W,
    journal: &mut J,
    file: &Text,
    kept: &mut Kept,
) -> Result<Choice, PlayEnd>
    ensures chooses { IfOk result (λ choice.
        Chooses receives machine.old machine.new (W.state wire.old) (W.state wire.new)
        choice.past.items choice.arrival) }
    ensures heard { IfOk result (λ choice. HeardUpTo
        (Lines file.now (J.state journal.old) (J.state journal.new) kept.old kept.new)
        machine.old machine.new choice.past.items choice.arrival
        (W.state wire.old) (W.state wire.new)) }
    ensures ends { IfErr result (λ end.
        EndsBefore receives machine.old machine.new (W.state wire.old) (W.state wire.new) end) }
    ensures came { IfErr result (λ end. end ≢ ended.NoMemory
        → CameWithin receives
        (Lines file.now (J.state journal.old) (J.state journal.new) kept.old kept.new)
        machine.old machine.new machine.new (W.state wire.old) end) }
    ensures quiet { OnOk result (IsQuiet (W.state wire.old) (W.state wire.new)) }
    ensures faults { IfErr result (TellsEnd (W.state wire.old) (W.state wire.new)) }
{
    let mut recording = Recording {
        alloc,
        played: machine,
        journal,
        file,
        kept: *kept,
    };
    let to = play_to_choice(alloc, &mut recording, receives, wire);
    let Recording {
        alloc: _,
        played: _,
        journal: _,
        file: _,
        kept: now,
    } = recording;
    *kept = now;
    to
}

/// Plays a machine from wherever it stands, with this arrival first.
fn record_on<W: Wire, J: Journal>(
    alloc: Global,
    machine: &mut Machine<'_>,
    arrival: Bytes,
    wire: &mut W,
    journal: &mut J,
    file: &Text,
    kept: Kept,
) -> Recorded
    requires waits { waits machine.old ≡ true }
    requires next { IsNext machine.old }
    requires fits { length arrival ≤ ARRIVAL }
    ensures closes { Closes (λ more. without_place (gives machine.old (arrival ∷ more)))
        (W.state wire.old) (W.state wire.new) result.end }
    ensures came { result.end ≢ ended.NoMemory → CameBy
        (Lines file.now (J.state journal.old) (J.state journal.new) kept result.kept)
        machine.old machine.new machine.new (arrival ∷ []) (W.state wire.old) result.end }
    ensures faults { TellsEnd (W.state wire.old) (W.state wire.new) result.end }
{
    let mut recording = Recording {
        alloc,
        played: machine,
        journal,
        file,
        kept,
    };
    let end = play_on(alloc, &mut recording, arrival, wire);
    let Recording {
        alloc: _,
        played: _,
        journal: _,
        file: _,
        kept,
    } = recording;
    Recorded { end, kept }
}

/// Plays a code from a choice on, behind the arrivals before it.
fn record_again<W: Wire, J: Journal>(
    alloc: Global,
    code: &RoleCode,
    init: &[Bytes],
    seed: &[u8; 32],
    choice: Choice,
    wire: &mut W,
    journal: &mut J,
    file: &Text,
    kept: Kept,
) -> Recorded
    requires count { length init.now ≡ length (take_texts code.now.instrs) }
    requires short { All (λ value. length value ≤ ARRIVAL) init.now }
    requires waits { WaitsAt (run_bytes code.now init.now seed.now 0) choice.past.items }
    requires past { AreShort choice.past.items }
    requires fits { length choice.arrival ≤ ARRIVAL }
    ensures closes { Closes (goes_behind (run_bytes code.now init.now seed.now 0) choice.past.items
        choice.arrival) (W.state wire.old) (W.state wire.new) result.end }
    ensures again { result.end ≢ ended.NoMemory
        → GoesOnAgain file.now (J.state journal.old) (J.state journal.new) kept result.kept
        (run_bytes code.now init.now seed.now 0) choice.past.items choice.arrival
        (W.state wire.old) result.end }
    ensures faults { TellsEnd (W.state wire.old) (W.state wire.new) result.end }
{
    let Choice { past, arrival } = choice;
    let Ok(mut machine) = Machine::start(alloc, code, init, seed, 0) else {
        return nothing();
    };
    match run_again(alloc, &mut machine, past) {
        Ok(()) => record_on(alloc, &mut machine, arrival, wire, journal, file, kept),
        Err(NoMemory) => nothing(),
    }
}

/// Memory was wanting before anything was played.
fn nothing() -> Recorded
    ensures { result.end ≡ ended.NoMemory }
{
    Recorded {
        end: PlayEnd::NoMemory,
        kept: Kept::NoMemory,
    }
}
