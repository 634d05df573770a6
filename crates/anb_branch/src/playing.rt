//! A branched text played over a wire.
ghost use Rattle.std.specs.Prelude.{◌≡◌, ◌≤◌, ◌<◌, ℕ, List, length, All, true, None};
ghost use Rattle.std.specs.List.{AllByRecursion};
ghost use Rattle.anb_index.specs.Places.{among};
ghost use Rattle.anb_base.specs.Bytes.{IsBytes};
ghost use Rattle.anb_base.specs.declared.TheConstants.{ARRIVAL};
ghost use Rattle.anb_frame.specs.Cuts.{Tail, CutLeft};
ghost use Rattle.anb_plays.specs.Runs.{without_place};
ghost use Rattle.anb_code.specs.Taking.{take_texts};
ghost use Rattle.anb_machine.specs.ByteRuns.{run_bytes};
ghost use Rattle.anb_compile.specs.Laws.{FittingCodesPlay};
ghost use Rattle.anb_session.specs.Faults.{TellsEnd};
ghost use Rattle.anb_session.specs.Sessions.{Runs, IsPrompt};
ghost use Rattle.anb_session.specs.Turns.{Closes};
ghost use Rattle.anb_choice.specs.Lawful.{IsLawful, roles_in};
ghost use Rattle.anb_choice.specs.Views.{branched_of};
ghost use Rattle.anb_branch.specs.Arms.{FitArms};
ghost use Rattle.anb_branch.specs.Taken.{IsTold, PlaysTaken, TakeAll, run_taken};
ghost use Rattle.anb_branch.specs.Stems.{AreShort, WaitsAt};
ghost use Rattle.anb_branch.specs.Choices.{Decides, goes_behind};

use crate::signs::{Sign, is_free_somewhere, place_begun, signs_of};
use crate::stem::{Choice, are_bytes, play_on, play_to_choice, play_whole, run_again};
use anb_base::{ARRIVAL, Bytes, NoMemory, Text, Wire};
use anb_choice::Branched;
use anb_code::RoleCode;
use anb_compile::fitting_codes_play;
use anb_machine::Machine;
use anb_protocol::Protocol;
use anb_session::PlayEnd;
use std::alloc::Global;

/// Plays a role of a branched text over a wire, with its code of each arm and a value for each take
/// in order, in session 0. Only the chooser is told an arm, by its number from 1.
///
/// A role that must see the choice plays the code of arm 1 up to the arrival that tells the arm.
/// Where that tells another arm, the code of this runs over the earlier arrivals, of which a copy
/// was kept, and goes on from there. So the common actions are played once over the wire, and an
/// arrival is copied once. As in a play a stop tells no instruction: `at` is 0.
pub fn branch_play<W: Wire>(
    alloc: Global,
    b: &Branched,
    codes: &[RoleCode],
    role: &Text,
    told: Option<u32>,
    init: &[Bytes],
    seed: &[u8; 32],
    wire: &mut W,
) -> PlayEnd
    requires lawful { IsLawful (branched_of b.now) }
    requires is_role { among (roles_in (branched_of b.now)) role.now ≡ true }
    requires fit { FitArms (branched_of b.now).arms role.now codes.now }
    requires told { IsTold (branched_of b.now) role.now told }
    requires count { TakeAll codes.now init.now }
    requires short { All (λ value. length value ≤ ARRIVAL) init.now }
    ensures runs { (arrivals : List (List ℕ)) (tail : Tail)
        → CutLeft ARRIVAL (W.left wire.old) arrivals tail
        → Runs (run_taken (branched_of b.now) role.now told init.now seed.now codes.now)
        arrivals tail (W.left wire.old) (W.left wire.new) (W.written wire.old) (W.written wire.new) result }
    ensures prompt { IsPrompt
        (run_taken (branched_of b.now) role.now told init.now seed.now codes.now)
        (W.state wire.old) (W.state wire.new) }
    ensures plays { PlaysTaken (branched_of b.now) role.now told init.now seed.now
        (run_taken (branched_of b.now) role.now told init.now seed.now codes.now) }
    ensures faults { TellsEnd (W.state wire.old) (W.state wire.new) result }
{
    are_bytes_all(init);
    all_play(&b.arms);
    match told {
        Some(number) => play_code(alloc, &codes[number as usize - 1], init, seed, wire),
        None => play_untold(alloc, b, codes, role, init, seed, wire),
    }
}

/// Plays a role that isn't told an arm.
fn play_untold<W: Wire>(
    alloc: Global,
    b: &Branched,
    codes: &[RoleCode],
    role: &Text,
    init: &[Bytes],
    seed: &[u8; 32],
    wire: &mut W,
) -> PlayEnd
    requires lawful { IsLawful (branched_of b.now) }
    requires is_role { among (roles_in (branched_of b.now)) role.now ≡ true }
    requires fit { FitArms (branched_of b.now).arms role.now codes.now }
    requires told { IsTold (branched_of b.now) role.now None }
    requires count { TakeAll codes.now init.now }
    requires short { All (λ value. length value ≤ ARRIVAL) init.now }
    requires bytes { AllByRecursion IsBytes init.now }
    requires play { AllByRecursion FittingCodesPlay (branched_of b.now).arms }
    ensures closes { Closes
        (run_taken (branched_of b.now) role.now None init.now seed.now codes.now)
        (W.state wire.old) (W.state wire.new) result }
    ensures faults { TellsEnd (W.state wire.old) (W.state wire.new) result }
{
    let Ok(signs) = signs_of(alloc, b, role) else {
        return PlayEnd::NoMemory;
    };
    if is_free_somewhere(&signs) {
        play_seeing(alloc, b, codes, &signs, init, seed, wire)
    } else {
        play_code(alloc, &codes[0], init, seed, wire)
    }
}

/// Plays a role up to the arrival that tells the arm, and goes on in that arm.
fn play_seeing<W: Wire>(
    alloc: Global,
    b: &Branched,
    codes: &[RoleCode],
    signs: &[Sign],
    init: &[Bytes],
    seed: &[u8; 32],
    wire: &mut W,
) -> PlayEnd
    requires some { 0 < length (branched_of b.now).arms }
    requires few { length (branched_of b.now).arms ≤ 8 }
    requires signs { length signs.now ≡ length (branched_of b.now).arms }
    requires codes { length codes.now ≡ length (branched_of b.now).arms }
    requires count { TakeAll codes.now init.now }
    requires short { All (λ value. length value ≤ ARRIVAL) init.now }
    requires decides { (role : List ℕ)
        × Decides (branched_of b.now) role init.now seed.now codes.now signs.now }
    ensures closes { (role : List ℕ)
        → Decides (branched_of b.now) role init.now seed.now codes.now signs.now
        → Closes (run_taken (branched_of b.now) role None init.now seed.now codes.now)
        (W.state wire.old) (W.state wire.new) result }
    ensures faults { TellsEnd (W.state wire.old) (W.state wire.new) result }
{
    let Ok(mut machine) = Machine::start(alloc, &codes[0], init, seed, 0) else {
        return PlayEnd::NoMemory;
    };
    match play_to_choice(alloc, &mut machine, signs[0].receives, wire) {
        Ok(choice) => {
            let place = place_begun(b, signs, choice.arrival.as_slice());
            if place == 0 {
                play_on(alloc, &mut machine, choice.arrival, wire)
            } else {
                drop(machine);
                play_again(alloc, &codes[place], init, seed, choice, wire)
            }
        }
        Err(end) => end,
    }
}

/// Plays a code from a choice on, behind the arrivals before it.
fn play_again<W: Wire>(
    alloc: Global,
    code: &RoleCode,
    init: &[Bytes],
    seed: &[u8; 32],
    choice: Choice,
    wire: &mut W,
) -> PlayEnd
    requires count { length init.now ≡ length (take_texts code.now.instrs) }
    requires short { All (λ value. length value ≤ ARRIVAL) init.now }
    requires waits { WaitsAt (run_bytes code.now init.now seed.now 0) choice.past.items }
    requires past { AreShort choice.past.items }
    requires fits { length choice.arrival ≤ ARRIVAL }
    ensures closes { Closes (goes_behind (run_bytes code.now init.now seed.now 0) choice.past.items
        choice.arrival) (W.state wire.old) (W.state wire.new) result }
    ensures faults { TellsEnd (W.state wire.old) (W.state wire.new) result }
{
    let Choice { past, arrival } = choice;
    let Ok(mut machine) = Machine::start(alloc, code, init, seed, 0) else {
        return PlayEnd::NoMemory;
    };
    match run_again(alloc, &mut machine, past) {
        Ok(()) => play_on(alloc, &mut machine, arrival, wire),
        Err(NoMemory) => PlayEnd::NoMemory,
    }
}

/// Plays a code from its beginning.
fn play_code<W: Wire>(
    alloc: Global,
    code: &RoleCode,
    init: &[Bytes],
    seed: &[u8; 32],
    wire: &mut W,
) -> PlayEnd
    requires count { length init.now ≡ length (take_texts code.now.instrs) }
    requires short { All (λ value. length value ≤ ARRIVAL) init.now }
    ensures closes { Closes (λ more. without_place (run_bytes code.now init.now seed.now 0 more))
        (W.state wire.old) (W.state wire.new) result }
    ensures faults { TellsEnd (W.state wire.old) (W.state wire.new) result }
{
    match Machine::start(alloc, code, init, seed, 0) {
        Ok(mut machine) => play_whole(alloc, &mut machine, wire),
        Err(NoMemory) => PlayEnd::NoMemory,
    }
}

/// A law: these are strings of bytes.
pub(crate) fn are_bytes_all(values: &[Bytes])
    ensures { AllByRecursion IsBytes values.now }
{
    for value in values {
        are_bytes(value.as_slice());
    }
}

/// A law: in each arm the run of a fitting code is the role's play.
pub(crate) fn all_play(arms: &[Protocol])
    ensures { AllByRecursion FittingCodesPlay arms.now }
{
    for arm in arms {
        fitting_codes_play(arm);
    }
}
