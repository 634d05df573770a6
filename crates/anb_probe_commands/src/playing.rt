//! The cases, each on a child of its own, and their lines.
ghost use Rattle.std.specs.Prelude.{◌≡◌, ◌≢◌, ◌<◌, ◌+◌, ◌++◌, [], ◌∷◌, ℕ, length, map, slice_get, Some, IfOk, IfErr, OnOk};
ghost use Rattle.anb_attempts.specs.declared.attempts.TheConstants.{MOST};
ghost use Rattle.anb_partner.specs.Trials.{OthersStay};
ghost use Rattle.anb_probe_commands.specs.Keeping.{IsSame, Keeps, KeepsCase, KeepsLess, told};
ghost use Rattle.anb_probe_commands.specs.Plays.{IsNotStarted, IsTried};
ghost use Rattle.anb_probe_commands.specs.Playing.{Broke, BrokeIn, CanPlay, IsCaseCut, IsCut, IsPlaced, IsPlayedOut, Wrote, end_in, text_of};
ghost use Rattle.anb_probe_commands.specs.Asking.{trying_by};
ghost use Rattle.anb_probe_commands.specs.Reports.{shown_frames};
ghost use Rattle.anb_probe_commands.specs.Tasks.{probing_by};
ghost use Rattle.anb_probe_commands.specs.Words.{order_of};

use crate::cases::Prepared;
use crate::files::Task;
use crate::frames::put_frames_in;
use crate::keeping::Keeper;
use crate::partners::partner_at;
use crate::words::TryWords;
use crate::writing::{PlayNo, write_lines};
use anb_attempts::Attempt;
use anb_base::{NoMemory, Wire};
use anb_partner::{Conversation, ConverseNo, Trials};
use anb_transcript::Transcript;
use anb_tries::{Tried, try_case};
use anb_verdict::{Verdict, case_lines};
use std::alloc::Global;

/// What came of a case: the verdict, what the child heard and said, and how far it got.
#[derive(Drop)]
pub(crate) struct Outcome {
    pub(crate) verdict: Verdict,
    pub(crate) lines: Transcript,
    pub(crate) reached: usize,
}

/// Tries the program in all cases, one after the other; tells of each when it is over, and writes its
/// lines. What came of each is kept, so it takes as much memory as the children said.
pub(crate) fn play_cases<T: Trials, W: Wire, K: Keeper>(
    alloc: Global,
    trials: &mut T,
    wire: &mut W,
    keeper: &mut K,
    task: &Task,
    prepared: &Prepared,
    trying: TryWords,
) -> Result<Vec<Outcome>, PlayNo>
    requires can { CanPlay (probing_by task.now.protocol task.now.role task.now.values task.now.seed)
        prepared.now }
    requires untried { (case : ℕ) → (T.trial trials.old case).phase ≡ 0 }
    ensures played { IfOk result (λ outcomes. IsPlayedOut
        (probing_by task.now.protocol task.now.role task.now.values task.now.seed)
        prepared.now (order_of (trying_by trying.entry)) (T.trial trials.old) (T.trial trials.new)
        (W.state wire.old) (W.state wire.new) outcomes.items) }
    ensures all { IfOk result (λ outcomes.
        length outcomes.items ≡ length prepared.now.cases.items) }
    ensures cut { IfErr result (IsCut
        (probing_by task.now.protocol task.now.role task.now.values task.now.seed)
        prepared.now (order_of (trying_by trying.entry)) (T.trial trials.old) (T.trial trials.new)
        (W.state wire.old).written (W.state wire.new).written) }
    ensures kept { OnOk result (Keeps
        (probing_by task.now.protocol task.now.role task.now.values task.now.seed)
        prepared.now.scenes.items (order_of (trying_by trying.entry)) prepared.now.cases.items
        (λ some. K.After keeper.old some keeper.new) (T.trial trials.old) (T.trial trials.new)
        IsSame) }
    ensures kept_less { IfErr result (KeepsLess
        (probing_by task.now.protocol task.now.role task.now.values task.now.seed)
        prepared.now.scenes.items (order_of (trying_by trying.entry)) prepared.now.cases.items
        (λ some. K.After keeper.old some keeper.new)
        (T.trial trials.old) (T.trial trials.new)) }
    ensures broke { IfErr result (Broke (W.state wire.old) (W.state wire.new)) }
    ensures none_left { (case : ℕ) → (T.trial trials.new case).phase ≢ 1 }
{
    let mut outcomes = Vec::new(alloc);
    let mut reached = 0;
    for i in 0..prepared.cases.len() as u32 {
        match play_case(
            alloc, trials, wire, keeper, task, prepared, i, trying, reached,
        ) {
            Ok(outcome) => {
                reached = next_reached(i, reached, outcome.reached);
                match outcomes.push(outcome) {
                    Ok(()) => {}
                    Err(_) => return Err(PlayNo::NoMemory),
                }
            }
            Err(no) => return Err(no),
        }
    }
    Ok(outcomes)
}

/// How far the first case got, behind the case with this number, from 0, which got so far.
fn next_reached(number: u32, reached: usize, got: usize) -> usize
    ensures before { 0 < number → result ≡ reached }
    ensures first { number ≡ 0 → result ≡ got }
{
    if number == 0 { got } else { reached }
}

/// Tries the program in the case with this number, from 0, tells of it, and writes its lines.
fn play_case<T: Trials, W: Wire, K: Keeper>(
    alloc: Global,
    trials: &mut T,
    wire: &mut W,
    keeper: &mut K,
    task: &Task,
    prepared: &Prepared,
    number: u32,
    trying: TryWords,
    reached: usize,
) -> Result<Outcome, PlayNo>
    requires can { CanPlay (probing_by task.now.protocol task.now.role task.now.values task.now.seed)
        prepared.now }
    requires within { number < length prepared.now.cases.items }
    requires unstarted { (T.trial trials.old number).phase ≡ 0 }
    ensures played { IfOk result (λ o. (a : Attempt)
        → slice_get prepared.now.cases.items number ≡ Some a
        → IsTried (probing_by task.now.protocol task.now.role task.now.values task.now.seed)
        prepared.now.scenes.items (order_of (trying_by trying.entry)) a reached
        (T.trial trials.old number) (T.trial trials.new number) (end_in o) o.reached
        × Wrote (W.state wire.old) (W.state wire.new)
        (text_of (probing_by task.now.protocol task.now.role task.now.values task.now.seed)
        prepared.now (number + 1) a (end_in o))) }
    ensures cut { IfErr result (IsCaseCut
        (probing_by task.now.protocol task.now.role task.now.values task.now.seed)
        prepared.now (order_of (trying_by trying.entry)) number reached
        (T.trial trials.old number) (T.trial trials.new number)
        (W.state wire.old).written (W.state wire.new).written) }
    ensures kept { IfOk result (λ o. K.After keeper.old (told number o.lines ∷ []) keeper.new) }
    ensures kept_less { IfErr result (KeepsCase
        (probing_by task.now.protocol task.now.role task.now.values task.now.seed)
        prepared.now.scenes.items (order_of (trying_by trying.entry)) prepared.now.cases.items
        (λ some. K.After keeper.old some keeper.new) number reached
        (T.trial trials.old number) (T.trial trials.new number)) }
    ensures broke { IfErr result (Broke (W.state wire.old) (W.state wire.new)) }
    ensures none_left { (T.trial trials.new number).phase ≢ 1 }
    ensures others { OthersStay number (T.trial trials.old) (T.trial trials.new) }
{
    let attempt = &prepared.cases[number as usize];
    match try_attempt(
        alloc, trials, task, prepared, number, attempt, trying, reached,
    ) {
        Ok(outcome) => {
            keeper.keep(number, outcome.lines.lines());
            match write_case(alloc, wire, task, prepared, number, attempt, &outcome) {
                Ok(()) => Ok(outcome),
                Err(no) => Err(no),
            }
        }
        Err(ConverseNo::NotStarted) => Err(PlayNo::NotStarted),
        Err(ConverseNo::NoMemory) => Err(PlayNo::NoMemory),
    }
}

/// Writes the lines of a case.
fn write_case<W: Wire>(
    alloc: Global,
    wire: &mut W,
    task: &Task,
    prepared: &Prepared,
    number: u32,
    attempt: &Attempt,
    outcome: &Outcome,
) -> Result<(), PlayNo>
    requires { number < MOST }
    ensures wrote { OnOk result (Wrote (W.state wire.old) (W.state wire.new)
        (text_of (probing_by task.now.protocol task.now.role task.now.values task.now.seed)
        prepared.now (number + 1) attempt.now (end_in outcome.now))) }
    ensures broke { IfErr result (BrokeIn
        (text_of (probing_by task.now.protocol task.now.role task.now.values task.now.seed)
        prepared.now (number + 1) attempt.now (end_in outcome.now))
        (W.state wire.old) (W.state wire.new)) }
{
    let text = case_text(alloc, task, prepared, number + 1, attempt, outcome);
    write_lines(wire, text)
}

/// The lines of the case with this number, from 1; and behind them its frames, where they are shown.
fn case_text(
    alloc: Global,
    task: &Task,
    prepared: &Prepared,
    number: u32,
    attempt: &Attempt,
    outcome: &Outcome,
) -> Result<Vec<u8>, NoMemory>
    ensures { IfOk result (λ text. text.items
        ≡ text_of (probing_by task.now.protocol task.now.role task.now.values task.now.seed)
        prepared.now number attempt.now (end_in outcome.now)) }
{
    let verdict = outcome.verdict;
    let title = &attempt.title;
    let mut text = case_lines(alloc, &task.protocol, task.role, number, title, verdict)?;
    put_shown(alloc, &mut text, task, prepared, attempt, outcome)?;
    Ok(text)
}

/// Appends the frames of a case, where they are shown.
fn put_shown(
    alloc: Global,
    out: &mut Vec<u8>,
    task: &Task,
    prepared: &Prepared,
    attempt: &Attempt,
    outcome: &Outcome,
) -> Result<(), NoMemory>
    ensures { OnOk result (out.new.items ≡ out.old.items
        ++ shown_frames task.now.protocol task.now.role prepared.now.scenes.items
        prepared.now.is_shown attempt.now (end_in outcome.now)) }
{
    if !prepared.is_shown {
        return Ok(());
    }
    let lines = outcome.lines.lines();
    let scenes = &prepared.scenes;
    put_frames_in(
        alloc,
        out,
        &task.protocol,
        task.role,
        scenes,
        attempt.scene,
        lines,
    )
}

/// Tries the program in one attempt.
fn try_attempt<T: Trials>(
    alloc: Global,
    trials: &mut T,
    task: &Task,
    prepared: &Prepared,
    number: u32,
    attempt: &Attempt,
    trying: TryWords,
    reached: usize,
) -> Result<Outcome, ConverseNo>
    requires can { CanPlay (probing_by task.now.protocol task.now.role task.now.values task.now.seed)
        prepared.now }
    requires placed { IsPlaced prepared.now.scenes.items prepared.now.partners.items attempt.now }
    requires unstarted { (T.trial trials.old number).phase ≡ 0 }
    ensures tried { IfOk result (λ o. IsTried
        (probing_by task.now.protocol task.now.role task.now.values task.now.seed)
        prepared.now.scenes.items (order_of (trying_by trying.entry)) attempt.now reached
        (T.trial trials.old number) (T.trial trials.new number) (end_in o) o.reached) }
    ensures not_started { IfErr result (λ no. no ≡ ConverseNo.NotStarted
        → IsNotStarted (T.trial trials.old number) (T.trial trials.new number)) }
    ensures none_left { (T.trial trials.new number).phase ≢ 1 }
    ensures others { OthersStay number (T.trial trials.old) (T.trial trials.new) }
{
    let partner = partner_at(&prepared.partners, attempt.scene);
    let scene = &prepared.scenes[attempt.scene];
    match try_case(
        alloc,
        trials,
        number,
        trying.limit,
        trying.target,
        &task.protocol,
        task.role,
        partner,
        &prepared.values,
        attempt.wrong,
        scene.due,
        reached,
    ) {
        Ok(
            Tried {
                conversation,
                verdict,
                reached,
            },
        ) => {
            let Conversation { lines, .. } = conversation;
            Ok(Outcome {
                verdict,
                lines,
                reached,
            })
        }
        Err(no) => Err(no),
    }
}
