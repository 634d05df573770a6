//! One conversation with one child.
ghost use Rattle.std.specs.Prelude.{◌≡◌, ◌≢◌, ◌≤◌, ℕ, List, length, replicate, All, IfOk, OnOk, IfErr, OnErr};
ghost use Rattle.anb_base.specs.Moves.{Rose};
ghost use Rattle.anb_base.specs.declared.TheConstants.{ARRIVAL};
ghost use Rattle.anb_code.specs.Taking.{take_texts};
ghost use Rattle.anb_spoil.specs.Wrongs.{wrong_by};
ghost use Rattle.anb_machine.specs.ByteRuns.{run_bytes};
ghost use Rattle.anb_machine.specs.Machines.{gives};
ghost use Rattle.anb_partner.specs.Talks.{Converses, Drained};
ghost use Rattle.anb_partner.specs.Trials.{IsUnstarted, KeptByFinish, OthersStay, asked_words};
ghost use Rattle.anb_partner.specs.Steps.{HasTalked};

use crate::talking::{Left, drain, hand_in, talk};
use crate::{Conversation, ConverseNo, Partner, TalkEnd, Target, Trials, Values};
use anb_base::{ARRIVAL, NoMemory, Wire};
use anb_format::Format;
use anb_machine::Machine;
use anb_spoil::Wrong;
use anb_transcript::Transcript;
use std::alloc::Global;

/// Starts the child of a case, this one with this limit, plays the partner against it, ends its input,
/// reads what is left of its output, and waits for its end. Each message is written before the next one
/// is waited for. The memory for the partner is taken before the child is started; and whatever comes
/// then, the child doesn't run any more behind it.
pub fn converse<T: Trials>(
    alloc: Global,
    trials: &mut T,
    case: u32,
    limit: Option<u32>,
    target: Target,
    partner: &Partner,
    values: &Values,
    wrong: Wrong,
) -> Result<Conversation, ConverseNo>
    requires unstarted { (T.trial trials.old case).phase ≡ 0 }
    requires count { length values.now.initial.items
        ≡ length (take_texts partner.now.code.instrs) }
    requires initial { All (λ value. length value ≤ ARRIVAL) values.now.initial.items }
    requires handed { All (λ value. length value ≤ ARRIVAL) values.now.handed.items }
    ensures converses { IfOk result (Converses
        (run_bytes partner.now.code values.now.initial.items (replicate 32 0) 0)
        values.now.handed.items partner.now.hook (wrong_by partner.now.code.formats wrong)
        (asked_words limit target.entry) (T.trial trials.old case) (T.trial trials.new case)) }
    ensures not_started { IfErr result (λ no. no ≡ ConverseNo.NotStarted
        → IsUnstarted (T.trial trials.old case) (T.trial trials.new case)
        × Rose (T.trial trials.old case).faults (T.trial trials.new case).faults) }
    ensures none_left { (T.trial trials.new case).phase ≢ 1 }
    ensures others { OthersStay case (T.trial trials.old) (T.trial trials.new) }
{
    let mut buffer = vec![in alloc; 0u8; ARRIVAL as usize]?;
    let mut machine = Machine::start(alloc, &partner.code, &values.initial, &[0; 32], 0)?;
    hand_in(alloc, &mut machine, &values.handed)?;
    match trials.start(case, limit, target) {
        Ok(child) => talk_with(
            alloc,
            trials,
            case,
            &mut machine,
            partner.hook,
            partner.code.formats(),
            wrong,
            child,
            &mut buffer,
        ),
        Err(_) => Err(ConverseNo::NotStarted),
    }
}

/// Plays the machine against a child that was started, and finishes it.
fn talk_with<T: Trials>(
    alloc: Global,
    trials: &mut T,
    case: u32,
    machine: &mut Machine<'_>,
    hook: Option<u32>,
    formats: &[Format],
    wrong: Wrong,
    child: T::Child,
    buffer: &mut [u8],
) -> Result<Conversation, ConverseNo>
    requires running { (T.trial trials.old case).phase ≡ 1 }
    requires room { length buffer.old ≡ ARRIVAL }
    ensures talked { IfOk result (HasTalked (gives machine.old) hook
        (wrong_by formats.now wrong) (T.Child.state child)
        (T.trial trials.old case) (T.trial trials.new case)) }
    ensures no { IfErr result (λ no. no ≡ ConverseNo.NoMemory) }
    ensures finished { (T.trial trials.new case).phase ≡ 2 }
    ensures kept { KeptByFinish (T.trial trials.old case) (T.trial trials.new case) }
    ensures others { OthersStay case (T.trial trials.old) (T.trial trials.new) }
{
    let mut child = child;
    let mut lines = Vec::new(alloc);
    let talked = talk(
        alloc, machine, hook, formats, wrong, &mut lines, &mut child, buffer,
    );
    trials.close(&mut child);
    let left = drain_behind(&talked, &mut child, buffer);
    let finished = trials.finish(case, child);
    let silent = trials.was_silent(case);
    match talked {
        Ok(end) => Ok(Conversation {
            lines: Transcript::new(lines),
            end,
            behind: left.behind,
            loose: left.loose,
            child: finished.ok(),
            silent,
        }),
        Err(NoMemory) => Err(ConverseNo::NoMemory),
    }
}

/// Reads what is left of the child's output behind a talk, where there was memory for that.
fn drain_behind<W: Wire>(
    talked: &Result<TalkEnd, NoMemory>,
    child: &mut W,
    buffer: &mut [u8],
) -> Left
    requires { length buffer.old ≡ ARRIVAL }
    ensures { IfOk talked.now (λ end. Drained (W.state child.old) (W.state child.new) end
        result.behind result.loose) }
{
    match talked {
        Ok(end) => drain_from(*end, child, buffer),
        Err(_) => Left {
            behind: 0,
            loose: false,
        },
    }
}

/// Reads what is left of the child's output behind a talk that ended so, unless reading it failed.
fn drain_from<W: Wire>(end: TalkEnd, child: &mut W, buffer: &mut [u8]) -> Left
    requires { length buffer.old ≡ ARRIVAL }
    ensures { Drained (W.state child.old) (W.state child.new) end result.behind result.loose }
{
    match end {
        TalkEnd::ReadFault => Left {
            behind: 0,
            loose: false,
        },
        _ => drain(child, buffer),
    }
}
