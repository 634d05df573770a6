//! One attempt on one program.
ghost use Rattle.std.specs.Prelude.{◌≡◌, ◌≢◌, ◌+◌, ◌<◌, ◌≤◌, ◌^◌, ℕ, length, map, replicate, All, IfOk, IfErr};
ghost use Rattle.std.specs.List.{AllByRecursion};
ghost use Rattle.anb_base.specs.Bytes.{IsBytes};
ghost use Rattle.anb_base.specs.Moves.{Rose};
ghost use Rattle.anb_base.specs.declared.TheConstants.{ARRIVAL};
ghost use Rattle.anb_code.specs.Taking.{take_texts};
ghost use Rattle.anb_machine.specs.ByteRuns.{run_bytes};
ghost use Rattle.anb_protocol.specs.Texts.{known_by, known_texts};
ghost use Rattle.anb_partner.specs.Talks.{Converses, IsShort};
ghost use Rattle.anb_partner.specs.Trials.{IsUnstarted, OthersStay, asked_words};
ghost use Rattle.anb_partner.specs.declared.conversation.TalkEnd.TheVariants as talk;
ghost use Rattle.anb_spoil.specs.Wrongs.{wrong_by};
ghost use Rattle.anb_judge.specs.Verdicts.{line_bytes};
ghost use Rattle.anb_verdict.specs.Verdicts.{reached_by};
ghost use Rattle.anb_tries.specs.Seen.{seen_of};
ghost use Rattle.anb_tries.specs.Tries.{IsTriedVerdict};

use crate::bytes::lines_are_bytes;
use crate::seeing::seen_of;
use anb_base::{Bytes, NoMemory};
use anb_partner::{Conversation, ConverseNo, Partner, TalkEnd, Target, Trials, Values, converse};
use anb_protocol::Protocol;
use anb_spoil::Wrong;
use anb_transcript::Transcript;
use anb_verdict::{Seen, Verdict, judge_case, reached_by};
use std::alloc::Global;

/// One attempt: the conversation with the program, and what it says of it.
#[derive(Drop)]
pub struct Tried {
    pub conversation: Conversation,
    pub verdict: Verdict,
    /// How far the program got, where this was the honest case: what the attempts behind it are told.
    pub reached: usize,
}

/// One attempt on a program: the partner converses with the child of this case, which is this one with
/// this limit, and the verdict says whether what came is what the role does, for some draws. `due` is
/// the event at which the role stops whatever it drew, where that is known, and `reached` how far the
/// honest case got; in the honest case itself it's 0. Beside the conversation it takes as long as
/// compiling the role and running it.
pub fn try_case<T: Trials>(
    alloc: Global,
    trials: &mut T,
    case: u32,
    limit: Option<u32>,
    target: Target,
    p: &Protocol,
    role: u32,
    partner: &Partner,
    values: &Values,
    wrong: Wrong,
    due: Option<u32>,
    reached: usize,
) -> Result<Tried, ConverseNo>
    requires unstarted { (T.trial trials.old case).phase ≡ 0 }
    requires role { role < length p.now.roles }
    requires texts { take_texts partner.now.code.instrs ≡ known_texts p.now role }
    requires count { length values.now.initial.items ≡ length (known_by p.now role) }
    requires bytes { AllByRecursion IsBytes values.now.initial.items }
    requires initial { All (λ value. length value ≤ ARRIVAL) values.now.initial.items }
    requires handed { All (λ value. length value ≤ ARRIVAL) values.now.handed.items }
    ensures converses { IfOk result (λ tried. Converses
        (run_bytes partner.now.code values.now.initial.items (replicate 32 0) 0)
        values.now.handed.items partner.now.hook (wrong_by partner.now.code.formats wrong)
        (asked_words limit target.entry) (T.trial trials.old case) (T.trial trials.new case)
        tried.conversation) }
    ensures verdict { IfOk result (λ tried. IsTriedVerdict (record {
      protocol = p.now;
      role = role;
      initial = values.now.initial.items;
      lines = tried.conversation.lines;
    }) (seen_of tried.conversation due reached) tried.conversation.end tried.verdict) }
    ensures reached { IfOk result (λ tried.
        tried.reached ≡ reached_by tried.verdict tried.conversation.lines) }
    ensures bytes { IfOk result (λ tried.
        AllByRecursion IsBytes (map line_bytes tried.conversation.lines)) }
    ensures long { IfOk result (λ tried.
        (len : ℕ) → tried.conversation.end ≡ talk.Long len → len < 2 ^ 32) }
    ensures not_started { IfErr result (λ no. no ≡ ConverseNo.NotStarted
        → IsUnstarted (T.trial trials.old case) (T.trial trials.new case)
        × Rose (T.trial trials.old case).faults (T.trial trials.new case).faults) }
    ensures none_left { (T.trial trials.new case).phase ≢ 1 }
    ensures others { OthersStay case (T.trial trials.old) (T.trial trials.new) }
{
    match converse(alloc, trials, case, limit, target, partner, values, wrong) {
        Ok(conversation) => {
            lines_are_bytes(conversation.lines.lines());
            lengths_are_small(conversation.end);
            let initial = &values.initial;
            match verdict_on(alloc, p, role, initial, &conversation, due, reached) {
                Ok(verdict) => {
                    let reached = reached_by(verdict, conversation.lines.lines());
                    Ok(Tried {
                        conversation,
                        verdict,
                        reached,
                    })
                }
                Err(NoMemory) => Err(ConverseNo::NoMemory),
            }
        }
        Err(no) => Err(no),
    }
}

/// The verdict on a conversation with a program whose role begins with these values.
fn verdict_on(
    alloc: Global,
    p: &Protocol,
    role: u32,
    initial: &[Bytes],
    conversation: &Conversation,
    due: Option<u32>,
    reached: usize,
) -> Result<Verdict, NoMemory>
    requires role { role < length p.now.roles }
    requires count { length initial.now ≡ length (known_by p.now role) }
    requires bytes { AllByRecursion IsBytes initial.now }
    requires short { All (λ value. length value ≤ ARRIVAL) initial.now }
    requires few { length conversation.now.lines + 1 < 2 ^ 32 }
    requires lines { AllByRecursion IsShort conversation.now.lines }
    ensures { IfOk result (IsTriedVerdict (record {
      protocol = p.now;
      role = role;
      initial = initial.now;
      lines = conversation.now.lines;
    }) (seen_of conversation.now due reached) conversation.now.end) }
{
    let seen = seen_of(conversation, due, reached);
    let lines = &conversation.lines;
    verdict_behind(alloc, p, role, initial, lines, seen, conversation.end)
}

/// The verdict behind a talk that ended so.
fn verdict_behind(
    alloc: Global,
    p: &Protocol,
    role: u32,
    initial: &[Bytes],
    lines: &Transcript,
    seen: Seen,
    end: TalkEnd,
) -> Result<Verdict, NoMemory>
    requires role { role < length p.now.roles }
    requires count { length initial.now ≡ length (known_by p.now role) }
    requires bytes { AllByRecursion IsBytes initial.now }
    requires short { All (λ value. length value ≤ ARRIVAL) initial.now }
    requires few { length lines.now + 1 < 2 ^ 32 }
    requires lines { AllByRecursion IsShort lines.now }
    ensures { IfOk result (IsTriedVerdict (record {
      protocol = p.now;
      role = role;
      initial = initial.now;
      lines = lines.now;
    }) seen end) }
{
    match end {
        TalkEnd::Unchanged => Ok(Verdict::Unchanged),
        TalkEnd::TooLong => Ok(Verdict::TooLong),
        TalkEnd::Done
        | TalkEnd::Refused
        | TalkEnd::Missing
        | TalkEnd::Cut { .. }
        | TalkEnd::Long(_)
        | TalkEnd::ReadFault
        | TalkEnd::WriteFault => judge_case(alloc, p, role, initial, lines, seen),
    }
}

/// A law: a length has four bytes.
fn lengths_are_small(end: TalkEnd)
    ensures { (len : ℕ) → end ≡ talk.Long len → len < 2 ^ 32 }
{
    if let TalkEnd::Long(len) = end {
        let _ = len;
    }
}
