//! What is tried of a role, found before any program is started.
ghost use Rattle.std.specs.Prelude.{◌≡◌, ◌⊎◌, ◌<◌, ◌≤◌, ◌||◌, ◌==◌, ℕ, [], length, map, is_some, All, IfOk, IfErr, if◌then◌else◌};
ghost use Rattle.anb_attempts.specs.Attempts.{IsSuite};
ghost use Rattle.anb_attempts.specs.declared.attempts.TheConstants.{MOST};
ghost use Rattle.anb_probe_commands.specs.Cases.{AreMade, all_untried, case_count, cases_from, is_wanted, lack_of};
ghost use Rattle.anb_probe_commands.specs.Playing.{IsPrepared};
ghost use Rattle.anb_probe_commands.specs.ProbeCommand.{RefusesHonest};
ghost use Rattle.anb_probe_commands.specs.Tasks.{CanProbe, IsHonestLack, IsUnsentBehind, probing_by};
ghost use Rattle.anb_protocol.specs.Views.{action_value};
ghost use Rattle.anb_verdict.specs.Places.{is_own};
ghost use Rattle.anb_probe_commands.specs.Asking.{trying_by};
ghost use Rattle.anb_probe_commands.specs.declared.partners.Lack.TheVariants as lack;
ghost use Rattle.anb_status.specs.declared.status.Status.TheVariants as status;

use crate::files::Task;
use crate::partners::{Lack, lack_at, partners_for};
use crate::untried::untried_lines;
use crate::words::TryWords;
use anb_attempts::{Attempt, Scene, Suite, suite_of};
use anb_base::{Bytes, NoMemory};
use anb_command::{NarrationNo, Status};
use anb_partner::{Partner, Values, values_for};
use anb_protocol::{Action, Kind, Protocol, ResolveNo};
use std::alloc::Global;

/// All that is tried of a role: the scenes, each with its partner or with why there is none; what the
/// partners begin with; the cases in order; how many there are, where not all are asked for; the lines
/// on what isn't tried; and whether the frames of each case are shown.
#[derive(Drop)]
pub(crate) struct Prepared {
    pub(crate) scenes: Vec<Scene>,
    pub(crate) partners: Vec<Result<Partner, Lack>>,
    pub(crate) values: Values,
    pub(crate) cases: Vec<Attempt>,
    pub(crate) count: u32,
    pub(crate) untried: Vec<Bytes>,
    pub(crate) is_shown: bool,
}

/// What is tried of a role in this way; or the honest partner can't be made.
pub(crate) fn prepare(alloc: Global, task: &Task, trying: TryWords) -> Result<Prepared, Status>
    requires { CanProbe (probing_by task.now.protocol task.now.role task.now.values task.now.seed)
        task.now.code }
    ensures prepared { IfOk result (IsPrepared (probing_by task.now.protocol task.now.role
        task.now.values task.now.seed) (trying_by trying.entry)) }
    ensures refused { IfErr result (λ s. RefusesHonest (probing_by task.now.protocol
        task.now.role task.now.values task.now.seed) (trying_by trying.entry) s
        ⊎ (s ≡ status.NoMemory)) }
{
    let suite = match suite_of(alloc, &task.protocol, task.role, &task.code, trying.all) {
        Ok(suite) => suite,
        Err(NoMemory) => return Err(Status::NoMemory),
    };
    let partners = match partners_for(alloc, &task.protocol, task.role, &suite.scenes) {
        Ok(partners) => partners,
        Err(NoMemory) => return Err(Status::NoMemory),
    };
    if let Some(lack) = lack_at(&partners, 0) {
        return Err(honest_no(alloc, &task.protocol, task.role, lack));
    }
    match prepare_suite(alloc, task, suite, partners, trying) {
        Ok(prepared) => Ok(prepared),
        Err(NoMemory) => Err(Status::NoMemory),
    }
}

/// The same of a suite with these partners.
fn prepare_suite(
    alloc: Global,
    task: &Task,
    suite: Suite,
    partners: Vec<Result<Partner, Lack>>,
    trying: TryWords,
) -> Result<Prepared, NoMemory>
    requires can { CanProbe (probing_by task.now.protocol task.now.role task.now.values
        task.now.seed) task.now.code }
    requires suite { IsSuite task.now.protocol task.now.role task.now.code trying.all suite }
    requires within { All (λ a. a.scene < length suite.scenes.items) suite.attempts.items }
    requires most { length suite.attempts.items ≤ MOST }
    requires made { AreMade task.now.protocol task.now.role suite.scenes.items partners.items }
    requires each { length partners.items ≡ length suite.scenes.items }
    ensures { IfOk result (IsPrepared (probing_by task.now.protocol task.now.role
        task.now.values task.now.seed) (trying_by trying.entry)) }
{
    let _ = task.code.instrs();
    let values = task.values.as_slice();
    let values = values_for(alloc, &task.protocol, task.role, values, &task.seed)?;
    let untried = untried_for(
        alloc,
        &task.protocol,
        task.role,
        &suite,
        &partners,
        trying.case,
    )?;
    let count = case_count(&suite.attempts, &partners);
    let cases = cases_of(alloc, suite.attempts, &partners, trying.case)?;
    let is_shown = is_asked(trying.case);
    Ok(Prepared {
        scenes: suite.scenes,
        partners,
        values,
        cases,
        count,
        untried,
        is_shown,
    })
}

/// The lines on what isn't tried: none where one case is asked for.
fn untried_for(
    alloc: Global,
    p: &Protocol,
    role: u32,
    suite: &Suite,
    partners: &[Result<Partner, Lack>],
    case: Option<u32>,
) -> Result<Vec<Bytes>, NoMemory>
    ensures { IfOk result (λ lines.
        lines.items ≡ all_untried p.now role suite.now (map lack_of partners.now) case) }
{
    match case {
        Some(_) => Ok(Vec::new(alloc)),
        None => untried_lines(alloc, p, role, suite, partners),
    }
}

/// The attempts with a partner, all or the first and the one with this number.
fn cases_of(
    alloc: Global,
    attempts: Vec<Attempt>,
    partners: &[Result<Partner, Lack>],
    case: Option<u32>,
) -> Result<Vec<Attempt>, NoMemory>
    requires { length attempts.items ≤ MOST }
    ensures cases { IfOk result (λ cases.
        cases.items ≡ cases_from (map lack_of partners.now) case 1 attempts.items) }
    ensures few { IfOk result (λ cases. length cases.items ≤ MOST) }
{
    let mut cases = Vec::new(alloc);
    let mut number = 1;
    for attempt in attempts {
        if lack_at(partners, attempt.scene).is_none() {
            if is_wanted(case, number) {
                cases.push(attempt)?;
            }
            number += 1;
        }
    }
    Ok(cases)
}

/// Whether one case is asked for.
fn is_asked(case: Option<u32>) -> bool
    ensures { result ≡ is_some case }
{
    case.is_some()
}

/// Whether the case with this number is tried.
fn is_wanted(case: Option<u32>, number: u32) -> bool
    ensures { result ≡ is_wanted case number }
{
    match case {
        Some(n) => number == 1 || number == n,
        None => true,
    }
}

/// How many attempts have a partner.
fn case_count(attempts: &[Attempt], partners: &[Result<Partner, Lack>]) -> u32
    requires { length attempts.now ≤ MOST }
    ensures { result ≡ case_count (map lack_of partners.now) attempts.now }
{
    let mut count = 0;
    for attempt in attempts {
        if lack_at(partners, attempt.scene).is_none() {
            count += 1;
        }
    }
    count
}

/// The status where the honest partner can't be made.
fn honest_no(alloc: Global, p: &Protocol, role: u32, why: Lack) -> Status
    ensures { IsHonestLack p.now role why result ⊎ (result ≡ status.NoMemory) }
{
    match why {
        Lack::Blocked(line) => honest_blocked(alloc, p, role, line),
        Lack::Large => {
            Status::BadNarration(NarrationNo::Resolve(ResolveNo::Limit(Kind::AllNodes, 65_536)))
        }
    }
}

/// The status where it can't make what the role is to hear in this line, from 1, of those that the role
/// says and hears.
fn honest_blocked(alloc: Global, p: &Protocol, role: u32, line: u32) -> Status
    ensures { IsHonestLack p.now role (lack.Blocked line) result ⊎ (result ≡ status.NoMemory) }
{
    let actions = p.messages();
    let mut lines = 0;
    for i in 0..actions.len() {
        if is_own(&actions[i], role) {
            lines += 1;
            if lines == line as usize {
                return cannot_send(alloc, p, i, &actions[i]);
            }
        }
    }
    // A line is one of the role's messages.
    Status::NoMemory
}

/// Whether a role sends or hears in an action.
pub(crate) fn is_own(action: &Action, role: u32) -> bool
    ensures { result ≡ is_own role (action_value action.now) }
{
    action.from == role || action.to == role
}

/// The status of the action behind so many, which its sender can't compose.
fn cannot_send(alloc: Global, p: &Protocol, before: usize, action: &Action) -> Status
    ensures { IsUnsentBehind p.now before (action_value action.now) result ⊎ (result ≡ status.NoMemory) }
{
    let Some(name) = p.roles().get(action.from as usize) else {
        return Status::NoMemory;
    };
    match (u32::try_from(before), name.copy(alloc)) {
        (Ok(before), Ok(role)) if before < u32::MAX => Status::CannotSend {
            action: before + 1,
            role,
        },
        _ => Status::NoMemory,
    }
}
