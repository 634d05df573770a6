//! Scenes: the honest one, and those of checks and openings.
ghost use Rattle.std.specs.Prelude.{◌≡◌, ◌↔◌, ◌<◌, ◌∷◌, [], length, map, IfOk, IsTrue};
ghost use Rattle.std.specs.List.{AllByRecursion};
ghost use Rattle.anb_term.specs.View.{tree_of};
ghost use Rattle.anb_partner.specs.Plans.{MayStand};
ghost use Rattle.anb_attempts.specs.Attempts.{IsBegun, IsDue, IsNarrated, IsSceneOf, IsSceneOfOpening, IsSceneOfTag, SceneMayStand, TermsMayStand};

use crate::attempts::{Attempt, Scene, Suite};
use crate::differing::differ_in_place;
use anb_base::NoMemory;
use anb_openings::OpeningCase;
use anb_partner::{may_stand, narrated_terms};
use anb_protocol::Protocol;
use anb_spoil::{Change, Wrong};
use anb_suite::Case;
use anb_term::Term;
use anb_verdict::Title;
use std::alloc::Global;

/// The honest attempt alone.
pub(crate) fn begin(alloc: Global, p: &Protocol, role: u32) -> Result<Suite, NoMemory>
    requires { role < length p.now.roles }
    ensures begun { IfOk result (IsBegun p.now role) }
    ensures stand { IfOk result (λ suite.
        AllByRecursion (SceneMayStand p.now) suite.scenes.items) }
{
    let scene = honest_scene(alloc, p, role)?;
    let mut scenes = Vec::new(alloc);
    scenes.push(scene)?;
    let mut attempts = Vec::new(alloc);
    attempts.push(Attempt {
        scene: 0,
        wrong: Wrong::Changed(Change::LastByte),
        title: Title::Narrated,
        lacks: None,
    })?;
    Ok(Suite {
        scenes,
        attempts,
        gaps: Vec::new(alloc),
        more: false,
    })
}

/// What a role hears and says by the narration.
fn honest_scene(alloc: Global, p: &Protocol, role: u32) -> Result<Scene, NoMemory>
    requires { role < length p.now.roles }
    ensures narrated { IfOk result (IsNarrated p.now role) }
    ensures stand { IfOk result (SceneMayStand p.now) }
{
    let narrated = narrated_terms(alloc, p, role)?;
    Ok(Scene {
        arrivals: narrated.arrivals,
        messages: narrated.messages,
        right: None,
        due: None,
    })
}

/// The scene of a case, where the spare name has this number.
pub(crate) fn scene_of(spare: u32, case: Case) -> Scene
    ensures { IsSceneOf spare case result }
{
    let due = due_in(spare, &case);
    Scene {
        arrivals: case.arrivals,
        messages: case.messages,
        right: Some(case.wrong),
        due,
    }
}

/// The event at which the role stops whatever the wrong value is, where that is known.
fn due_in(spare: u32, case: &Case) -> Option<u32>
    ensures { IsDue spare case.now result }
{
    if differ_in_place(spare, &case.wrong, &case.one, &case.other) {
        Some(case.event)
    } else {
        None
    }
}

/// The scene of an opening's case, where the format at this place is parsed.
pub(crate) fn scene_of_opening(parsed: Option<u16>, case: OpeningCase) -> Scene
    ensures { IsSceneOfOpening parsed case result }
{
    let due = match parsed {
        Some(_format) => Some(case.event),
        None => None,
    };
    Scene {
        arrivals: case.arrivals,
        messages: case.messages,
        right: Some(case.opened),
        due,
    }
}

/// The same where what is opened gets a false tag, which is made of this value.
pub(crate) fn scene_of_tag(case: OpeningCase, pair: Term) -> Scene
    ensures { IsSceneOfTag case (tree_of pair) result }
{
    Scene {
        arrivals: case.arrivals,
        messages: case.messages,
        right: Some(pair),
        due: Some(case.event),
    }
}

/// Whether all terms of a case may stand in a plan.
pub(crate) fn terms_may_stand(
    alloc: Global,
    p: &Protocol,
    arrivals: &[Term],
    messages: &[Term],
    wrong: &Term,
) -> Result<bool, NoMemory>
    ensures { IfOk result (λ b. IsTrue b ↔ TermsMayStand p.now (map tree_of arrivals.now)
        (map tree_of messages.now) (tree_of wrong.now)) }
{
    if !all_may_stand(alloc, p, arrivals)? {
        return Ok(false);
    }
    if !all_may_stand(alloc, p, messages)? {
        return Ok(false);
    }
    may_stand(alloc, p, wrong)
}

fn all_may_stand(alloc: Global, p: &Protocol, terms: &[Term]) -> Result<bool, NoMemory>
    ensures { IfOk result (λ b. IsTrue b
        ↔ AllByRecursion (MayStand p.now) (map tree_of terms.now)) }
{
    for t in terms {
        if !may_stand(alloc, p, t)? {
            return Ok(false);
        }
    }
    Ok(true)
}
