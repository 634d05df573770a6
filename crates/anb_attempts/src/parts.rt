//! What comes of one check: a scene with its attempts, or a gap, or neither.
ghost use Rattle.std.specs.Prelude.{◌≡◌, ◌∷◌, [], IfOk, OnOk};
ghost use Rattle.anb_verdict.specs.Places.{place_value};
ghost use Rattle.anb_attempts.specs.Attempts.{nothing, IsGap, IsJoined};
ghost use Rattle.anb_attempts.specs.Parts.{part_value};

use crate::attempts::{Attempt, Gap, Scene, Why};
use anb_base::NoMemory;
use anb_verdict::Place;
use std::alloc::Global;

/// What comes of one check.
#[derive(Drop)]
pub(crate) struct Part {
    pub(crate) scenes: Vec<Scene>,
    pub(crate) attempts: Vec<Attempt>,
    pub(crate) gaps: Vec<Gap>,
}

/// Nothing.
pub(crate) fn nothing(alloc: Global) -> Part
    ensures { part_value result ≡ nothing }
{
    Part {
        scenes: Vec::new(alloc),
        attempts: Vec::new(alloc),
        gaps: Vec::new(alloc),
    }
}

/// One scene, and the attempts that have it.
pub(crate) fn one_scene(
    alloc: Global,
    scene: Scene,
    attempts: Vec<Attempt>,
) -> Result<Part, NoMemory>
    ensures scene { IfOk result (λ part. part.scenes.items ≡ scene ∷ []) }
    ensures attempts { IfOk result (λ part. part.attempts.items ≡ attempts.items) }
    ensures gaps { IfOk result (λ part. part.gaps.items ≡ []) }
{
    let mut scenes = Vec::new(alloc);
    scenes.push(scene)?;
    Ok(Part {
        scenes,
        attempts,
        gaps: Vec::new(alloc),
    })
}

/// Adds what comes of another case.
pub(crate) fn join(part: &mut Part, more: Part) -> Result<(), NoMemory>
    ensures { OnOk result (IsJoined (part_value part.old) (part_value more) (part_value part.new)) }
{
    let mut scenes = more.scenes;
    let mut attempts = more.attempts;
    let mut gaps = more.gaps;
    part.scenes.append(&mut scenes)?;
    part.attempts.append(&mut attempts)?;
    part.gaps.append(&mut gaps)?;
    Ok(())
}

/// One gap.
pub(crate) fn one_gap(alloc: Global, place: Place, why: Why) -> Result<Part, NoMemory>
    ensures { IfOk result (λ part. IsGap (place_value place) why (part_value part)) }
{
    let mut gaps = Vec::new(alloc);
    gaps.push(Gap { place, why })?;
    Ok(Part {
        scenes: Vec::new(alloc),
        attempts: Vec::new(alloc),
        gaps,
    })
}
