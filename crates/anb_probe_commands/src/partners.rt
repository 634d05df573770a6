//! The partners of scenes.
ghost use Rattle.std.specs.Prelude.{◌≡◌, ◌<◌, length, map, slice_get, All, IfOk, Some, None, Ok};
ghost use Rattle.anb_attempts.specs.Attempts.{SceneMayStand};
ghost use Rattle.anb_probe_commands.specs.Cases.{AreMade, IsMade, lack_in, lack_of};

use anb_attempts::Scene;
use anb_base::NoMemory;
use anb_partner::{Partner, PartnerNo, partner_for};
use anb_protocol::Protocol;
use std::alloc::Global;

/// Why a scene has no partner.
#[derive(Clone, Copy, Debug, PartialEq, Eq, Drop)]
pub enum Lack {
    /// What the role is to hear in this line can't be made by then.
    Blocked(u32),
    /// It has too many terms.
    Large,
}

impl Lack {
    ghost use Rattle.std.specs.Prelude.{◌≡◌};
    ghost use Rattle.anb_probe_commands.specs.Cases.{lack_words};

    /// As a report has it.
    pub(crate) fn words(self) -> &'static str
        ensures { result.now ≡ lack_words self }
    {
        match self {
            Lack::Blocked(_line) => "the others can't make it",
            Lack::Large => "its partner is too large",
        }
    }
}

/// The partners of a role in these scenes, or why there is none. Each takes as long as compiling the
/// role.
pub(crate) fn partners_for(
    alloc: Global,
    p: &Protocol,
    role: u32,
    scenes: &[Scene],
) -> Result<Vec<Result<Partner, Lack>>, NoMemory>
    requires role { role < length p.now.roles }
    requires stand { All (SceneMayStand p.now) scenes.now }
    ensures made { IfOk result (λ partners. AreMade p.now role scenes.now partners.items) }
    ensures each { IfOk result (λ partners. length partners.items ≡ length scenes.now) }
{
    let mut partners = Vec::new(alloc);
    for scene in scenes {
        partners.push(partner_in(alloc, p, role, scene)?)?;
    }
    Ok(partners)
}

/// The partner in one scene.
fn partner_in(
    alloc: Global,
    p: &Protocol,
    role: u32,
    scene: &Scene,
) -> Result<Result<Partner, Lack>, NoMemory>
    requires role { role < length p.now.roles }
    requires stand { SceneMayStand p.now scene.now }
    ensures { IfOk result (IsMade p.now role scene.now) }
{
    let right = scene.right.as_ref();
    match partner_for(alloc, p, role, &scene.arrivals, &scene.messages, right) {
        Ok(partner) => Ok(Ok(partner)),
        Err(PartnerNo::CannotSend(line)) => Ok(Err(Lack::Blocked(line))),
        Err(PartnerNo::Large) => Ok(Err(Lack::Large)),
        Err(PartnerNo::NoMemory) => Err(NoMemory),
    }
}

/// Why an attempt with this scene has no partner, where it has none.
pub(crate) fn lack_at(partners: &[Result<Partner, Lack>], scene: usize) -> Option<Lack>
    ensures { result ≡ lack_in (map lack_of partners.now) scene }
{
    match partners.get(scene) {
        Some(Err(lack)) => Some(*lack),
        Some(Ok(_)) => None,
        None => None,
    }
}

/// The partner of this scene, which has one.
pub(crate) fn partner_at(partners: &[Result<Partner, Lack>], scene: usize) -> &Partner
    requires within { scene < length partners.now }
    requires made { lack_in (map lack_of partners.now) scene ≡ None }
    ensures { slice_get partners.now scene ≡ Some (Ok result.now) }
{
    match &partners[scene] {
        Ok(partner) => partner,
        Err(_) => unreachable!(),
    }
}
