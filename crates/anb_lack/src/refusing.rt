//! What is said of a refusal.
ghost use Rattle.std.specs.Prelude.{◌≡◌, IfOk, length, map};
ghost use Rattle.std.specs.List.{AllByRecursion};
ghost use Rattle.anb_term.specs.View.{tree_of};
ghost use Rattle.anb_protocol.specs.Laws.{HoldsOf};
ghost use Rattle.anb_protocol.specs.Plans.{plan_of, term_in};
ghost use Rattle.anb_protocol.specs.Texts.{IsTermOf};
ghost use Rattle.anb_protocol.specs.Views.{plan_event};
ghost use Rattle.anb_compile.specs.Unsent.{IsFirstUnsentOfAll};
ghost use Rattle.anb_reason.specs.Reach.{IsReason};
ghost use Rattle.anb_lack.specs.Lacking.{lists_text, refused_text, IsLackText};
ghost use Rattle.anb_lack.specs.Origins.{IsListedFrom};

use crate::lines::{put_had, put_lacking, put_refused};
use crate::listing::{before_send, listed_origins};
use crate::origins::Origin;
use crate::parts::lacking;
use crate::root_lines::put_roots;
use crate::roots::roots;
use anb_base::{NoMemory, Text};
use anb_protocol::{Event, Protocol, protocols_hold, terms_of_plans};
use anb_reason::{Refusal, refusal_of};
use std::alloc::Global;

/// A line, without its end, on the action that can't be sent; and the lists of what the sender has and
/// lacks, and why.
#[derive(Drop)]
pub struct LackText {
    pub line: Vec<u8>,
    pub lists: Vec<u8>,
}

/// What the sender of the first message that can't be sent lacks: its number and the action's, as
/// `compile_all` tells them. Beside what `refusal_of` costs, each term of the sender's plan and of the
/// message is looked at a few times, and each line of the text once more. Where a term is from costs
/// what `refusal_of` does once more. Each part that is missing is compared with what stands behind
/// keys that are missing.
pub fn lack_text(
    alloc: Global,
    protocol: &Protocol,
    role: u32,
    action: u32,
) -> Result<LackText, NoMemory>
    requires { IsFirstUnsentOfAll protocol.now role action }
    ensures { IfOk result (λ text. IsLackText protocol.now text.line.items text.lists.items) }
{
    protocols_hold();
    terms_of_plans();
    let _ = protocol.name();
    let refusal = refusal_of(alloc, protocol, role, action)?;
    refusal_text(alloc, protocol, &refusal)
}

/// What is said of a refusal.
fn refusal_text(alloc: Global, protocol: &Protocol, refusal: &Refusal) -> Result<LackText, NoMemory>
    requires holds { HoldsOf protocol.now }
    requires plan { AllByRecursion (λ e. IsTermOf protocol.now (term_in e))
        (plan_of protocol.now refusal.now.role) }
    requires reason { IsReason protocol.now refusal.now }
    requires message { IsTermOf protocol.now (tree_of refusal.now.term) }
    requires terms { AllByRecursion (IsTermOf protocol.now) refusal.now.terms }
    ensures { IfOk result (λ text. IsLackText protocol.now text.line.items text.lists.items) }
{
    let plan = protocol.plan(alloc, refusal.role)?;
    let before = before_send(plan.events(), refusal.action);
    let terms = refusal.terms.as_slice();
    let origins = listed_origins(alloc, protocol, refusal.role, terms, before)?;
    let sender = &protocol.roles()[refusal.role as usize];
    let mut line = Vec::new(alloc);
    put_refused(alloc, &mut line, protocol, sender, refusal)?;
    let lists = lists_text(alloc, protocol, sender, refusal, before, &origins)?;
    Ok(LackText { line, lists })
}

/// What the sender has and lacks, where these events are before the send, and why.
fn lists_text(
    alloc: Global,
    protocol: &Protocol,
    sender: &Text,
    refusal: &Refusal,
    before: &[Event],
    origins: &[Origin],
) -> Result<Vec<u8>, NoMemory>
    requires before { AllByRecursion (λ e. IsTermOf protocol.now (term_in e))
        (map plan_event before.now) }
    requires message { IsTermOf protocol.now (tree_of refusal.now.term) }
    requires terms { AllByRecursion (IsTermOf protocol.now) refusal.now.terms }
    requires long { length origins.now ≡ length refusal.now.terms }
    ensures { IfOk result (λ lists. lists.items ≡ lists_text protocol.now sender.now refusal.now
        (map plan_event before.now) origins.now) }
{
    let terms = refusal.terms.as_slice();
    let lacking = lacking(alloc, terms, &refusal.term)?;
    let roots = roots(alloc, terms, before, &lacking)?;
    let mut out = Vec::new(alloc);
    put_had(alloc, &mut out, protocol, terms, origins)?;
    put_lacking(alloc, &mut out, protocol, &lacking)?;
    put_roots(alloc, &mut out, protocol, sender, &roots)?;
    Ok(out)
}
