//! What can be served over a wire.

ghost use Rattle.std.specs.Prelude.{◌≡◌, List, [], ◌∷◌, ◌++◌, true, IfOk, OnOk, OnErr};
ghost use Rattle.std.specs.List.{All};
ghost use Rattle.anb_host.specs.declared.event.HostEvent.{HostEvent};
ghost use Rattle.anb_host.specs.Hosts.{Fits, HostValue, IsNarrow, StandsFor, plays_of};
ghost use Rattle.anb_host.specs.Own.{answer};

use crate::{Host, HostEvent, Notice};
use anb_base::NoMemory;
use std::alloc::Global;

/// What can be served over a wire: a host, or what keeps more beside one.
pub trait Servable {
    /// The host that goes on in it.
    ghost host: { Self → HostValue };

    /// What is true of it before and after it answered these events.
    ghost Follows: { Self → List HostEvent → Self → Type 0 };

    /// Whether memory was wanting before.
    fn has_failed(&self) -> bool
        ensures { result ≡ (host self.now).failed };

    /// Memory was wanting: so it answers from then on.
    fn fail(&mut self)
        ensures failed { (host self.new).failed ≡ true }
        ensures code { (host self.new).code ≡ (host self.old).code }
        ensures init { (host self.new).init ≡ (host self.old).init }
        ensures seed { (host self.new).seed ≡ (host self.old).seed };

    /// Answers an event.
    fn event(&mut self, alloc: Global, event: HostEvent) -> Result<Vec<Notice>, NoMemory>
        requires { Fits event }
        ensures own { IfOk result (λ told. (past : List HostEvent)
            → StandsFor (host self.old) past
            → told.items ≡ answer (plays_of (host self.old)) past event) }
        ensures stands { OnOk result ((past : List HostEvent) → StandsFor (host self.old) past
            → StandsFor (host self.new) (past ++ event ∷ [])) }
        ensures narrow { IfOk result (λ told. All IsNarrow told.items) }
        ensures code { (host self.new).code ≡ (host self.old).code }
        ensures init { (host self.new).init ≡ (host self.old).init }
        ensures seed { (host self.new).seed ≡ (host self.old).seed }
        ensures followed { OnOk result (Follows self.old (event ∷ []) self.new) };

    /// Before any event all that is true stays so.
    ghost stays: { (x : Self) → Follows x [] x };

    /// What is true after some events, and then after more, is true after all of them.
    ghost joined: { (x y z : Self) (some more : List HostEvent)
        → Follows x some y → Follows y more z → Follows x (some ++ more) z };
}

impl Servable for Host<'_> {
    ghost host = { λ host. host };

    ghost Follows = { λ x events y. Unit {0} };

    ghost stays = { λ x. tt };

    ghost joined = { λ x y z some more one two. tt };

    fn has_failed(&self) -> bool {
        Host::has_failed(self)
    }

    fn fail(&mut self) {
        Host::fail(self)
    }

    fn event(&mut self, alloc: Global, event: HostEvent) -> Result<Vec<Notice>, NoMemory> {
        Host::event(self, alloc, event)
    }
}
