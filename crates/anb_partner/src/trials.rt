//! Children, one for each case: programs that are started, or peers that are dialled.

ghost use Rattle.std.specs.Prelude.{◌≡◌, ◌≤◌, ℕ, IfOk, IfSome, OnOk, OnErr};
ghost use Rattle.anb_base.specs.Moves.{Rose, Put};
ghost use Rattle.anb_stage.specs.Children.{lines};
ghost use Rattle.anb_partner.specs.Trials.{Trial, IsUnstarted, KeptByFinish, OthersStay, asked_words};

use anb_base::{Failed, Text, Wire};

/// What is tried: a program with its words, or whoever is dialled at a place.
#[derive(Clone, Copy)]
pub enum Target<'w> {
    Program(&'w [Text]),
    Dial(&'w Text),
}

/// How a child ended: by itself, with a status, or by a signal; or its connection ended, which tells
/// nothing more.
#[derive(Clone, Copy, Debug, PartialEq, Eq, Drop)]
pub enum ChildEnd {
    Status(u8),
    Signal(u8),
    Closed,
}

/// Children, one for each case of a test suite: programs, or peers at the other end of a connection. A
/// child that runs is a wire of its own, which is its output and its input, and so what is read and
/// written there touches no other child.
pub trait Trials {
    /// A child that runs.
    type Child: Wire + Drop;

    /// What is told of each case's child.
    ghost trial: { Self → ℕ → Trial };

    /// Starts the child of a case: a program with its words, or a connection to a place. Where there is a
    /// limit, each call for the child fails once it was silent for so many seconds: it gave no byte that
    /// was waited for, took none, didn't end, or couldn't be dialled.
    fn start(
        &mut self,
        case: u32,
        limit: Option<u32>,
        target: Target,
    ) -> Result<Self::Child, Failed>
        requires unstarted { (trial self.old case).phase ≡ 0 }
        ensures child { IfOk result (λ child.
            Self.Child.state child ≡ (trial self.old case).pipes) }
        ensures asked { OnOk result
            (Put (trial self.old case).asked (trial self.new case).asked
            (lines (asked_words limit target.entry))) }
        ensures started { OnOk result ((trial self.new case).phase ≡ 1) }
        ensures failed { OnErr result (IsUnstarted (trial self.old case) (trial self.new case)) }
        ensures cause { OnErr result
            (Rose (trial self.old case).faults (trial self.new case).faults) }
        ensures quiet { OnOk result
            ((trial self.new case).faults ≡ (trial self.old case).faults) }
        ensures never_falls { (trial self.old case).faults ≤ (trial self.new case).faults }
        ensures ends { (trial self.new case).ends ≡ (trial self.old case).ends }
        ensures others { OthersStay case (trial self.old) (trial self.new) };

    /// Ends a child's input.
    fn close(&mut self, child: &mut Self::Child)
        ensures child { Self.Child.state child.new ≡ Self.Child.state child.old }
        ensures trials { trial self.new ≡ trial self.old };

    /// Ends the input of a case's child, waits for its end, and tells it. Whatever it answers, the child
    /// doesn't run any more: one that is silent for too long is killed, or its connection is closed.
    fn finish(&mut self, case: u32, child: Self::Child) -> Result<ChildEnd, Failed>
        requires running { (trial self.old case).phase ≡ 1 }
        ensures end { IfOk result (λ end.
            IfSome (trial self.old case).ends (λ told. end ≡ told)) }
        ensures finished { (trial self.new case).phase ≡ 2 }
        ensures pipes { (trial self.new case).pipes ≡ Self.Child.state child }
        ensures cause { OnErr result
            (Rose (trial self.old case).faults (trial self.new case).faults) }
        ensures quiet { OnOk result
            ((trial self.new case).faults ≡ (trial self.old case).faults) }
        ensures never_falls { (trial self.old case).faults ≤ (trial self.new case).faults }
        ensures kept { KeptByFinish (trial self.old case) (trial self.new case) }
        ensures others { OthersStay case (trial self.old) (trial self.new) };

    /// Whether the child of a case that was finished was silent for too long.
    fn was_silent(&self, case: u32) -> bool
        ensures { result ≡ (trial self.now case).silent };
}
