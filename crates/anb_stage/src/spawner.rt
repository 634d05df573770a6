//! Child programs, one for each role.

ghost use Rattle.std.specs.Prelude.{◌≡◌, ◌<◌, ◌≤◌, ℕ, length, take, IfOk, IfSome, OnOk, OnErr};
ghost use Rattle.anb_base.specs.Moves.{Rose, Took, Put, AtEnd, Stamped};
ghost use Rattle.anb_stage.specs.Children.{Child, lines, written_to_all, KeptByStart, KeptByRead, KeptByWrite, KeptByFinish, IsUnstarted, OthersStay};
ghost use Rattle.anb_stage.specs.Words.{asked_by};
ghost use Rattle.anb_stage.specs.declared.TheConstants.{ROLES};

use crate::ChildWords;
use anb_base::Failed;

/// Child programs, one for each role. A role's child is started once, and then read and written until
/// it is finished.
pub trait Spawner {
    /// What is told of each role's child.
    ghost child: { Self → ℕ → Child };

    /// Starts a role's child with these words. Where there is a limit, each call for the child fails
    /// once it was silent for so many seconds: it gave no byte that was waited for, took none, or
    /// didn't end.
    fn start(&mut self, role: u32, limit: Option<u32>, own: &ChildWords) -> Result<(), Failed>
        requires within { role < ROLES }
        ensures asked { OnOk result (Put (child self.old role).asked (child self.new role).asked
            (lines (asked_by limit own.now))) }
        ensures started { OnOk result ((child self.new role).phase ≡ 1) }
        ensures failed { OnErr result (IsUnstarted (child self.old role) (child self.new role)) }
        ensures cause { OnErr result
            (Rose (child self.old role).faults (child self.new role).faults) }
        ensures quiet { OnOk result
            ((child self.new role).faults ≡ (child self.old role).faults) }
        ensures never_falls { (child self.old role).faults ≤ (child self.new role).faults }
        ensures kept { KeptByStart (child self.old role) (child self.new role) }
        ensures others { OthersStay role (child self.old) (child self.new) };

    /// Takes the next bytes of a child's output, at most as many as the buffer has room for. `Ok(0)`
    /// on a buffer that isn't empty is the end of its output.
    fn read(&mut self, role: u32, buf: &mut [u8]) -> Result<usize, Failed>
        requires within { role < ROLES }
        requires running { (child self.old role).phase ≡ 1 }
        ensures within { IfOk result (λ n. n ≤ length buf.new) }
        ensures took { IfOk result (λ n.
            Took (child self.old role).left (child self.new role).left (take n buf.new)) }
        ensures stamped { IfOk result (λ n.
            Stamped (child self.old role).taken_at (child self.new role).taken_at
            (written_to_all (child self.old)) n) }
        ensures end { IfOk result (λ n.
            0 < length buf.new → n ≡ 0 → AtEnd (child self.old role).left) }
        ensures failed { OnErr result ((child self.new role).left ≡ (child self.old role).left) }
        ensures unstamped { OnErr result
            ((child self.new role).taken_at ≡ (child self.old role).taken_at) }
        ensures cause { OnErr result
            (Rose (child self.old role).faults (child self.new role).faults) }
        ensures quiet { OnOk result
            ((child self.new role).faults ≡ (child self.old role).faults) }
        ensures never_falls { (child self.old role).faults ≤ (child self.new role).faults }
        ensures kept { KeptByRead (child self.old role) (child self.new role) }
        ensures others { OthersStay role (child self.old) (child self.new) };

    /// Hands a child the first bytes of the piece, one at least where it isn't empty. A child that
    /// can take nothing is a fault.
    fn write(&mut self, role: u32, piece: &[u8]) -> Result<usize, Failed>
        requires within { role < ROLES }
        requires running { (child self.old role).phase ≡ 1 }
        ensures within { IfOk result (λ n. n ≤ length piece.now) }
        ensures some { IfOk result (λ n. 0 < length piece.now → 0 < n) }
        ensures put { IfOk result (λ n.
            Put (child self.old role).written (child self.new role).written (take n piece.now)) }
        ensures failed { OnErr result
            ((child self.new role).written ≡ (child self.old role).written) }
        ensures cause { OnErr result
            (Rose (child self.old role).faults (child self.new role).faults) }
        ensures quiet { OnOk result
            ((child self.new role).faults ≡ (child self.old role).faults) }
        ensures never_falls { (child self.old role).faults ≤ (child self.new role).faults }
        ensures kept { KeptByWrite (child self.old role) (child self.new role) }
        ensures others { OthersStay role (child self.old) (child self.new) };

    /// Ends a child's input, waits for its end, and answers its status.
    fn finish(&mut self, role: u32) -> Result<u8, Failed>
        requires within { role < ROLES }
        requires running { (child self.old role).phase ≡ 1 }
        ensures status { IfOk result (λ n. IfSome (child self.old role).status (λ told. n ≡ told)) }
        ensures finished { OnOk result ((child self.new role).phase ≡ 2) }
        ensures failed { OnErr result ((child self.new role).phase ≡ (child self.old role).phase) }
        ensures cause { OnErr result
            (Rose (child self.old role).faults (child self.new role).faults) }
        ensures quiet { OnOk result
            ((child self.new role).faults ≡ (child self.old role).faults) }
        ensures never_falls { (child self.old role).faults ≤ (child self.new role).faults }
        ensures kept { KeptByFinish (child self.old role) (child self.new role) }
        ensures others { OthersStay role (child self.old) (child self.new) };

    /// Whether the last call for a role's child that failed did so since the child was silent for too
    /// long.
    fn was_silent(&self, role: u32) -> bool
        requires { role < ROLES }
        ensures { result ≡ (child self.now role).silent };
}
