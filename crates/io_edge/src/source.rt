//! Where bytes come from.
ghost use Rattle.std.specs.Prelude.{◌≡◌, ◌<◌, ◌≤◌, ℕ, List, Option, length, IfOk, OnErr};
ghost use Rattle.io_edge.specs.Counts.{Rose};
ghost use Rattle.io_edge.specs.Source.{MovesFront};

use crate::Failed;

/// Bytes that come in pieces, in order.
pub trait Source {
    /// The bytes still to come, where the source tells them.
    ghost left: { Self → Option (List ℕ) };

    /// How often a read has failed.
    ghost faults: { Self → ℕ };

    /// Moves bytes from the front of what is left to the front of `buf`, and says how many.
    /// No bytes come exactly at the end. A read that fails moves none; the next one may succeed.
    fn read(&mut self, buf: &mut [u8]) -> Result<usize, Failed>
        requires { 0 < length buf.old }
        ensures within { IfOk result (λ k. k ≤ length buf.old) }
        ensures moved { IfOk result (MovesFront (left self.old) (left self.new) buf.new) }
        ensures failed { OnErr result (Rose (faults self.old) (faults self.new)) }
        ensures kept { OnErr result (left self.new ≡ left self.old) }
        ensures faults_never_fall { faults self.old ≤ faults self.new };
}
