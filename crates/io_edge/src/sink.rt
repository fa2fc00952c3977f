//! Where bytes go.
ghost use Rattle.std.specs.Prelude.{◌≡◌, ◌≤◌, ℕ, List, Option, length, take, IfOk, OnErr};
ghost use Rattle.io_edge.specs.Counts.{SinkCounts, AreLater, Rose};
ghost use Rattle.io_edge.specs.Sink.{Gains, CountsStall};

use crate::Failed;

/// Takes bytes in pieces, in order.
pub trait Sink {
    /// The bytes taken so far, where the sink tells them.
    ghost taken: { Self → Option (List ℕ) };

    /// How often a write has failed (`faults`), how often one took nothing of a piece that wasn't empty (`stalls`), and the
    /// room that the sink was made with, in bytes, which never changes (`size`).
    ghost counts: { Self → SinkCounts };

    /// Takes bytes from the front of `bytes`, and says how many. A write that fails takes none;
    /// the next one may succeed.
    fn write(&mut self, bytes: &[u8]) -> Result<usize, Failed>
        ensures within { IfOk result (λ k. k ≤ length bytes.now) }
        ensures moved { IfOk result (λ k. Gains (taken self.old) (taken self.new) (take k bytes.now)) }
        ensures stalled { IfOk result (CountsStall (counts self.old) (counts self.new) bytes.now) }
        ensures failed { OnErr result (Rose (counts self.old).faults (counts self.new).faults) }
        ensures kept { OnErr result (taken self.new ≡ taken self.old) }
        ensures counts { AreLater (counts self.old) (counts self.new) };
}
