//! What goes wrong at a stream, and how often.
ghost use Rattle.std.specs.Prelude.{◌≡◌};
ghost use Rattle.io_edge.specs.Counts.{raised};
ghost use Rattle.io_edge.specs.Sink.{stalls_after};

use thiserror::Error;

/// A read or a write that failed; the object's count of faults rose.
#[derive(Clone, Copy, Debug, PartialEq, Eq, Error)]
#[error("the stream failed")]
pub struct Failed;

// One more. A count that stood still at 0 after 2^64 faults would deny them all.
pub(crate) fn one_more(count: u64) -> u64
    ensures { result ≡ raised count }
{
    count.saturating_add(1)
}

// The stalls after a write that took `taken` of the `offered` bytes.
pub(crate) fn stalls_counted(stalls: u64, offered: usize, taken: usize) -> u64
    ensures { result ≡ stalls_after stalls offered taken }
{
    if taken == 0 && offered > 0 {
        one_more(stalls)
    } else {
        stalls
    }
}
