//! A whole text to a sink.
ghost use Rattle.std.specs.Prelude.{◌≡◌, ◌<◌, length, take, OnOk, IfErr, OnErr};
ghost use Rattle.io_edge.specs.Counts.{AreLater};
ghost use Rattle.io_edge.specs.Sink.{Gains};
ghost use Rattle.io_edge.specs.WriteAll.{FailedOrStalled};

use crate::Sink;
use thiserror::Error;

/// A text that wasn't written whole.
#[derive(Clone, Copy, Debug, PartialEq, Eq, Error)]
#[error("the output failed after {taken} bytes")]
pub struct WriteFault {
    /// The bytes that the sink has taken of the text.
    pub taken: usize,
}

/// Writes all the bytes, in as many writes as it takes, or up to the first write that fails or stalls.
/// Where there are no bytes there is no write. Takes no memory.
pub fn write_all_of<K: Sink>(sink: &mut K, bytes: &[u8]) -> Result<(), WriteFault>
    ensures whole { OnOk result (Gains (K.taken sink.old) (K.taken sink.new) bytes.now) }
    ensures short { IfErr result (λ fault. fault.taken < length bytes.now) }
    ensures part { IfErr result (λ fault.
        Gains (K.taken sink.old) (K.taken sink.new) (take fault.taken bytes.now)) }
    ensures cause { OnErr result (FailedOrStalled (K.counts sink.old) (K.counts sink.new)) }
    ensures counts { AreLater (K.counts sink.old) (K.counts sink.new) }
    ensures nothing { length bytes.now ≡ 0 → sink.new ≡ sink.old }
{
    let mut taken = 0;
    while taken < bytes.len() {
        match sink.write(&bytes[taken..]) {
            Ok(size) if size > 0 => taken += size,
            _ => return Err(WriteFault { taken }),
        }
    }
    Ok(())
}
