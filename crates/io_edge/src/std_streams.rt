//! The trusted edge: the streams of std as a source and a sink. They tell no content, only what went wrong.
ghost use Rattle.std.specs.Prelude.{◌≡◌, ◌≤◌, ◌<◌, length, take, None, IfOk, OnOk, OnErr};
ghost use Rattle.io_edge.specs.Counts.{raised, AreLater, Rose, SinkCounts};
ghost use Rattle.io_edge.specs.Source.{MovesFront};
ghost use Rattle.io_edge.specs.Sink.{Gains, CountsStall, stalls_after};

use crate::counts::{one_more, stalls_counted};
use crate::{Failed, Sink, Source};
use std::io::{Read, Write};
use std::marker::Model;

/// A stream of std as a source. Callers see its count of faults: each error of the stream raises it.
#[derive(Drop)]
pub struct StdSource<R: Read + Drop> {
    from: R,
    faults: u64,
}

impl<R: Read + Drop> Model for StdSource<R> {
    ghost use Rattle.std.specs.Prelude.{ℕ};

    ghost Value = { ℕ };

    ghost view = { λ s. s.faults };
}

impl<R: Read + Drop> StdSource<R> {
    /// The stream as a source that has no fault yet. Takes no memory.
    pub fn new(from: R) -> StdSource<R>
        ensures { result ≡ 0 }
    {
        StdSource { from, faults: 0 }
    }
}

impl<R: Read + Drop> Source for StdSource<R> {
    ghost left = { λ _. None };

    ghost faults = { λ s. s };

    fn read(&mut self, buf: &mut [u8]) -> Result<usize, Failed>
        requires { 0 < length buf.old }

        ensures same_count { OnOk result (self.new ≡ self.old) }
        ensures raised { OnErr result (self.new ≡ raised self.old) }

        // The trait's clauses.
        ensures within { IfOk result (λ k. k ≤ length buf.old) }
        ensures moved { IfOk result (MovesFront None None buf.new) }
        ensures failed { OnErr result (Rose self.old self.new) }
        ensures faults_never_fall { self.old ≤ self.new }
    {
        match self.from.read(buf) {
            Ok(size) => Ok(size),
            Err(_) => {
                self.faults = one_more(self.faults);
                Err(Failed)
            }
        }
    }
}

/// A stream of std as a sink. Callers see its counts, with size 0: each error of the stream raises `faults`, and each write
/// that takes nothing of a piece that isn't empty raises `stalls`. What a stream keeps back, as a buffered writer does,
/// is its owner's to flush.
#[derive(Drop)]
pub struct StdSink<W: Write + Drop> {
    to: W,
    faults: u64,
    stalls: u64,
}

impl<W: Write + Drop> Model for StdSink<W> {
    ghost use Rattle.io_edge.specs.Counts.{SinkCounts};

    ghost Value = { SinkCounts };

    ghost view = { λ s. record { faults = s.faults; stalls = s.stalls; size = 0 } };
}

impl<W: Write + Drop> StdSink<W> {
    /// The stream as a sink that has no fault and no stall yet. Takes no memory.
    pub fn new(to: W) -> StdSink<W>
        ensures { result ≡ record { faults = 0; stalls = 0; size = 0 } }
    {
        StdSink {
            to,
            faults: 0,
            stalls: 0,
        }
    }
}

impl<W: Write + Drop> Sink for StdSink<W> {
    ghost taken = { λ _. None };

    ghost counts = { λ s. s };

    fn write(&mut self, bytes: &[u8]) -> Result<usize, Failed>
        ensures stalls_counted { IfOk result (λ k.
            self.new ≡ record self.old { stalls = stalls_after self.old.stalls (length bytes.now) k }) }
        ensures fault_counted { OnErr result (self.new ≡ record self.old { faults = raised self.old.faults }) }

        // The trait's clauses.
        ensures within { IfOk result (λ k. k ≤ length bytes.now) }
        ensures moved { IfOk result (λ k. Gains None None (take k bytes.now)) }
        ensures stalled { IfOk result (CountsStall self.old self.new bytes.now) }
        ensures failed { OnErr result (Rose self.old.faults self.new.faults) }
        ensures counts { AreLater self.old self.new }
    {
        match self.to.write(bytes) {
            Ok(size) => {
                self.stalls = stalls_counted(self.stalls, bytes.len(), size);
                Ok(size)
            }
            Err(_) => {
                self.faults = one_more(self.faults);
                Err(Failed)
            }
        }
    }
}
