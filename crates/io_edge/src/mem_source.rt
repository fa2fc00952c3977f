//! A source over bytes in memory, which gives pieces of a size and fails when it is told to.
ghost use Rattle.std.specs.Prelude.{◌≡◌, ◌≤◌, ◌<◌, ◌↔◌, ◌++◌, length, take, drop, min, Some, Contains, IfOk, OnErr, IsErr};
ghost use Rattle.io_edge.specs.Counts.{Rose};
ghost use Rattle.io_edge.specs.Source.{MovesFront};
ghost use Rattle.io_edge.specs.MemSource.{MemSourceState, read_size, after_read, after_failed_read};

use crate::counts::one_more;
use crate::{Failed, Source};
use std::marker::Model;

/// Bytes in memory as a source. Callers see a `MemSourceState`.
#[derive(Drop)]
pub struct MemSource {
    bytes: Vec<u8>,
    // The bytes before this place have been read. They stay where they are, so a read moves only its piece.
    at: usize,
    piece: usize,
    fails: Vec<u64>,
    reads: u64,
    faults: u64,
}

impl Model for MemSource {
    ghost use Rattle.std.specs.Prelude.{◌≤◌, drop, length};
    ghost use Rattle.io_edge.specs.MemSource.{MemSourceState};

    ghost Value = { MemSourceState };

    ghost view = { λ s. record {
      left = drop s.at s.bytes.items;
      piece = s.piece;
      fails = s.fails.items;
      reads = s.reads;
      faults = s.faults;
    } };

    ghost invariant = { λ s. (s.at ≤ length s.bytes.items) × (1 ≤ s.piece) };
}

impl MemSource {
    /// A source of these bytes, which gives at most `piece` of them at a read. The reads whose numbers,
    /// counted from 0, stand in `fails` fail. Takes no memory. Each read looks through `fails`: keep it short.
    pub fn new(bytes: Vec<u8>, piece: usize, fails: Vec<u64>) -> MemSource
        requires { 1 ≤ piece }
        ensures { result ≡ record {
          left = bytes.items;
          piece = piece;
          fails = fails.items;
          reads = 0;
          faults = 0;
        } }
    {
        MemSource {
            bytes,
            at: 0,
            piece,
            fails,
            reads: 0,
            faults: 0,
        }
    }
}

impl Source for MemSource {
    ghost left = { λ s. Some s.left };

    ghost faults = { λ s. s.faults };

    /// Fails exactly at the reads in `fails`; else gives a piece, or what there is room for, or what is left.
    fn read(&mut self, buf: &mut [u8]) -> Result<usize, Failed>
        requires { 0 < length buf.old }

        ensures fails { IsErr result ↔ Contains self.old.fails self.old.reads }
        ensures size { IfOk result (λ k. k ≡ read_size self.old (length buf.old)) }
        ensures bytes { IfOk result (λ k. buf.new ≡ take k self.old.left ++ drop k buf.old) }
        ensures state { IfOk result (λ k. self.new ≡ after_read self.old k) }
        ensures failed_state { OnErr result (self.new ≡ after_failed_read self.old) }
        ensures failed_bytes { OnErr result (buf.new ≡ buf.old) }

        // The trait's clauses, which follow from these.
        ensures within { IfOk result (λ k. k ≤ length buf.old) }
        ensures moved { IfOk result (MovesFront (Some self.old.left) (Some self.new.left) buf.new) }
        ensures failed { OnErr result (Rose self.old.faults self.new.faults) }
        ensures kept { OnErr result (Some self.new.left ≡ Some self.old.left) }
        ensures faults_never_fall { self.old.faults ≤ self.new.faults }
    {
        let is_failing = self.fails.contains(&self.reads);
        self.reads = one_more(self.reads);
        if is_failing {
            self.faults = one_more(self.faults);
            return Err(Failed);
        }
        let size = copy_front(&self.bytes[self.at..], buf, self.piece);
        self.at += size;
        Ok(size)
    }
}

// Copies the front of `from` to the front of `to`: at most `most` bytes, or what there is or has room.
fn copy_front(from: &[u8], to: &mut [u8], most: usize) -> usize
    ensures size { result ≡ min most (min (length to.old) (length from.now)) }
    ensures bytes { to.new ≡ take result from.now ++ drop result to.old }
{
    let size = most.min(to.len().min(from.len()));
    to[..size].copy_from_slice(&from[..size]);
    size
}
