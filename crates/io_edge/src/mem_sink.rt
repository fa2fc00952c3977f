//! A sink into memory, which takes pieces of a size, up to its room, and fails when it is told to.
ghost use Rattle.std.specs.Prelude.{◌≡◌, ◌≤◌, ◌↔◌, [], length, take, Some, Contains, IfOk, OnErr, IsErr};
ghost use Rattle.io_edge.specs.Counts.{AreLater, Rose};
ghost use Rattle.io_edge.specs.Sink.{Gains, CountsStall};
ghost use Rattle.io_edge.specs.MemSink.{MemSinkState, counts_of, write_size, after_write, after_failed_write};

use crate::counts::{one_more, stalls_counted};
use crate::{Failed, NoMemory, Sink};
use std::alloc::Global;
use std::marker::Model;

/// Memory as a sink. Callers see a `MemSinkState`.
#[derive(Drop)]
pub struct MemSink {
    taken: Vec<u8>,
    room: usize,
    piece: usize,
    fails: Vec<u64>,
    writes: u64,
    faults: u64,
    stalls: u64,
}

impl Model for MemSink {
    ghost use Rattle.std.specs.Prelude.{◌≤◌, length, vec_capacity};
    ghost use Rattle.io_edge.specs.MemSink.{MemSinkState};

    ghost Value = { MemSinkState };

    ghost view = { λ s. record {
      taken = s.taken.items;
      room = s.room;
      piece = s.piece;
      fails = s.fails.items;
      writes = s.writes;
      faults = s.faults;
      stalls = s.stalls;
    } };

    // A write takes no memory, since all the room is there from the start.
    ghost invariant = { λ s. (length s.taken.items ≤ s.room) × (s.room ≤ vec_capacity s.taken) };
}

impl MemSink {
    /// A sink with room for `room` bytes in all, which takes at most `piece` of them at a write. The writes whose
    /// numbers, counted from 0, stand in `fails` fail. All memory is taken here. Each write looks through `fails`:
    /// keep it short.
    pub fn new(
        alloc: Global,
        room: usize,
        piece: usize,
        fails: Vec<u64>,
    ) -> Result<MemSink, NoMemory>
        requires { 1 ≤ piece }
        ensures { IfOk result (λ sink. sink ≡ record {
          taken = [];
          room = room;
          piece = piece;
          fails = fails.items;
          writes = 0;
          faults = 0;
          stalls = 0;
        }) }
    {
        Ok(MemSink {
            taken: Vec::with_capacity(alloc, room)?,
            room,
            piece,
            fails,
            writes: 0,
            faults: 0,
            stalls: 0,
        })
    }

    /// The bytes taken so far.
    pub fn bytes(&self) -> &[u8]
        ensures { result.now ≡ self.now.taken }
    {
        &self.taken
    }
}

impl Sink for MemSink {
    ghost taken = { λ s. Some s.taken };

    ghost counts = { counts_of };

    /// Fails exactly at the writes in `fails`; else takes a piece, or what is offered, or what there is room for.
    fn write(&mut self, bytes: &[u8]) -> Result<usize, Failed>
        ensures fails { IsErr result ↔ Contains self.old.fails self.old.writes }
        ensures size { IfOk result (λ k. k ≡ write_size self.old (length bytes.now)) }
        ensures state { IfOk result (λ k. self.new ≡ after_write self.old bytes.now k) }
        ensures failed_state { OnErr result (self.new ≡ after_failed_write self.old) }

        // The trait's clauses, which follow from these.
        ensures within { IfOk result (λ k. k ≤ length bytes.now) }
        ensures moved { IfOk result (λ k.
            Gains (Some self.old.taken) (Some self.new.taken) (take k bytes.now)) }
        ensures stalled { IfOk result (CountsStall (counts_of self.old) (counts_of self.new) bytes.now) }
        ensures failed { OnErr result (Rose self.old.faults self.new.faults) }
        ensures kept { OnErr result (Some self.new.taken ≡ Some self.old.taken) }
        ensures counts { AreLater (counts_of self.old) (counts_of self.new) }
    {
        let is_failing = self.fails.contains(&self.writes);
        self.writes = one_more(self.writes);
        if is_failing {
            self.faults = one_more(self.faults);
            return Err(Failed);
        }
        let size = bytes
            .len()
            .min(self.piece.min(self.room - self.taken.len()));
        self.taken.extend_from_slice(&bytes[..size]).unwrap();
        self.stalls = stalls_counted(self.stalls, bytes.len(), size);
        Ok(size)
    }
}
