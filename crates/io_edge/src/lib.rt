//! Bytes in and out of a program: all of them, or a counted fault.
//!
//! A [`Source`] gives bytes in pieces, and a [`Sink`] takes them in pieces. Contracts see a source as the bytes still
//! to come (`left`) and a sink as the bytes taken (`taken`), where it tells them; each also counts what went wrong (`faults`
//! of a source, `counts` of a sink), and no count falls. So a caller can promise that it blames a stream only where the
//! stream's count rose.
//!
//! Promised. A read moves a piece from the front of what is left to the front of the buffer, and gives none exactly at
//! the end (`moved`); one that fails moves nothing and raises `faults` (`kept`, `failed`). A write is the mirror of it,
//! and raises `stalls` where it takes nothing of a piece that isn't empty (`stalled`). [`read_all`] gives the whole
//! text, or says what is left of it (`whole`, `leaves`, `read_fault`); [`write_all_of`] gives the whole text away, or
//! says how much of it (`whole`, `part`, `cause`).
//!
//! In memory, [`MemSource`] and [`MemSink`] say exactly what each call does, by piece, room and planned faults (`fails`,
//! `size`, `state`). [`StdSource`] and [`StdSink`] are the trusted edge: they tell no content, and count each error.
//!
//! Only tested, in `trials` and by runs of the program: the two adapters on real bytes; that memory suffices where it is
//! ample.
//! Not promised: what a stream of std reads or writes, that what it took has arrived, or how long a call takes.
//! A count stands still at 2^64 - 1, and still counts as risen there.
//!
//! The definitions begin in `specs/Source.antt`, `specs/Sink.antt` and `specs/Counts.antt`.
//! The central idea: the bytes read, then those still to come, are always the whole text (`whole_text`).
#![tactic(auto)]

mod counts;
mod mem_sink;
mod mem_source;
mod reading;
mod sink;
mod source;
mod std_streams;
mod writing;

pub use counts::Failed;
pub use mem_sink::MemSink;
pub use mem_source::MemSource;
pub use reading::{ReadAllFault, read_all};
pub use sink::Sink;
pub use source::Source;
pub use std::alloc::AllocError as NoMemory;
pub use std_streams::{StdSink, StdSource};
pub use writing::{WriteFault, write_all_of};
