//! A whole text from a source, up to a limit.
//!
//! Room is made before each read, so a read that succeeds is kept. The bytes read so far, then those still to come,
//! are the whole text.
ghost use Rattle.std.specs.Prelude.{◌≡◌, ◌<◌, ◌≤◌, ◌+◌, ◌-◌, [], length, max, vec_len, vec_capacity, IfOk, OnOk, OnErr, IfSome, IsErrOf};
ghost use Rattle.io_edge.specs.declared.reading.ReadAllFault.TheVariants.{ReadFault, NoMemory as OutOfMemory};
ghost use Rattle.io_edge.specs.Counts.{Rose};
ghost use Rattle.io_edge.specs.ReadAll.{whole_text, LeavesOf};

use crate::{Failed, NoMemory, Source};
use std::alloc::Global;
use thiserror::Error;

/// Why a text wasn't read whole.
#[derive(Clone, Copy, Debug, PartialEq, Eq, Error)]
pub enum ReadAllFault {
    /// A read failed.
    #[error("the input failed")]
    ReadFault,
    /// The text has more bytes than the limit.
    #[error("the input is too long")]
    TooLong,
    /// There was no memory for the text.
    #[error("out of memory")]
    NoMemory,
}

impl From<Failed> for ReadAllFault {
    ghost from_gives = { λ _ fault. fault ≡ ReadFault };

    fn from(_: Failed) -> Self {
        ReadAllFault::ReadFault
    }
}

impl From<NoMemory> for ReadAllFault {
    ghost from_gives = { λ _ fault. fault ≡ OutOfMemory };

    fn from(_: NoMemory) -> Self {
        ReadAllFault::NoMemory
    }
}

/// Bytes asked for at a read, at most.
const PIECE: usize = 4096;

/// Reads the source to its end, in at most `limit + 1` reads. A text of more than `limit` bytes is `TooLong`,
/// and then `limit + 1` bytes of it are gone; after any other fault, at most `limit` bytes are. The memory grows
/// by doubling, to `limit + 1` bytes at most.
pub fn read_all<S: Source>(
    alloc: Global,
    src: &mut S,
    limit: usize,
) -> Result<Vec<u8>, ReadAllFault>
    ensures within { IfOk result (λ all. length all.items ≤ limit) }
    ensures whole { IfOk result (λ all. IfSome (S.left src.old) (λ text. all.items ≡ text)) }
    ensures leaves { IfSome (S.left src.old) (λ text. LeavesOf limit text result (S.left src.new)) }
    ensures read_fault { IsErrOf result ReadAllFault.ReadFault
        → Rose (S.faults src.old) (S.faults src.new) }
    ensures faults_never_fall { S.faults src.old ≤ S.faults src.new }
{
    let mut all = Vec::new(alloc);
    let mut piece = [0; PIECE];
    while all.len() <= limit {
        // One byte above the limit is asked for, to see whether there is one.
        let size = (limit - all.len()).min(PIECE - 1) + 1;
        make_room(&mut all, size, limit)?;
        if read_piece(src, &mut piece[..size], &mut all)? == 0 {
            return Ok(all);
        }
    }
    Err(ReadAllFault::TooLong)
}

// Makes room for `size` more bytes, and for as many as are there already, but for `limit + 1` in all at most.
fn make_room(all: &mut Vec<u8>, size: usize, limit: usize) -> Result<(), NoMemory>
    requires below { vec_len all.old ≤ limit }
    requires size_below { vec_len all.old + size ≤ limit + 1 }
    ensures same { all.new.items ≡ all.old.items }
    ensures room { OnOk result (vec_len all.new + size ≤ vec_capacity all.new) }
    ensures memory { vec_capacity all.new ≤ max (vec_capacity all.old) (limit + 1) }
{
    if size <= all.capacity() - all.len() {
        return Ok(());
    }
    all.reserve_exact(size.max(all.len().min(limit - all.len())))
}

// Reads a piece to the end of `all`, which has room for it, and says how many bytes it has:
// none at the end of the text.
fn read_piece<S: Source>(src: &mut S, piece: &mut [u8], all: &mut Vec<u8>) -> Result<usize, Failed>
    requires some { 0 < length piece.old }
    requires room { vec_len all.old + length piece.old ≤ vec_capacity all.old }
    ensures within { IfOk result (λ k. k ≤ length piece.old) }
    ensures longer { IfOk result (λ k. length all.new.items ≡ length all.old.items + k) }
    ensures text { whole_text all.new.items (S.left src.new) ≡ whole_text all.old.items (S.left src.old) }
    ensures at_end { IfOk result (λ k. k ≡ 0 → IfSome (S.left src.new) (λ rest. rest ≡ [])) }
    ensures failed { OnErr result (Rose (S.faults src.old) (S.faults src.new)) }
    ensures unread { OnErr result (all.new.items ≡ all.old.items) }
    ensures faults_never_fall { S.faults src.old ≤ S.faults src.new }
{
    let size = src.read(piece)?;
    all.extend_from_slice(&piece[..size]).unwrap();
    Ok(size)
}
