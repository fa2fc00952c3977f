//! Streams of pieces of any size, streams that fail at a chosen place, and those of std.

ghost use Rattle.std.specs.Prelude.{◌≤◌};

use io_edge::{
    MemSink, MemSource, ReadAllFault, StdSink, StdSource, WriteFault, read_all, write_all_of,
};
use std::alloc::Global;
use std::io::{Cursor, Error, ErrorKind, Read, Result as IoResult, Write};

const TEXT: &[u8] = b"abcdefghijklmnopqrstuvwxyz";

// Bytes of a text, and bytes of a piece.
static SIZES: [(usize, usize); 5] = [(0, 1), (26, 1), (26, 7), (9000, 7), (9000, 4096)];

// A text that is read whole, and then written whole.
fn is_whole(alloc: Global, size: usize, piece: usize) -> Option<bool>
    requires { 1 ≤ piece }
{
    let text = vec![in alloc; b'x'; size].ok()?;
    let mut source = MemSource::new(text, piece, Vec::new(alloc));
    let read = read_all(alloc, &mut source, size).ok()?;
    let mut sink = MemSink::new(alloc, size, piece, Vec::new(alloc)).ok()?;
    write_all_of(&mut sink, &read).ok()?;
    Some(read.len() == size && sink.bytes() == read.as_slice())
}

fn are_whole(alloc: Global) -> bool {
    SIZES.iter().all(|(size, piece)| *piece >= 1 && is_whole(alloc, *size, *piece) == Some(true))
}

#[test]
fn a_text_comes_in_and_goes_out_whole_in_pieces_of_any_size(rt: HostRuntime) {
    assert!(rt; are_whole(rt.alloc()));
}

// A text in pieces of ten bytes: which reads fail, the limit, the fault, and what a second reader finds.
type BrokenRead = (&'static [u64], usize, ReadAllFault, &'static [u8]);

static READS: [BrokenRead; 5] = [
    (&[0], 26, ReadAllFault::ReadFault, TEXT),
    (&[1], 26, ReadAllFault::ReadFault, b"klmnopqrstuvwxyz"),
    // The read that would find the end.
    (&[3], 26, ReadAllFault::ReadFault, b""),
    // The byte above the limit is read too.
    (&[], 24, ReadAllFault::TooLong, b"z"),
    (&[], 25, ReadAllFault::TooLong, b""),
];

fn is_kept(alloc: Global, row: &BrokenRead) -> Option<bool> {
    let (fails, limit, fault, rest) = *row;
    let mut source = MemSource::new(TEXT.to_vec(alloc).ok()?, 10, fails.to_vec(alloc).ok()?);
    let first = read_all(alloc, &mut source, limit).err()?;
    let second = read_all(alloc, &mut source, 26).ok()?;
    Some(first == fault && second.as_slice() == rest)
}

#[test]
fn a_read_that_fails_keeps_the_rest(rt: HostRuntime) {
    let alloc = rt.alloc();
    assert!(rt; READS.iter().all(|row| is_kept(alloc, row) == Some(true)));
}

// A text in pieces of ten bytes: which writes fail, the room of the sink, and the bytes that it takes.
type BrokenWrite = (&'static [u64], usize, &'static [u8]);

static WRITES: [BrokenWrite; 5] = [
    (&[0], 26, b""),
    (&[1], 26, b"abcdefghij"),
    (&[2], 26, b"abcdefghijklmnopqrst"),
    // A sink with too little room stalls when it is full.
    (&[], 12, b"abcdefghijkl"),
    (&[], 0, b""),
];

fn is_taken(alloc: Global, row: &BrokenWrite) -> Option<bool> {
    let (fails, room, front) = *row;
    let mut sink = MemSink::new(alloc, room, 10, fails.to_vec(alloc).ok()?).ok()?;
    let fault = write_all_of(&mut sink, TEXT).err()?;
    Some(fault == WriteFault { taken: front.len() } && sink.bytes() == front)
}

#[test]
fn a_write_that_fails_or_stalls_keeps_the_front(rt: HostRuntime) {
    let alloc = rt.alloc();
    assert!(rt; WRITES.iter().all(|row| is_taken(alloc, row) == Some(true)));
}

// A stream of std that gives and takes nothing.
#[derive(Drop)]
struct Cut;

impl Read for Cut {
    fn read(&mut self, _buf: &mut [u8]) -> IoResult<usize> {
        Err(Error::from(ErrorKind::UnexpectedEof))
    }
}

impl Write for Cut {
    fn write(&mut self, _buf: &[u8]) -> IoResult<usize> {
        Err(Error::from(ErrorKind::BrokenPipe))
    }

    fn flush(&mut self) -> IoResult<()> {
        Ok(())
    }
}

fn is_written(text: &[u8], written: &mut Vec<u8>) -> bool {
    let whole = write_all_of(&mut StdSink::new(&mut *written), text);
    whole.is_ok() && written.as_slice() == text
}

// What a short slice takes, and a stream that takes nothing.
fn is_short(text: &[u8]) -> bool {
    let mut room = [0; 3];
    let short = write_all_of(&mut StdSink::new(room.as_mut_slice()), text);
    let none = write_all_of(&mut StdSink::new(Cut), text);
    short == Err(WriteFault { taken: 3 }) && none == Err(WriteFault { taken: 0 })
}

fn is_streamed(alloc: Global) -> Option<bool> {
    let read = read_all(alloc, &mut StdSource::new(Cursor::new(TEXT)), 26).ok()?;
    let fault = read_all(alloc, &mut StdSource::new(Cut), 26).err()?;
    Some(
        read.as_slice() == TEXT
            && fault == ReadAllFault::ReadFault
            && is_written(read.as_slice(), &mut Vec::new(alloc))
            && is_short(read.as_slice()),
    )
}

#[test]
fn streams_of_std_are_read_and_written_whole_or_blamed(rt: HostRuntime) {
    assert!(rt; is_streamed(rt.alloc()) == Some(true));
}
