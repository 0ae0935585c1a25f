// Lines of bytes, read in chunks and handed to a session one by one. Memory does not grow with the input.
ghost use Rattle.std.specs.Prelude.{◌≤◌, length, IfOk};

use arrayvec::ArrayVec;
use std::alloc::Global;
use std::io;
use std::io::{ErrorKind, Read, Write};
use thiserror::Error;

const CHUNK: usize = 65536;

// The longest line that is read, its comment aside and a run of blanks counted as one byte.
const LONGEST: usize = 65536;

// What is handed on in place of a line that is longer.
#[derive(Clone, Copy, Debug, Error)]
#[error("{}", self.words())]
pub struct TooLong;

impl TooLong {
    pub(crate) fn words(self) -> &'static str {
        "the line is too long"
    }
}

// What answers lines: each line in turn, and then the end of the input.
pub trait Session {
    fn take(&mut self, line: Result<&[u8], TooLong>, out: &mut Vec<u8>) -> io::Result<()>;

    fn end(&mut self, out: &mut Vec<u8>) -> io::Result<()>;
}

// What stands before the first such byte, and what after it.
pub(crate) fn split_once(bytes: &[u8], separator: u8) -> Option<(&[u8], &[u8])> {
    let at = bytes.iter().position(|byte| *byte == separator)?;
    Some((&bytes[..at], &bytes[at + 1..]))
}

// What stands before a comment.
fn uncommented(bytes: &[u8]) -> &[u8] {
    split_once(bytes, b'#').map_or(bytes, |(text, _)| text)
}

// A line may end with a carriage return before its line break.
fn without_return(bytes: &[u8]) -> &[u8] {
    bytes.strip_suffix(b"\r").unwrap_or(bytes)
}

pub(crate) fn is_blank(byte: &u8) -> bool {
    matches!(byte, b' ' | b'\t')
}

// How far a line that a chunk broke off has come.
#[derive(Clone, Copy, PartialEq, Eq)]
enum Stage {
    NotBegun,
    Text,
    Comment,
    TooLong,
}

// The front of a line that a chunk broke off. It has room for the longest line by its type, and never asks for more.
#[derive(Drop)]
struct Partial {
    text: ArrayVec<u8, LONGEST>,
    stage: Stage,
}

impl Partial {
    fn new() -> Partial {
        Partial {
            text: ArrayVec::new(),
            stage: Stage::NotBegun,
        }
    }

    fn clear(&mut self) {
        self.text.clear();
        self.stage = Stage::NotBegun;
    }

    // Adds a byte, but for a blank that would add nothing to the line.
    fn add_byte(&mut self, byte: u8) {
        let text = self.text.as_slice();
        if is_blank(&byte) && (self.text.is_full() || text.last().is_none_or(is_blank)) {
            return;
        }
        if self.text.try_push(byte).is_err() {
            self.stage = Stage::TooLong;
        }
    }

    // Adds a piece. A comment is let go, and so is what has no room.
    fn add(&mut self, piece: &[u8]) {
        if piece.is_empty() || matches!(self.stage, Stage::Comment | Stage::TooLong) {
            return;
        }
        let (text, stage) = match split_once(piece, b'#') {
            Some((text, _)) => (text, Stage::Comment),
            None => (piece, Stage::Text),
        };
        self.stage = stage;
        for byte in text {
            self.add_byte(*byte);
        }
    }

    fn line(&self) -> Result<&[u8], TooLong> {
        let text = self.text.as_slice();
        match self.stage {
            Stage::NotBegun | Stage::Text => Ok(without_return(text)),
            Stage::Comment => Ok(text),
            Stage::TooLong => Err(TooLong),
        }
    }
}

// Hands on the lines of a chunk, and keeps the front of one that goes on in the next.
fn take_chunk<S: Session>(
    session: &mut S,
    partial: &mut Partial,
    chunk: &[u8],
    out: &mut Vec<u8>,
) -> io::Result<()> {
    for piece in chunk.split_inclusive(|byte| *byte == b'\n') {
        match piece {
            [line @ .., b'\n'] => {
                if partial.stage == Stage::NotBegun {
                    session.take(Ok(uncommented(without_return(line))), out)?;
                } else {
                    partial.add(line);
                    session.take(partial.line(), out)?;
                    partial.clear();
                }
            }
            front => partial.add(front),
        }
    }
    Ok(())
}

// What one read gives, made again where a signal interrupts it.
fn read_chunk<'a, R: Read>(input: &mut R, buffer: &'a mut [u8; CHUNK]) -> io::Result<&'a [u8]>
    ensures { IfOk result (λ chunk. length chunk.now ≤ 65536) }
{
    // A loop that ends, since one without an end would be waiting, and is kept apart in the language.
    for _ in 0..u64::MAX {
        match input.read(buffer) {
            Err(e) if e.kind() == ErrorKind::Interrupted => {}
            read => return read.map(|n| &buffer[..n]),
        }
    }
    Ok(&[])
}

fn send<W: Write>(out: &mut Vec<u8>, to: &mut W) -> io::Result<()> {
    to.write_all(out.as_slice())?;
    out.clear();
    Ok(())
}

// Runs a session over an input. What it answers to a chunk is written before the next is waited for.
pub fn run<S: Session, R: Read, W: Write>(
    session: &mut S,
    input: &mut R,
    to: &mut W,
    heap: Global,
) -> io::Result<()> {
    let mut buffer = [0u8; CHUNK];
    let mut partial = Partial::new();
    let mut out = Vec::with_capacity(heap, CHUNK)?;
    // A loop that ends, as in `read_chunk`.
    for _ in 0..u64::MAX {
        let chunk = read_chunk(input, &mut buffer)?;
        if chunk.is_empty() {
            break;
        }
        take_chunk(session, &mut partial, chunk, &mut out)?;
        send(&mut out, to)?;
    }
    if partial.stage != Stage::NotBegun {
        session.take(partial.line(), &mut out)?;
    }
    session.end(&mut out)?;
    send(&mut out, to)
}
