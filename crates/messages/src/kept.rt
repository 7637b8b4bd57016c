//! What a query reads and writes, kept for a message on it.

use outside_core::{Put, Sink};
use std::alloc::Global;
use std::io::{self, ErrorKind, Read};

/// The most bytes of a line that are kept.
const ROOM: usize = 128;

/// A reader that keeps what it gave, as far as there is memory, and the kind of its last failure.
#[derive(Drop)]
pub struct KeptReader<R> {
    reader: R,
    kept: Vec<u8>,
    failure: Option<ErrorKind>,
}

impl<R> KeptReader<R> {
    /// A reader over this one.
    pub fn new(alloc: Global, reader: R) -> KeptReader<R> {
        KeptReader {
            reader,
            kept: Vec::new(alloc),
            failure: None,
        }
    }

    /// The bytes that it gave.
    pub fn kept(&self) -> &[u8] {
        self.kept.as_slice()
    }

    /// The kind of its last failure.
    pub fn failure(&self) -> Option<ErrorKind> {
        self.failure
    }
}

impl<R: Read> Read for KeptReader<R> {
    fn read(&mut self, buf: &mut [u8]) -> io::Result<usize> {
        match self.reader.read(buf) {
            Ok(n) => {
                let _ = self.kept.extend_from_slice(&buf[..n]);
                Ok(n)
            }
            Err(e) => {
                self.failure = Some(e.kind());
                Err(e)
            }
        }
    }
}

/// A sink that keeps the first bytes of the line that was written last.
#[derive(Drop)]
pub struct KeptSink<K> {
    sink: K,
    line: [u8; ROOM],
    len: usize,
}

impl<K> KeptSink<K> {
    /// A sink over this one.
    pub fn new(sink: K) -> KeptSink<K> {
        KeptSink {
            sink,
            line: [0; ROOM],
            len: 0,
        }
    }

    /// The first bytes of the line that was written last.
    pub fn line(&self) -> &[u8] {
        self.line.get(..self.len).unwrap_or(&[])
    }
}

impl<K: Sink> Sink for KeptSink<K> {
    ghost taken = { λ s. K.taken s.sink };

    ghost faults = { λ s. K.faults s.sink };

    fn write(&mut self, piece: &[u8]) -> Put {
        let n = piece.len().min(ROOM);
        self.line[..n].copy_from_slice(&piece[..n]);
        self.len = n;
        self.sink.write(piece)
    }
}
