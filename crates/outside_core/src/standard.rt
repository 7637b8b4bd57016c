ghost use Rattle.std.specs.Prelude.{◌≡◌, ◌<◌, ◌≤◌, None, Some, IfNone, IfSome, length, take};
ghost use Rattle.std.specs.Io.KnownBytes.{Keeps, Consumes, Appends, IsAtEnd};

use crate::reads::{Got, Source};
use crate::writes::{Put, Sink};
use std::io::{ErrorKind, Read, Write};

/// A reader as a source, which tells no bytes.
///
/// A read that is interrupted is tried again and is no fault, unless 2^64 - 1 tries were.
#[derive(Drop)]
pub struct StdSource<R> {
    reader: R,
    faults: u64,
}

impl<R> StdSource<R> {
    ghost use Rattle.outside_core.specs.Standard.{source_reader, source_faults};

    /// A source over the reader, with no fault yet.
    pub fn new(reader: R) -> StdSource<R>
        ensures reader { source_reader result ≡ reader }
        ensures faults { source_faults result ≡ 0 }
    {
        StdSource { reader, faults: 0 }
    }
}

impl<R: Read> Source for StdSource<R> {
    ghost use Rattle.outside_core.specs.Outside.{Rose, Reads, IfReadFailed, count_after_read};
    ghost use Rattle.outside_core.specs.Standard.{source_reader, source_faults};

    ghost left = { λ s. None };

    ghost faults = { source_faults };

    fn read(&mut self, buf: &mut [u8]) -> Got
        requires { 0 < length buf.old }
        ensures bytes { Reads None None buf.new result }

        // It hands on what the reader gives.
        ensures reader { Reads (R.remaining (source_reader self.old))
            (R.remaining (source_reader self.new)) buf.new result }

        // Each read that fails is a fault.
        ensures failed { IfReadFailed result
            (Rose (source_faults self.old) (source_faults self.new)) }
        ensures counted { source_faults self.old ≤ source_faults self.new }
        ensures faults { source_faults self.new ≡ count_after_read (source_faults self.old) result }
    {
        match read_some(&mut self.reader, buf) {
            Some(0) => Got::End,
            Some(n) => Got::Bytes(n),
            None => {
                self.faults = self.faults.saturating_add(1);
                Got::Failed
            }
        }
    }
}

/// One read, tried again while it is interrupted: how many bytes it gave, or None where it failed.
fn read_some<R: Read>(reader: &mut R, buf: &mut [u8]) -> Option<usize>
    requires { 0 < length buf.old }
    ensures some { IfSome result (λ n. (n ≤ length buf.new)
        × Consumes (R.remaining reader.old) (R.remaining reader.new) (take n buf.new)) }
    ensures end { result ≡ Some 0 → IsAtEnd (R.remaining reader.old) }
    ensures none { IfNone result (Keeps (R.remaining reader.old) (R.remaining reader.new)) }
{
    'tries: for _ in 0..u64::MAX {
        match reader.read(buf) {
            Ok(n) => return Some(n),
            Err(e) if e.kind() == ErrorKind::Interrupted => {}
            Err(_) => return None,
        }
    }
    None
}

/// A writer as a sink, which tells no bytes.
///
/// A write that is interrupted is tried again and is no fault, unless 2^64 - 1 tries were. A write
/// that takes nothing is one.
#[derive(Drop)]
pub struct StdSink<W> {
    writer: W,
    faults: u64,
}

impl<W> StdSink<W> {
    ghost use Rattle.outside_core.specs.Standard.{sink_writer, sink_faults};

    /// A sink over the writer, with no fault yet.
    pub fn new(writer: W) -> StdSink<W>
        ensures writer { sink_writer result ≡ writer }
        ensures faults { sink_faults result ≡ 0 }
    {
        StdSink { writer, faults: 0 }
    }
}

impl<W: Write> Sink for StdSink<W> {
    ghost use Rattle.outside_core.specs.Outside.{Rose, Writes, IfWriteFailed, count_after_write};
    ghost use Rattle.outside_core.specs.Standard.{HandsOn, sink_writer, sink_faults};

    ghost taken = { λ s. None };

    ghost faults = { sink_faults };

    fn write(&mut self, piece: &[u8]) -> Put
        ensures bytes { Writes None None piece.now result }

        // It hands the piece on to the writer.
        ensures writer { HandsOn (W.contents (sink_writer self.old))
            (W.contents (sink_writer self.new)) piece.now result }

        // Each write that fails is a fault.
        ensures failed { IfWriteFailed result (Rose (sink_faults self.old) (sink_faults self.new)) }
        ensures counted { sink_faults self.old ≤ sink_faults self.new }
        ensures faults { sink_faults self.new ≡ count_after_write (sink_faults self.old) result }
    {
        let mut done = 0usize;
        while done < piece.len() {
            let Some(n) = write_some(&mut self.writer, &piece[done..]) else {
                self.faults = self.faults.saturating_add(1);
                return Put::Failed(done);
            };
            done += n;
        }
        Put::All
    }
}

/// One write, tried again while it is interrupted: how many bytes it took, or None where it failed
/// or took nothing.
fn write_some<W: Write>(writer: &mut W, piece: &[u8]) -> Option<usize>
    requires { 0 < length piece.now }
    ensures some { IfSome result (λ n. (0 < n) × (n ≤ length piece.now)
        × Appends (W.contents writer.old) (W.contents writer.new) (take n piece.now)) }
    ensures none { IfNone result (Keeps (W.contents writer.old) (W.contents writer.new)) }
{
    'tries: for _ in 0..u64::MAX {
        match writer.write(piece) {
            Ok(0) => return None,
            Ok(n) => return Some(n),
            Err(e) if e.kind() == ErrorKind::Interrupted => {}
            Err(_) => return None,
        }
    }
    None
}
