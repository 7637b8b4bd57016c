ghost use Rattle.std.specs.Prelude.{◌≤◌, IfOk};

use outside_core::{
    Got, MemSink, MemSource, Put, Sink, Source, StdSink, StdSource, SureSink, SureSource,
};
use std::io::{Error, ErrorKind, Read, Result as IoResult, Write};
use std::test::Fail;

/// What four reads into a buffer of four bytes answer.
fn reads_of<S: Source>(source: &mut S) -> [Got; 4] {
    let mut buf = [0u8; 4];
    let first = source.read(&mut buf);
    let second = source.read(&mut buf);
    let third = source.read(&mut buf);
    [first, second, third, source.read(&mut buf)]
}

/// What writes of these four pieces answer.
fn writes_of<K: Sink>(sink: &mut K) -> [Put; 4] {
    let first = sink.write(b"ab");
    let second = sink.write(b"c");
    let third = sink.write(b"cde");
    [first, second, third, sink.write(b"cd")]
}

#[test]
fn sources_in_memory_fail_at_the_listed_reads(rt: HostRuntime) -> Result<(), Fail> {
    let alloc = rt.alloc();
    let mut listed = MemSource::new(vec![in alloc; 7u8; 6]?, vec![in alloc; 1u64; 1]?);
    let wanted = [Got::Bytes(4), Got::Failed, Got::Bytes(2), Got::End];
    assert_eq!(rt; reads_of(&mut listed), wanted);
    let mut sure = SureSource::new(vec![in alloc; 7u8; 6]?);
    assert_eq!(rt;
        reads_of(&mut sure),
        [Got::Bytes(4), Got::Bytes(2), Got::End, Got::End]
    );
    Ok(())
}

#[test]
fn sinks_in_memory_fail_at_the_listed_writes_and_past_their_room(
    rt: HostRuntime,
) -> Result<(), Fail> {
    let mut listed = MemSink::new(rt.alloc(), 4, vec![in rt.alloc(); 1u64; 1]?)?;
    assert_eq!(rt;
        writes_of(&mut listed),
        [Put::All, Put::Failed(0), Put::Failed(0), Put::All]
    );
    assert_eq!(rt; listed.taken(), b"abcd".as_slice());
    assert_eq!(rt; listed.spare(), 0);
    let mut sure = SureSink::new(rt.alloc(), 4)?;
    assert_eq!(rt; writes_of(&mut sure), [Put::All; 4]);
    assert_eq!(rt; sure.taken(), b"abc".as_slice());
    assert_eq!(rt; sure.spare(), 1);
    Ok(())
}

/// A stream whose first call is interrupted. The second moves a byte, the third none, and the
/// others fail.
#[derive(Drop)]
struct Faltering {
    calls: u64,
}

impl Faltering {
    fn call(&mut self, byte_count: usize) -> IoResult<usize>
        ensures { IfOk result (λ n. n ≤ byte_count) }
    {
        let call = self.calls;
        self.calls = call.saturating_add(1);
        match call {
            0 => Err(Error::from(ErrorKind::Interrupted)),
            1 => Ok(byte_count.min(1)),
            2 => Ok(0),
            _ => Err(Error::from(ErrorKind::BrokenPipe)),
        }
    }
}

impl Read for Faltering {
    fn read(&mut self, buf: &mut [u8]) -> IoResult<usize> {
        self.call(buf.len())
    }
}

impl Write for Faltering {
    fn write(&mut self, buf: &[u8]) -> IoResult<usize> {
        self.call(buf.len())
    }

    fn flush(&mut self) -> IoResult<()> {
        Ok(())
    }
}

#[test]
fn streams_are_tried_again_where_they_are_interrupted(rt: HostRuntime) {
    let mut source = StdSource::new(Faltering { calls: 0 });
    let wanted = [Got::Bytes(1), Got::End, Got::Failed, Got::Failed];
    assert_eq!(rt; reads_of(&mut source), wanted);
    let mut faltering = Faltering { calls: 0 };
    let mut sink = StdSink::new(&mut faltering);
    let wanted = [
        Put::Failed(1),
        Put::Failed(0),
        Put::Failed(0),
        Put::Failed(0),
    ];
    assert_eq!(rt; writes_of(&mut sink), wanted);
    assert_eq!(rt; sink.write(b""), Put::All);
    assert_eq!(rt; faltering.calls, 6);
}

#[test]
fn streams_hand_on_what_they_are_given(rt: HostRuntime) {
    let mut source = StdSource::new(b"ab".as_slice());
    assert_eq!(rt;
        reads_of(&mut source),
        [Got::Bytes(2), Got::End, Got::End, Got::End]
    );
    let mut kept = Vec::new(rt.alloc());
    assert_eq!(rt; writes_of(&mut StdSink::new(&mut kept)), [Put::All; 4]);
    assert_eq!(rt; kept.as_slice(), b"abccdecd".as_slice());
}
