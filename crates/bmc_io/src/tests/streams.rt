ghost use Rattle.std.specs.Prelude.{◌≤◌, IfOk};

use crate::{IoFault, Sink, Source, StdSink, StdSource, put_all};
use std::io;
use std::io::{Error, ErrorKind, Read, Write};
use std::test::Fail;

// A stream that is interrupted, passes one byte, fails, and then passes one more and comes to its end.
#[derive(Drop)]
pub(super) struct Faulty {
    pub(super) calls: u8,
}

impl Faulty {
    // How many of `len` bytes pass.
    fn pass(&mut self, len: usize) -> io::Result<usize>
        ensures { IfOk result (λ n. n ≤ len) }
    {
        let call = self.calls;
        self.calls = call.saturating_add(1);
        match call {
            0 => Err(Error::from(ErrorKind::Interrupted)),
            1 | 3 => Ok(len.min(1)),
            2 => Err(Error::from(ErrorKind::Other)),
            _ => Ok(0),
        }
    }
}

impl Read for Faulty {
    fn read(&mut self, buf: &mut [u8]) -> io::Result<usize> {
        self.pass(buf.len())
    }
}

impl Write for Faulty {
    fn write(&mut self, buf: &[u8]) -> io::Result<usize> {
        self.pass(buf.len())
    }

    fn flush(&mut self) -> io::Result<()> {
        Ok(())
    }
}

#[test]
fn reads_a_stream(rt: HostRuntime) {
    let mut buf = [0; 3];
    let mut source = StdSource::new(b"abcde".as_slice());
    assert_eq!(rt; source.read(&mut buf), Ok(3));
    assert_eq!(rt; &buf, b"abc");
    assert_eq!(rt; source.read(&mut buf), Ok(2));
    assert_eq!(rt; &buf[..2], b"de".as_slice());
    assert_eq!(rt; source.read(&mut buf), Ok(0));
    assert_eq!(rt; source.faults(), 0);

    let mut source = StdSource::new(Faulty { calls: 0 });
    for (answer, faults) in [(Ok(1), 0), (Err(IoFault), 1), (Ok(1), 1), (Ok(0), 1)] {
        assert_eq!(rt; source.read(&mut buf), answer);
        assert_eq!(rt; source.faults(), faults);
    }
}

#[test]
fn writes_a_stream(rt: HostRuntime) -> Result<(), Fail> {
    let mut taken = Vec::new(rt.alloc());
    let mut sink = StdSink::new(&mut taken);
    assert_eq!(rt; put_all(&mut sink, b"abc"), Ok(()));
    assert_eq!(rt; put_all(&mut sink, b"de"), Ok(()));
    assert_eq!(rt; sink.faults(), 0);
    assert_eq!(rt; taken.as_slice(), b"abcde".as_slice());

    let mut sink = StdSink::new(Faulty { calls: 0 });
    for (answer, faults) in [(Ok(1), 0), (Err(IoFault), 1), (Ok(1), 1), (Err(IoFault), 2)] {
        assert_eq!(rt; sink.write(b"abc"), answer);
        assert_eq!(rt; sink.faults(), faults);
    }
    Ok(())
}
