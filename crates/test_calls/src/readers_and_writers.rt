//! Readers and writers that fail in the middle.

ghost use Rattle.std.specs.Prelude.{◌≤◌, IfOk};

use std::io;
use std::io::{ErrorKind, Read, Write};
use std::process::Abort;
use watched::Watched;

// Reads and writes one byte per call, a number of times; then it fails or returns 0.
#[derive(Drop)]
struct Scarce {
    left: usize,
    calls: usize,
    fails: bool,
}

impl Scarce {
    fn answer(&mut self, asked: usize) -> io::Result<usize>
        ensures { IfOk result (λ count. count ≤ asked) }
    {
        self.calls = self.calls.saturating_add(1);
        if self.left > 0 {
            self.left -= 1;
            return Ok(asked.min(1));
        }
        if self.fails {
            return Err(io::Error::from(ErrorKind::Other));
        }
        Ok(0)
    }
}

impl Read for Scarce {
    fn read(&mut self, buf: &mut [u8]) -> io::Result<usize> {
        self.answer(buf.len())
    }
}

impl Write for Scarce {
    fn write(&mut self, buf: &[u8]) -> io::Result<usize> {
        self.answer(buf.len())
    }

    fn flush(&mut self) -> io::Result<()> {
        Ok(())
    }
}

// A watched reader or writer of `left` bytes.
fn watched(left: usize, fails: bool) -> Watched<Scarce> {
    Watched::new(Scarce {
        left,
        calls: 0,
        fails,
    })
}

// The number of bytes, whether the reader fails after them, and the counts that four reads return
// (none for a failure); then the number of calls that reach the reader.
const READS: [(usize, bool, [Option<usize>; 4], usize); 2] = [
    (2, true, [Some(1), Some(1), None, None], 3),
    (2, false, [Some(1), Some(1), Some(0), Some(0)], 4),
];

fn check_read(rt: &impl Abort, reader: &mut Watched<Scarce>, answer: Option<usize>) {
    assert!(rt; reader.read(&mut [0; 4]).ok() == answer);
    assert!(rt; reader.failed() == answer.is_none());
}

#[test]
fn keeps_a_reader_s_failure(rt: HostRuntime) {
    for (left, fails, answers, calls) in READS {
        let mut reader = watched(left, fails);
        for answer in answers {
            check_read(&rt, &mut reader, answer);
        }
        assert!(rt; reader.into_inner().calls == calls);
    }
}

// The number of bytes, whether the writer fails after them, and whether five bytes are written;
// then the number of calls that reach the writer.
const WRITES: [(usize, bool, bool, usize); 3] = [
    (5, true, true, 5),
    (4, true, false, 5),
    (4, false, false, 5),
];

fn check_writer(rt: &impl Abort, left: usize, fails: bool, is_written: bool, calls: usize) {
    let mut writer = watched(left, fails);
    writer.send(b"plan\n");
    writer.send(b"");
    assert!(rt; writer.failed() != is_written);
    if !is_written {
        writer.send(b"more");
    }
    assert!(rt; writer.into_inner().calls == calls);
}

#[test]
fn keeps_a_writer_s_failure(rt: HostRuntime) {
    for (left, fails, is_written, calls) in WRITES {
        check_writer(&rt, left, fails, is_written, calls);
    }
}

#[test]
fn nothing_that_is_asked_for_is_no_failure(rt: HostRuntime) {
    let mut writer = watched(0, false);
    assert!(rt; matches!(writer.write(b""), Ok(0)));
    assert!(rt; writer.write(b"x").is_err());
}
