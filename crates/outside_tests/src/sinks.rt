//! What sinks answer to pieces, and what is written then.
use mq_base::Seq;
use outside_io::{Sink, SinkNo, StdSink};
use outside_memory::MemorySink;
use std::io;
use std::io::Write;
use std::test::Fail;

// Each row is a call: its piece, the answer, and what was written so far. Two calls are made to fail.
#[test]
fn pieces_are_kept_in_order(rt: HostRuntime) -> Result<(), Fail> {
    let alloc = rt.alloc();
    let mut failing = Seq::new(alloc);
    failing.push((2, 2))?;
    failing.push((3, 9))?;
    let mut sink = MemorySink::of(alloc, failing);
    for (piece, want, written) in [
        ("ab", Ok(()), "ab"),
        ("cde", Err(SinkNo::Failed), "abcd"),
        ("fg", Err(SinkNo::Failed), "abcdfg"),
        ("", Ok(()), "abcdfg"),
        ("h", Ok(()), "abcdfgh"),
    ] {
        assert_eq!(rt; sink.put(piece.as_bytes()), want, "at {piece}");
        assert_eq!(rt; sink.written(), written.as_bytes(), "at {piece}");
    }
    Ok(())
}

// Takes at most so many bytes at a call, and keeps them for the test.
#[derive(Drop)]
struct Slow<'a> {
    kept: &'a mut Vec<u8>,
    step: usize,
}

impl Write for Slow<'_> {
    fn write(&mut self, bytes: &[u8]) -> io::Result<usize> {
        let count = bytes.len().min(self.step);
        self.kept.extend_from_slice(&bytes[..count])?;
        Ok(count)
    }

    fn flush(&mut self) -> io::Result<()> {
        Ok(())
    }
}

// The bytes that each call of the writer takes, the answer to two pieces, and what was written.
#[test]
fn pieces_go_to_a_slow_writer(rt: HostRuntime) -> Result<(), Fail> {
    let failed = Err(SinkNo::Failed);
    for (step, want, written) in [(1, Ok(()), "abcde"), (2, Ok(()), "abcde"), (0, failed, "")] {
        let mut kept = Vec::new(rt.alloc());
        let writer = Slow {
            kept: &mut kept,
            step,
        };
        let mut sink = StdSink::new(writer);
        assert_eq!(rt; sink.put(b"abc"), want, "at {step}");
        assert_eq!(rt; sink.put(b"de"), want, "at {step}");
        assert_eq!(rt; sink.put(b""), Ok(()), "at {step}");
        drop(sink);
        assert_eq!(rt; kept.as_slice(), written.as_bytes(), "at {step}");
    }
    Ok(())
}
