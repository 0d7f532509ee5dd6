ghost use Rattle.std.specs.Prelude.{◌≡◌, ◌≤◌, false, None, OnOk, IsErrOf};
ghost use Rattle.std.specs.Io.KnownBytes.{Appends};
ghost use Rattle.outside_io.specs.Outside.{SinkFollows, Rose};

use crate::sink::{Sink, SinkNo};
use crate::stream::write_whole;
use std::io::Write;

/// A writer of the system, such as standard output. It tells no content and is not steady. Its count of
/// faults is raised at each put that fails. A write that takes nothing is a fault, and so is one that the
/// system interrupted.
#[derive(Drop)]
pub struct StdSink<W> {
    writer: W,
    faults: u64,
}

impl<W: Write + Drop> StdSink<W> {
    ghost use Rattle.outside_io.specs.StdSink.{writer_of};

    /// A sink over this writer. Each put ends with a flush, so nothing is held back. It takes no memory.
    pub fn new(writer: W) -> StdSink<W>
        ensures over { writer_of result ≡ writer }
        ensures no_faults { (⟦<StdSink<W> as Sink>⟧.state result).faults ≡ 0 }
    {
        StdSink { writer, faults: 0 }
    }
}

impl<W: Write + Drop> Sink for StdSink<W> {
    ghost use Rattle.outside_io.specs.StdSink.{writer_of};

    ghost state = { λ sink. record { written = None; faults = sink.faults; steady = false } };

    // Of the trait's clauses those that the meanings leave open, and one on what reaches a writer that
    // tells what it holds.
    fn put(&mut self, piece: &[u8]) -> Result<(), SinkNo>
        ensures sent { OnOk result (Appends (W.contents (writer_of self.old)) (W.contents (writer_of self.new)) piece.now) }
        ensures fault { IsErrOf result SinkNo.Failed → Rose ((⟦<StdSink<W> as Sink>⟧.state self.old).faults) ((⟦<StdSink<W> as Sink>⟧.state self.new).faults) }
        ensures follows { SinkFollows (⟦<StdSink<W> as Sink>⟧.state self.old) (⟦<StdSink<W> as Sink>⟧.state self.new) }
    {
        let answer = write_whole(&mut self.writer, piece);
        if answer.is_err() {
            self.faults = self.faults.saturating_add(1);
        }
        answer
    }
}
