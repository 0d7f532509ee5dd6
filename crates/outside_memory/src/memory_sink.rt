ghost use Rattle.std.specs.Prelude.{◌≡◌, ◌≤◌, ◌==◌, [], true, length, Some, IsSome, OnOk, IsErrOf};
ghost use Rattle.outside_io.specs.Outside.{SinkFollows, Rose, Appends, AppendsFront};
ghost use Rattle.outside_memory.specs.Scripts.{next_call, kept_of, PutsAs};

use mq_base::Seq;
use outside_io::{Sink, SinkNo};
use std::alloc::Global;

/// A sink in memory, whose calls can be made to fail. It tells what was written.
#[derive(Drop)]
pub struct MemorySink {
    written: Vec<u8>,
    failing: Seq<(u64, u64)>,
    calls: u64,
    faults: u64,
}

impl MemorySink {
    ghost use Rattle.outside_memory.specs.MemorySink.{failing_of, calls_of};

    /// An empty sink. Its calls are numbered from 1. A call whose number is the first of a pair in
    /// `failing` keeps as many bytes of its piece as the second says, or all where the piece is shorter,
    /// and answers `Failed`. Of two pairs with one number the earlier counts. It takes no memory.
    pub fn of(alloc: Global, failing: Seq<(u64, u64)>) -> MemorySink
        ensures empty { (⟦<MemorySink as Sink>⟧.state result).written ≡ Some [] }
        ensures no_faults { (⟦<MemorySink as Sink>⟧.state result).faults ≡ 0 }
        ensures steady { (⟦<MemorySink as Sink>⟧.state result).steady ≡ (length failing == 0) }
        ensures scripted { failing_of result ≡ failing }
        ensures no_calls { calls_of result ≡ 0 }
    {
        MemorySink {
            written: Vec::new(alloc),
            failing,
            calls: 0,
            faults: 0,
        }
    }

    /// What was written so far. It takes no memory.
    pub fn written(&self) -> &[u8]
        ensures { (⟦<MemorySink as Sink>⟧.state self.now).written ≡ Some result.now }
    {
        self.written.as_slice()
    }
}

// How many bytes a call with this number keeps, if it is to fail.
fn kept_at(failing: &[(u64, u64)], call: u64) -> Option<u64>
    ensures listed { result ≡ kept_of failing.now call }
    ensures some { IsSome result → length failing.now ≡ 0 → ⊥ }
{
    for (number, kept) in failing {
        if *number == call {
            return Some(*kept);
        }
    }
    None
}

impl Sink for MemorySink {
    ghost use Rattle.outside_memory.specs.MemorySink.{bytes_of, failing_of, calls_of};

    ghost state = { λ sink. record {
      written = Some sink.written.items;
      faults = sink.faults;
      steady = length sink.failing == 0;
    } };

    // The trait's clauses, and on top of them what each call answers.
    fn put(&mut self, piece: &[u8]) -> Result<(), SinkNo>
        ensures scripted { PutsAs (kept_of (failing_of self.old) (next_call (calls_of self.old))) piece.now (bytes_of self.old) (bytes_of self.new) result }
        ensures counted { calls_of self.new ≡ next_call (calls_of self.old) }
        ensures script_kept { failing_of self.new ≡ failing_of self.old }
        ensures ok { OnOk result (Appends ((⟦<MemorySink as Sink>⟧.state self.old).written) ((⟦<MemorySink as Sink>⟧.state self.new).written) piece.now) }
        ensures fault { IsErrOf result SinkNo.Failed → Rose ((⟦<MemorySink as Sink>⟧.state self.old).faults) ((⟦<MemorySink as Sink>⟧.state self.new).faults) }
        ensures front { IsErrOf result SinkNo.Failed → AppendsFront ((⟦<MemorySink as Sink>⟧.state self.old).written) ((⟦<MemorySink as Sink>⟧.state self.new).written) piece.now }
        ensures memory { IsErrOf result SinkNo.NoMemory → (⟦<MemorySink as Sink>⟧.state self.new).written ≡ (⟦<MemorySink as Sink>⟧.state self.old).written }
        ensures steady { (⟦<MemorySink as Sink>⟧.state self.old).steady ≡ true → IsErrOf result SinkNo.Failed → ⊥ }
        ensures follows { SinkFollows (⟦<MemorySink as Sink>⟧.state self.old) (⟦<MemorySink as Sink>⟧.state self.new) }
    {
        self.calls = self.calls.saturating_add(1);
        let Some(kept) = kept_at(self.failing.as_slice(), self.calls) else {
            self.written.extend_from_slice(piece)?;
            return Ok(());
        };
        let kept = kept.min(piece.len() as u64) as usize;
        self.written.extend_from_slice(&piece[..kept])?;
        self.faults = self.faults.saturating_add(1);
        Err(SinkNo::Failed)
    }
}
