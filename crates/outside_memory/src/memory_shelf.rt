ghost use Rattle.std.specs.Prelude.{◌≡◌, ◌<◌, ◌≤◌, ◌==◌, [], true, length, Some, None, IfOk, IsErrOf, MatchOption, unwrap_or};
ghost use Rattle.std.specs.List.{list_any};
ghost use Rattle.outside_io.specs.Outside.{HasDistinctNames, content_of, IsHeld, IsAbsent, TakesWithin, Rose, Follows, KeepsName};
ghost use Rattle.outside_memory.specs.Scripts.{next_call, answer_within, scripted_answer, IsAnswer};

use mq_base::{Seq, Text};
use outside_io::{Shelf, ShelfNo};
use std::alloc::Global;

/// A shelf in memory, whose calls can be made to fail. It tells what it holds.
#[derive(Drop)]
pub struct MemoryShelf {
    files: Seq<(Text, Text)>,
    failing: Seq<u64>,
    calls: u64,
    taken: usize,
    faults: u64,
    failed: Option<Text>,
}

impl MemoryShelf {
    ghost use Rattle.outside_memory.specs.MemoryShelf.{failing_of, calls_of};

    /// A shelf of these files, a name and bytes each. Its calls are numbered from 1, and each whose number
    /// is in `failing` answers `Failed`, whatever is held. A name that is not held answers `Failed` too.
    /// Of a file that is longer than `most` it takes `most + 1` bytes. It takes no memory.
    pub fn of(files: Seq<(Text, Text)>, failing: Seq<u64>) -> MemoryShelf
        requires { HasDistinctNames files }
        ensures held { (⟦<MemoryShelf as Shelf>⟧.state result).held ≡ Some files }
        ensures untaken { (⟦<MemoryShelf as Shelf>⟧.state result).taken ≡ 0 }
        ensures no_faults { (⟦<MemoryShelf as Shelf>⟧.state result).faults ≡ 0 }
        ensures no_name { (⟦<MemoryShelf as Shelf>⟧.state result).failed ≡ None }
        ensures steady { (⟦<MemoryShelf as Shelf>⟧.state result).steady ≡ (length failing == 0) }
        ensures scripted { failing_of result ≡ failing }
        ensures no_calls { calls_of result ≡ 0 }
    {
        MemoryShelf {
            files,
            failing,
            calls: 0,
            taken: 0,
            faults: 0,
            failed: None,
        }
    }
}

// The bytes of the first file with this name.
fn find_content<'a>(files: &'a [(Text, Text)], name: &[u8]) -> Option<&'a [u8]>
    ensures { MatchOption result (content_of files.now name.now ≡ None) (λ bytes. content_of files.now name.now ≡ Some bytes.now) }
{
    for file in files {
        if file.0.as_bytes() == name {
            return Some(file.1.as_bytes());
        }
    }
    None
}

// A copy of the bytes of the first file with this name, if there are at most `most`.
fn copy_content(
    alloc: Global,
    files: &[(Text, Text)],
    name: &[u8],
    most: usize,
) -> Result<Vec<u8>, ShelfNo>
    ensures answer { IsAnswer (answer_within (content_of files.now name.now) most) result }
    ensures content { IfOk result (λ bytes. content_of files.now name.now ≡ Some bytes.items) }
    ensures within { IfOk result (λ bytes. length bytes.items ≤ most) }
    ensures absent { IsErrOf result ShelfNo.Failed → content_of files.now name.now ≡ None }
    ensures too_long { IsErrOf result ShelfNo.TooLong → most < length (unwrap_or (content_of files.now name.now) []) }
    ensures counted { IsErrOf result ShelfNo.TooLong → most < usize.MAX }
{
    let Some(bytes) = find_content(files, name) else {
        return Err(ShelfNo::Failed);
    };
    if most < bytes.len() {
        return Err(ShelfNo::TooLong);
    }
    Ok(Vec::from_slice(alloc, bytes)?)
}

// Whether a call with this number is to fail.
fn is_failing(failing: &[u64], call: u64) -> bool
    ensures { result ≡ list_any (λ number. number == call) failing.now }
{
    failing.iter().any(|number| *number == call)
}

impl Shelf for MemoryShelf {
    ghost use Rattle.outside_memory.specs.MemoryShelf.{files_of, failing_of, calls_of};

    ghost state = { λ shelf. record {
      held = Some shelf.files;
      taken = shelf.taken;
      faults = shelf.faults;
      failed = shelf.failed;
      steady = length shelf.failing == 0;
    } };

    // The trait's clauses, and on top of them what each call answers.
    fn read(&mut self, alloc: Global, name: &str, most: usize) -> Result<Vec<u8>, ShelfNo>
        ensures scripted { IsAnswer (scripted_answer (failing_of self.old) (next_call (calls_of self.old)) (files_of self.old) name.now most) result }
        ensures counted { calls_of self.new ≡ next_call (calls_of self.old) }
        ensures script_kept { failing_of self.new ≡ failing_of self.old }
        ensures content { IfOk result (λ bytes. IsHeld ((⟦<MemoryShelf as Shelf>⟧.state self.old).held) name.now bytes.items) }
        ensures within { IfOk result (λ bytes. length bytes.items ≤ most) }
        ensures fault { IsErrOf result ShelfNo.Failed → Rose ((⟦<MemoryShelf as Shelf>⟧.state self.old).faults) ((⟦<MemoryShelf as Shelf>⟧.state self.new).faults) }
        ensures named { IsErrOf result ShelfNo.Failed → (⟦<MemoryShelf as Shelf>⟧.state self.new).failed ≡ Some name.now }
        ensures name_kept { KeepsName result ((⟦<MemoryShelf as Shelf>⟧.state self.old).failed) ((⟦<MemoryShelf as Shelf>⟧.state self.new).failed) }
        ensures absent { (⟦<MemoryShelf as Shelf>⟧.state self.old).steady ≡ true → IsErrOf result ShelfNo.Failed → IsAbsent ((⟦<MemoryShelf as Shelf>⟧.state self.old).held) name.now }
        ensures too_long { IsErrOf result ShelfNo.TooLong → most < (⟦<MemoryShelf as Shelf>⟧.state self.new).taken }
        ensures taken { TakesWithin ((⟦<MemoryShelf as Shelf>⟧.state self.old).held) name.now ((⟦<MemoryShelf as Shelf>⟧.state self.new).taken) }
        ensures follows { Follows (⟦<MemoryShelf as Shelf>⟧.state self.old) (⟦<MemoryShelf as Shelf>⟧.state self.new) }
    {
        self.calls = self.calls.saturating_add(1);
        self.taken = 0;
        let asked = Text::copied(alloc, name.as_bytes())?;
        let answer = if is_failing(self.failing.as_slice(), self.calls) {
            Err(ShelfNo::Failed)
        } else {
            copy_content(alloc, self.files.as_slice(), name.as_bytes(), most)
        };
        match &answer {
            Ok(bytes) => self.taken = bytes.len(),
            Err(ShelfNo::TooLong) => self.taken = most + 1,
            Err(ShelfNo::Failed) => {
                self.faults = self.faults.saturating_add(1);
                self.failed = Some(asked);
            }
            Err(ShelfNo::NoMemory) => {}
        }
        answer
    }
}
