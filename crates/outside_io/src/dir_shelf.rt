ghost use Rattle.std.specs.Prelude.{◌≡◌, ◌<◌, ◌≤◌, [], false, length, Some, None, IfOk, OnOk, IsErrOf};
ghost use Rattle.outside_io.specs.Outside.{KeepsName};

use crate::shelf::{Shelf, ShelfNo};
use crate::stream::read_within;
use mq_base::Text;
use std::alloc::Global;
use std::fs;
use std::rt::Files;

/// The files of the system, by path. It tells no content and is not steady. Its count of faults is raised
/// at each answer that gives no bytes. A read that the system interrupted is a fault. Of a file that is
/// longer than `most` it takes `most + 1` bytes, and memory is taken as the file comes in.
#[derive(Drop)]
pub struct DirShelf<'a, R> {
    files: &'a R,
    taken: usize,
    faults: u64,
    failed: Option<Text>,
}

impl<'a, R: Files> DirShelf<'a, R> {
    /// A shelf over the files that the runtime gives. It takes no memory.
    pub fn new(files: &'a R) -> DirShelf<'a, R>
        ensures no_faults { (⟦<DirShelf<'a, R> as Shelf>⟧.state result).faults ≡ 0 }
        ensures no_name { (⟦<DirShelf<'a, R> as Shelf>⟧.state result).failed ≡ None }
    {
        DirShelf {
            files,
            taken: 0,
            faults: 0,
            failed: None,
        }
    }

    // Reads the file at this path, and keeps the path where that fails.
    fn read_file(&mut self, alloc: Global, name: &str, most: usize) -> Result<Vec<u8>, ShelfNo>
        ensures within { IfOk result (λ bytes. length bytes.items ≤ most) }
        ensures too_long { IsErrOf result ShelfNo.TooLong → most < self.new.taken }
        ensures named { IsErrOf result ShelfNo.Failed → self.new.failed ≡ Some name.now }
        ensures name_kept { KeepsName result self.old.failed self.new.failed }
        ensures faults_kept { self.new.faults ≡ self.old.faults }
    {
        let asked = Text::copied(alloc, name.as_bytes())?;
        let mut bytes = Vec::new(alloc);
        let answer = read_path(self.files, name, &mut bytes, most);
        self.taken = bytes.len();
        match answer {
            Ok(()) => Ok(bytes),
            Err(ShelfNo::Failed) => {
                self.failed = Some(asked);
                Err(ShelfNo::Failed)
            }
            Err(no) => Err(no),
        }
    }
}

// Reads the file at this path into an empty vector.
fn read_path<R: Files>(
    files: &R,
    path: &str,
    into: &mut Vec<u8>,
    most: usize,
) -> Result<(), ShelfNo>
    requires { into.old.items ≡ [] }
    ensures within { OnOk result (length into.new.items ≤ most) }
    ensures too_long { IsErrOf result ShelfNo.TooLong → most < length into.new.items }
{
    match fs::open(files, path) {
        Ok(mut file) => read_within(&mut file, into, most),
        Err(_) => Err(ShelfNo::Failed),
    }
}

impl<R: Files> Shelf for DirShelf<'_, R> {
    ghost state = { λ shelf. record {
      held = None;
      taken = shelf.taken;
      faults = shelf.faults;
      failed = shelf.failed;
      steady = false;
    } };

    fn read(&mut self, alloc: Global, name: &str, most: usize) -> Result<Vec<u8>, ShelfNo> {
        self.taken = 0;
        let answer = self.read_file(alloc, name, most);
        if answer.is_err() {
            self.faults = self.faults.saturating_add(1);
        }
        answer
    }
}
