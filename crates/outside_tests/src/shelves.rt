//! The answers of a shelf in memory, call by call, and of a shelf over the system's files.
ghost use Rattle.std.specs.Prelude.{IfOk};
ghost use Rattle.outside_io.specs.Outside.{HasDistinctNames};

use mq_base::{NoMemory, Seq, Text};
use outside_io::{DirShelf, Shelf, ShelfNo};
use outside_memory::MemoryShelf;
use std::alloc::Global;
use std::test::Fail;
use std::{env, fs, process};

// Two names, each with its bytes.
fn two_files(alloc: Global) -> Result<Seq<(Text, Text)>, NoMemory>
    ensures distinct { IfOk result (λ files. HasDistinctNames files) }
{
    let mut files = Seq::new(alloc);
    files.push((Text::copied(alloc, b"plan")?, Text::copied(alloc, b"abc")?))?;
    files.push((Text::copied(alloc, b"none")?, Text::copied(alloc, b"")?))?;
    Ok(files)
}

// Each row is a call: its name, the most bytes that it takes, and the bytes or why there are none.
const CALLS: [(&str, usize, Result<&str, ShelfNo>); 7] = [
    ("plan", 3, Ok("abc")),
    ("plan", 2, Err(ShelfNo::TooLong)),
    ("plan", 3, Err(ShelfNo::Failed)),
    ("none", 0, Ok("")),
    ("plan", 0, Err(ShelfNo::TooLong)),
    ("other", 9, Err(ShelfNo::Failed)),
    ("plan", 900, Ok("abc")),
];

// The third call is made to fail.
#[test]
fn calls_are_answered_in_order(rt: HostRuntime) -> Result<(), Fail> {
    let alloc = rt.alloc();
    let mut failing = Seq::new(alloc);
    failing.push(3)?;
    let mut shelf = MemoryShelf::of(two_files(alloc)?, failing);
    for (name, most, want) in CALLS {
        match shelf.read(alloc, name, most) {
            Ok(bytes) => assert_eq!(rt;
                want.map(|text| text.as_bytes()),
                Ok(bytes.as_slice()),
                "{name} {most}"
            ),
            Err(no) => assert_eq!(rt; want.err(), Some(no), "{name} {most}"),
        }
    }
    Ok(())
}

// Each row is the most bytes that a call takes, and why it gives none.
#[test]
fn a_file_is_read_by_its_path(rt: HostRuntime) -> Result<(), Fail> {
    let alloc = rt.alloc();
    let name = format!(in alloc; "outside-io-test-{}", process::id(rt.process()))?;
    let path = env::temp_dir(&rt)?.join(alloc, name.as_str())?;
    let content = vec![in alloc; 7; 20_000]?;
    let mut shelf = DirShelf::new(&rt);
    assert_eq!(rt;
        shelf.read(alloc, "no/such/file", 9).err(),
        Some(ShelfNo::Failed)
    );
    fs::write(&rt, path.as_str(), content.as_slice())?;
    let too_long = Some(ShelfNo::TooLong);
    for (most, want) in [(20_000, None), (19_999, too_long), (0, too_long)] {
        match shelf.read(alloc, path.as_str(), most) {
            Ok(bytes) => {
                assert_eq!(rt; None, want, "at {most}");
                assert_eq!(rt; bytes.as_slice(), content.as_slice(), "at {most}");
            }
            Err(no) => assert_eq!(rt; Some(no), want, "at {most}"),
        }
    }
    fs::remove_file(&rt, path.as_str())?;
    Ok(())
}
