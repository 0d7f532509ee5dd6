//! The program: it hands the words of its command line, the files of the system and standard output to the top
//! call, and ends with the status that this answers.
#![tactic(auto)]

use outside_io::{DirShelf, StdSink};
use planner_cli::{Status, run};
use std::process::ExitCode;
use std::{env, io};

// The words without the program's name. Words that are not text are the answer for wrong words.
fn words(rt: &HostRuntime) -> Result<Vec<String>, Status> {
    match env::args(rt) {
        Ok(words) => words
            .skip(1)
            .collect(rt.alloc())
            .map_err(|_| Status::NoMemory),
        Err(e) if e.kind() == io::ErrorKind::OutOfMemory => Err(Status::NoMemory),
        Err(_) => Err(Status::Words),
    }
}

fn main(rt: HostRuntime) -> ExitCode {
    let status = match words(&rt) {
        Ok(words) => run(
            rt.alloc(),
            words.as_slice(),
            &mut DirShelf::new(&rt),
            &mut StdSink::new(io::writer(&rt)),
        ),
        Err(status) => status,
    };
    if status.number() != 0 {
        let _ = eprintln!(rt; "{}", status);
    }
    ExitCode::from(status.number())
}
