//! Times the three seals of docs/CIPHERS.md: `seal_times COUNT` seals COUNT cells of each seal and type,
//! does the bare hashing behind as many, and prints a line for each. With COUNT 0 it times nothing and
//! prints what one cell hashes.
#![tactic(auto)]

ghost use Rattle.std.specs.Prelude.{◌≤◌, IfSome};

mod cases;
mod costs;
mod timing;

use cases::{Case, Seal, ValueType};
use costs::{Cost, cost_of};
use std::process::ExitCode;
use std::{env, io};
use timing::{Work, cells_a_second, hundredths, nanos_of};

const MOST_CELLS: u32 = 10_000_000;

// The number of cells that the words ask for, after the program's name.
fn count_of(words: &[String]) -> Option<u32>
    ensures { IfSome result (λ count. count ≤ MOST_CELLS) }
{
    match words {
        [_, word] => word
            .as_str()
            .parse()
            .ok()
            .filter(|count| *count <= MOST_CELLS),
        _ => None,
    }
}

// The number of cells that the command line asks for. One with a word that is not text asks for none.
fn count(rt: &HostRuntime) -> io::Result<Option<u32>> {
    match env::args(rt) {
        Ok(words) => {
            let words: Vec<String> = words.collect(rt.alloc())?;
            Ok(count_of(words.as_slice()))
        }
        Err(e) if e.kind() == io::ErrorKind::InvalidData => Ok(None),
        Err(e) => Err(e),
    }
}

// Prints the line of a case. The ratio is the time of the seal to that of the bare hashing.
fn report(rt: &HostRuntime, seal: Seal, value: ValueType, count: u32) -> io::Result<()> {
    let case = Case { seal, value };
    let (seal, value) = (seal.name(), value.name());
    let Cost { messages, blocks } = cost_of(case);
    if count == 0 {
        return println!(rt; "{seal} {value}: messages {messages}, blocks {blocks}");
    }
    let sealing = nanos_of(rt, Work::Seal(case), count)?;
    let hashing = nanos_of(rt, Work::Bare(case), count)?;
    let cells = cells_a_second(count, sealing);
    let ratio = hundredths(sealing, hashing);
    let (whole, part) = (ratio / 100, ratio % 100);
    println!(rt;
        "{seal} {value}: messages {messages}, blocks {blocks}, cells a second {cells}, ratio {whole}.{part:02}"
    )
}

fn main(rt: HostRuntime) -> io::Result<ExitCode> {
    let Some(count) = count(&rt)? else {
        eprintln!(rt; "usage: seal_times COUNT, a number of cells up to {MOST_CELLS}")?;
        return Ok(ExitCode::from(2));
    };
    for seal in [Seal::Deterministic, Seal::OrderPreserving, Seal::Randomised] {
        report(&rt, seal, ValueType::Int, count)?;
        report(&rt, seal, ValueType::Text, count)?;
    }
    Ok(ExitCode::SUCCESS)
}
