//! Times columns, joins and groups: `engine_times COUNT` locks and unlocks columns of COUNT values, pairs and groups as many rows,
//! does the bare work beside, and prints a line for each. With COUNT 0 it prints no times, but what comes out of 40 rows.
#![tactic(auto)]

ghost use Rattle.std.specs.Prelude.{◌≤◌, IfSome};

mod columns;
mod rows;
mod seals;
mod timing;
mod values;

use columns::report_columns;
use rows::report_rows;
use std::process::ExitCode;
use std::{env, io};

const MOST_ROWS: u32 = 1_000_000;

// The number of rows that the words ask for, after the program's name.
fn count_of(words: &[String]) -> Option<u32>
    ensures { IfSome result (λ count. count ≤ MOST_ROWS) }
{
    match words {
        [_, word] => word
            .as_str()
            .parse()
            .ok()
            .filter(|count| *count <= MOST_ROWS),
        _ => None,
    }
}

// The number of rows that the command line asks for. One with a word that is not text asks for none.
fn count(rt: &HostRuntime) -> io::Result<Option<u32>> {
    match env::args(rt) {
        Ok(words) => {
            let words: Vec<String> = words.collect(rt.alloc())?;
            Ok(count_of(words.as_slice()))
        }
        Err(e) if e.kind() == io::ErrorKind::InvalidData => Ok(None),
        Err(e) => Err(e),
    }
}

fn main(rt: HostRuntime) -> io::Result<ExitCode> {
    let Some(count) = count(&rt)? else {
        eprintln!(rt; "usage: engine_times COUNT, a number of rows up to {MOST_ROWS}")?;
        return Ok(ExitCode::from(2));
    };
    report_columns(&rt, count)?;
    report_rows(&rt, count)?;
    Ok(ExitCode::SUCCESS)
}
