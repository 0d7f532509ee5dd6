//! Times the steps of extended plans: `step_times COUNT` takes a step of each kind COUNT times over a worked plan, and prints how
//! many calls it does in a second. With COUNT 0 it times nothing and prints what each step costs, or that it gives no state.
#![tactic(auto)]

ghost use Rattle.std.specs.Prelude.{◌≤◌, IfSome};

mod case;
mod cases;
mod timing;
mod worked;

use case::{Case, is_case};
use cases::cases;
use extended_plan::Job;
use policy_reader::read_policy;
use price_reader::read_prices;
use std::process::ExitCode;
use std::{env, io};
use timing::{calls_a_second, nanos_of, taken};
use worked::{POLICY, PRICES, query};

const MOST_CALLS: u32 = 1_000_000_000;

// The number of calls that the words ask for, after the program's name.
fn count_of(words: &[String]) -> Option<u32>
    ensures { IfSome result (λ count. count ≤ MOST_CALLS) }
{
    match words {
        [_, word] => word
            .as_str()
            .parse()
            .ok()
            .filter(|count| *count <= MOST_CALLS),
        _ => None,
    }
}

// The number of calls that the command line asks for. One with a word that is not text asks for none.
fn count(rt: &HostRuntime) -> io::Result<Option<u32>> {
    match env::args(rt) {
        Ok(words) => {
            let words: Vec<String> = words.collect(rt.alloc())?;
            Ok(count_of(words.as_slice()))
        }
        Err(e) if e.kind() == io::ErrorKind::InvalidData => Ok(None),
        Err(e) => Err(e),
    }
}

// Prints the line of a case.
fn report(rt: &HostRuntime, job: &Job<'_>, name: &str, case: &Case, count: u32) -> io::Result<()> {
    if !is_case(job, case) {
        return println!(rt; "{name}: no step of the plan");
    }
    if count > 0 {
        let calls = calls_a_second(count, nanos_of(rt, job, case, count)?);
        return println!(rt; "{name}: calls a second {calls}");
    }
    match taken(job, case, &case.first) {
        Some((_, cost)) => println!(rt; "{name}: cost {cost}"),
        None => println!(rt; "{name}: none"),
    }
}

// Prints the lines of all cases, where the worked job can be made.
fn report_all(rt: &HostRuntime, count: u32) -> io::Result<Option<()>> {
    let Ok(policy) = read_policy(rt.alloc(), POLICY.as_bytes()) else {
        return Ok(None);
    };
    let Ok(prices) = read_prices(rt.alloc(), PRICES.as_bytes(), &policy) else {
        return Ok(None);
    };
    let Some(query) = query(rt.alloc(), &policy.schema) else {
        return Ok(None);
    };
    let Ok(job) = Job::of(rt.alloc(), &policy, &prices, &query) else {
        return Ok(None);
    };
    for (name, case) in &cases() {
        report(rt, &job, name, case, count)?;
    }
    Ok(Some(()))
}

fn main(rt: HostRuntime) -> io::Result<ExitCode> {
    let Some(count) = count(&rt)? else {
        eprintln!(rt; "usage: step_times COUNT, a number of calls up to {MOST_CALLS}")?;
        return Ok(ExitCode::from(2));
    };
    match report_all(&rt, count)? {
        Some(()) => Ok(ExitCode::SUCCESS),
        None => {
            eprintln!(rt; "the worked job was not made")?;
            Ok(ExitCode::FAILURE)
        }
    }
}
