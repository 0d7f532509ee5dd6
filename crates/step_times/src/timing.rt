//! The calls that are timed.

ghost use Rattle.std.specs.Prelude.{◌≡◌, ◌*◌, ◌/◌, max};
ghost use Rattle.extended_plan.specs.Job.{IsStepAt, setting_of};
ghost use Rattle.step_times.specs.Cases.{IsCase};

use crate::case::Case;
use extended_plan::{Job, State, after_step};
use std::io;
use std::time::Instant;

/// The state after the step of a case on one of its states, and the cost.
pub(crate) fn taken(job: &Job<'_>, case: &Case, first: &State) -> Option<(State, u128)>
    requires { IsStepAt (setting_of job.now) case.now.node case.now.step first.now case.now.second }
{
    match &case.second {
        None => after_step(job, case.node, &case.step, first, None),
        Some(second) => after_step(job, case.node, &case.step, first, Some(second)),
    }
}

// Takes the step of a case on one of its states, and answers the cost, or 1 where there is none.
fn cost_of(job: &Job<'_>, case: &Case, even: bool) -> u128
    requires { IsCase (setting_of job.now) case.now }
{
    let gain = if even {
        taken(job, case, &case.first)
    } else {
        taken(job, case, &case.other)
    };
    match gain {
        Some((_, cost)) => cost,
        None => 1,
    }
}

// Takes the step of a case so many times, on its two states in turn, and adds the costs up.
fn perform(job: &Job<'_>, case: &Case, count: u32) -> u128
    requires { IsCase (setting_of job.now) case.now }
{
    let mut total = 0u128;
    for turn in 0..count {
        total = total.wrapping_add(cost_of(job, case, turn % 2 == 0));
    }
    total
}

/// The nanoseconds that so many calls take.
pub(crate) fn nanos_of(rt: &HostRuntime, job: &Job<'_>, case: &Case, count: u32) -> io::Result<u64>
    requires { IsCase (setting_of job.now) case.now }
{
    let start = Instant::now(rt)?;
    let total = perform(job, case, count);
    let nanos = start.elapsed(rt)?.as_nanos();
    // No run comes to this sum, but no compiler can know it, and so none drops the calls.
    if total == u128::MAX {
        eprintln!(rt; "the costs came to the largest number")?;
    }
    Ok(u64::try_from(nanos).unwrap_or(u64::MAX))
}

/// The whole calls in a second, where `count` took so many nanoseconds. No time counts as one.
pub(crate) fn calls_a_second(count: u32, nanos: u64) -> u64
    ensures { result ≡ count * 1_000_000_000 / max nanos 1 }
{
    count as u64 * 1_000_000_000 / nanos.max(1)
}
