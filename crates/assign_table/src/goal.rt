ghost use Rattle.std.specs.Prelude.{◌≡◌, ◌<◌, ◌≤◌, length, IfSome};
ghost use Rattle.extended_plan.specs.Certificate as certificate;
ghost use Rattle.extended_plan.specs.Job.{setting_of};
ghost use Rattle.assign_table.specs.inside.Blocks.{IsBestGoal, better_of};

use crate::way::Settled;
use extended_plan::{Job, State};

/// The place of a goal with the least label among the settled states from one place up to another, where one is a goal.
pub fn best_goal(job: &Job<'_>, settled: &[Settled], from: usize, to: usize) -> Option<usize>
    requires inside { to ≤ length settled.now }
    requires rise { from ≤ to }
    ensures { IsBestGoal (setting_of job.now) settled.now from to result }
{
    let mut best = None;
    'places: for at in from..to {
        best = better(job, settled, at, best);
    }
    best
}

// The better of a place and the best so far.
fn better(job: &Job<'_>, settled: &[Settled], at: usize, best: Option<usize>) -> Option<usize>
    requires inside { at < length settled.now }
    requires best { IfSome best (λ place. place < length settled.now) }
    ensures { result ≡ better_of (setting_of job.now) settled.now at best }
{
    if !is_goal(job, &settled[at].state) {
        return best;
    }
    match best {
        None => Some(at),
        Some(place) => {
            if settled[at].label < settled[place].label {
                Some(at)
            } else {
                Some(place)
            }
        }
    }
}

// Whether a state of the root is a goal: the user holds the table, and nothing is encrypted.
fn is_goal(job: &Job<'_>, state: &State) -> bool
    ensures { result ≡ certificate.is_goal (setting_of job.now) state.now }
{
    state.holder.0 == job.policy.user.0 && state.view.enc.0 == 0
}
