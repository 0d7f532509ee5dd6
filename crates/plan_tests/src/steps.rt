//! What lists of steps come to, over a policy, prices and a query.
ghost use Rattle.std.specs.Prelude.{◌≤◌, length};

use extended_plan::{Job, PlanTotals, State, StepNo, StepWhy};
use mq_base::{AttrId, AttrSet, Step, SubjectId};
use policy_reader::read_policy;
use price_reader::read_prices;
use query_bind::bind;
use relation_profile::View;
use sql_reader::read_query;
use std::alloc::Global;
use std::process::Abort;
use std::test::Fail;
use step_check::{StepStack, StepsNo, check_steps, check_steps_in};
use view_authority::Breach;

/// A policy, its prices and a query.
pub(crate) struct Given {
    pub(crate) policy: &'static str,
    pub(crate) prices: &'static str,
    pub(crate) query: &'static str,
}

/// What a list comes to.
#[derive(Clone, Copy, Debug)]
pub(crate) enum Told {
    /// It fails at a place, for a cause.
    Fails(u32, StepWhy),
    /// It fails at a place, where a subject may not hold the table by a condition, for an attribute.
    Breaks(u32, u8, u8, u8),
    /// It ends at the user with nothing sealed, with these attributes implicit plain and implicit sealed, at this cost.
    Ends(u64, u64, u128),
}

// The same as the answer of a call, where this is the user.
fn answer(told: Told, user: SubjectId) -> Result<PlanTotals, StepsNo> {
    match told {
        Told::Fails(at, why) => Err(StepsNo::Refused(StepNo { at, why })),
        Told::Breaks(at, subject, rule, attr) => {
            let broken = Breach {
                rule,
                attr: AttrId(attr),
            };
            let why = StepWhy::Breach(SubjectId(subject), broken);
            Err(StepsNo::Refused(StepNo { at, why }))
        }
        Told::Ends(ip, ie, cost) => {
            let view = View {
                enc: AttrSet::EMPTY,
                ip: AttrSet(ip),
                ie: AttrSet(ie),
            };
            let state = State { holder: user, view };
            Ok(PlanTotals { state, cost })
        }
    }
}

// What a list comes to over a lent stack, whose room stays as it was.
fn lent(
    rt: &impl Abort,
    job: &Job<'_>,
    steps: &[Step],
    stack: &mut StepStack,
) -> Result<PlanTotals, StepsNo> {
    let room = stack.room();
    assert!(rt; steps.len() <= room && steps.len() < 1_000_000);
    let found = check_steps_in(job, steps, stack);
    assert_eq!(rt; stack.room(), room);
    match found {
        Ok(totals) => Ok(totals),
        Err(no) => Err(StepsNo::Refused(no)),
    }
}

/// Each list comes to what is told, with a stack of its own and over one that has this room and keeps what earlier lists left on it.
pub(crate) fn check(
    rt: &impl Abort,
    alloc: Global,
    given: &Given,
    room: usize,
    rows: &[(&[Step], Told)],
) -> Result<(), Fail> {
    let policy = read_policy(alloc, given.policy.as_bytes())?;
    let prices = read_prices(alloc, given.prices.as_bytes(), &policy)?;
    assert!(rt; given.query.len() < 1000);
    let raw = read_query(alloc, given.query)?;
    let query = bind(alloc, &raw, &policy.schema)?;
    let job = Job::of(alloc, &policy, &prices, &query)?;
    let mut stack = StepStack::with(alloc, room)?;
    for (steps, told) in rows {
        let expected = answer(*told, policy.user);
        assert!(rt; lent(rt, &job, steps, &mut stack) == expected, "{told:?}");
        assert!(rt; steps.len() < 1_000_000);
        assert!(rt; check_steps(alloc, &job, steps) == expected, "{told:?}");
    }
    Ok(())
}
