ghost use Rattle.std.specs.Prelude.{◌≡◌, ◌∷◌, ◌++◌, [], codes, IfOk};
ghost use Rattle.std.specs.String.{string_bytes};
ghost use Rattle.policy_base.specs.Accepted.{IsAccepted};
ghost use Rattle.run_report.specs.Answer.{answer_under};
ghost use Rattle.run_report.specs.Names.{item_names};
ghost use Rattle.run_report.specs.PlanLine.{plan_line};
ghost use Rattle.run_report.specs.Report.{cost_line, none_report};

use crate::{answer, plan_line};
use mq_base::{Item, NoMemory, Seq, Step, Value};
use policy_base::Policy;
use std::alloc::Global;

// The cost line of a report.
fn cost_line(alloc: Global, cost: u128) -> Result<String, NoMemory>
    ensures { IfOk result (λ text. string_bytes text ≡ cost_line cost) }
{
    let mut text = String::from_str(alloc, "cost ")?;
    text.push_str(cost.to_string(alloc)?.as_str())?;
    text.push('\n')?;
    Ok(text)
}

// What a report says before the rows of the answer.
fn front(alloc: Global, policy: &Policy, steps: &[Step], cost: u128) -> Result<Vec<u8>, NoMemory>
    requires { IsAccepted policy.now }
    ensures { IfOk result (λ text. text.items ≡ (cost_line cost ++ plan_line policy.now steps.now) ++ (codes "answer" ++ 10 ∷ [])) }
{
    let mut text = cost_line(alloc, cost)?;
    text.push_str(plan_line::line(alloc, policy, steps)?.as_str())?;
    text.push_str("answer\n")?;
    Ok(text.into_bytes())
}

/// The report of a plan of these steps and this cost, of which these rows came: the cost line, the plan line, and the rows, sorted,
/// under the names of the selected items (docs/FORMATS.md, "Report"). The error says that memory was wanting.
pub fn text(
    alloc: Global,
    policy: &Policy,
    items: &[Item],
    steps: &[Step],
    cost: u128,
    rows: Vec<Seq<Value>>,
) -> Result<Vec<u8>, NoMemory>
    requires { IsAccepted policy.now }
    ensures { IfOk result (λ text. text.items
        ≡ cost_line cost ++ plan_line policy.now steps.now ++ answer_under (item_names policy.now.schema items.now) rows.items) }
{
    let front = front(alloc, policy, steps, cost)?;
    answer::append(alloc, front, policy, items, rows)
}

/// The report where there is no plan (docs/FORMATS.md, "Report"). The error says that memory was wanting.
pub fn none_text(alloc: Global) -> Result<Vec<u8>, NoMemory>
    ensures { IfOk result (λ text. text.items ≡ none_report) }
{
    Ok(Vec::from_slice(alloc, b"cost none\n")?)
}
