ghost use Rattle.std.specs.Prelude.{◌≡◌, IfOk};
ghost use Rattle.std.specs.String.{string_bytes};
ghost use Rattle.serde_json.specs.View.{view};
ghost use Rattle.serde_json.specs.Written.{compact_text};
ghost use Rattle.policy_base.specs.Accepted.{IsAccepted};
ghost use Rattle.run_report.specs.PlanLine.{named_step, node_step, plan_line, step_data, steps_data};

use mq_base::{NoMemory, NodeId, Step};
use policy_base::Policy;
use serde_json::{Value, json};
use std::alloc::{AllocError, Global};

// A step that names a table, an attribute or a subject.
fn named(alloc: Global, word: &str, name: &str) -> Result<Value, AllocError>
    ensures { IfOk result (λ value. view value ≡ named_step word.now name.now) }
{
    json!(in alloc; [word, name])
}

// A step that does a node of the plan.
fn numbered(alloc: Global, word: &str, n: NodeId) -> Result<Value, AllocError>
    ensures { IfOk result (λ value. view value ≡ node_step word.now n.0) }
{
    json!(in alloc; [word, n.0])
}

// A step as it is written.
fn step(alloc: Global, policy: &Policy, step: Step) -> Result<Value, AllocError>
    requires { IsAccepted policy.now }
    ensures { IfOk result (λ value. view value ≡ step_data policy.now step) }
{
    match step {
        Step::Base(t) => named(alloc, "base", policy.table_name(t)),
        Step::Enc(a) => named(alloc, "enc", policy.attribute_name(a)),
        Step::Dec(a) => named(alloc, "dec", policy.attribute_name(a)),
        Step::Send(s) => named(alloc, "send", policy.subject_name(s)),
        Step::Un(n) => numbered(alloc, "un", n),
        Step::Bin(n) => numbered(alloc, "bin", n),
    }
}

// The steps of a plan.
fn plan(alloc: Global, policy: &Policy, steps: &[Step]) -> Result<Value, AllocError>
    requires { IsAccepted policy.now }
    ensures { IfOk result (λ value. view value ≡ steps_data policy.now steps.now) }
{
    let mut values = Vec::with_capacity(alloc, steps.len())?;
    'steps: for taken in steps {
        values.push(step(alloc, policy, *taken)?)?;
    }
    Ok(Value::from(values))
}

// The steps of a plan as compact JSON.
fn steps_text(alloc: Global, policy: &Policy, steps: &[Step]) -> Result<String, NoMemory>
    requires { IsAccepted policy.now }
    ensures { IfOk result (λ text. string_bytes text ≡ compact_text (steps_data policy.now steps.now)) }
{
    let steps = plan(alloc, policy, steps)?;
    let text = steps.to_string(alloc)?;
    Ok(text)
}

// The plan line of a report.
pub fn line(alloc: Global, policy: &Policy, steps: &[Step]) -> Result<String, NoMemory>
    requires { IsAccepted policy.now }
    ensures { IfOk result (λ text. string_bytes text ≡ plan_line policy.now steps.now) }
{
    let mut text = String::from_str(alloc, "plan ")?;
    text.push_str(steps_text(alloc, policy, steps)?.as_str())?;
    text.push('\n')?;
    Ok(text)
}
