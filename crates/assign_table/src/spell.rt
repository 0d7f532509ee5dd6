ghost use Rattle.std.specs.Prelude.{◌≡◌, ◌++◌, ◌∷◌, [], IfOk, OnOk, reverse};
ghost use Rattle.assign_table.specs.inside.Ways.{AreStepsOf, HasOperands, LeadsWithin, operand_ways, step_of};

use crate::way::{Settled, Way};
use mq_base::{NoMemory, Step};
use std::alloc::Global;

/// The steps of the extended plan to which a way leads, which has at most 200,000 steps. The time is linear in the steps.
///
/// `NoMemory` where the allocator refused a request. docs/MODEL.md, "Search".
pub fn steps_of(alloc: Global, settled: &[Settled], way: Way) -> Result<Vec<Step>, NoMemory>
    requires { LeadsWithin settled.now way 200000 }
    ensures { IfOk result (λ steps. AreStepsOf settled.now way steps.items) }
{
    let mut told = Vec::new(alloc);
    let mut ways = Vec::new(alloc);
    ways.push(way)?;
    'telling: loop {
        match ways.pop() {
            None => return Ok(turned(told)),
            Some(last) => tell(settled, last, &mut told, &mut ways)?,
        }
    }
}

// The steps from the other end.
fn turned(steps: Vec<Step>) -> Vec<Step>
    ensures { result.items ≡ reverse steps.items }
{
    let mut steps = steps;
    steps.reverse();
    steps
}

// Tells the last step of the extended plan to which a way leads, and leaves the ways of its operands.
fn tell(
    settled: &[Settled],
    way: Way,
    told: &mut Vec<Step>,
    ways: &mut Vec<Way>,
) -> Result<(), NoMemory>
    requires { HasOperands settled.now way }
    ensures told { OnOk result (told.new.items ≡ told.old.items ++ step_of way ∷ []) }
    ensures left { OnOk result (ways.new.items ≡ ways.old.items ++ operand_ways settled.now way) }
{
    match way {
        Way::Leaf(table) => told.push(Step::Base(table))?,
        Way::One { step, operand } => {
            told.push(step)?;
            ways.push(settled[operand as usize].way)?;
        }
        Way::Two { node, left, right } => {
            told.push(Step::Bin(node))?;
            ways.push(settled[left as usize].way)?;
            ways.push(settled[right as usize].way)?;
        }
    }
    Ok(())
}
