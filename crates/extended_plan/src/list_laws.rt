//! The law of step lists, for the layers that spell extended plans. A call that takes nothing and does nothing.

ghost use Rattle.extended_plan.specs.StepListLaws.{OutcomesAreExact};

/// A list of steps comes to a state and a cost exactly where it spells a valid extended plan of these.
/// docs/MODEL.md, "Step lists".
pub fn outcomes_are_exact()
    ensures { OutcomesAreExact }
{}
