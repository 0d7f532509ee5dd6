use mq_base::SubjectId;

/// Why a list of steps fails at a place; at one place the causes are tested in this order. docs/MODEL.md, "Step lists".
#[derive(Clone, Copy, Debug, PartialEq, Eq)]
pub enum StepWhy {
    /// An operand is missing; at the end, not exactly one table is left.
    Shape,
    /// The table is no leaf of the query, the operands are not those of the node, or the node is of another kind; at the end, the
    /// table that is left is not the root's.
    NotThePlan,
    /// The step is not runnable on its operands.
    NotRunnable,
    /// The new holder, who is named, may not hold the result.
    Breach(SubjectId, view_authority::Breach),
    /// The table that is left is not at the user, or something in it is encrypted.
    NotTheGoal,
}

/// The first place at which a list of steps fails, counted from 0, and why; the end of the list has the number of its steps.
#[derive(Clone, Copy, Debug, PartialEq, Eq)]
pub struct StepNo {
    pub at: u32,
    pub why: StepWhy,
}
