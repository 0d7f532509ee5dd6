use extended_plan::StepNo;
use mq_base::NoMemory;

/// Why a check of a list of steps answers no totals.
#[derive(Clone, Copy, Debug, PartialEq, Eq)]
pub enum StepsNo {
    /// The list fails, at the first place where it does.
    Refused(StepNo),
    /// The allocator refused a request for memory.
    NoMemory,
}

impl From<NoMemory> for StepsNo {
    ghost use Rattle.std.specs.Prelude.{◌≡◌};
    ghost use Rattle.step_check.specs.declared.steps_no.StepsNo.TheVariants.{NoMemory};

    ghost from_gives = { λ _ e. e ≡ NoMemory };

    fn from(_no_memory: NoMemory) -> StepsNo {
        StepsNo::NoMemory
    }
}
