ghost use Rattle.std.specs.Prelude.{◌≡◌};
ghost use Rattle.plan_runner.specs.declared.stop.RunStop.TheVariants as stop;

use mq_base::NodeId;

/// Why a plan was not run to its end.
#[derive(Clone, Copy, Debug, PartialEq, Eq)]
pub enum RunStop {
    /// The table of this node would have more than 2^48 - 1 rows, and no earlier node's has.
    RowRange(NodeId),
    /// The allocator refused a request.
    NoMemory,
}

impl From<mq_base::NoMemory> for RunStop {
    ghost from_gives = { λ _ why. why ≡ stop.NoMemory };

    fn from(_refused: mq_base::NoMemory) -> RunStop {
        RunStop::NoMemory
    }
}
