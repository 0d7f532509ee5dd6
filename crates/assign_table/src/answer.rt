use mq_base::{NoMemory, NodeId};
use std::alloc::{AllocError, AllocFailed};

/// Why a search answers no plan, and not that there is none. docs/MODEL.md, "Search".
#[derive(Clone, Copy, Debug, PartialEq, Eq)]
pub enum SearchNo {
    /// More than 200,000 states are reached: at the nodes up to this one, and not at those before it.
    TooManyStates { node: NodeId },
    /// There are valid extended plans, and each costs 2^128 - 1 or more.
    CostRange,
    /// The allocator refused a request.
    NoMemory,
}

impl From<AllocError> for SearchNo {
    ghost use Rattle.std.specs.Prelude.{◌≡◌};
    ghost use Rattle.assign_table.specs.declared.answer.SearchNo.TheVariants.{NoMemory};

    ghost from_gives = { λ _ e. e ≡ NoMemory };

    fn from(_refused: AllocError) -> SearchNo {
        SearchNo::NoMemory
    }
}

impl<T: Drop> From<AllocFailed<T>> for SearchNo {
    ghost use Rattle.std.specs.Prelude.{◌≡◌};
    ghost use Rattle.assign_table.specs.declared.answer.SearchNo.TheVariants.{NoMemory};

    ghost from_gives = { λ _ e. e ≡ NoMemory };

    fn from(_refused: AllocFailed<T>) -> SearchNo {
        SearchNo::NoMemory
    }
}

impl From<NoMemory> for SearchNo {
    ghost use Rattle.std.specs.Prelude.{◌≡◌};
    ghost use Rattle.assign_table.specs.declared.answer.SearchNo.TheVariants.{NoMemory};

    ghost from_gives = { λ _ e. e ≡ NoMemory };

    fn from(_no_memory: NoMemory) -> SearchNo {
        SearchNo::NoMemory
    }
}
