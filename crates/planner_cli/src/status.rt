ghost use Rattle.std.specs.Prelude.{◌≡◌};
ghost use Rattle.planner_cli.specs.Status.{number_of};
ghost use Rattle.planner_cli.specs.inside.Unloaded.{status_of};

use command_input::{FileRole, InputFault, LoadNo};
use mq_base::NodeId;
use std::fmt;

/// How a command ended. docs/FORMATS.md, "Statuses", says when each comes.
#[derive(Clone, Copy, Debug, PartialEq, Eq)]
pub enum Status {
    /// The whole report was written.
    Done,
    /// No valid extended plan exists; the whole report, which says so, was written.
    NoPlan,
    /// The words are of no command's form.
    Words,
    /// A file is refused.
    Input(InputFault),
    /// A file could not be read.
    ReadFault(FileRole),
    /// The report could not be written.
    WriteFault,
    /// More than 200,000 states are reached at the nodes up to this one, and not at those before it.
    TooManyStates(NodeId),
    /// Valid extended plans exist, and each costs 2^128 - 1 or more.
    CostRange,
    /// The allocator refused a request for memory.
    NoMemory,
    /// A plan was found, and this node is the first with more than 2^48 - 1 rows.
    RowRange(NodeId),
}

impl Status {
    /// The number of the status, which is the program's exit status. It takes no memory.
    pub fn number(&self) -> u8
        ensures { result ≡ number_of self.now }
    {
        match self {
            Status::Done => 0,
            Status::NoPlan => 1,
            Status::Words => 2,
            Status::Input(_) => 3,
            Status::ReadFault(_) => 4,
            Status::WriteFault => 5,
            Status::TooManyStates(_) => 6,
            Status::CostRange => 7,
            Status::NoMemory => 9,
            Status::RowRange(_) => 10,
        }
    }
}

impl fmt::Display for Status {
    fn fmt<W: fmt::Write>(&self, f: &mut fmt::Formatter<W>) -> fmt::Result {
        match self {
            Status::Done => f.write_str("done"),
            Status::NoPlan => f.write_str("no authorised plan"),
            Status::Words => f.write_str("words"),
            Status::Input(fault) => write!(
                f,
                "input {} code {} at {} item {}",
                fault.file, fault.code, fault.at, fault.item
            ),
            Status::ReadFault(file) => write!(f, "read fault {}", file),
            Status::WriteFault => f.write_str("write fault"),
            Status::TooManyStates(node) => write!(f, "too many states at node {}", node.0),
            Status::CostRange => f.write_str("cost range"),
            Status::NoMemory => f.write_str("no memory"),
            Status::RowRange(node) => write!(f, "row range at node {}", node.0),
        }
    }
}

// The status of a command whose files were not loaded.
pub fn status_of(error: LoadNo) -> Status
    ensures { result ≡ status_of error }
{
    match error {
        LoadNo::Refused(fault) => Status::Input(fault),
        LoadNo::Failed(file) => Status::ReadFault(file),
        LoadNo::NoMemory => Status::NoMemory,
    }
}
