ghost use Rattle.std.specs.Prelude.{◌≡◌};
ghost use Rattle.toml_tree.specs.Outcome as document;
ghost use Rattle.policy_reader.specs.Codes.{number_of, told};
ghost use Rattle.policy_reader.specs.Faults.{fault};
ghost use Rattle.policy_reader.specs.declared.refusal.PolicyNo.TheVariants.{NoMemory};

use crate::fault::Fault;
use mq_base::{Refusal, Refusing};
use std::alloc::{AllocError, AllocFailed};
use std::error::Error;
use std::fmt;
use toml_tree::DocumentNo;

/// Why a policy file is refused. docs/FORMATS.md, "Policy file", lists the refusals with their places.
#[derive(Clone, Copy, Debug, PartialEq, Eq)]
pub enum PolicyCode {
    /// The bytes are no UTF-8 or no TOML document.
    Syntax,
    /// The document has not the form of a policy file.
    Shape,
    /// A name breaks the name rule, or a subject is named `any`.
    BadName,
    /// The same name stands earlier of the same kind.
    RepeatedName,
    /// The owner of a table is no subject.
    UnknownOwner,
    /// The user, or the subject of a rule, is no subject.
    UnknownSubject,
    /// The table of a rule is no table.
    UnknownTable,
    /// A string of a rule is no column of the rule's table.
    UnknownAttribute,
    /// A string of `sealed` stands in `plain` too.
    Overlap,
    /// The subject of a rule owns the rule's table.
    RuleForOwner,
    /// An earlier rule has the same table and subject.
    RepeatedRule,
    /// There are more than 16 subjects, 8 tables, or 64 columns in all.
    TooMany,
}

impl PolicyCode {
    /// The number of the refusal in messages, 1 to 12.
    pub fn number(self) -> u16
        ensures { result ≡ number_of self }
    {
        match self {
            PolicyCode::Syntax => 1,
            PolicyCode::Shape => 2,
            PolicyCode::BadName => 3,
            PolicyCode::RepeatedName => 4,
            PolicyCode::UnknownOwner => 5,
            PolicyCode::UnknownSubject => 6,
            PolicyCode::UnknownTable => 7,
            PolicyCode::UnknownAttribute => 8,
            PolicyCode::Overlap => 9,
            PolicyCode::RuleForOwner => 10,
            PolicyCode::RepeatedRule => 11,
            PolicyCode::TooMany => 12,
        }
    }
}

/// Why there is no policy.
#[derive(Debug, Drop, PartialEq)]
pub enum PolicyNo {
    /// The file is refused. `at` is the index of the subject, table or rule, and `item` the place in it, as
    /// docs/FORMATS.md, "Policy file", says for each code.
    Refused {
        code: PolicyCode,
        at: u64,
        item: u64,
    },
    /// The allocator refused a request for memory.
    NoMemory,
}

impl Refusing for PolicyNo {
    ghost told = { told };

    fn refusal(&self) -> Option<Refusal> {
        match self {
            PolicyNo::Refused { code, at, item } => Some(Refusal {
                code: code.number(),
                at: *at,
                item: *item,
            }),
            PolicyNo::NoMemory => None,
        }
    }
}

impl From<Fault> for PolicyNo {
    ghost from_gives = { λ found e. told e ≡ fault found.code found.at found.item };

    fn from(fault: Fault) -> PolicyNo {
        PolicyNo::Refused {
            code: fault.code,
            at: fault.at,
            item: fault.item,
        }
    }
}

impl From<DocumentNo> for PolicyNo {
    ghost from_gives = { λ no e. told e ≡ document.told no };

    fn from(no: DocumentNo) -> PolicyNo {
        let code = match no {
            DocumentNo::Syntax => PolicyCode::Syntax,
            DocumentNo::Shape => PolicyCode::Shape,
            DocumentNo::NoMemory => return PolicyNo::NoMemory,
        };
        PolicyNo::Refused {
            code,
            at: 0,
            item: 0,
        }
    }
}

impl fmt::Display for PolicyNo {
    fn fmt<W: fmt::Write>(&self, f: &mut fmt::Formatter<W>) -> fmt::Result {
        match self {
            PolicyNo::Refused { code, at, item } => {
                write!(
                    f,
                    "policy refused: code {} at {at} item {item}",
                    code.number()
                )
            }
            PolicyNo::NoMemory => f.write_str("no memory"),
        }
    }
}

impl Error for PolicyNo {}

impl From<AllocError> for PolicyNo {
    ghost from_gives = { λ _ e. e ≡ NoMemory };

    fn from(_refused: AllocError) -> PolicyNo {
        PolicyNo::NoMemory
    }
}

impl<T: Drop> From<AllocFailed<T>> for PolicyNo {
    ghost from_gives = { λ _ e. e ≡ NoMemory };

    fn from(_refused: AllocFailed<T>) -> PolicyNo {
        PolicyNo::NoMemory
    }
}

impl From<mq_base::NoMemory> for PolicyNo {
    ghost from_gives = { λ _ e. e ≡ NoMemory };

    fn from(_refused: mq_base::NoMemory) -> PolicyNo {
        PolicyNo::NoMemory
    }
}
