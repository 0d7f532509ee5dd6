ghost use Rattle.std.specs.Prelude.{◌≡◌};
ghost use Rattle.toml_tree.specs.Outcome as document;
ghost use Rattle.price_reader.specs.Codes.{number_of, told};
ghost use Rattle.price_reader.specs.Faults.{fault};
ghost use Rattle.price_reader.specs.declared.refusal.PriceNo.TheVariants.{NoMemory};

use crate::fault::Fault;
use mq_base::{Refusal, Refusing};
use std::error::Error;
use std::fmt;
use toml_tree::DocumentNo;

/// Why a price file is refused. docs/FORMATS.md, "Price file", lists the refusals with their places.
#[derive(Clone, Copy, Debug, PartialEq, Eq)]
pub enum PriceCode {
    /// The bytes are no UTF-8 or no TOML document.
    Syntax,
    /// The document has not the form of a price file.
    Shape,
    /// A name is none of the policy's.
    UnknownName,
    /// A number is negative, or a count of distinct values is 0.
    OutOfRange,
    /// A subject, a table or an attribute of the policy has no entry.
    Missing,
    /// A link is from a subject to itself, or an earlier link has the same pair.
    BadLink,
}

impl PriceCode {
    /// The number of the refusal in messages, 1 to 6.
    pub fn number(self) -> u16
        ensures { result ≡ number_of self }
    {
        match self {
            PriceCode::Syntax => 1,
            PriceCode::Shape => 2,
            PriceCode::UnknownName => 3,
            PriceCode::OutOfRange => 4,
            PriceCode::Missing => 5,
            PriceCode::BadLink => 6,
        }
    }
}

/// Why there are no prices.
#[derive(Debug, Drop, PartialEq)]
pub enum PriceNo {
    /// The file is refused. `at` is the section: 0 cpu, 1 net, 2 link, 3 rows, 4 distinct. `item` is the place in it, as
    /// docs/FORMATS.md, "Price file", says for each code.
    Refused { code: PriceCode, at: u64, item: u64 },
    /// The allocator refused a request for memory.
    NoMemory,
}

impl Refusing for PriceNo {
    ghost told = { told };

    fn refusal(&self) -> Option<Refusal> {
        match self {
            PriceNo::Refused { code, at, item } => Some(Refusal {
                code: code.number(),
                at: *at,
                item: *item,
            }),
            PriceNo::NoMemory => None,
        }
    }
}

impl From<Fault> for PriceNo {
    ghost from_gives = { λ found e. told e ≡ fault found.code found.at found.item };

    fn from(fault: Fault) -> PriceNo {
        PriceNo::Refused {
            code: fault.code,
            at: fault.at,
            item: fault.item,
        }
    }
}

impl From<DocumentNo> for PriceNo {
    ghost from_gives = { λ no e. told e ≡ document.told no };

    fn from(no: DocumentNo) -> PriceNo {
        let code = match no {
            DocumentNo::Syntax => PriceCode::Syntax,
            DocumentNo::Shape => PriceCode::Shape,
            DocumentNo::NoMemory => return PriceNo::NoMemory,
        };
        PriceNo::Refused {
            code,
            at: 0,
            item: 0,
        }
    }
}

impl From<mq_base::NoMemory> for PriceNo {
    ghost from_gives = { λ _ e. e ≡ NoMemory };

    fn from(_refused: mq_base::NoMemory) -> PriceNo {
        PriceNo::NoMemory
    }
}

impl fmt::Display for PriceNo {
    fn fmt<W: fmt::Write>(&self, f: &mut fmt::Formatter<W>) -> fmt::Result {
        match self {
            PriceNo::Refused { code, at, item } => {
                write!(
                    f,
                    "prices refused: code {} at {at} item {item}",
                    code.number()
                )
            }
            PriceNo::NoMemory => f.write_str("no memory"),
        }
    }
}

impl Error for PriceNo {}
