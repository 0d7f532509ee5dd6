use mq_base::TableId;
use std::fmt;

/// A file of a command.
#[derive(Clone, Copy, Debug, PartialEq, Eq)]
pub enum FileRole {
    Policy,
    Prices,
    Query,
    /// The file of a table, named for it.
    Table(TableId),
    Cert,
}

impl fmt::Display for FileRole {
    fn fmt<W: fmt::Write>(&self, f: &mut fmt::Formatter<W>) -> fmt::Result {
        match self {
            FileRole::Policy => f.write_str("policy"),
            FileRole::Prices => f.write_str("prices"),
            FileRole::Query => f.write_str("query"),
            FileRole::Table(table) => write!(f, "table {}", table.0),
            FileRole::Cert => f.write_str("certificate"),
        }
    }
}

/// The first fault of a file, as docs/FORMATS.md numbers it. A place that a code does not carry is 0.
/// Code 0 says that the file has more than 67,108,864 bytes.
#[derive(Clone, Copy, Debug, PartialEq, Eq)]
pub struct InputFault {
    pub file: FileRole,
    pub code: u16,
    pub at: u64,
    pub item: u64,
}
