use crate::ids::{SubjectId, TableId};
use crate::seq::Seq;
use crate::value::Value;

/// How an encrypted column is sealed.
#[derive(Clone, Copy, Debug, PartialEq, Eq)]
pub enum Scheme {
    /// Randomised: nothing compares.
    Rnd,
    /// Deterministic: equality compares.
    Det,
    /// Order-preserving: order compares.
    Ope,
}

/// The content of a table as its file gives it.
#[derive(Drop)]
pub struct PlainTable {
    pub table: TableId,
    /// The number of rows, at most 100,000.
    pub rows: u64,
    /// The columns in the order of the policy, each with a value for each row in the order of the file.
    pub columns: Seq<Seq<Value>>,
}

/// One sending of a table from subject to subject.
#[derive(Clone, Copy)]
pub struct Transfer {
    /// The place of the Send step in the list of steps.
    pub step: u32,
    pub from: SubjectId,
    pub to: SubjectId,
    pub rows: u64,
    /// The number of bytes of the table as it was sent.
    pub bytes: u64,
    /// SHA-256 of these bytes.
    pub digest: [u8; 32],
}
