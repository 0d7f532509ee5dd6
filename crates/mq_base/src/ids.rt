/// A subject of a policy: its place, from 0, in the policy file's list. At most 16 subjects.
#[derive(Clone, Copy, Debug, PartialEq, Eq, PartialOrd, Ord, Hash)]
pub struct SubjectId(pub u8);

/// A table of a policy: its place, from 0, in the policy file. At most 8 tables.
#[derive(Clone, Copy, Debug, PartialEq, Eq)]
pub struct TableId(pub u8);

/// An attribute, which is a column of a table: its place, from 0, among all columns of the policy file.
/// At most 64 attributes.
#[derive(Clone, Copy, Debug, PartialEq, Eq)]
pub struct AttrId(pub u8);

/// A node of a query plan: its place, from 0, in post-order. At most 64 nodes.
#[derive(Clone, Copy, Debug, PartialEq, Eq)]
pub struct NodeId(pub u8);
