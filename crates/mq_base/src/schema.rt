use crate::attr_set::AttrSet;
use crate::ids::{SubjectId, TableId};
use crate::seq::Seq;
use crate::text::Text;
use crate::value::ValueType;

/// A table of a policy: its name, the subject that owns it, and its columns.
#[derive(Drop)]
pub struct TableInfo {
    pub name: Text,
    pub owner: SubjectId,
    pub attrs: AttrSet,
}

/// A column of a policy: its name, its type, and the table that it belongs to.
#[derive(Drop)]
pub struct AttrInfo {
    pub name: Text,
    pub ty: ValueType,
    pub table: TableId,
}

/// The tables and all columns of a policy, each at its id, in the order of the policy file.
#[derive(Drop)]
pub struct Schema {
    pub tables: Seq<TableInfo>,
    pub attrs: Seq<AttrInfo>,
}
