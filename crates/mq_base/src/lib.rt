//! The plain types of the product: ids, sets of attributes, values, schemas, queries, plans and tables,
//! with the lists and texts that they are made of. Every other crate stands on these and their meaning.
#![tactic(auto)]

mod attr_set;
mod bytes;
mod ids;
mod laws;
mod memory;
mod plan;
mod query;
mod refusal;
mod schema;
mod seq;
mod table;
mod text;
mod used;
mod value;

pub use attr_set::AttrSet;
pub use ids::{AttrId, NodeId, SubjectId, TableId};
pub use laws::{blocks_determine, digits_are_ordered, lengths_are_the_types};
pub use memory::NoMemory;
pub use plan::{Plan, PlanNode, PlanOp, Step};
pub use query::{Agg, CmpOp, Cond, Having, Item, Query};
pub use refusal::{Refusal, Refusing};
pub use schema::{AttrInfo, Schema, TableInfo};
pub use seq::Seq;
pub use table::{PlainTable, Scheme, Transfer};
pub use text::Text;
pub use value::{Value, ValueType};
