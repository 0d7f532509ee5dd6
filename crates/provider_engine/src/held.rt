ghost use Rattle.std.specs.Prelude.{◌≡◌, ◌<◌, ℕ};
ghost use Rattle.base_laws.specs.Sets.{has};
ghost use Rattle.column_table.specs.Columns.{column_at, is_sealed, shown_columns};

use column_table::Table;
use extended_plan::State;
use mq_base::{AttrId, NodeId, SubjectId};
use relation_profile::View;
use sealed_column::AnyColumn;

/// The table of a node at its holder, in columns. Those that its view says are sealed are, and no others. It has at most 2^48 - 1
/// rows. docs/MODEL.md, "Encoded run".
#[derive(Drop)]
pub struct Held {
    pub(crate) node: NodeId,
    pub(crate) state: State,
    pub(crate) table: Table,
    ghost sealed: { (a : ℕ) → a < 64 → is_sealed (column_at (shown_columns table.columns) a) ≡ has state.view.enc.0 a },
}

impl Held {
    ghost use Rattle.std.specs.Prelude.{◌^◌, length, option_map};
    ghost use Rattle.column_table.specs.Columns.{shown};
    ghost use Rattle.provider_engine.specs.Held.{column_of, counts_of, node_of, state_of, table_of};

    /// The subject that holds it. It takes no memory.
    pub fn holder(&self) -> SubjectId
        ensures { result ≡ (state_of self.now).holder }
    {
        self.state.holder
    }

    /// The node whose table it is. It takes no memory.
    pub fn node(&self) -> NodeId
        ensures { result ≡ node_of self.now }
    {
        self.node
    }

    /// What the steps so far made of it. It takes no memory.
    pub fn view(&self) -> View
        ensures { result ≡ (state_of self.now).view }
    {
        self.state.view
    }

    /// The number of its rows. It takes no memory.
    #[tactic(auto, using(column_table::proofs::ColumnLaws::rows_length))]
    pub fn rows(&self) -> u64
        ensures number { result ≡ length (table_of self.now) }
        ensures few { result < 2 ^ 48 }
    {
        self.table.rows
    }

    /// The column of an attribute, where the table has it. It takes no memory.
    pub fn column(&self, a: AttrId) -> Option<&AnyColumn>
        requires { a.0 < 64 }
        ensures { option_map (λ c. shown c.now) result ≡ column_of self.now a.0 }
    {
        self.table.columns[usize::from(a.0)].as_ref()
    }

    /// The count column in the order of the rows, where the table has it. It takes no memory.
    pub fn counts(&self) -> Option<&[u64]>
        ensures { option_map (λ c. c.now) result ≡ counts_of self.now }
    {
        match &self.table.counts {
            Some(counts) => Some(counts.as_slice()),
            None => None,
        }
    }
}
