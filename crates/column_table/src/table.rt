ghost use Rattle.std.specs.Prelude.{◌<◌, ◌^◌, IsTrue};
ghost use Rattle.std.specs.List.{All};
ghost use Rattle.column_table.specs.Columns.{counts_have, has_rows, shown_columns};

use mq_base::Seq;
use sealed_column::AnyColumn;

/// A table in columns, wherever it is held: each column has a cell for each row, and the counts, where rows stand for groups, have a number
/// for each. It has at most 2^48 - 1 rows, and knows of no node and no key. docs/MODEL.md, "Encoded run".
#[derive(Drop)]
pub struct Table {
    /// The number of rows.
    pub rows: u64,
    /// The column of each attribute, where the table has it.
    pub columns: [Option<AnyColumn>; 64],
    /// How many rows each row stands for, where the table tells it.
    pub counts: Option<Seq<u64>>,
    pub ghost few: { rows < 2 ^ 48 },
    pub ghost filled: { All (λ c. IsTrue (has_rows rows c)) (shown_columns columns) },
    pub ghost counted: { IsTrue (counts_have rows counts) },
}
