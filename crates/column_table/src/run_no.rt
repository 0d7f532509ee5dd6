ghost use Rattle.std.specs.Prelude.{◌≡◌};
ghost use Rattle.column_table.specs.declared.run_no.RunNo.TheVariants as run_no;

/// Why the product or the join of two tables was not made.
#[derive(Clone, Copy, Debug, PartialEq, Eq)]
pub enum RunNo {
    /// The result would have more than 2^48 - 1 rows.
    RowRange,
    /// The allocator refused a request.
    NoMemory,
}

impl From<mq_base::NoMemory> for RunNo {
    ghost from_gives = { λ _ no. no ≡ run_no.NoMemory };

    fn from(_refused: mq_base::NoMemory) -> RunNo {
        RunNo::NoMemory
    }
}
