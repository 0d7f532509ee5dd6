//! Laws of seals and cells, for the layers above. Each is a call that takes nothing and does nothing.

ghost use Rattle.sealed_column.specs.Laws.{ColumnsOpen, EqualityIsKept, LengthsAreTheSchemes, OpensOnce, OrderIsKept, SealsOpen, TableCellsCanBeSealed};

/// The seal of a value opens to it. docs/CIPHERS.md, "Sealed columns".
pub fn seals_open()
    ensures { SealsOpen }
{}

/// The seals of a column's values open to them. docs/CIPHERS.md, "Sealed columns".
pub fn columns_open()
    ensures { ColumnsOpen }
{}

/// A cell opens under a key to no two values of one type. docs/CIPHERS.md, "Sealed columns".
pub fn cells_open_once()
    ensures { OpensOnce }
{}

/// Deterministic and order-preserving cells are equal exactly where their values are. docs/CIPHERS.md, "Sealed columns".
pub fn equality_is_kept()
    ensures { EqualityIsKept }
{}

/// Order-preserving cells are ordered as their values are. docs/CIPHERS.md, "Sealed columns".
pub fn order_is_kept()
    ensures { OrderIsKept }
{}

/// A cell is as long as its scheme and type say. docs/CIPHERS.md, "Sealed columns".
pub fn lengths_are_the_schemes()
    ensures { LengthsAreTheSchemes }
{}

/// What a table's cell holds can be sealed. docs/CIPHERS.md, "Sealed columns".
pub fn table_cells_can_be_sealed()
    ensures { TableCellsCanBeSealed }
{}
