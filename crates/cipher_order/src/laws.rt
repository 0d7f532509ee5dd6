//! Laws of the seal, for the layers that seal values. Each is a call that takes nothing and does nothing.

ghost use Rattle.cipher_order.specs.Laws.{CellsAreOrdered, CellsAreTwiceAsLong, CellsDetermine};

/// A cell has two bytes for each digit. docs/CIPHERS.md, "Order-preserving seal".
#[tactic(auto, using(crate::proofs::Order::cell_length))]
pub fn cells_are_twice_as_long()
    ensures { CellsAreTwiceAsLong }
{}

/// Cells of strings of one length are ordered, byte by byte, as the strings are. docs/CIPHERS.md, "Order-preserving seal".
#[tactic(auto, using(crate::proofs::Order::sealed_ordered))]
pub fn cells_are_ordered()
    ensures { CellsAreOrdered }
{}

/// Strings of one length have equal cells under one key only where they are equal. docs/CIPHERS.md, "Order-preserving seal".
#[tactic(auto, using(crate::proofs::Order::sealed_distinct))]
pub fn cells_determine()
    ensures { CellsDetermine }
{}
