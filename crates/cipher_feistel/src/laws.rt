//! Laws of the seal, for the layers that seal values. Each is a call that takes nothing and does nothing.

ghost use Rattle.cipher_feistel.specs.Laws.{CellsAreAsLong, CellsDetermine};

/// A cell is as long as its block. docs/CIPHERS.md, "Deterministic seal".
#[tactic(auto, using(crate::proofs::CellLaws::cell_length))]
pub fn cells_are_as_long()
    ensures { CellsAreAsLong }
{}

/// Blocks of one length have equal cells under one key only where they are equal. docs/CIPHERS.md, "Deterministic seal".
#[tactic(auto, using(crate::proofs::CellLaws::cells_determine))]
pub fn cells_determine()
    ensures { CellsDetermine }
{}
