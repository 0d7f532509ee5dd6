//! Laws of the seal, for the layers that seal values. Each is a call that takes nothing and does nothing.

ghost use Rattle.cipher_stream.specs.Laws.{CellsAreLonger, CellsDetermine, CellsNameTheirPlace};

/// A cell has twelve bytes more than its block. docs/CIPHERS.md, "Randomised seal".
#[tactic(auto, using(crate::proofs::CellLaws::cell_length))]
pub fn cells_are_longer()
    ensures { CellsAreLonger }
{}

/// A cell names the step and the row of its seal. docs/CIPHERS.md, "Randomised seal".
pub fn cells_name_their_place()
    ensures { CellsNameTheirPlace }
{}

/// Blocks have equal cells under one key, step and row only where they are equal. docs/CIPHERS.md, "Randomised seal".
#[tactic(auto, using(crate::proofs::CellLaws::cells_determine))]
pub fn cells_determine()
    ensures { CellsDetermine }
{}
