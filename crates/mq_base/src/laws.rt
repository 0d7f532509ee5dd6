//! Laws of blocks and digit strings, for the layers that seal them. Each is a call that takes nothing and does nothing.

ghost use Rattle.mq_base.specs.BytesLaws.{BlocksDetermine, DigitsAreOrdered, LengthsAreTheTypes};

/// Two values with one block are one value. docs/CIPHERS.md, "Values as bytes".
#[tactic(auto, using(crate::proofs::BlockLaws::block_determines))]
pub fn blocks_determine()
    ensures { BlocksDetermine }
{}

/// The digit strings of two values of one type are in the order of the values. docs/CIPHERS.md, "Values as bytes".
#[tactic(auto, using(crate::proofs::BlockLaws::digits_order))]
pub fn digits_are_ordered()
    ensures { DigitsAreOrdered }
{}

/// Blocks of one type have one length, and so have digit strings. docs/CIPHERS.md, "Values as bytes".
#[tactic(auto, using(crate::proofs::BlockLaws::lengths_by_type))]
pub fn lengths_are_the_types()
    ensures { LengthsAreTheTypes }
{}
