//! The cases that are timed: each seal on one value of each type.

ghost use Rattle.std.specs.Prelude.{◌≡◌, ◌%◌, ◌≤◌, length};
ghost use Rattle.cipher_order.specs.Order.{IsDigits};
ghost use Rattle.seal_times.specs.Costs.{block_of, digits_of};

// The block and the digit string of the number 5.
const INT_BLOCK: [u8; 16] = [128, 0, 0, 0, 0, 0, 0, 0, 0, 0, 0, 0, 0, 0, 0, 5];

const INT_DIGITS: [u16; 16] = [129, 1, 1, 1, 1, 1, 1, 1, 1, 1, 1, 1, 1, 1, 1, 6];

// A block and a digit string of the longest text's length. What a block has in it changes no time.
const TEXT_BLOCK: [u8; 122] = [99; 122];

const TEXT_DIGITS: [u16; 120] = [100; 120];

/// The three seals of docs/CIPHERS.md.
#[derive(Clone, Copy)]
pub(crate) enum Seal {
    Deterministic,
    OrderPreserving,
    Randomised,
}

impl Seal {
    pub(crate) fn name(self) -> &'static str {
        match self {
            Seal::Deterministic => "deterministic",
            Seal::OrderPreserving => "order-preserving",
            Seal::Randomised => "randomised",
        }
    }
}

/// A type of values, which stands for one value of it.
#[derive(Clone, Copy)]
pub(crate) enum ValueType {
    Int,
    Text,
}

impl ValueType {
    pub(crate) fn name(self) -> &'static str {
        match self {
            ValueType::Int => "INT",
            ValueType::Text => "TEXT",
        }
    }

    /// The block of the value.
    pub(crate) fn block(self) -> &'static [u8]
        ensures value { result.now ≡ block_of self }
        ensures even { length result.now % 2 ≡ 0 }
        ensures short { length result.now ≤ 122 }
    {
        match self {
            ValueType::Int => &INT_BLOCK,
            ValueType::Text => &TEXT_BLOCK,
        }
    }

    /// The digit string of the value.
    pub(crate) fn digits(self) -> &'static [u16]
        ensures value { result.now ≡ digits_of self }
        ensures few { length result.now ≤ 120 }
        ensures digits { IsDigits result.now }
    {
        match self {
            ValueType::Int => &INT_DIGITS,
            ValueType::Text => &TEXT_DIGITS,
        }
    }
}

/// A seal on the value of a type.
#[derive(Clone, Copy)]
pub(crate) struct Case {
    pub(crate) seal: Seal,
    pub(crate) value: ValueType,
}
