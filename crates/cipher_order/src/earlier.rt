// The digits before a position, which its gaps depend on.

ghost use Rattle.std.specs.Prelude.{◌≡◌, ℕ, ◌+◌, ◌*◌, ◌<◌, ◌≤◌, List, [], ◌∷◌, ◌++◌, length, take};
ghost use Rattle.std.specs.List.{flat_map};
ghost use Rattle.cipher_order.specs.declared.earlier.TheConstants.{MOST_DIGITS};
ghost use Rattle.cipher_order.specs.Order.{digit_bytes};

use std::marker::Model;

/// The most digits that a string has.
pub(crate) const MOST_DIGITS: usize = 120;

/// The digits before a position, and beside them their spelling as the hash reads it.
#[derive(Drop)]
pub(crate) struct Earlier {
    digits: [u16; MOST_DIGITS],
    spelling: [u8; 2 * MOST_DIGITS],
    count: usize,
}

// Clauses see the digits in turn.
impl Model for Earlier {
    ghost Value = { List ℕ };

    ghost view = { λ e. take e.count e.digits };

    ghost invariant = { λ e. (e.count ≤ MOST_DIGITS)
        × (take (2 * e.count) e.spelling ≡ flat_map digit_bytes (take e.count e.digits)) };
}

impl Earlier {
    /// No digit: what is before the first position.
    pub(crate) fn new() -> Self
        ensures { result ≡ [] }
    {
        Earlier {
            digits: [0; MOST_DIGITS],
            spelling: [0; 2 * MOST_DIGITS],
            count: 0,
        }
    }

    /// How many digits there are, which is the position that follows them.
    pub(crate) fn len(&self) -> usize
        ensures value { result ≡ length self.now }
        ensures few { result ≤ MOST_DIGITS }
    {
        self.count
    }

    /// The digits in turn.
    pub(crate) fn digits(&self) -> &[u16]
        ensures { result.now ≡ self.now }
    {
        &self.digits[..self.count]
    }

    /// The digits in turn, each as two bytes with the higher first.
    pub(crate) fn spelling(&self) -> &[u8]
        ensures { result.now ≡ flat_map digit_bytes self.now }
    {
        &self.spelling[..2 * self.count]
    }

    /// Adds a digit after the others.
    pub(crate) fn push(&mut self, digit: u16)
        requires { length self.old < MOST_DIGITS }
        ensures { self.new ≡ self.old ++ digit ∷ [] }
    {
        self.digits[self.count] = digit;
        write_number(&mut self.spelling, self.count, digit);
        self.count += 1;
    }
}

/// Writes `number` as number `at` of `bytes`: two bytes, with the higher first.
pub(crate) fn write_number(bytes: &mut [u8], at: usize, number: u16)
    requires { 2 * at + 2 ≤ length bytes.old }
    ensures { take (2 * at + 2) bytes.new ≡ take (2 * at) bytes.old ++ digit_bytes number }
{
    bytes[2 * at..2 * at + 2].copy_from_slice(&number.to_be_bytes());
}

/// Number `at` of `bytes`, as `write_number` writes it.
pub(crate) fn read_number(bytes: &[u8], at: usize) -> u16
    requires { 2 * at + 2 ≤ length bytes.now }
    ensures { take (2 * at + 2) bytes.now ≡ take (2 * at) bytes.now ++ digit_bytes result }
{
    u16::from_be_bytes([bytes[2 * at], bytes[2 * at + 1]])
}
