// The seal of a whole string of digits, and back.

ghost use Rattle.std.specs.Prelude.{◌≡◌, ℕ, ◌*◌, ◌≤◌, List, length, Some, codes, OnOk, OnErr};
ghost use Rattle.std.specs.Cmp.Lexicographic.{slice_cmp};
ghost use Rattle.std.specs.Ordering.{nat_cmp};
ghost use Rattle.cipher_order.specs.Order.{IsDigits, sealed};

use crate::earlier::{Earlier, read_number, write_number};
use crate::heights::{digit_of, height};
use std::error::Error;
use std::fmt;

/// No string of digits of the wanted length has the cell as its seal (docs/CIPHERS.md,
/// "Order-preserving seal").
#[derive(Debug, Clone, Copy, PartialEq, Eq)]
pub struct NotSealed;

impl fmt::Display for NotSealed {
    ghost output = { λ _. Some (codes "the cell is not sealed under this key") };

    fn fmt<W: fmt::Write>(&self, f: &mut fmt::Formatter<W>) -> fmt::Result {
        f.write_str("the cell is not sealed under this key")
    }
}

impl Error for NotSealed {}

/// Writes the order-preserving seal of `digits` under `key` into `out`.
///
/// It needs at most 120 digits, each from 0 to 256, and an `out` of two bytes for each of them. It
/// always succeeds and takes no memory. Cells of strings of one length are ordered, byte by byte, as
/// the strings are, and differ where these differ (docs/CIPHERS.md, "Order-preserving seal").
pub fn seal_into(key: &[u8; 32], digits: &[u16], out: &mut [u8])
    requires few { length digits.now ≤ 120 }
    requires digits { IsDigits digits.now }
    requires room { length out.old ≡ 2 * length digits.now }
    ensures sealed { out.new ≡ sealed key.now digits.now }
    ensures ordered { (other : List ℕ) → length other ≡ length digits.now → IsDigits other
        → slice_cmp nat_cmp (sealed key.now other) out.new ≡ slice_cmp nat_cmp other digits.now }
    ensures distinct { (other : List ℕ) → length other ≡ length digits.now → IsDigits other
        → sealed key.now other ≡ out.new → other ≡ digits.now }
{
    let mut earlier = Earlier::new();
    for (at, &digit) in digits.iter().enumerate() {
        write_number(out, at, height(key, &earlier, digit));
        earlier.push(digit);
    }
}

/// Writes the digits whose order-preserving seal under `key` is `cell` into `digits`.
///
/// It needs at most 120 places for digits and a `cell` of two bytes for each of them, and takes no
/// memory (docs/CIPHERS.md, "Order-preserving seal").
///
/// # Errors
///
/// `NotSealed` exactly where no string of that many digits has this cell; `digits` is then unchanged.
pub fn unseal_into(key: &[u8; 32], cell: &[u8], digits: &mut [u16]) -> Result<(), NotSealed>
    requires few { length digits.old ≤ 120 }
    requires fit { length cell.now ≡ 2 * length digits.old }
    ensures found { OnOk result (sealed key.now digits.new ≡ cell.now) }
    ensures digits_found { OnOk result (IsDigits digits.new) }
    ensures only { OnOk result ((other : List ℕ) → length other ≡ length digits.old
        → IsDigits other → sealed key.now other ≡ cell.now → other ≡ digits.new) }
    ensures refused { OnErr result ((other : List ℕ) → length other ≡ length digits.old
        → IsDigits other → sealed key.now other ≡ cell.now → ⊥) }
    ensures unchanged { OnErr result (digits.new ≡ digits.old) }
{
    let mut found = Earlier::new();
    for at in 0..digits.len() {
        let Some(digit) = digit_of(key, &found, read_number(cell, at)) else {
            return Err(NotSealed);
        };
        found.push(digit);
    }
    digits.copy_from_slice(found.digits());
    Ok(())
}
