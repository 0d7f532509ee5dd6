//! The value that a cell opens to, under each scheme. A cell that opens to none gives some value of its type.

ghost use Rattle.std.specs.Prelude.{◌≡◌, ◌≤◌, ◌*◌, ℕ, ℤ, List, length, take, IfOk};
ghost use Rattle.std.specs.Int.{w128};
ghost use Rattle.std.specs.Int.RustNames.{FitsSigned};
ghost use Rattle.cipher_order.specs.Order.{IsDigits, sealed};
ghost use Rattle.mq_base.specs.Bytes.{block_length, block_of, digits_length, digits_of, int_block};
ghost use Rattle.mq_base.specs.declared.table.Scheme.TheVariants.{Det, Ope, Rnd};
ghost use Rattle.mq_base.specs.declared.value.Value.TheVariants as value;
ghost use Rattle.sealed_column.specs.Seal.{cell_length};
ghost use Rattle.sealed_column.specs.inside.Opening.{IsOpened, IsRead, undigits};

use crate::seal::{MOST_BYTES, MOST_DIGITS};
use mq_base::{NoMemory, Scheme, Text, Value, ValueType};
use std::alloc::Global;

// The value of this type that a cell opens to.
pub(crate) fn open_value(
    alloc: Global,
    scheme: Scheme,
    key: &[u8; 32],
    ty: ValueType,
    cell: &[u8],
) -> Result<Value, NoMemory>
    requires { length cell.now ≡ cell_length scheme ty }
    ensures { IfOk result (IsOpened scheme key.now ty cell.now) }
{
    match scheme {
        Scheme::Rnd => open_randomised(alloc, key, ty, cell),
        Scheme::Det => open_deterministic(alloc, key, ty, cell),
        Scheme::Ope => open_in_order(alloc, key, ty, cell),
    }
}

fn open_randomised(
    alloc: Global,
    key: &[u8; 32],
    ty: ValueType,
    cell: &[u8],
) -> Result<Value, NoMemory>
    requires { length cell.now ≡ cell_length Rnd ty }
    ensures { IfOk result (IsOpened Rnd key.now ty cell.now) }
{
    let mut block = [0; MOST_BYTES];
    let block = &mut block[..cell.len() - 12];
    cipher_stream::unseal_into(key, cell, block);
    read_block(alloc, ty, block)
}

fn open_deterministic(
    alloc: Global,
    key: &[u8; 32],
    ty: ValueType,
    cell: &[u8],
) -> Result<Value, NoMemory>
    requires { length cell.now ≡ cell_length Det ty }
    ensures { IfOk result (IsOpened Det key.now ty cell.now) }
{
    let mut block = [0; MOST_BYTES];
    let block = &mut block[..cell.len()];
    cipher_feistel::unseal_into(key, cell, block);
    read_block(alloc, ty, block)
}

fn open_in_order(
    alloc: Global,
    key: &[u8; 32],
    ty: ValueType,
    cell: &[u8],
) -> Result<Value, NoMemory>
    requires { length cell.now ≡ cell_length Ope ty }
    ensures { IfOk result (IsOpened Ope key.now ty cell.now) }
{
    let mut digits = [0; MOST_DIGITS];
    let digits = &mut digits[..cell.len() / 2];
    unseal_digits(key, cell, digits);
    read_digits(alloc, ty, digits)
}

// The digits that are sealed in a cell; where none are, the digits stay.
fn unseal_digits(key: &[u8; 32], cell: &[u8], digits: &mut [u16])
    requires few { length digits.old ≤ 120 }
    requires fit { length cell.now ≡ 2 * length digits.old }
    requires small { IsDigits digits.old }
    ensures small { IsDigits digits.new }
    ensures undone { (other : List ℕ) → 2 * length other ≡ length cell.now → IsDigits other
        → sealed key.now other ≡ cell.now → other ≡ digits.new }
{
    match cipher_order::unseal_into(key, cell, digits) {
        Ok(()) => {}
        Err(_) => {}
    }
}

// The value of this type that has the block.
fn read_block(alloc: Global, ty: ValueType, block: &[u8]) -> Result<Value, NoMemory>
    requires { length block.now ≡ block_length ty }
    ensures { IfOk result (IsRead block_of ty block.now) }
{
    match ty {
        ValueType::Int => Ok(Value::Int(read_int(block))),
        ValueType::Text => Ok(Value::Text(read_text(alloc, block)?)),
    }
}

// The number that has the block.
fn read_int(block: &[u8]) -> i128
    requires { length block.now ≡ 16 }
    ensures { (x : ℤ) → FitsSigned w128 x → int_block x ≡ block.now → result ≡ x }
{
    let mut bytes = [0; 16];
    bytes.copy_from_slice(block);
    u128::from_be_bytes(bytes)
        .wrapping_add(1 << 127)
        .cast_signed()
}

// The text that has the block, or of another block at most 120 of its bytes.
fn read_text(alloc: Global, block: &[u8]) -> Result<Text, NoMemory>
    requires { length block.now ≡ 122 }
    ensures short { IfOk result (λ text. length text ≤ 120) }
    ensures read { IfOk result (λ text. (t : List ℕ) → length t ≤ 120 → block_of (value.Text t) ≡ block.now → text ≡ t) }
{
    let len = usize::from(block[0]).min(120);
    Text::copied(alloc, &block[1..len + 1])
}

// The value of this type that has the digit string.
fn read_digits(alloc: Global, ty: ValueType, digits: &[u16]) -> Result<Value, NoMemory>
    requires len { length digits.now ≡ digits_length ty }
    requires small { IsDigits digits.now }
    ensures { IfOk result (IsRead digits_of ty digits.now) }
{
    let mut bytes = [0; MOST_DIGITS];
    let count = read_bytes(digits, &mut bytes);
    match ty {
        ValueType::Int => Ok(Value::Int(read_int(&bytes[..16]))),
        ValueType::Text => Ok(Value::Text(Text::copied(alloc, &bytes[..count])?)),
    }
}

// Writes the bytes that digits stand for, up to the first that stands for none, and answers their number.
fn read_bytes(digits: &[u16], out: &mut [u8]) -> usize
    requires room { length digits.now ≤ length out.old }
    requires small { IsDigits digits.now }
    ensures written { take result out.new ≡ undigits digits.now }
    ensures within { result ≤ length digits.now }
{
    for (at, digit) in digits.iter().enumerate() {
        if *digit == 0 {
            return at;
        }
        out[at] = (*digit - 1) as u8;
    }
    digits.len()
}
