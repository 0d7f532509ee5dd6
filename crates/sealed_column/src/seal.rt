//! The seal of one value, under each scheme.

ghost use Rattle.std.specs.Prelude.{◌≡◌, ◌<◌, IfOk};
ghost use Rattle.std.specs.List.{All};
ghost use Rattle.mq_base.specs.declared.table.Scheme.TheVariants.{Det, Ope, Rnd};
ghost use Rattle.mq_base.specs.Bytes.{IsShort};
ghost use Rattle.sealed_column.specs.Seal.{IsSealable, seal};

use mq_base::{NoMemory, Scheme, Text, Value};
use std::alloc::Global;

// The bytes of the longest block, and the digits of the longest digit string.
pub(crate) const MOST_BYTES: usize = 122;

pub(crate) const MOST_DIGITS: usize = 120;

// The seal of a value under a scheme and a key. Step and row count under the randomised scheme alone.
pub(crate) fn seal_value(
    alloc: Global,
    scheme: Scheme,
    key: &[u8; 32],
    step: u32,
    row: u64,
    value: &Value,
) -> Result<Text, NoMemory>
    requires { IsShort value.now }
    ensures sealed { IfOk result (λ cell. cell ≡ seal scheme key.now step row value.now) }
    ensures sealable { IsSealable value.now }
{
    is_sealable(value);
    match scheme {
        Scheme::Rnd => seal_randomised(alloc, key, step, row, value),
        Scheme::Det => seal_deterministic(alloc, key, value),
        Scheme::Ope => seal_in_order(alloc, key, value),
    }
}

// That a value is within its limits and made of bytes. It does nothing.
pub(crate) fn is_sealable(value: &Value)
    requires { IsShort value.now }
    ensures { IsSealable value.now }
{
    match value {
        Value::Int(number) => {
            let _number = *number;
        }
        Value::Text(text) => {
            are_bytes(text.as_bytes());
        }
    }
}

// That each byte is one. It does nothing.
fn are_bytes(bytes: &[u8])
    ensures { All (λ byte. byte < 256) bytes.now }
{
    let _bytes = bytes;
}

fn seal_randomised(
    alloc: Global,
    key: &[u8; 32],
    step: u32,
    row: u64,
    value: &Value,
) -> Result<Text, NoMemory>
    requires { IsShort value.now }
    ensures { IfOk result (λ cell. cell ≡ seal Rnd key.now step row value.now) }
{
    let mut block = [0; MOST_BYTES];
    let mut cell = [0; MOST_BYTES + 12];
    let width = value.block_into(&mut block);
    let cell = &mut cell[..width + 12];
    cipher_stream::seal_into(key, step, row, &block[..width], cell);
    Text::copied(alloc, cell)
}

fn seal_deterministic(alloc: Global, key: &[u8; 32], value: &Value) -> Result<Text, NoMemory>
    requires { IsShort value.now }
    ensures { IfOk result (λ cell. cell ≡ seal Det key.now 0 0 value.now) }
{
    let mut block = [0; MOST_BYTES];
    let mut cell = [0; MOST_BYTES];
    let width = value.block_into(&mut block);
    let cell = &mut cell[..width];
    cipher_feistel::seal_into(key, &block[..width], cell);
    Text::copied(alloc, cell)
}

fn seal_in_order(alloc: Global, key: &[u8; 32], value: &Value) -> Result<Text, NoMemory>
    requires { IsShort value.now }
    ensures { IfOk result (λ cell. cell ≡ seal Ope key.now 0 0 value.now) }
{
    let mut digits = [0; MOST_DIGITS];
    let mut cell = [0; 2 * MOST_DIGITS];
    let width = value.digits_into(&mut digits);
    let cell = &mut cell[..2 * width];
    cipher_order::seal_into(key, &digits[..width], cell);
    Text::copied(alloc, cell)
}
