//! The bare seals of the values that a column has, each made alone and none kept.

ghost use Rattle.std.specs.Prelude.{◌≡◌};
ghost use Rattle.std.specs.List.{All};
ghost use Rattle.mq_base.specs.Bytes.{IsShort};
ghost use Rattle.mq_base.specs.declared.table.Scheme.TheVariants.{Det, Ope, Rnd};
ghost use Rattle.engine_times.specs.Seals.{seal_end_of};

use crate::values::{KEY, STEP};
use mq_base::{Scheme, Value};

/// Seals the value of each row, and answers a number that the ends of all seals went into.
pub(crate) fn seal_each(scheme: Scheme, values: &[Value]) -> u128
    requires { All IsShort values.now }
{
    let mut mixed = 0u128;
    for (row, value) in values.iter().enumerate() {
        mixed = mixed.rotate_left(8) ^ u128::from(seal_end(scheme, row as u64, value));
    }
    mixed
}

// The last byte of the seal of the value of a row.
fn seal_end(scheme: Scheme, row: u64, value: &Value) -> u8
    requires { IsShort value.now }
    ensures { result ≡ seal_end_of scheme row value.now }
{
    match scheme {
        Scheme::Rnd => randomised_end(row, value),
        Scheme::Det => deterministic_end(value),
        Scheme::Ope => ordered_end(value),
    }
}

fn randomised_end(row: u64, value: &Value) -> u8
    requires { IsShort value.now }
    ensures { result ≡ seal_end_of Rnd row value.now }
{
    let mut block = [0; 122];
    let mut room = [0; 134];
    let width = value.block_into(&mut block);
    let cell = &mut room[..width + 12];
    cipher_stream::seal_into(&KEY, STEP, row, &block[..width], cell);
    cell[cell.len() - 1]
}

fn deterministic_end(value: &Value) -> u8
    requires { IsShort value.now }
    ensures { result ≡ seal_end_of Det 0 value.now }
{
    let mut block = [0; 122];
    let mut room = [0; 122];
    let width = value.block_into(&mut block);
    let cell = &mut room[..width];
    cipher_feistel::seal_into(&KEY, &block[..width], cell);
    cell[cell.len() - 1]
}

fn ordered_end(value: &Value) -> u8
    requires { IsShort value.now }
    ensures { result ≡ seal_end_of Ope 0 value.now }
{
    let mut digits = [0; 120];
    let mut room = [0; 240];
    let width = value.digits_into(&mut digits);
    let cell = &mut room[..2 * width];
    cipher_order::seal_into(&KEY, &digits[..width], cell);
    cell[cell.len() - 1]
}
