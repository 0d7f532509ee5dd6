ghost use Rattle.std.specs.Prelude.{◌≡◌, ◌≤◌, length, IfOk};
ghost use Rattle.sql_reader.specs.Syntax.{literal_of};
ghost use Rattle.query_bind.specs.Bound.{literal_number, literal_value, undoubled};
ghost use Rattle.query_bind.specs.Faults.{is_long, literal_type};
ghost use Rattle.query_bind.specs.inside.Ranges.{Fits};
ghost use Rattle.query_bind.specs.inside.Results.{step_of};

use mq_base::{NoMemory, Text, Value, ValueType};
use sql_reader::RawLit;
use std::alloc::Global;

// How far the byte at a place takes a walk over a text whose quotes are doubled: past both quotes of a pair.
fn step_at(byte: u8) -> usize
    ensures step { result ≡ step_of byte }
    ensures some { 1 ≤ result }
    ensures few { result ≤ 2 }
{
    if byte == b'\'' { 2 } else { 1 }
}

// The number of bytes of a text without the doubling of its quotes.
#[tactic(auto, using(crate::proofs::LiteralLaws::walks))]
fn undoubled_len(inside: &[u8]) -> usize
    ensures { result ≡ length (undoubled inside.now) }
{
    let mut count = 0;
    let mut at = 0;
    while at < inside.len() {
        count += 1;
        at += step_at(inside[at]);
    }
    count
}

// A text without the doubling of its quotes.
#[tactic(auto, using(crate::proofs::LiteralLaws::walks))]
fn undoubled(alloc: Global, inside: &[u8]) -> Result<Vec<u8>, NoMemory>
    ensures { IfOk result (λ text. text.items ≡ undoubled inside.now) }
{
    let mut text = Vec::new(alloc);
    let mut at = 0;
    while at < inside.len() {
        text.push(inside[at])?;
        at += step_at(inside[at]);
    }
    Ok(text)
}

/// Whether a literal is a text of more than 120 bytes, a doubled quote counting as one.
pub fn is_long(literal: &RawLit<'_>) -> bool
    ensures { result ≡ is_long (literal_of literal.now) }
{
    match literal {
        RawLit::Number(_) => false,
        RawLit::Text(inside) => undoubled_len(inside.as_bytes()) > 120,
    }
}

/// The type of a literal.
pub fn literal_type(literal: &RawLit<'_>) -> ValueType
    ensures { result ≡ literal_type (literal_of literal.now) }
{
    match literal {
        RawLit::Number(_) => ValueType::Int,
        RawLit::Text(_) => ValueType::Text,
    }
}

/// The value of a literal.
pub fn literal_value(alloc: Global, literal: &RawLit<'_>) -> Result<Value, NoMemory>
    ensures value { IfOk result (λ value. value ≡ literal_value (literal_of literal.now)) }
    ensures fits { IfOk result (λ _. Fits (literal_of literal.now)) }
{
    match literal {
        RawLit::Number(number) => Ok(Value::Int(i128::from(*number))),
        RawLit::Text(inside) => Ok(Value::Text(Text::of(undoubled(alloc, inside.as_bytes())?))),
    }
}

/// The number of a literal, and 0 where it is a text.
pub fn literal_number(literal: &RawLit<'_>) -> i64
    ensures number { result ≡ literal_number (literal_of literal.now) }
    ensures fits { Fits (literal_of literal.now) }
{
    match literal {
        RawLit::Number(number) => *number,
        RawLit::Text(_) => 0,
    }
}
