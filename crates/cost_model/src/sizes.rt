ghost use Rattle.std.specs.Prelude.{◌≡◌};
ghost use Rattle.cost_model.specs.Sizes as sizes;

use mq_base::{Scheme, ValueType};

// The bytes of a cell in plaintext, or under a scheme. docs/MODEL.md, "Estimates and costs", has the table.
pub fn cell_bytes(ty: ValueType, sealed: Option<Scheme>) -> u64
    ensures { result ≡ sizes.cell_bytes ty sealed }
{
    match (ty, sealed) {
        (ValueType::Int, None) => 16,
        (ValueType::Int, Some(Scheme::Rnd)) => 28,
        (ValueType::Int, Some(Scheme::Det)) => 16,
        (ValueType::Int, Some(Scheme::Ope)) => 32,
        (ValueType::Text, None) => 122,
        (ValueType::Text, Some(Scheme::Rnd)) => 134,
        (ValueType::Text, Some(Scheme::Det)) => 122,
        (ValueType::Text, Some(Scheme::Ope)) => 240,
    }
}

// The units of work to seal or open a cell under a scheme. docs/MODEL.md, "Estimates and costs", has the table.
pub fn cell_units(scheme: Scheme, ty: ValueType) -> u64
    ensures { result ≡ sizes.cell_units scheme ty }
{
    match (scheme, ty) {
        (Scheme::Rnd, ValueType::Int) => 1,
        (Scheme::Rnd, ValueType::Text) => 4,
        (Scheme::Det, ValueType::Int) => 4,
        (Scheme::Det, ValueType::Text) => 16,
        (Scheme::Ope, ValueType::Int) => 64,
        (Scheme::Ope, ValueType::Text) => 256,
    }
}
