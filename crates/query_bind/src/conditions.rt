ghost use Rattle.std.specs.Prelude.{◌≡◌, ◌≤◌, length, map};
ghost use Rattle.std.specs.List.{flat_map};
ghost use Rattle.base_laws.specs.Firsts.{first_of};
ghost use Rattle.sql_reader.specs.Syntax.{column_of, condition_of, query_of, side_of};
ghost use Rattle.query_bind.specs.Faults.{condition_fault, conditions_fault, is_long_side, is_same_attribute, mismatches};
ghost use Rattle.query_bind.specs.inside.Results.{fault_of};

use crate::fault::{Fault, refuse_if};
use crate::literals::{is_long, literal_type};
use crate::names::{attribute_of, has_type, type_of};
use crate::refusal::BindCode;
use mq_base::Schema;
use sql_reader::{RawCol, RawCond, RawQuery, RawSide, RawSource};

/// Each condition of ON and WHERE compares two attributes of one type, or one with a constant of its type.
#[tactic(auto, using(crate::proofs::WalkLaws::parts))]
pub fn check_conditions(schema: &Schema, raw: &RawQuery<'_>) -> Result<(), Fault>
    requires { length schema.now.attrs ≤ 64 }
    ensures { fault_of result ≡ conditions_fault schema.now (query_of raw.now) }
{
    check_sources(schema, raw.sources.as_slice())?;
    check_list(schema, raw.conds.as_slice())
}

#[tactic(auto, using(crate::proofs::WalkLaws::conditions))]
fn check_sources(schema: &Schema, sources: &[RawSource<'_>]) -> Result<(), Fault>
    requires { length schema.now.attrs ≤ 64 }
    ensures { fault_of result ≡ first_of (map (condition_fault schema.now) (flat_map (λ s. map condition_of s.on) sources.now)) }
{
    for source in sources {
        check_list(schema, source.on.as_slice())?;
    }
    Ok(())
}

#[tactic(auto, using(crate::proofs::WalkLaws::walks))]
fn check_list(schema: &Schema, conditions: &[RawCond<'_>]) -> Result<(), Fault>
    requires { length schema.now.attrs ≤ 64 }
    ensures { fault_of result ≡ first_of (map (condition_fault schema.now) (map condition_of conditions.now)) }
{
    for condition in conditions {
        check_condition(schema, condition)?;
    }
    Ok(())
}

fn check_condition(schema: &Schema, condition: &RawCond<'_>) -> Result<(), Fault>
    requires { length schema.now.attrs ≤ 64 }
    ensures { fault_of result ≡ condition_fault schema.now (condition_of condition.now) }
{
    let (left, right) = (&condition.left, &condition.right);
    refuse_if(
        is_same_attribute(schema, left, right),
        BindCode::SameAttribute,
        left.at,
    )?;
    refuse_if(
        mismatches(schema, left, right),
        BindCode::TypeMismatch,
        left.at,
    )?;
    refuse_if(is_long_side(right), BindCode::TextTooLong, left.at)
}

// Whether both sides are one attribute.
fn is_same_attribute(schema: &Schema, left: &RawCol<'_>, right: &RawSide<'_>) -> bool
    requires { length schema.now.attrs ≤ 64 }
    ensures { result ≡ is_same_attribute schema.now (column_of left.now) (side_of right.now) }
{
    match right {
        RawSide::Col(column) => attribute_of(schema, left).0 == attribute_of(schema, column).0,
        RawSide::Lit(_) => false,
    }
}

// Whether the right side has another type than the column on the left.
fn mismatches(schema: &Schema, left: &RawCol<'_>, right: &RawSide<'_>) -> bool
    requires { length schema.now.attrs ≤ 64 }
    ensures { result ≡ mismatches schema.now (column_of left.now) (side_of right.now) }
{
    match right {
        RawSide::Col(column) => match type_of(schema, attribute_of(schema, column)) {
            Some(ty) => !has_type(schema, left, ty),
            None => true,
        },
        RawSide::Lit(literal) => !has_type(schema, left, literal_type(literal)),
    }
}

// Whether the right side is a text that is too long.
fn is_long_side(side: &RawSide<'_>) -> bool
    ensures { result ≡ is_long_side (side_of side.now) }
{
    match side {
        RawSide::Col(_) => false,
        RawSide::Lit(literal) => is_long(literal),
    }
}
