//! That texts are made of bytes. These walks do nothing.

ghost use Rattle.std.specs.Prelude.{◌<◌, All};
ghost use Rattle.provider_engine.specs.Typed.{HasByteBound, HasByteConstant, HasByteConstants};
ghost use Rattle.sealed_column.specs.Seal.{HasBytes};

use mq_base::{Cond, Having, Query, Value};

/// That the texts among the constants of a query are made of bytes. It does nothing, and takes no memory.
pub fn constants_have_bytes(query: &Query)
    ensures { HasByteConstants query.now }
{
    conds_have_bytes(query.conds.as_slice());
    bounds_have_bytes(query.having.as_slice());
}

fn conds_have_bytes(conds: &[Cond])
    ensures { All HasByteConstant conds.now }
{
    for cond in conds {
        cond_has_bytes(cond);
    }
}

fn bounds_have_bytes(bounds: &[Having])
    ensures { All HasByteBound bounds.now }
{
    for bound in bounds {
        bound_has_bytes(bound);
    }
}

fn cond_has_bytes(cond: &Cond)
    ensures { HasByteConstant cond.now }
{
    match cond {
        Cond::Const(_, _, value) => value_has_bytes(value),
        Cond::Attrs(_, _, _) => (),
    }
}

fn bound_has_bytes(bound: &Having)
    ensures { HasByteBound bound.now }
{
    match bound {
        Having::Const(_, _, value) => value_has_bytes(value),
        Having::Count(_, _) => (),
    }
}

/// That the text of a value is made of bytes. It does nothing, and takes no memory.
pub fn value_has_bytes(value: &Value)
    ensures { HasBytes value.now }
{
    match value {
        Value::Int(_) => (),
        Value::Text(text) => are_bytes(text.as_bytes()),
    }
}

fn are_bytes(bytes: &[u8])
    ensures { All (λ byte. byte < 256) bytes.now }
{
    let _bytes = bytes;
}
