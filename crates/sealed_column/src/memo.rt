//! Memos: maps that tell for a value or a cell the row in which it was met first. Their keys are lent, so nothing is copied for them.

ghost use Rattle.std.specs.Prelude.{◌≡◌, ◌∷◌, [], Some, cond, unwrap_or, IfOk};
ghost use Rattle.std.specs.Cmp.Lexicographic.{bytes_decides};
ghost use Rattle.std.specs.Hash.{same_Alike};
ghost use Rattle.std.specs.HashMap.{get};
ghost use Rattle.sealed_column.specs.inside.Opening.{value_at};

use mq_base::{NoMemory, Value};
use std::collections::HashMap;
use std::hash::{Hash, Hasher};

// Bytes as they are looked up. A slice is hashed a byte at a time, and these all at once.
#[derive(Clone, Copy, PartialEq, Eq)]
pub(crate) struct Bytes<'a> {
    pub(crate) bytes: &'a [u8],
}

impl Hash for Bytes<'_> {
    ghost hash_input = { λ key. key.bytes.now ∷ [] };

    ghost respects_eq = { λ x y. (same_Alike (λ bytes. bytes ∷ []) bytes_decides).fed x.bytes.now y.bytes.now };

    fn hash<H: Hasher>(&self, state: &mut H) {
        state.write(self.bytes);
    }
}

// A value as it is looked up.
#[derive(Clone, Copy, PartialEq, Eq, Hash)]
pub(crate) enum Key<'a> {
    Int(i128),
    Text(Bytes<'a>),
}

// The key of a value.
pub(crate) fn key_of(value: &Value) -> Key<'_>
    ensures { value_at result ≡ value.now }
{
    match value {
        Value::Int(number) => Key::Int(*number),
        Value::Text(text) => Key::Text(Bytes {
            bytes: text.as_bytes(),
        }),
    }
}

// The row that a memo tells for a key. Where it tells none, this is the next row, which it tells from now on.
pub(crate) fn row_told<K: Eq + Hash + Drop>(
    memo: &mut HashMap<K, usize>,
    key: K,
    next: usize,
) -> Result<usize, NoMemory>
    ensures row { IfOk result (λ row. row ≡ unwrap_or (get K.eq memo.old key) next) }
    ensures told { IfOk result (λ row. (k : K) → get K.eq memo.new k ≡ cond (K.eq key k) (Some row) (get K.eq memo.old k)) }
{
    Ok(*memo.entry(key)?.or_insert(next))
}
