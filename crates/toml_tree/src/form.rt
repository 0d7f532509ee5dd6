ghost use Rattle.std.specs.Prelude.{◌≡◌, bytes_eq, codes, option_map};
ghost use Rattle.std.specs.List.{list_any};
ghost use Rattle.toml.specs.Data.{get_member, as_str, as_integer};
ghost use Rattle.toml.specs.View.{view, table_view};
ghost use Rattle.toml_tree.specs.Form.{keys_pass, field, list_field, list_as, filled, version_as, Reads};

use crate::error::ReadError;
use mq_base::{Seq, Text};
use std::alloc::Global;
use toml::{Table, Value};

/// What a value of the tree may give: one kind of it for each implementation.
pub trait FromValue: Drop {
    ghost use Rattle.std.specs.Prelude.{Option};
    ghost use Rattle.toml.specs.Data.{Data};

    /// What the value gives, where it has the form.
    ghost from_data: { Data → Option Self };

    /// What the value gives. `Err(Malformed)` says that it has not the form, and `Err(NoMemory)` that the allocator
    /// refused a request.
    fn read(alloc: Global, value: &Value) -> Result<Self, ReadError>
        ensures { Reads result (from_data (view value.now)) };
}

impl FromValue for Text {
    ghost from_data = { as_str };

    fn read(alloc: Global, value: &Value) -> Result<Text, ReadError> {
        let Some(text) = value.as_str() else {
            return Err(ReadError::Malformed);
        };
        Ok(Text::copied(alloc, text.as_bytes())?)
    }
}

impl FromValue for i64 {
    ghost from_data = { as_integer };

    fn read(_alloc: Global, value: &Value) -> Result<i64, ReadError> {
        match value.as_integer() {
            Some(number) => Ok(number),
            None => Err(ReadError::Malformed),
        }
    }
}

impl<T: FromValue> FromValue for Seq<T> {
    ghost from_data = { list_as T.from_data };

    fn read(alloc: Global, value: &Value) -> Result<Seq<T>, ReadError> {
        let Some(items) = value.as_array() else {
            return Err(ReadError::Malformed);
        };
        let mut list = Vec::new(alloc);
        for item in items {
            list.push(T::read(alloc, item)?)?;
        }
        Ok(Seq::of(list))
    }
}

/// Whether every key of the table is one of these.
#[tactic(auto, using(crate::proofs::FormLaws::keys))]
pub fn has_only(table: &Table, keys: &[&str]) -> bool
    ensures { result ≡ keys_pass (λ key. list_any (λ other. bytes_eq other.now key) keys.now) (table_view table.now) }
{
    for key in table.keys() {
        if !is_one_of(key.as_str(), keys) {
            return false;
        }
    }
    true
}

// Whether the key is one of these.
fn is_one_of(key: &str, keys: &[&str]) -> bool
    ensures { result ≡ list_any (λ other. bytes_eq other.now key.now) keys.now }
{
    keys.iter().any(|other| *other == key)
}

/// The value at a key, where there is one.
pub fn value_at<'a>(table: &'a Table, key: &str) -> Option<&'a Value>
    ensures { option_map (λ value. view value.now) result ≡ get_member key.now (table_view table.now) }
{
    table.get(key)
}

/// What the value at a key gives. A missing key is `Err(Malformed)`.
pub fn read_at<T: FromValue>(alloc: Global, table: &Table, key: &str) -> Result<T, ReadError>
    ensures { Reads result (field T.from_data key.now (table_view table.now)) }
{
    match value_at(table, key) {
        Some(value) => T::read(alloc, value),
        None => Err(ReadError::Malformed),
    }
}

/// The list at a key that may be missing, which means a list without items.
pub fn list_at<T: FromValue>(alloc: Global, table: &Table, key: &str) -> Result<Seq<T>, ReadError>
    ensures { Reads result (list_field (list_as T.from_data) key.now (table_view table.now)) }
{
    match value_at(table, key) {
        Some(value) => Seq::<T>::read(alloc, value),
        None => Ok(Seq::new(alloc)),
    }
}

/// The version at the key `version` is 1, else `Err(Malformed)`.
pub fn check_version(table: &Table) -> Result<(), ReadError>
    ensures { Reads result (field version_as (codes "version") (table_view table.now)) }
{
    let Some(value) = value_at(table, "version") else {
        return Err(ReadError::Malformed);
    };
    match value.as_integer() {
        Some(1) => Ok(()),
        _ => Err(ReadError::Malformed),
    }
}

/// The list, which has at least one item, else `Err(Malformed)`.
pub fn filled<T: Drop>(list: Seq<T>) -> Result<Seq<T>, ReadError>
    ensures { Reads result (filled list) }
{
    if list.as_slice().is_empty() {
        return Err(ReadError::Malformed);
    }
    Ok(list)
}
