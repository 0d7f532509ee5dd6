ghost use Rattle.std.specs.Prelude.{◌≡◌, string_bytes};
ghost use Rattle.toml.specs.View.{view, table_view};
ghost use Rattle.toml_tree.specs.Form.{Reads};
ghost use Rattle.price_reader.specs.Shape.{section_as, entry_as, members_as, net_as, link_as, prices_as};

use crate::raw::{Entry, Link, Net, RawPrices, Section};
use mq_base::{Seq, Text};
use std::alloc::Global;
use toml::{Table, Value};
use toml_tree::{FromValue, ReadError, check_version, has_only, list_at, read_at};

impl FromValue for Section {
    ghost from_data = { section_as };

    fn read(alloc: Global, value: &Value) -> Result<Section, ReadError> {
        let Some(table) = value.as_table() else {
            return Err(ReadError::Malformed);
        };
        Ok(Section {
            entries: read_entries(alloc, table)?,
        })
    }
}

// The entries of a table from names to integers, in the byte order of the names.
fn read_entries(alloc: Global, table: &Table) -> Result<Seq<Entry>, ReadError>
    ensures { Reads result (members_as (table_view table.now)) }
{
    let mut entries = Seq::new(alloc);
    for (key, value) in table.iter() {
        entries.push(read_entry(alloc, key, value)?)?;
    }
    Ok(entries)
}

fn read_entry(alloc: Global, key: &String, value: &Value) -> Result<Entry, ReadError>
    ensures { Reads result (entry_as (string_bytes key.now) (view value.now)) }
{
    Ok(Entry {
        name: Text::copied(alloc, key.as_bytes())?,
        number: i64::read(alloc, value)?,
    })
}

impl FromValue for Net {
    ghost from_data = { net_as };

    fn read(alloc: Global, value: &Value) -> Result<Net, ReadError> {
        let Some(table) = value.as_table() else {
            return Err(ReadError::Malformed);
        };
        if !has_only(table, &["default"]) {
            return Err(ReadError::Malformed);
        }
        Ok(Net {
            default: read_at(alloc, table, "default")?,
        })
    }
}

impl FromValue for Link {
    ghost from_data = { link_as };

    fn read(alloc: Global, value: &Value) -> Result<Link, ReadError> {
        let Some(table) = value.as_table() else {
            return Err(ReadError::Malformed);
        };
        if !has_only(table, &["from", "to", "price"]) {
            return Err(ReadError::Malformed);
        }
        Ok(Link {
            from: read_at(alloc, table, "from")?,
            to: read_at(alloc, table, "to")?,
            price: read_at(alloc, table, "price")?,
        })
    }
}

impl FromValue for RawPrices {
    ghost from_data = { prices_as };

    fn read(alloc: Global, value: &Value) -> Result<RawPrices, ReadError> {
        let Some(table) = value.as_table() else {
            return Err(ReadError::Malformed);
        };
        if !has_only(
            table,
            &["version", "cpu", "net", "rows", "distinct", "link"],
        ) {
            return Err(ReadError::Malformed);
        }
        check_version(table)?;
        Ok(RawPrices {
            cpu: read_at(alloc, table, "cpu")?,
            net: read_at(alloc, table, "net")?,
            links: list_at(alloc, table, "link")?,
            rows: read_at(alloc, table, "rows")?,
            distinct: read_at(alloc, table, "distinct")?,
        })
    }
}
