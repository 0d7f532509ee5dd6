//! A table that is held in one line, its sealed columns opened, so that a test can write it out.

use key_clusters::Keys;
use mq_base::{AttrId, Value};
use provider_engine::Held;
use sealed_column::{AnyColumn, Column, Locked, SchemeKind};
use std::alloc::Global;
use std::fmt::Write;
use std::str;
use std::test::Fail;

/// The holder, the node and the number of rows; then each column with its letter, the scheme of its cells where they are sealed, and
/// its values; and `#` with the counts.
pub(crate) fn told(alloc: Global, keys: &Keys, held: &Held) -> Result<String, Fail> {
    let mut line = String::new(alloc);
    write!(
        line,
        "at {} node {}, {} rows",
        held.holder().0,
        held.node().0,
        held.rows()
    )?;
    for a in 0..64u8 {
        if let Some(column) = held.column(AttrId(a)) {
            write!(line, "; {}", char::from(a.wrapping_add(b'a')))?;
            tell_column(alloc, &mut line, &keys.keys[usize::from(a)], column)?;
        }
    }
    if let Some(counts) = held.counts() {
        line.push_str("; #")?;
        tell_counts(&mut line, counts)?;
    }
    Ok(line)
}

fn tell_column(
    alloc: Global,
    line: &mut String,
    key: &[u8; 32],
    column: &AnyColumn,
) -> Result<(), Fail> {
    match column {
        AnyColumn::Clear(clear) => tell_values(line, clear.cells()),
        AnyColumn::Rnd(locked) => {
            line.push_str(" rnd")?;
            tell_opened(alloc, line, key, locked)
        }
        AnyColumn::Det(locked) => {
            line.push_str(" det")?;
            tell_opened(alloc, line, key, locked)
        }
        AnyColumn::Ope(locked) => {
            line.push_str(" ope")?;
            tell_opened(alloc, line, key, locked)
        }
    }
}

// The values that the cells open to, each copied alone.
fn tell_opened<S: SchemeKind>(
    alloc: Global,
    line: &mut String,
    key: &[u8; 32],
    column: &Column<Locked<S>>,
) -> Result<(), Fail> {
    for row in 0..column.rows() {
        let copy = column.take(alloc, &[row])?;
        match copy.unlock(alloc, key) {
            Ok(opened) => tell_values(line, opened.cells())?,
            Err((_, no_memory)) => return Err(Fail::from(no_memory)),
        }
    }
    Ok(())
}

fn tell_values(line: &mut String, values: &[Value]) -> Result<(), Fail> {
    for value in values {
        match value {
            Value::Int(number) => write!(line, " {number}")?,
            Value::Text(text) => write!(line, " {}", str::from_utf8(text.as_bytes())?)?,
        }
    }
    Ok(())
}

fn tell_counts(line: &mut String, counts: &[u64]) -> Result<(), Fail> {
    for count in counts {
        write!(line, " {count}")?;
    }
    Ok(())
}
