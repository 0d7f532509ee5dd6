//! Rows with equal cells, paired and grouped, beside the bare map and the bare sort of the same cells.

use crate::timing::{hundredths, nanos_since, rows_a_second};
use crate::values::{KEY, STEP, Shape, column_of, rows_made};
use mq_base::{NoMemory, ValueType};
use sealed_column::{Clear, Column, DetKind, groups, pairs};
use std::alloc::Global;
use std::collections::BTreeMap;
use std::io;
use std::time::Instant;

// The nanoseconds that the rows took, and how many pairs and groups came out.
#[derive(Clone, Copy)]
struct Times {
    join: u64,
    group: u64,
    map: u64,
    sort: u64,
    pairs: usize,
    groups: usize,
}

// A map from each cell to a row of it.
fn map_of<'a, C: Ord>(alloc: Global, cells: &'a [C]) -> Result<BTreeMap<&'a C, usize>, NoMemory> {
    let mut rows = BTreeMap::new(alloc);
    for (row, cell) in cells.iter().enumerate() {
        rows.insert(cell, row)?;
    }
    Ok(rows)
}

// Puts each cell into a map and looks each up, and answers how many are found.
fn look_up_each<C: Ord>(alloc: Global, cells: &[C]) -> Result<usize, NoMemory> {
    let rows = map_of(alloc, cells)?;
    let mut found = 0usize;
    for cell in cells {
        if rows.get(&cell).is_some() {
            found = found.wrapping_add(1);
        }
    }
    Ok(found)
}

// Sorts the cells, lent, and answers whether the first is at most the last.
fn sort_each<C: Ord>(alloc: Global, cells: &[C]) -> Result<bool, NoMemory> {
    let mut lent = Vec::new(alloc);
    for cell in cells {
        lent.push(cell)?;
    }
    lent.sort()?;
    match lent.as_slice() {
        [first, .., last] => Ok(first <= last),
        _ => Ok(true),
    }
}

// The nanoseconds that the bare map of cells takes.
fn map_nanos<C: Ord>(rt: &HostRuntime, cells: &[C]) -> io::Result<u64> {
    let start = Instant::now(rt)?;
    let found = look_up_each(rt.alloc(), cells).map_err(|_| io::ErrorKind::OutOfMemory)?;
    let nanos = nanos_since(rt, start)?;
    // Each is found, but no compiler can know it, and so none drops the search.
    if found != cells.len() {
        eprintln!(rt; "a cell was not found")?;
    }
    Ok(nanos)
}

// The nanoseconds that the bare sort of cells takes.
fn sort_nanos<C: Ord>(rt: &HostRuntime, cells: &[C]) -> io::Result<u64> {
    let start = Instant::now(rt)?;
    let in_order = sort_each(rt.alloc(), cells).map_err(|_| io::ErrorKind::OutOfMemory)?;
    let nanos = nanos_since(rt, start)?;
    // They are in order, but no compiler can know it, and so none drops the sort.
    if !in_order {
        eprintln!(rt; "the cells were not in order")?;
    }
    Ok(nanos)
}

// Times the rows of cells.
fn cell_times<C: Ord>(rt: &HostRuntime, cells: &[C]) -> io::Result<Times> {
    let start = Instant::now(rt)?;
    let pairs = pairs(rt.alloc(), cells, cells).map_err(|_| io::ErrorKind::OutOfMemory)?;
    let join = nanos_since(rt, start)?;
    let start = Instant::now(rt)?;
    let groups = groups(rt.alloc(), cells).map_err(|_| io::ErrorKind::OutOfMemory)?;
    let group = nanos_since(rt, start)?;
    Ok(Times {
        join,
        group,
        map: map_nanos(rt, cells)?,
        sort: sort_nanos(rt, cells)?,
        pairs: pairs.len(),
        groups: groups.len(),
    })
}

// The column whose cells are paired and grouped: of INT, all distinct.
fn column(rt: &HostRuntime, rows: u32) -> io::Result<Column<Clear>> {
    let column = column_of(rt.alloc(), ValueType::Int, Shape::AllDistinct, rows);
    Ok(column.map_err(|_| io::ErrorKind::OutOfMemory)?)
}

// Prints the line of cells with a name. A ratio is the time to that of the bare map.
fn report(rt: &HostRuntime, cells: &str, times: Times, count: u32) -> io::Result<()> {
    if count == 0 {
        let Times { pairs, groups, .. } = times;
        return println!(rt; "{cells} INT: {pairs} pairs, {groups} groups");
    }
    let join = rows_a_second(count, times.join);
    let group = rows_a_second(count, times.group);
    let map = rows_a_second(count, times.map);
    let sort = rows_a_second(count, times.sort);
    let join_ratio = hundredths(times.join, times.map);
    let (join_whole, join_part) = (join_ratio / 100, join_ratio % 100);
    let group_ratio = hundredths(times.group, times.map);
    let (group_whole, group_part) = (group_ratio / 100, group_ratio % 100);
    println!(rt;
        "{cells} INT: joined a second {join}, ratio {join_whole}.{join_part:02}, grouped {group}, ratio {group_whole}.{group_part:02}, \
         bare map {map}, bare sort {sort}"
    )
}

/// Prints the lines of all rows: those of plain cells, and those of the same sealed.
pub(crate) fn report_rows(rt: &HostRuntime, count: u32) -> io::Result<()> {
    let column = column(rt, rows_made(count))?;
    report(rt, "plain", cell_times(rt, column.cells())?, count)?;
    let locked = column
        .lock::<DetKind>(rt.alloc(), &KEY, STEP)
        .map_err(|_| io::ErrorKind::OutOfMemory)?;
    report(rt, "deterministic", cell_times(rt, locked.cells())?, count)
}
