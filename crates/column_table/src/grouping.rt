//! The table of groups of rows.

ghost use Rattle.std.specs.Prelude.{◌≡◌, ◌<◌, ℕ, IfOk, None, Some, length, map, option_map, if◌then◌else◌};
ghost use Rattle.std.specs.List.{All};
ghost use Rattle.column_table.specs.Cells.{Seals, cell_tests};
ghost use Rattle.column_table.specs.Columns.{column_at, shown, shown_columns};
ghost use Rattle.column_table.specs.Groups.{FoldsEach, IsFoldable, IsGroupFrom, IsGroupOn, IsPlaceOf, first_in};
ghost use Rattle.column_table.specs.Tables.{rows_of};
ghost use Rattle.column_table.specs.inside.Labels.{AreGroupsOf, IsGroup};
ghost use Rattle.mq_base.specs.declared.query.Agg.{Agg};
ghost use Rattle.row_algebra.specs.Groups as rows;

use crate::cells::column_if;
use crate::fold::folded_column;
use crate::labels::{first_of, row_groups};
use crate::table::Table;
use crate::take::{no_columns, take_column};
use mq_base::{Agg, AttrId, AttrSet, NoMemory, Seq};
use sealed_column::AnyColumn;
use std::alloc::Global;

/// One row for each combination of the cells of these attributes that occurs, in the order in which they first do: the grouped cells, what
/// each function makes of its attribute's cells, and the number of rows, where that is asked. The table has these attributes, and each
/// function runs over its attribute's column, where there is one: a sum over plain INT of 64 bits, the least and the greatest over plain
/// values and cells that keep the order. docs/MODEL.md, "Encoded run".
///
/// `NoMemory` where the allocator refused a request. The time is that of keeping the rows in order by the grouped cells, a column after the
/// other, and else linear in the cells.
pub fn group(
    alloc: Global,
    table: &Table,
    by: AttrSet,
    aggs: &[(AttrId, Agg)],
    counted: bool,
) -> Result<Table, NoMemory>
    requires { IsGroupOn table.now by.0 aggs.now }
    ensures rows { IfOk result (λ made. (seals : Seals) → rows_of made ≡ rows.grouped (cell_tests seals) by.0 aggs.now counted (rows_of table.now)) }
    ensures made { IfOk result (IsGroupFrom by.0 aggs.now counted table.now) }
{
    let groups = row_groups(alloc, table, by)?;
    let columns = group_columns(alloc, &table.columns, by, aggs, groups.as_slice())?;
    let counts = group_counts(alloc, counted, groups.as_slice())?;
    Ok(Table {
        rows: groups.len() as u64,
        columns,
        counts,
    })
}

// The numbers of the groups' rows, where they are told.
fn group_counts(
    alloc: Global,
    counted: bool,
    groups: &[Seq<u64>],
) -> Result<Option<Seq<u64>>, NoMemory>
    ensures { IfOk result (λ counts. counts ≡ (if counted then Some (map length groups.now) else None)) }
{
    if counted {
        return Ok(Some(Seq::of(sizes(alloc, groups)?)));
    }
    Ok(None)
}

// The number of rows of each group.
fn sizes(alloc: Global, groups: &[Seq<u64>]) -> Result<Vec<u64>, NoMemory>
    ensures { IfOk result (λ sizes. sizes.items ≡ map length groups.now) }
{
    Ok(
        groups
            .iter()
            .map(|group| group.as_slice().len() as u64)
            .collect(alloc)?,
    )
}

// The first row of each group.
fn heads(alloc: Global, groups: &[Seq<u64>]) -> Result<Vec<u64>, NoMemory>
    ensures { IfOk result (λ heads. heads.items ≡ map first_in groups.now) }
{
    Ok(
        groups
            .iter()
            .map(|group| first_of(group.as_slice()))
            .collect(alloc)?,
    )
}

// The columns of the groups, each at its attribute's place.
fn group_columns(
    alloc: Global,
    columns: &[Option<AnyColumn>; 64],
    by: AttrSet,
    aggs: &[(AttrId, Agg)],
    groups: &[Seq<u64>],
) -> Result<[Option<AnyColumn>; 64], NoMemory>
    requires folds { FoldsEach (shown_columns columns.now) aggs.now }
    requires groups { AreGroupsOf (shown_columns columns.now) groups.now }
    ensures { IfOk result (λ made. (a : ℕ) → IsPlaceOf by.0 aggs.now groups.now a (column_at (shown_columns columns.now) a) (column_at (shown_columns made) a)) }
{
    let heads = heads(alloc, groups)?;
    let mut made = no_columns();
    for a in 0..64 {
        made[a] = group_place(
            alloc,
            columns,
            AttrId(a as u8),
            by,
            aggs,
            groups,
            heads.as_slice(),
        )?;
    }
    Ok(made)
}

// The column of an attribute of the groups, where they have it.
fn group_place(
    alloc: Global,
    columns: &[Option<AnyColumn>; 64],
    a: AttrId,
    by: AttrSet,
    aggs: &[(AttrId, Agg)],
    groups: &[Seq<u64>],
    heads: &[u64],
) -> Result<Option<AnyColumn>, NoMemory>
    requires small { a.0 < 64 }
    requires folds { FoldsEach (shown_columns columns.now) aggs.now }
    requires groups { AreGroupsOf (shown_columns columns.now) groups.now }
    requires heads { heads.now ≡ map first_in groups.now }
    ensures { IfOk result (λ made. IsPlaceOf by.0 aggs.now groups.now a.0 (column_at (shown_columns columns.now) a.0) (option_map shown made)) }
{
    match column_if(columns, a) {
        Some(column) => group_column(alloc, column, a, by, aggs, groups, heads),
        None => Ok(None),
    }
}

// What the groups have of a column, where they have any of it.
fn group_column(
    alloc: Global,
    column: &AnyColumn,
    a: AttrId,
    by: AttrSet,
    aggs: &[(AttrId, Agg)],
    groups: &[Seq<u64>],
    heads: &[u64],
) -> Result<Option<AnyColumn>, NoMemory>
    requires small { a.0 < 64 }
    requires runs { (func : Agg) → rows.function_of aggs.now a.0 ≡ Some func → IsFoldable func (shown column.now) }
    requires groups { All (IsGroup (length (shown column.now).cells)) groups.now }
    requires heads { heads.now ≡ map first_in groups.now }
    ensures { IfOk result (λ made. IsPlaceOf by.0 aggs.now groups.now a.0 (Some (shown column.now)) (option_map shown made)) }
{
    if by.has(a) {
        return Ok(Some(take_column(alloc, column, heads)?));
    }
    match function_of(aggs, a) {
        Some(func) => Ok(Some(folded_column(alloc, column, func, groups)?)),
        None => Ok(None),
    }
}

// The function under which an attribute stands.
fn function_of(aggs: &[(AttrId, Agg)], a: AttrId) -> Option<Agg>
    ensures { result ≡ rows.function_of aggs.now a.0 }
{
    aggs.iter()
        .find(|under| under.0.0 == a.0)
        .map(|under| under.1)
}
