//! The table of a leaf.

ghost use Rattle.std.specs.Prelude.{◌≡◌, ◌<◌, ℕ, IfErr, IfOk, IsSome, List, Some, false, length, map, option_map, slice_get, true};
ghost use Rattle.std.specs.List.{All};
ghost use Rattle.base_laws.specs.Sets.{has};
ghost use Rattle.column_table.specs.Columns.{column_at, shown, shown_columns};
ghost use Rattle.extended_plan.specs.Job.{setting_of};
ghost use Rattle.extended_plan.specs.Setting.{leaf_of};
ghost use Rattle.extended_plan.specs.States.{state};
ghost use Rattle.extended_plan.specs.Term.{Leaf};
ghost use Rattle.extended_plan.specs.Validity.{used_at};
ghost use Rattle.mq_base.specs.BoundQuery.{type_at};
ghost use Rattle.mq_base.specs.Schema.{IsSchema};
ghost use Rattle.mq_base.specs.Table.{HasForm};
ghost use Rattle.mq_base.specs.Value.{IsCell};
ghost use Rattle.mq_base.specs.declared.value.Value.{Value};
ghost use Rattle.provider_engine.specs.Held.{node_of, state_of, table_of};
ghost use Rattle.provider_engine.specs.OfJob.{IsOfJob, IsOpenedBy};
ghost use Rattle.provider_engine.specs.Opening.{seals_of};
ghost use Rattle.provider_engine.specs.Run.{plain_row, sealed_rows};
ghost use Rattle.provider_engine.specs.inside.Leaves.{AreOwn, IsMovedAt, IsRestAt, place_of};
ghost use Rattle.provider_engine.specs.inside.Sealing as sealing;
ghost use Rattle.provider_engine.specs.inside.Sealing.{IsLocked};
ghost use Rattle.row_algebra.specs.Contents as contents;
ghost use Rattle.row_algebra.specs.Contents.{table_rows};
ghost use Rattle.row_algebra.specs.Rows.{cut};

use crate::held::Held;
use crate::seal::{key_of, lock_column, put_column};
use column_table::{Table, no_columns};
use extended_plan::{Job, leaf_at};
use key_clusters::Keys;
use mq_base::{
    AttrId, AttrSet, NoMemory, NodeId, PlainTable, Schema, Scheme, Seq, TableId, Value, ValueType,
};
use sealed_column::{AnyColumn, CellState, Clear, Column};
use std::alloc::Global;
use std::mem;

/// The table of a leaf at its store: the rows of the query's table in the order of its file, cut to the used attributes, with those that
/// are sealed at rest sealed at this place in the list of steps. docs/MODEL.md, "Encoded run".
///
/// `NoMemory` where the allocator refused a request, with the table handed back. The time is linear in the cells that are sealed, and else
/// in the table's columns.
pub fn run_leaf(
    alloc: Global,
    job: &Job<'_>,
    keys: &Keys,
    place: u32,
    table: PlainTable,
) -> Result<Held, (PlainTable, NoMemory)>
    requires schema { IsSchema (setting_of job.now).policy.schema }
    requires leaf { IsSome (leaf_of (setting_of job.now) table.table) }
    requires form { HasForm (setting_of job.now).policy.schema table }
    ensures node { IfOk result (λ made. leaf_of (setting_of job.now) table.table ≡ Some (node_of made).0) }
    ensures state { IfOk result (λ made. state_of made ≡ state (setting_of job.now) (Leaf table.table)) }
    ensures rows { IfOk result (λ made. table_of made ≡ sealed_rows (seals_of job.now.clusters keys.now.keys) (setting_of job.now).policy.rest.0 place
        (map (λ r. plain_row (cut (used_at (setting_of job.now) table.table) r)) (table_rows (setting_of job.now).policy.schema table))) }
    ensures of_job { IfOk result (IsOfJob (setting_of job.now)) }
    ensures opened { IfOk result (IsOpenedBy (setting_of job.now) keys.now.keys) }
    ensures back { IfErr result (λ failed. failed.0 ≡ table) }
{
    let node = leaf_node(job, table.table);
    let state = leaf_at(job, table.table, node);
    let used = own_set(job, table.table, node);
    let sealed = used.intersection(job.policy.rest);
    let plain = used.difference(job.policy.rest);
    match seal_rest(alloc, job, keys, place, sealed, &table) {
        Ok(columns) => {
            let rows = table.rows;
            let columns = move_plain(alloc, &job.policy.schema, plain, table, columns);
            Ok(Held {
                node,
                state,
                table: Table {
                    rows,
                    columns,
                    counts: None,
                },
            })
        }
        Err(stop) => Err((table, stop)),
    }
}

// The node of the leaf of a table, which the plan has.
fn leaf_node(job: &Job<'_>, t: TableId) -> NodeId
    requires { IsSome (leaf_of (setting_of job.now) t) }
    ensures { leaf_of (setting_of job.now) t ≡ Some result.0 }
{
    NodeId(extended_plan::leaf_of(job, t).unwrap() as u8)
}

// The used attributes of the leaf of a table, which is at this node: they are the table's own.
fn own_set(job: &Job<'_>, t: TableId, node: NodeId) -> AttrSet
    requires schema { IsSchema (setting_of job.now).policy.schema }
    requires leaf { leaf_of (setting_of job.now) t ≡ Some node.0 }
    ensures used { result.0 ≡ used_at (setting_of job.now) t }
    ensures own { AreOwn (setting_of job.now).policy.schema t.0 result.0 }
{
    job.facts.visible(node)
}

// Whether an attribute is one of a table.
fn owns(schema: &Schema, t: TableId, a: AttrId) -> bool
    ensures { result ≡ contents.owns schema.now t.0 a.0 }
{
    match schema.attrs.as_slice().get(usize::from(a.0)) {
        Some(info) => info.table.0 == t.0,
        None => false,
    }
}

// The type of an attribute, which is one of a table.
fn own_type(schema: &Schema, t: TableId, a: AttrId) -> ValueType
    requires { contents.owns schema.now t.0 a.0 ≡ true }
    ensures { type_at schema.now a.0 ≡ Some result }
{
    schema.attrs.as_slice()[usize::from(a.0)].ty
}

// The column at a place of a table.
fn column_in(table: &PlainTable, at: usize) -> &[Value]
    requires { at < length table.now.columns }
    ensures { slice_get table.now.columns at ≡ Some result.now }
{
    table.columns.as_slice()[at].as_slice()
}

// The same values once more.
fn copy_values(alloc: Global, values: &[Value]) -> Result<Vec<Value>, NoMemory>
    ensures { IfOk result (λ copies. copies.items ≡ values.now) }
{
    let mut copies = Vec::new(alloc);
    for value in values {
        copies.push(Clear::copy_cell(alloc, value)?)?;
    }
    Ok(copies)
}

// The column of values that a table's cells hold, plain.
#[tactic(auto, using(crate::proofs::LeafRows::cells_are_values))]
fn plain_column(ty: ValueType, values: Seq<Value>) -> Column<Clear>
    requires { All (IsCell ty) values }
    ensures typed { result.ty ≡ ty }
    ensures cells { result.cells ≡ values }
{
    Column::of(ty, values)
}

// The column of values that a table's cells hold, sealed at a place in the list of steps. The values stay as they are.
fn seal_copy(
    alloc: Global,
    scheme: Scheme,
    key: &[u8; 32],
    place: u32,
    ty: ValueType,
    values: &[Value],
) -> Result<AnyColumn, NoMemory>
    requires { All (IsCell ty) values.now }
    ensures { IfOk result (λ made. IsLocked scheme key.now place ty values.now (shown made)) }
{
    let copies = Seq::of(copy_values(alloc, values)?);
    match lock_column(alloc, scheme, key, place, plain_column(ty, copies)) {
        Ok(made) => Ok(made),
        Err((_, stop)) => Err(stop),
    }
}

// The column of an attribute of a table, sealed where that is asked, by the place of the attribute's values.
fn seal_own(
    alloc: Global,
    job: &Job<'_>,
    keys: &Keys,
    place: u32,
    asked: bool,
    a: AttrId,
    table: &PlainTable,
    at: usize,
) -> Result<Option<AnyColumn>, NoMemory>
    requires small { a.0 < 64 }
    requires own { contents.owns (setting_of job.now).policy.schema table.now.table.0 a.0 ≡ true }
    requires form { HasForm (setting_of job.now).policy.schema table.now }
    requires there { at ≡ place_of (setting_of job.now).policy.schema table.now.table.0 a.0 }
    ensures { IfOk result (λ made. IsRestAt (setting_of job.now) keys.now.keys place table.now a.0 asked (option_map shown made)) }
{
    if !asked {
        return Ok(None);
    }
    let ty = own_type(&job.policy.schema, table.table, a);
    let scheme = job.clusters.scheme_of(a);
    let sealed = seal_copy(
        alloc,
        scheme,
        key_of(keys, a),
        place,
        ty,
        column_in(table, at),
    )?;
    Ok(Some(sealed))
}

// The columns of a table's own attributes in a set, sealed at a place in the list of steps. The table stays as it is.
fn seal_rest(
    alloc: Global,
    job: &Job<'_>,
    keys: &Keys,
    place: u32,
    sealed: AttrSet,
    table: &PlainTable,
) -> Result<[Option<AnyColumn>; 64], NoMemory>
    requires own { AreOwn (setting_of job.now).policy.schema table.now.table.0 sealed.0 }
    requires form { HasForm (setting_of job.now).policy.schema table.now }
    ensures { IfOk result (λ columns. (a : ℕ) → a < 64
        → IsRestAt (setting_of job.now) keys.now.keys place table.now a (has sealed.0 a) (column_at (shown_columns columns) a)) }
{
    let mut columns = no_columns();
    let mut at = 0;
    for a in 0..64u8 {
        let id = AttrId(a);
        if owns(&job.policy.schema, table.table, id) {
            columns[usize::from(a)] = seal_own(
                alloc,
                job,
                keys,
                place,
                sealed.has(id),
                id,
                table,
                at,
            )?;
            at += 1;
        }
    }
    Ok(columns)
}

// Takes out the column at a place.
fn take_out(alloc: Global, columns: &mut Vec<Seq<Value>>, at: usize) -> Seq<Value>
    requires { at < length columns.old.items }
    ensures taken { slice_get columns.old.items at ≡ Some result }
    ensures others { (i : ℕ) → at < i → slice_get columns.new.items i ≡ slice_get columns.old.items i }
{
    mem::replace(&mut columns[at], Seq::new(alloc))
}

// Moves the column at a place to that of its attribute, where that is asked.
fn move_own(
    alloc: Global,
    asked: bool,
    ty: ValueType,
    values: &mut Vec<Seq<Value>>,
    at: usize,
    columns: &mut [Option<AnyColumn>; 64],
    a: AttrId,
)
    requires small { a.0 < 64 }
    requires within { at < length values.old.items }
    requires cells { (column : List Value) → slice_get values.old.items at ≡ Some column → All (IsCell ty) column }
    ensures moved { asked ≡ true → (column : List Value) → slice_get values.old.items at ≡ Some column
        → shown_columns columns.new ≡ sealing.with_column (shown_columns columns.old) a.0 (sealing.plain_column ty column) }
    ensures kept { asked ≡ false → columns.new ≡ columns.old }
    ensures others { (i : ℕ) → at < i → slice_get values.new.items i ≡ slice_get values.old.items i }
{
    if !asked {
        return;
    }
    let cells = take_out(alloc, values, at);
    let column = AnyColumn::Clear(plain_column(ty, cells));
    put_column(columns, usize::from(a.0), column);
}

// Moves the columns of a table's own attributes in a set to the attributes' places.
fn move_plain(
    alloc: Global,
    schema: &Schema,
    plain: AttrSet,
    table: PlainTable,
    columns: [Option<AnyColumn>; 64],
) -> [Option<AnyColumn>; 64]
    requires own { AreOwn schema.now table.table.0 plain.0 }
    requires form { HasForm schema.now table }
    ensures places { length (shown_columns result) ≡ 64 }
    ensures moved { (a : ℕ) → a < 64
        → IsMovedAt schema.now table a (has plain.0 a) (column_at (shown_columns columns) a) (column_at (shown_columns result) a) }
{
    let mut columns = columns;
    let t = table.table;
    let mut values = table.columns.into_vec();
    let mut at = 0;
    for a in 0..64u8 {
        let id = AttrId(a);
        if owns(schema, t, id) {
            let ty = own_type(schema, t, id);
            move_own(alloc, plain.has(id), ty, &mut values, at, &mut columns, id);
            at += 1;
        }
    }
    columns
}
