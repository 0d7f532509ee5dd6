//! A column of a table, sealed or opened.

ghost use Rattle.std.specs.Prelude.{◌≡◌, ◌<◌, ◌^◌, IfErr, IfOk, List, OnErr, OnOk, Some, map, slice_set, true};
ghost use Rattle.base_laws.specs.Sets.{has};
ghost use Rattle.column_table.specs.Columns.{Shown, column_at, shown, shown_columns};
ghost use Rattle.extended_plan.specs.Job.{IsStateAt, setting_of};
ghost use Rattle.mq_base.specs.declared.plan.Step.TheVariants as step;
ghost use Rattle.mq_base.specs.declared.value.Value.{Value};
ghost use Rattle.mq_base.specs.declared.value.ValueType.{ValueType};
ghost use Rattle.provider_engine.specs.Held.{node_of, state_of, table_of};
ghost use Rattle.provider_engine.specs.OfJob.{IsOfJob, IsOpenedBy};
ghost use Rattle.provider_engine.specs.Opening.{listed_key, seals_of};
ghost use Rattle.provider_engine.specs.Run.{opened_row, sealed_rows};
ghost use Rattle.provider_engine.specs.Steps.{IsRunnableOn, state_after};
ghost use Rattle.provider_engine.specs.inside.Sealing.{ColumnOpens, IsLocked, IsLockedAt, IsOpenedAt, plain_column};

use crate::held::Held;
use column_table::Table;
use extended_plan::{Job, State};
use key_clusters::Keys;
use mq_base::{AttrId, AttrSet, NoMemory, Scheme};
use relation_profile::{after_dec, after_enc};
use sealed_column::{AnyColumn, Clear, Column, DetKind, OpeKind, RndKind};
use std::alloc::Global;

// A plain column, sealed under a scheme and a key at a place in the list of steps.
pub(crate) fn lock_column(
    alloc: Global,
    scheme: Scheme,
    key: &[u8; 32],
    place: u32,
    column: Column<Clear>,
) -> Result<AnyColumn, (Column<Clear>, NoMemory)>
    ensures locked { IfOk result (λ made. IsLocked scheme key.now place column.ty column.cells (shown made)) }
    ensures back { IfErr result (λ failed. failed.0 ≡ column) }
{
    match scheme {
        Scheme::Rnd => match column.lock::<RndKind>(alloc, key, place) {
            Ok(locked) => Ok(AnyColumn::Rnd(locked)),
            Err(failed) => Err(failed),
        },
        Scheme::Det => match column.lock::<DetKind>(alloc, key, place) {
            Ok(locked) => Ok(AnyColumn::Det(locked)),
            Err(failed) => Err(failed),
        },
        Scheme::Ope => match column.lock::<OpeKind>(alloc, key, place) {
            Ok(locked) => Ok(AnyColumn::Ope(locked)),
            Err(failed) => Err(failed),
        },
    }
}

// A column, sealed where it is plain.
fn seal_column(
    alloc: Global,
    scheme: Scheme,
    key: &[u8; 32],
    place: u32,
    column: AnyColumn,
) -> Result<AnyColumn, (AnyColumn, NoMemory)>
    ensures locked { IfOk result (λ made. (ty : ValueType) (values : List Value) → shown column ≡ plain_column ty values
        → IsLocked scheme key.now place ty values (shown made)) }
    ensures back { IfErr result (λ failed. failed.0 ≡ column) }
{
    match column {
        AnyColumn::Clear(clear) => match lock_column(alloc, scheme, key, place, clear) {
            Ok(locked) => Ok(locked),
            Err((clear, stop)) => Err((AnyColumn::Clear(clear), stop)),
        },
        sealed => Ok(sealed),
    }
}

// A column, opened under its key where it is sealed.
fn open_column(
    alloc: Global,
    key: &[u8; 32],
    column: AnyColumn,
) -> Result<AnyColumn, (AnyColumn, NoMemory)>
    ensures opened { IfOk result (λ made. (values : List Value) → ColumnOpens key.now (shown column) values
        → shown made ≡ plain_column (shown column).ty values) }
    ensures back { IfErr result (λ failed. failed.0 ≡ column) }
{
    match column {
        AnyColumn::Clear(clear) => Ok(AnyColumn::Clear(clear)),
        AnyColumn::Rnd(locked) => match locked.unlock(alloc, key) {
            Ok(clear) => Ok(AnyColumn::Clear(clear)),
            Err((locked, stop)) => Err((AnyColumn::Rnd(locked), stop)),
        },
        AnyColumn::Det(locked) => match locked.unlock(alloc, key) {
            Ok(clear) => Ok(AnyColumn::Clear(clear)),
            Err((locked, stop)) => Err((AnyColumn::Det(locked), stop)),
        },
        AnyColumn::Ope(locked) => match locked.unlock(alloc, key) {
            Ok(clear) => Ok(AnyColumn::Clear(clear)),
            Err((locked, stop)) => Err((AnyColumn::Ope(locked), stop)),
        },
    }
}

// Puts a column at a place.
pub(crate) fn put_column(columns: &mut [Option<AnyColumn>; 64], at: usize, column: AnyColumn)
    requires { at < 64 }
    ensures { columns.new ≡ slice_set columns.old at (Some column) }
{
    columns[at] = Some(column);
}

// Seals the column of an attribute where it is plain.
fn seal_place(
    alloc: Global,
    scheme: Scheme,
    key: &[u8; 32],
    place: u32,
    columns: &mut [Option<AnyColumn>; 64],
    a: AttrId,
) -> Result<(), NoMemory>
    requires { a.0 < 64 }
    ensures locked { OnOk result ((ty : ValueType) (values : List Value) → column_at (shown_columns columns.old) a.0 ≡ Some (plain_column ty values)
        → IsLockedAt scheme key.now place ty values a.0 (shown_columns columns.old) (shown_columns columns.new)) }
    ensures unchanged { OnErr result (columns.new ≡ columns.old) }
{
    let at = usize::from(a.0);
    let Some(column) = columns[at].take() else {
        return Ok(());
    };
    match seal_column(alloc, scheme, key, place, column) {
        Ok(made) => {
            put_column(columns, at, made);
            Ok(())
        }
        Err((column, stop)) => {
            put_column(columns, at, column);
            Err(stop)
        }
    }
}

// Opens the column of an attribute where it is sealed.
fn open_place(
    alloc: Global,
    key: &[u8; 32],
    columns: &mut [Option<AnyColumn>; 64],
    a: AttrId,
) -> Result<(), NoMemory>
    requires { a.0 < 64 }
    ensures opened { OnOk result ((c : Shown) (values : List Value) → column_at (shown_columns columns.old) a.0 ≡ Some c
        → ColumnOpens key.now c values → IsOpenedAt c.ty values a.0 (shown_columns columns.old) (shown_columns columns.new)) }
    ensures unchanged { OnErr result (columns.new ≡ columns.old) }
{
    let at = usize::from(a.0);
    let Some(column) = columns[at].take() else {
        return Ok(());
    };
    match open_column(alloc, key, column) {
        Ok(made) => {
            put_column(columns, at, made);
            Ok(())
        }
        Err((column, stop)) => {
            put_column(columns, at, column);
            Err(stop)
        }
    }
}

// An attribute that a set has is one below 64.
#[tactic(auto, using(crate::proofs::SealRows::member_small))]
fn is_small(set: AttrSet, a: AttrId)
    ensures { has set.0 a.0 ≡ true → a.0 < 64 }
{}

// The key of an attribute.
pub(crate) fn key_of(keys: &Keys, a: AttrId) -> &[u8; 32]
    requires { a.0 < 64 }
    ensures { result.now ≡ listed_key keys.now.keys a.0 }
{
    &keys.keys[usize::from(a.0)]
}

// The state after an encryption, which is of an attribute below 64.
fn state_encrypted(job: &Job<'_>, a: AttrId, input: &Held) -> State
    requires of_job { IsOfJob (setting_of job.now) input.now }
    requires runnable { IsRunnableOn (setting_of job.now) (step.Enc a) input.now }
    ensures state { state_after (setting_of job.now) (node_of input.now) (step.Enc a) (state_of input.now) ≡ Some result }
    ensures stands { IsStateAt (setting_of job.now) (node_of input.now).0 result }
    ensures small { a.0 < 64 }
{
    is_small(job.facts.visible(input.node), a);
    State {
        holder: input.state.holder,
        view: after_enc(&job.facts, input.node, a, &input.state.view).unwrap(),
    }
}

// The state after a decryption, which is of an attribute below 64.
fn state_decrypted(job: &Job<'_>, a: AttrId, input: &Held) -> State
    requires of_job { IsOfJob (setting_of job.now) input.now }
    requires runnable { IsRunnableOn (setting_of job.now) (step.Dec a) input.now }
    ensures state { state_after (setting_of job.now) (node_of input.now) (step.Dec a) (state_of input.now) ≡ Some result }
    ensures stands { IsStateAt (setting_of job.now) (node_of input.now).0 result }
    ensures small { a.0 < 64 }
{
    is_small(input.state.view.enc, a);
    State {
        holder: input.state.holder,
        view: after_dec(&job.facts, input.node, a, &input.state.view).unwrap(),
    }
}

// The table after an encryption, at this place in the list of steps. `NoMemory` where the allocator refused a request, with the table
// handed back. The time is that of a seal for each distinct value, or under the randomised scheme for each row.
pub(crate) fn run_enc(
    alloc: Global,
    job: &Job<'_>,
    keys: &Keys,
    place: u32,
    a: AttrId,
    input: Held,
) -> Result<Held, (Held, NoMemory)>
    requires of_job { IsOfJob (setting_of job.now) input }
    requires opened { IsOpenedBy (setting_of job.now) keys.now.keys input }
    requires runnable { IsRunnableOn (setting_of job.now) (step.Enc a) input }
    ensures node { IfOk result (λ made. node_of made ≡ node_of input) }
    ensures state { IfOk result (λ made. state_after (setting_of job.now) (node_of input) (step.Enc a) (state_of input) ≡ Some (state_of made)) }
    ensures rows { IfOk result (λ made. table_of made ≡ sealed_rows (seals_of job.now.clusters keys.now.keys) (2 ^ a.0) place (table_of input)) }
    ensures of_job { IfOk result (IsOfJob (setting_of job.now)) }
    ensures opened { IfOk result (IsOpenedBy (setting_of job.now) keys.now.keys) }
    ensures back { IfErr result (λ failed. failed.0 ≡ input) }
{
    let after = state_encrypted(job, a, &input);
    let Held { node, state, table } = input;
    let Table {
        rows,
        mut columns,
        counts,
    } = table;
    let scheme = job.clusters.scheme_of(a);
    match seal_place(alloc, scheme, key_of(keys, a), place, &mut columns, a) {
        Ok(()) => Ok(Held {
            node,
            state: after,
            table: Table {
                rows,
                columns,
                counts,
            },
        }),
        Err(stop) => Err((
            Held {
                node,
                state,
                table: Table {
                    rows,
                    columns,
                    counts,
                },
            },
            stop,
        )),
    }
}

// The table after a decryption. `NoMemory` where the allocator refused a request, with the table handed back. The time is that of
// opening each distinct cell, or under the randomised scheme that of each row.
pub(crate) fn run_dec(
    alloc: Global,
    job: &Job<'_>,
    keys: &Keys,
    a: AttrId,
    input: Held,
) -> Result<Held, (Held, NoMemory)>
    requires of_job { IsOfJob (setting_of job.now) input }
    requires opened { IsOpenedBy (setting_of job.now) keys.now.keys input }
    requires runnable { IsRunnableOn (setting_of job.now) (step.Dec a) input }
    ensures node { IfOk result (λ made. node_of made ≡ node_of input) }
    ensures state { IfOk result (λ made. state_after (setting_of job.now) (node_of input) (step.Dec a) (state_of input) ≡ Some (state_of made)) }
    ensures rows { IfOk result (λ made. table_of made ≡ map (opened_row (seals_of job.now.clusters keys.now.keys) (2 ^ a.0)) (table_of input)) }
    ensures of_job { IfOk result (IsOfJob (setting_of job.now)) }
    ensures opened { IfOk result (IsOpenedBy (setting_of job.now) keys.now.keys) }
    ensures back { IfErr result (λ failed. failed.0 ≡ input) }
{
    let after = state_decrypted(job, a, &input);
    let Held { node, state, table } = input;
    let Table {
        rows,
        mut columns,
        counts,
    } = table;
    match open_place(alloc, key_of(keys, a), &mut columns, a) {
        Ok(()) => Ok(Held {
            node,
            state: after,
            table: Table {
                rows,
                columns,
                counts,
            },
        }),
        Err(stop) => Err((
            Held {
                node,
                state,
                table: Table {
                    rows,
                    columns,
                    counts,
                },
            },
            stop,
        )),
    }
}
