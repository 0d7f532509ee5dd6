ghost use Rattle.std.specs.Prelude.{◌≡◌, ◌<◌, ◌≤◌, ◌-◌, ◌^◌, min, length, take};
ghost use Rattle.std.specs.List.{list_any};
ghost use Rattle.base_laws.specs.Firsts.{first_at};
ghost use Rattle.policy_reader.specs.inside.Checks.{fault_of};
ghost use Rattle.policy_reader.specs.Faults.{over, limit_fault, name_fault, subject_fault, table_fault, column_fault, columns_fault, table_names_fault, names_fault, owner_fault, user_fault, is_table, has_column, have_column, column_count};

use crate::fault::Fault;
use crate::names::{is_name, is_one_of, is_subject_name};
use crate::raw::{RawColumn, RawTable};
use crate::refusal::PolicyCode;
use mq_base::Text;

/// There are no more subjects, tables and columns than a policy may have.
pub fn check_limits(subjects: &[Text], tables: &[RawTable]) -> Result<(), Fault>
    ensures { fault_of result ≡ limit_fault subjects.now tables.now }
{
    check_limit(16, subjects.len(), 0)?;
    check_limit(8, tables.len(), 1)?;
    check_limit(64, column_count(tables), 2)
}

// The number is not larger than its limit.
fn check_limit(limit: usize, number: usize, at: usize) -> Result<(), Fault>
    ensures { fault_of result ≡ over limit number at }
{
    if limit < number {
        return Err(Fault::at(PolicyCode::TooMany, at, 0));
    }
    Ok(())
}

/// The number of columns of all these tables, cut at the largest number.
pub fn column_count(tables: &[RawTable]) -> usize
    ensures { result ≡ min (column_count tables.now) (2 ^ 64 - 1) }
{
    let mut count: usize = 0;
    for table in tables {
        count = count.saturating_add(table.columns.as_slice().len());
    }
    count
}

/// The names of subjects, tables and columns are names, and none is repeated.
pub fn check_names(subjects: &[Text], tables: &[RawTable]) -> Result<(), Fault>
    ensures { fault_of result ≡ names_fault subjects.now tables.now }
{
    check_subjects(subjects)?;
    check_tables(tables)
}

#[tactic(auto, using(crate::proofs::Places::places))]
fn check_subjects(subjects: &[Text]) -> Result<(), Fault>
    ensures { fault_of result ≡ first_at (subject_fault subjects.now) 0 (length subjects.now) }
{
    for at in 0..subjects.len() {
        check_subject(subjects, at)?;
    }
    Ok(())
}

fn check_subject(subjects: &[Text], at: usize) -> Result<(), Fault>
    requires { at < length subjects.now }
    ensures { fault_of result ≡ subject_fault subjects.now at }
{
    let name = &subjects[at];
    check_name(
        is_subject_name(name),
        is_one_of(name, &subjects[..at]),
        at,
        0,
    )
}

#[tactic(auto, using(crate::proofs::Places::places))]
fn check_tables(tables: &[RawTable]) -> Result<(), Fault>
    ensures { fault_of result ≡ first_at (table_names_fault tables.now) 0 (length tables.now) }
{
    for at in 0..tables.len() {
        check_table_names(tables, at)?;
    }
    Ok(())
}

fn check_table_names(tables: &[RawTable], at: usize) -> Result<(), Fault>
    requires { at < length tables.now }
    ensures { fault_of result ≡ table_names_fault tables.now at }
{
    check_table(tables, at)?;
    check_columns(&tables[..at], tables[at].columns.as_slice(), at)
}

fn check_table(tables: &[RawTable], at: usize) -> Result<(), Fault>
    requires { at < length tables.now }
    ensures { fault_of result ≡ table_fault tables.now at }
{
    let name = &tables[at].name;
    check_name(is_name(name), has_table(&tables[..at], name), at, 0)
}

#[tactic(auto, using(crate::proofs::Places::places))]
fn check_columns(earlier: &[RawTable], columns: &[RawColumn], at: usize) -> Result<(), Fault>
    ensures { fault_of result ≡ first_at (column_fault earlier.now columns.now at) 0 (length columns.now) }
{
    for place in 0..columns.len() {
        check_column(earlier, columns, at, place)?;
    }
    Ok(())
}

fn check_column(
    earlier: &[RawTable],
    columns: &[RawColumn],
    at: usize,
    place: usize,
) -> Result<(), Fault>
    requires { place < length columns.now }
    ensures { fault_of result ≡ column_fault earlier.now columns.now at place }
{
    let name = &columns[place].name;
    let repeated = have_column(earlier, name) || has_column(&columns[..place], name);
    check_name(is_name(name), repeated, at, place + 1)
}

// The name meets the rule and does not stand earlier.
fn check_name(well: bool, earlier: bool, at: usize, item: usize) -> Result<(), Fault>
    ensures { fault_of result ≡ name_fault well earlier at item }
{
    if !well {
        return Err(Fault::at(PolicyCode::BadName, at, item));
    }
    if earlier {
        return Err(Fault::at(PolicyCode::RepeatedName, at, item));
    }
    Ok(())
}

// Whether a table has this name.
fn has_table(tables: &[RawTable], name: &Text) -> bool
    ensures { result ≡ list_any (is_table name.now) tables.now }
{
    tables.iter().any(|table| table.name == *name)
}

/// Whether a column has this name.
pub fn has_column(columns: &[RawColumn], name: &Text) -> bool
    ensures { result ≡ has_column name.now columns.now }
{
    columns.iter().any(|column| column.name == *name)
}

// Whether a column of one of these tables has this name.
fn have_column(tables: &[RawTable], name: &Text) -> bool
    ensures { result ≡ have_column name.now tables.now }
{
    tables
        .iter()
        .any(|table| has_column(table.columns.as_slice(), name))
}

/// Each table's owner is a subject.
#[tactic(auto, using(crate::proofs::Places::places))]
pub fn check_owners(subjects: &[Text], tables: &[RawTable]) -> Result<(), Fault>
    ensures { fault_of result ≡ first_at (owner_fault subjects.now tables.now) 0 (length tables.now) }
{
    for at in 0..tables.len() {
        check_owner(subjects, tables, at)?;
    }
    Ok(())
}

fn check_owner(subjects: &[Text], tables: &[RawTable], at: usize) -> Result<(), Fault>
    requires { at < length tables.now }
    ensures { fault_of result ≡ owner_fault subjects.now tables.now at }
{
    if !is_one_of(&tables[at].owner, subjects) {
        return Err(Fault::at(PolicyCode::UnknownOwner, at, 0));
    }
    Ok(())
}

/// The user is a subject.
pub fn check_user(subjects: &[Text], user: &Text) -> Result<(), Fault>
    ensures { fault_of result ≡ user_fault subjects.now user.now }
{
    if !is_one_of(user, subjects) {
        return Err(Fault::at(PolicyCode::UnknownSubject, 0, 1));
    }
    Ok(())
}
