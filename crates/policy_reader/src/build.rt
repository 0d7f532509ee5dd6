ghost use Rattle.std.specs.Prelude.{◌≡◌, ℕ, ◌++◌, ◌<◌, ◌≤◌, IfOk, OnOk, bytes_eq, length, map, position, slice_index_or};
ghost use Rattle.policy_reader.specs.Faults.{column_count};
ghost use Rattle.policy_reader.specs.Grants.{all_plain, all_sealed, nothing};
ghost use Rattle.policy_reader.specs.inside.Anyone.{any_grant};
ghost use Rattle.policy_reader.specs.Outcome.{subject_id, tables_from, column_info, columns_from, sixteen, policy_value};

use crate::grants::{Grant, all_granted, any_grants, ids};
use crate::raw::{RawColumn, RawPolicy, RawRule, RawTable};
use mq_base::{
    AttrInfo, AttrSet, NoMemory, Schema, Scheme, Seq, SubjectId, TableId, TableInfo, Text,
};
use policy_base::Policy;
use std::alloc::Global;

/// The policy that the lists stand for.
pub fn build(alloc: Global, raw: RawPolicy) -> Result<Policy, NoMemory>
    requires few_subjects { length raw.subjects ≤ 16 }
    requires few_tables { length raw.tables ≤ 8 }
    requires few_columns { column_count raw.tables ≤ 64 }
    ensures { IfOk result (λ policy. policy ≡ policy_value raw) }
{
    let RawPolicy {
        user,
        subjects,
        tables,
        rules,
    } = raw;
    let names = subjects.as_slice();
    let any = any_grants(alloc, tables.as_slice(), rules.as_slice())?;
    let sets = all_sets(names, tables.as_slice(), rules.as_slice(), any.as_slice());
    let schema = Schema {
        tables: table_infos(alloc, names, tables.as_slice())?,
        attrs: column_infos(alloc, tables.as_slice())?,
    };
    let user = subject_id(names, &user);
    let store = owners(alloc, names, tables.as_slice())?;
    Ok(Policy {
        schema,
        subjects,
        user,
        plain: sets.plain,
        sealed: sets.sealed,
        store,
        rest: AttrSet::EMPTY,
        ceiling: [Scheme::Ope; 64],
    })
}

// What each subject may see, and empty sets past the last.
#[derive(Drop)]
struct Sets {
    plain: [AttrSet; 16],
    sealed: [AttrSet; 16],
}

// What each subject may see, where `any` is what the rule `any` says on each table.
#[tactic(auto, using(crate::proofs::BuildLaws::sets))]
fn all_sets(subjects: &[Text], tables: &[RawTable], rules: &[RawRule], any: &[Grant]) -> Sets
    requires few_subjects { length subjects.now ≤ 16 }
    requires few_columns { column_count tables.now ≤ 64 }
    requires filled { length any.now ≡ length tables.now }
    requires any { (t : ℕ) → t < length tables.now → slice_index_or any.now t nothing ≡ any_grant tables.now rules.now t }
    ensures plain { result.plain ≡ sixteen (all_plain tables.now rules.now) subjects.now }
    ensures sealed { result.sealed ≡ sixteen (all_sealed tables.now rules.now) subjects.now }
{
    let mut plain = [AttrSet::EMPTY; 16];
    let mut sealed = [AttrSet::EMPTY; 16];
    for s in 0..subjects.len() {
        let granted = all_granted(tables, rules, any, &subjects[s]);
        plain[s] = granted.plain;
        sealed[s] = granted.sealed;
    }
    Sets { plain, sealed }
}

// The id of a subject.
fn subject_id(subjects: &[Text], subject: &Text) -> SubjectId
    requires { length subjects.now ≤ 16 }
    ensures { result ≡ subject_id subjects.now subject.now }
{
    match place_of(subjects, subject) {
        Some(place) => SubjectId(place as u8),
        None => SubjectId(0),
    }
}

fn place_of(names: &[Text], name: &Text) -> Option<usize>
    ensures { result ≡ position (λ other. bytes_eq other name.now) names.now }
{
    names.iter().position(|other| other == name)
}

// The tables, with their owners and the sets of their columns.
#[tactic(auto, using(crate::proofs::BuildLaws::lists))]
fn table_infos(
    alloc: Global,
    subjects: &[Text],
    tables: &[RawTable],
) -> Result<Seq<TableInfo>, NoMemory>
    requires few_subjects { length subjects.now ≤ 16 }
    requires few_columns { column_count tables.now ≤ 64 }
    ensures { IfOk result (λ infos. infos ≡ tables_from subjects.now 0 tables.now) }
{
    let mut infos = Seq::new(alloc);
    let mut first = 0;
    for table in tables {
        let count = table.columns.as_slice().len();
        infos.push(TableInfo {
            name: Text::copied(alloc, table.name.as_bytes())?,
            owner: subject_id(subjects, &table.owner),
            attrs: ids(first, count),
        })?;
        first += count;
    }
    Ok(infos)
}

// The owner of each table.
fn owners(alloc: Global, subjects: &[Text], tables: &[RawTable]) -> Result<Seq<SubjectId>, NoMemory>
    requires { length subjects.now ≤ 16 }
    ensures { IfOk result (λ owners. owners ≡ map (λ table. subject_id subjects.now table.owner) tables.now) }
{
    let mut owners = Seq::new(alloc);
    for table in tables {
        owners.push(subject_id(subjects, &table.owner))?;
    }
    Ok(owners)
}

// The columns of all tables.
#[tactic(auto, using(crate::proofs::BuildLaws::lists))]
fn column_infos(alloc: Global, tables: &[RawTable]) -> Result<Seq<AttrInfo>, NoMemory>
    requires { length tables.now ≤ 8 }
    ensures { IfOk result (λ infos. infos ≡ columns_from 0 tables.now) }
{
    let mut infos = Seq::new(alloc);
    for t in 0..tables.len() {
        push_columns(
            alloc,
            &mut infos,
            TableId(t as u8),
            tables[t].columns.as_slice(),
        )?;
    }
    Ok(infos)
}

// Puts the columns of a table at the end.
fn push_columns(
    alloc: Global,
    infos: &mut Seq<AttrInfo>,
    t: TableId,
    columns: &[RawColumn],
) -> Result<(), NoMemory>
    ensures { OnOk result (infos.new ≡ infos.old ++ map (column_info t.0) columns.now) }
{
    for column in columns {
        infos.push(AttrInfo {
            name: Text::copied(alloc, column.name.as_bytes())?,
            ty: column.ty,
            table: t,
        })?;
    }
    Ok(())
}
