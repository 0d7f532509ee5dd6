ghost use Rattle.std.specs.Prelude.{◌≡◌, ℕ, ◌+◌, ◌<◌, ◌≤◌, IfOk, bit_or, length, find, slice_index_or, option_copied};
ghost use Rattle.policy_reader.specs.Faults.{column_count};
ghost use Rattle.policy_reader.specs.Names.{any_subject};
ghost use Rattle.policy_reader.specs.Rules.{is_rule};
ghost use Rattle.policy_reader.specs.Grants.{ids, named, named_at, listed, nothing, rule_for, rule_grant, everything, said, table_grant, first_id, grant, all_plain, all_sealed};
ghost use Rattle.policy_reader.specs.inside.Anyone.{any_grant};

use crate::check::column_count;
use crate::raw::{RawColumn, RawRule, RawTable};
use crate::rules::column_place;
use mq_base::{AttrId, AttrSet, NoMemory, Text};
use std::alloc::Global;

/// What a subject may see plain, and what it may see sealed.
#[derive(Clone, Copy)]
pub struct Grant {
    pub plain: AttrSet,
    pub sealed: AttrSet,
}

// A grant of nothing.
const NOTHING: Grant = Grant {
    plain: AttrSet::EMPTY,
    sealed: AttrSet::EMPTY,
};

impl Grant {
    // What either grants.
    fn union(self, other: Grant) -> Grant
        ensures plain { result.plain.0 ≡ bit_or self.plain.0 other.plain.0 }
        ensures sealed { result.sealed.0 ≡ bit_or self.sealed.0 other.sealed.0 }
    {
        Grant {
            plain: self.plain.union(other.plain),
            sealed: self.sealed.union(other.sealed),
        }
    }
}

/// All that a subject may see, where `any` is what the rule `any` says on each table.
pub fn all_granted(tables: &[RawTable], rules: &[RawRule], any: &[Grant], subject: &Text) -> Grant
    requires few { column_count tables.now ≤ 64 }
    requires filled { length any.now ≡ length tables.now }
    requires any { (t : ℕ) → t < length tables.now → slice_index_or any.now t nothing ≡ any_grant tables.now rules.now t }
    ensures plain { result.plain.0 ≡ all_plain tables.now rules.now subject.now }
    ensures sealed { result.sealed.0 ≡ all_sealed tables.now rules.now subject.now }
{
    let mut all = NOTHING;
    for t in 0..tables.len() {
        all = all.union(grant_at(tables, rules, any[t], subject, t));
    }
    all
}

// The grant to a subject on the table with this id, where `any` is what the rule `any` says on it.
#[tactic(auto, using(crate::proofs::GrantLaws::firsts))]
fn grant_at(tables: &[RawTable], rules: &[RawRule], any: Grant, subject: &Text, t: usize) -> Grant
    requires few { column_count tables.now ≤ 64 }
    requires within { t < length tables.now }
    requires any { any ≡ any_grant tables.now rules.now t }
    ensures { result ≡ grant tables.now rules.now subject.now t }
{
    table_grant(rules, subject, first_id(tables, t), &tables[t], any)
}

/// What the rule `any` says on each table.
pub fn any_grants(
    alloc: Global,
    tables: &[RawTable],
    rules: &[RawRule],
) -> Result<Vec<Grant>, NoMemory>
    requires { column_count tables.now ≤ 64 }
    ensures filled { IfOk result (λ grants. length grants.items ≡ length tables.now) }
    ensures each { IfOk result (λ grants. (t : ℕ) → t < length tables.now
        → slice_index_or grants.items t nothing ≡ any_grant tables.now rules.now t) }
{
    let mut grants = Vec::new(alloc);
    for t in 0..tables.len() {
        grants.push(any_at(tables, rules, t))?;
    }
    Ok(grants)
}

// What the rule `any` says on the table with this id.
#[tactic(auto, using(crate::proofs::GrantLaws::firsts))]
fn any_at(tables: &[RawTable], rules: &[RawRule], t: usize) -> Grant
    requires few { column_count tables.now ≤ 64 }
    requires within { t < length tables.now }
    ensures { result ≡ any_grant tables.now rules.now t }
{
    any_said(rules, first_id(tables, t), &tables[t])
}

// The id of the first column of the table with this id.
#[tactic(auto, using(crate::proofs::GrantLaws::firsts))]
fn first_id(tables: &[RawTable], t: usize) -> usize
    requires few { column_count tables.now ≤ 64 }
    requires within { t < length tables.now }
    ensures { result ≡ first_id tables.now t }
{
    column_count(&tables[..t])
}

// What the rule `any` says on a table.
fn any_said(rules: &[RawRule], first: usize, table: &RawTable) -> Grant
    requires { first + length table.now.columns ≤ 64 }
    ensures { result ≡ said first table.now (rule_for table.now any_subject rules.now) }
{
    match find_rule(rules, table.name.as_bytes(), "any".as_bytes()) {
        Some(rule) => rule_grant(first, table, rule),
        None => NOTHING,
    }
}

// The grant to a subject on a table, where `any` is what the rule `any` says on it.
fn table_grant(
    rules: &[RawRule],
    subject: &Text,
    first: usize,
    table: &RawTable,
    any: Grant,
) -> Grant
    requires few { first + length table.now.columns ≤ 64 }
    requires any { any ≡ said first table.now (rule_for table.now any_subject rules.now) }
    ensures { result ≡ table_grant rules.now subject.now first table.now }
{
    if *subject == table.owner {
        return everything(first, table);
    }
    match find_rule(rules, table.name.as_bytes(), subject.as_bytes()) {
        Some(own) => rule_grant(first, table, own),
        None => any,
    }
}

// The rule for this table and this subject.
fn find_rule<'a>(rules: &'a [RawRule], table: &[u8], subject: &[u8]) -> Option<&'a RawRule>
    ensures { option_copied result ≡ find (is_rule table.now subject.now) rules.now }
{
    rules.iter().find(|rule| rule.table.as_bytes() == table && rule.subject.as_bytes() == subject)
}

// Everything of a table plain.
fn everything(first: usize, table: &RawTable) -> Grant
    requires { first + length table.now.columns ≤ 64 }
    ensures { result ≡ everything first table.now }
{
    Grant {
        plain: ids(first, table.columns.as_slice().len()),
        sealed: AttrSet::EMPTY,
    }
}

// What a rule for a table says.
fn rule_grant(first: usize, table: &RawTable, rule: &RawRule) -> Grant
    requires { first + length table.now.columns ≤ 64 }
    ensures { result ≡ rule_grant first table.now rule.now }
{
    let columns = table.columns.as_slice();
    Grant {
        plain: listed(first, columns, rule.plain.as_slice()),
        sealed: listed(first, columns, rule.sealed.as_slice()),
    }
}

/// The set of n ids from the first on.
pub fn ids(first: usize, n: usize) -> AttrSet
    requires { first + n ≤ 64 }
    ensures { result.0 ≡ ids first n }
{
    let mut set = AttrSet::EMPTY;
    for place in 0..n {
        set = set.with(AttrId((first + place) as u8));
    }
    set
}

// The set of the columns that a list names.
fn listed(first: usize, columns: &[RawColumn], names: &[Text]) -> AttrSet
    requires { first + length columns.now ≤ 64 }
    ensures { result.0 ≡ listed first columns.now names.now }
{
    let mut set = AttrSet::EMPTY;
    for place in 0..names.len() {
        set = set.union(named_at(first, columns, names, place));
    }
    set
}

fn named_at(first: usize, columns: &[RawColumn], names: &[Text], place: usize) -> AttrSet
    requires few { first + length columns.now ≤ 64 }
    requires within { place < length names.now }
    ensures { result.0 ≡ named_at first columns.now names.now place }
{
    named(first, columns, &names[place])
}

// The set of the column with this name.
#[tactic(auto, using(crate::proofs::GrantLaws::singles))]
fn named(first: usize, columns: &[RawColumn], name: &Text) -> AttrSet
    requires { first + length columns.now ≤ 64 }
    ensures { result.0 ≡ named first columns.now name.now }
{
    match column_place(columns, name) {
        Some(place) => AttrSet::EMPTY.with(AttrId((first + place) as u8)),
        None => AttrSet::EMPTY,
    }
}
