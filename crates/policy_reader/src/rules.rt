ghost use Rattle.std.specs.Prelude.{◌≡◌, ◌+◌, ◌<◌, ◌≤◌, ◌^◌, Some, length, take, find, position, option_copied, IfOk};
ghost use Rattle.std.specs.List.{list_any};
ghost use Rattle.base_laws.specs.Firsts.{first_at};
ghost use Rattle.policy_reader.specs.inside.Checks.{fault_of};
ghost use Rattle.policy_reader.specs.Faults.{is_table, is_column, column_count};
ghost use Rattle.policy_reader.specs.Rules.{is_rule, may_speak_of, plain_fault, sealed_string_fault, sealed_fault, unknown_fault, strings_fault, rule_fault_for, rule_fault};
ghost use Rattle.policy_reader.specs.Grants.{listed, named, named_at};

use crate::fault::Fault;
use crate::names::{is_any, is_one_of};
use crate::raw::{RawColumn, RawRule, RawTable};
use crate::refusal::PolicyCode;
use mq_base::{AttrId, AttrSet, Text};

/// Each rule meets its five tests, and each of its strings the test of its list.
#[tactic(auto, using(crate::proofs::Places::places))]
pub fn check_rules(subjects: &[Text], tables: &[RawTable], rules: &[RawRule]) -> Result<(), Fault>
    requires { column_count tables.now ≤ 64 }
    ensures { fault_of result ≡ first_at (rule_fault subjects.now tables.now rules.now) 0 (length rules.now) }
{
    for at in 0..rules.len() {
        check_rule(subjects, tables, rules, at)?;
    }
    Ok(())
}

#[tactic(auto, using(crate::proofs::RuleLaws::found))]
fn check_rule(
    subjects: &[Text],
    tables: &[RawTable],
    rules: &[RawRule],
    at: usize,
) -> Result<(), Fault>
    requires few { column_count tables.now ≤ 64 }
    requires within { at < length rules.now }
    ensures { fault_of result ≡ rule_fault subjects.now tables.now rules.now at }
{
    let rule = &rules[at];
    match find_table(tables, &rule.table) {
        Some(table) => check_rule_for(subjects, &rules[..at], at, rule, table),
        None => Err(Fault::at(PolicyCode::UnknownTable, at, 0)),
    }
}

// A rule whose table was found, after the earlier rules.
fn check_rule_for(
    subjects: &[Text],
    earlier: &[RawRule],
    at: usize,
    rule: &RawRule,
    table: &RawTable,
) -> Result<(), Fault>
    requires { length table.now.columns ≤ 64 }
    ensures { fault_of result ≡ rule_fault_for subjects.now earlier.now at rule.now table.now }
{
    if !may_speak_of(subjects, &rule.subject) {
        return Err(Fault::at(PolicyCode::UnknownSubject, at, 0));
    }
    if rule.subject == table.owner {
        return Err(Fault::at(PolicyCode::RuleForOwner, at, 0));
    }
    if has_rule(earlier, &rule.table, &rule.subject) {
        return Err(Fault::at(PolicyCode::RepeatedRule, at, 0));
    }
    check_strings(
        table.columns.as_slice(),
        rule.plain.as_slice(),
        rule.sealed.as_slice(),
        at,
    )
}

fn check_strings(
    columns: &[RawColumn],
    plain: &[Text],
    sealed: &[Text],
    at: usize,
) -> Result<(), Fault>
    requires { length columns.now ≤ 64 }
    ensures { fault_of result ≡ strings_fault columns.now plain.now sealed.now at }
{
    let set = check_plain(columns, plain, at)?;
    check_sealed(columns, plain, set, sealed, at)
}

// The strings of `plain` are columns: the set of their places.
#[tactic(auto, using(crate::proofs::Places::places))]
fn check_plain(columns: &[RawColumn], plain: &[Text], at: usize) -> Result<AttrSet, Fault>
    requires { length columns.now ≤ 64 }
    ensures fault { fault_of result ≡ first_at (plain_fault columns.now plain.now at) 0 (length plain.now) }
    ensures set { IfOk result (λ set. set.0 ≡ listed 0 columns.now plain.now) }
{
    let mut set = AttrSet::EMPTY;
    for place in 0..plain.len() {
        let column = check_plain_string(columns, plain, at, place)?;
        set = set.with(AttrId(column as u8));
    }
    Ok(set)
}

// The string of `plain` at a place is a column: that column's place.
#[tactic(auto, using(crate::proofs::RuleLaws::columns))]
fn check_plain_string(
    columns: &[RawColumn],
    plain: &[Text],
    at: usize,
    place: usize,
) -> Result<usize, Fault>
    requires { place < length plain.now }
    ensures fault { fault_of result ≡ plain_fault columns.now plain.now at place }
    ensures below { IfOk result (λ column. column < length columns.now) }
    ensures named { IfOk result (λ column. named_at 0 columns.now plain.now place ≡ 2 ^ column) }
{
    check_column_name(columns, &plain[place], at, place)
}

// The name is that of a column: that column's place.
#[tactic(auto, using(crate::proofs::RuleLaws::columns))]
fn check_column_name(
    columns: &[RawColumn],
    name: &Text,
    at: usize,
    item: usize,
) -> Result<usize, Fault>
    ensures fault { fault_of result ≡ unknown_fault columns.now at item name.now }
    ensures place { IfOk result (λ column. position (is_column name.now) columns.now ≡ Some column) }
    ensures below { IfOk result (λ column. column < length columns.now) }
    ensures named { IfOk result (λ column. named 0 columns.now name.now ≡ 2 ^ column) }
{
    match column_place(columns, name) {
        Some(column) => Ok(column),
        None => Err(Fault::at(PolicyCode::UnknownAttribute, at, item)),
    }
}

// The strings of `sealed` are columns, and none of those that `plain` lists, which are given as a set.
#[tactic(auto, using(crate::proofs::Places::places))]
fn check_sealed(
    columns: &[RawColumn],
    plain: &[Text],
    set: AttrSet,
    sealed: &[Text],
    at: usize,
) -> Result<(), Fault>
    requires few { length columns.now ≤ 64 }
    requires listed { set.0 ≡ listed 0 columns.now plain.now }
    ensures { fault_of result ≡ first_at (sealed_fault columns.now plain.now sealed.now at) 0 (length sealed.now) }
{
    for place in 0..sealed.len() {
        check_sealed_string(columns, plain, set, sealed, at, place)?;
    }
    Ok(())
}

fn check_sealed_string(
    columns: &[RawColumn],
    plain: &[Text],
    set: AttrSet,
    sealed: &[Text],
    at: usize,
    place: usize,
) -> Result<(), Fault>
    requires few { length columns.now ≤ 64 }
    requires listed { set.0 ≡ listed 0 columns.now plain.now }
    requires within { place < length sealed.now }
    ensures { fault_of result ≡ sealed_fault columns.now plain.now sealed.now at place }
{
    check_sealed_name(columns, plain, set, &sealed[place], at, place)
}

// The name is that of a column, and none that `plain` lists.
#[tactic(auto, using(crate::proofs::RuleLaws::columns))]
fn check_sealed_name(
    columns: &[RawColumn],
    plain: &[Text],
    set: AttrSet,
    name: &Text,
    at: usize,
    place: usize,
) -> Result<(), Fault>
    requires few { length columns.now ≤ 64 }
    requires listed { set.0 ≡ listed 0 columns.now plain.now }
    requires fits { length plain.now + place < 2 ^ 64 }
    ensures { fault_of result ≡ sealed_string_fault columns.now plain.now at place name.now }
{
    let item = plain.len() + place;
    let column = check_column_name(columns, name, at, item)?;
    if set.has(AttrId(column as u8)) {
        return Err(Fault::at(PolicyCode::Overlap, at, item));
    }
    Ok(())
}

// Whether a rule may speak of this subject.
fn may_speak_of(subjects: &[Text], subject: &Text) -> bool
    ensures { result ≡ may_speak_of subjects.now subject.now }
{
    is_one_of(subject, subjects) || is_any(subject)
}

// Whether a rule is for this table and this subject.
fn has_rule(rules: &[RawRule], table: &Text, subject: &Text) -> bool
    ensures { result ≡ list_any (is_rule table.now subject.now) rules.now }
{
    rules
        .iter()
        .any(|rule| rule.table == *table && rule.subject == *subject)
}

// The table with this name.
fn find_table<'a>(tables: &'a [RawTable], name: &Text) -> Option<&'a RawTable>
    ensures { option_copied result ≡ find (is_table name.now) tables.now }
{
    tables.iter().find(|table| table.name == *name)
}

/// The place of the column with this name.
pub fn column_place(columns: &[RawColumn], name: &Text) -> Option<usize>
    ensures { result ≡ position (is_column name.now) columns.now }
{
    columns.iter().position(|column| column.name == *name)
}
