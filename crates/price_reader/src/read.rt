ghost use Rattle.std.specs.Prelude.{◌≡◌, ◌≤◌, IfOk, length, map};
ghost use Rattle.mq_base.specs.Refusal.{Answers};
ghost use Rattle.base_laws.specs.Firsts.{judged};
ghost use Rattle.policy_base.specs.Accepted.{IsAccepted};
ghost use Rattle.price_reader.specs.Codes.{told};
ghost use Rattle.price_reader.specs.Faults.{first_fault, sections_fault};
ghost use Rattle.price_reader.specs.Outcome.{price_outcome, prices_value, sections_value};
ghost use Rattle.policy_base.specs.Priced.{IsPriced};
ghost use Rattle.price_reader.specs.inside.Checks.{fault_of, Fits64, AllFit64};

use crate::build::{net_prices, numbers};
use crate::check::{check_links, check_net, check_section};
use crate::fault::Fault;
use crate::raw::RawPrices;
use crate::refusal::PriceNo;
use mq_base::{AttrInfo, NoMemory, Refusing, Seq, TableInfo, Text};
use policy_base::{Policy, Prices};
use std::alloc::Global;
use toml_tree::read_document;

/// The prices that the bytes of a price file state for a policy. docs/FORMATS.md, "Price file", says the form and each
/// refusal; the first refusal in the order written there is the one answered.
///
/// An `Err(Refused)` is that refusal, and `Err(NoMemory)` says that the allocator refused a request.
pub fn read_prices(alloc: Global, bytes: &[u8], policy: &Policy) -> Result<Prices, PriceNo>
    requires { IsAccepted policy.now }
    ensures read { Answers ⟦<PriceNo as Refusing>⟧.told result (price_outcome policy.now bytes.now) }
    ensures priced { IfOk result (IsPriced (length policy.now.schema.attrs)) }
{
    match read_document::<RawPrices>(alloc, bytes) {
        Ok(raw) => judge(alloc, &raw, policy),
        Err(no) => Err(PriceNo::from(no)),
    }
}

// The prices of lists that have the form, or their first fault.
fn judge(alloc: Global, raw: &RawPrices, policy: &Policy) -> Result<Prices, PriceNo>
    requires { IsAccepted policy.now }
    ensures read { Answers told result (judged (first_fault policy.now raw.now) (prices_value policy.now raw.now)) }
    ensures priced { IfOk result (IsPriced (length policy.now.schema.attrs)) }
{
    let tables = table_names(alloc, policy.schema.tables.as_slice())?;
    let attributes = attribute_names(alloc, policy.schema.attrs.as_slice())?;
    judge_for(
        raw,
        policy.subjects.as_slice(),
        tables.as_slice(),
        attributes.as_slice(),
    )
}

// The prices of lists that have the form, or their first fault, for these subjects, tables and attributes.
#[tactic(auto, using(crate::proofs::PricedLaws::priced))]
fn judge_for(
    raw: &RawPrices,
    subjects: &[Text],
    tables: &[Text],
    attributes: &[Text],
) -> Result<Prices, PriceNo>
    requires few_subjects { length subjects.now ≤ 16 }
    requires few_tables { length tables.now ≤ 8 }
    requires few_attributes { length attributes.now ≤ 64 }
    ensures read { Answers told result (judged (sections_fault subjects.now tables.now attributes.now raw.now) (sections_value subjects.now tables.now attributes.now raw.now)) }
    ensures priced { IfOk result (IsPriced (length attributes.now)) }
{
    match check(raw, subjects, tables, attributes) {
        Ok(()) => Ok(build(raw, subjects, tables, attributes)),
        Err(fault) => Err(PriceNo::from(fault)),
    }
}

// The lists have no fault, for these subjects, tables and attributes.
fn check(
    raw: &RawPrices,
    subjects: &[Text],
    tables: &[Text],
    attributes: &[Text],
) -> Result<(), Fault>
    ensures { fault_of result ≡ sections_fault subjects.now tables.now attributes.now raw.now }
{
    check_section(subjects, 0, 0, raw.cpu.entries.as_slice())?;
    check_net(raw.net.default)?;
    check_links(subjects, raw.links.as_slice())?;
    check_section(tables, 0, 3, raw.rows.entries.as_slice())?;
    check_section(attributes, 1, 4, raw.distinct.entries.as_slice())
}

// The prices that the lists stand for, for these subjects, tables and attributes.
fn build(raw: &RawPrices, subjects: &[Text], tables: &[Text], attributes: &[Text]) -> Prices
    requires few_subjects { length subjects.now ≤ 16 }
    requires few_tables { length tables.now ≤ 8 }
    requires few_attributes { length attributes.now ≤ 64 }
    ensures value { result ≡ sections_value subjects.now tables.now attributes.now raw.now }
    ensures cpu { Fits64 result.cpu }
    ensures net { AllFit64 result.net }
    ensures rows { Fits64 result.rows }
    ensures distinct { Fits64 result.distinct }
{
    Prices {
        cpu: numbers(subjects, raw.cpu.entries.as_slice()),
        net: net_prices(subjects, raw.net.default, raw.links.as_slice()),
        rows: numbers(tables, raw.rows.entries.as_slice()),
        distinct: numbers(attributes, raw.distinct.entries.as_slice()),
    }
}

// The names of the tables, and of the attributes.
fn table_names(alloc: Global, tables: &[TableInfo]) -> Result<Seq<Text>, NoMemory>
    ensures { IfOk result (λ names. names ≡ map (λ info. info.name) tables.now) }
{
    let mut names = Seq::new(alloc);
    for table in tables {
        names.push(Text::copied(alloc, table.name.as_bytes())?)?;
    }
    Ok(names)
}

fn attribute_names(alloc: Global, attributes: &[AttrInfo]) -> Result<Seq<Text>, NoMemory>
    ensures { IfOk result (λ names. names ≡ map (λ info. info.name) attributes.now) }
{
    let mut names = Seq::new(alloc);
    for attribute in attributes {
        names.push(Text::copied(alloc, attribute.name.as_bytes())?)?;
    }
    Ok(names)
}
