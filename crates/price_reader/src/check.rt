ghost use Rattle.std.specs.Prelude.{◌≡◌, ◌<◌, ◌≤◌, ◌-◌, ◌^◌, length, take, bytes_eq};
ghost use Rattle.std.specs.List.{list_any};
ghost use Rattle.base_laws.specs.Firsts.{first_at};
ghost use Rattle.policy_base.specs.Names.{is_one_of};
ghost use Rattle.price_reader.specs.Faults.{natural, is_out, is_entry, is_link, entry_fault, missing_fault, section_fault, net_fault, link_fault, links_fault};
ghost use Rattle.price_reader.specs.inside.Checks.{fault_of};

use crate::fault::Fault;
use crate::raw::{Entry, Link};
use crate::refusal::PriceCode;
use mq_base::Text;

/// The section has an entry for each of these names and no other, and each number is at least the least one.
pub fn check_section(names: &[Text], least: u64, at: u64, entries: &[Entry]) -> Result<(), Fault>
    ensures { fault_of result ≡ section_fault names.now least at entries.now }
{
    check_entries(names, least, at, entries)?;
    check_missing(names, at, entries)
}

#[tactic(auto, using(crate::proofs::Places::places))]
fn check_entries(names: &[Text], least: u64, at: u64, entries: &[Entry]) -> Result<(), Fault>
    ensures { fault_of result ≡ first_at (entry_fault names.now least at entries.now) 0 (length entries.now) }
{
    for item in 0..entries.len() {
        check_entry(names, least, at, entries, item)?;
    }
    Ok(())
}

fn check_entry(
    names: &[Text],
    least: u64,
    at: u64,
    entries: &[Entry],
    item: usize,
) -> Result<(), Fault>
    requires { item < length entries.now }
    ensures { fault_of result ≡ entry_fault names.now least at entries.now item }
{
    let entry = &entries[item];
    if !is_one_of(&entry.name, names) {
        return Err(Fault::at(PriceCode::UnknownName, at, item));
    }
    if is_out(least, entry.number) {
        return Err(Fault::at(PriceCode::OutOfRange, at, item));
    }
    Ok(())
}

#[tactic(auto, using(crate::proofs::Places::places))]
fn check_missing(names: &[Text], at: u64, entries: &[Entry]) -> Result<(), Fault>
    ensures { fault_of result ≡ first_at (missing_fault names.now at entries.now) 0 (length names.now) }
{
    for item in 0..names.len() {
        check_present(names, at, entries, item)?;
    }
    Ok(())
}

fn check_present(names: &[Text], at: u64, entries: &[Entry], item: usize) -> Result<(), Fault>
    requires { item < length names.now }
    ensures { fault_of result ≡ missing_fault names.now at entries.now item }
{
    if !has_entry(&names[item], entries) {
        return Err(Fault::at(PriceCode::Missing, at, item));
    }
    Ok(())
}

/// The default price is no negative number.
pub fn check_net(default: i64) -> Result<(), Fault>
    ensures { fault_of result ≡ net_fault default }
{
    if is_out(0, default) {
        return Err(Fault::at(PriceCode::OutOfRange, 1, 0));
    }
    Ok(())
}

/// Each link is from one subject to another, none stands twice, and no price is negative. At most 240 links pass, so that
/// a long list is refused early.
#[tactic(auto, using(crate::proofs::Places::places))]
pub fn check_links(subjects: &[Text], links: &[Link]) -> Result<(), Fault>
    ensures { fault_of result ≡ links_fault subjects.now links.now }
{
    for item in 0..links.len() {
        check_link(subjects, links, item)?;
    }
    Ok(())
}

fn check_link(subjects: &[Text], links: &[Link], item: usize) -> Result<(), Fault>
    requires { item < length links.now }
    ensures { fault_of result ≡ link_fault subjects.now links.now item }
{
    let link = &links[item];
    if !is_one_of(&link.from, subjects) || !is_one_of(&link.to, subjects) {
        return Err(Fault::at(PriceCode::UnknownName, 2, item));
    }
    if link.from == link.to || has_link(&link.from, &link.to, &links[..item]) {
        return Err(Fault::at(PriceCode::BadLink, 2, item));
    }
    if is_out(0, link.price) {
        return Err(Fault::at(PriceCode::OutOfRange, 2, item));
    }
    Ok(())
}

/// The number, where it is not negative.
pub fn natural(number: i64) -> Option<u64>
    ensures { result ≡ natural number }
{
    if number < 0 {
        return None;
    }
    Some(number as u64)
}

// Whether the number is below the least one.
fn is_out(least: u64, number: i64) -> bool
    ensures { result ≡ is_out least number }
{
    match natural(number) {
        Some(number) => number < least,
        None => true,
    }
}

// Whether the name is one of these.
fn is_one_of(name: &Text, names: &[Text]) -> bool
    ensures { result ≡ is_one_of name.now names.now }
{
    names.iter().any(|other| other == name)
}

// Whether the name has an entry.
fn has_entry(name: &Text, entries: &[Entry]) -> bool
    ensures { result ≡ list_any (is_entry name.now) entries.now }
{
    entries.iter().any(|entry| entry.name == *name)
}

// Whether one of the links is from the one subject to the other.
fn has_link(from: &Text, to: &Text, links: &[Link]) -> bool
    ensures { result ≡ list_any (is_link from.now to.now) links.now }
{
    links
        .iter()
        .any(|link| link.from == *from && link.to == *to)
}
