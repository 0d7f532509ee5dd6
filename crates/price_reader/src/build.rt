ghost use Rattle.std.specs.Prelude.{◌≡◌, ◌^◌, ◌≤◌, ◌<◌, length, find, option_copied};
ghost use Rattle.price_reader.specs.Faults.{is_entry, is_link};
ghost use Rattle.price_reader.specs.Outcome.{number_for, numbers, price, prices_from, net_prices};
ghost use Rattle.price_reader.specs.inside.Checks.{Fits64, AllFit64};

use crate::check::natural;
use crate::raw::{Entry, Link};
use mq_base::Text;

/// The number of each name, and 0 past the last.
#[tactic(auto, using(crate::proofs::PaddedLaws::padding))]
pub fn numbers<const N: usize>(names: &[Text], entries: &[Entry]) -> [u64; N]
    requires { length names.now ≤ N }
    ensures value { result ≡ numbers N names.now entries.now }
    ensures fits { Fits64 result }
{
    let mut numbers = [0; N];
    for place in 0..names.len() {
        numbers[place] = number_for(entries, &names[place]);
    }
    numbers
}

// The number that a section has for a name.
fn number_for(entries: &[Entry], name: &Text) -> u64
    ensures value { result ≡ number_for entries.now name.now }
    ensures fits { result < 2 ^ 64 }
{
    match find_entry(entries, name) {
        Some(entry) => natural(entry.number).unwrap_or(0),
        None => 0,
    }
}

fn find_entry<'a>(entries: &'a [Entry], name: &Text) -> Option<&'a Entry>
    ensures { option_copied result ≡ find (is_entry name.now) entries.now }
{
    entries.iter().find(|entry| entry.name == *name)
}

/// The price from each subject to each, and 0 past the last.
#[tactic(auto, using(crate::proofs::PaddedLaws::padding))]
pub fn net_prices(subjects: &[Text], default: i64, links: &[Link]) -> [[u64; 16]; 16]
    requires { length subjects.now ≤ 16 }
    ensures value { result ≡ net_prices subjects.now default links.now }
    ensures fits { AllFit64 result }
{
    let mut net = [[0; 16]; 16];
    for place in 0..subjects.len() {
        net[place] = prices_from(subjects, default, links, &subjects[place]);
    }
    net
}

// The price from a subject to each, and 0 past the last.
#[tactic(auto, using(crate::proofs::PaddedLaws::padding))]
fn prices_from(subjects: &[Text], default: i64, links: &[Link], from: &Text) -> [u64; 16]
    requires { length subjects.now ≤ 16 }
    ensures value { result ≡ prices_from subjects.now default links.now from.now }
    ensures fits { Fits64 result }
{
    let mut prices = [0; 16];
    for place in 0..subjects.len() {
        prices[place] = price(default, links, from, &subjects[place]);
    }
    prices
}

// The price from a subject to a subject.
fn price(default: i64, links: &[Link], from: &Text, to: &Text) -> u64
    ensures value { result ≡ price default links.now from.now to.now }
    ensures fits { result < 2 ^ 64 }
{
    if from == to {
        return 0;
    }
    match find_link(links, from, to) {
        Some(link) => natural(link.price).unwrap_or(0),
        None => natural(default).unwrap_or(0),
    }
}

fn find_link<'a>(links: &'a [Link], from: &Text, to: &Text) -> Option<&'a Link>
    ensures { option_copied result ≡ find (is_link from.now to.now) links.now }
{
    links
        .iter()
        .find(|link| link.from == *from && link.to == *to)
}
