use mq_base::{Seq, Text};

/// A name and its number, as the file gives them.
#[derive(Drop)]
pub struct Entry {
    pub name: Text,
    pub number: i64,
}

/// A section from names to numbers, in the byte order of the names.
#[derive(Drop)]
pub struct Section {
    pub entries: Seq<Entry>,
}

/// What `net` says: the price of each way that no link prices.
#[derive(Clone, Copy)]
pub struct Net {
    pub default: i64,
}

/// A link as the file gives it.
#[derive(Drop)]
pub struct Link {
    pub from: Text,
    pub to: Text,
    pub price: i64,
}

/// A price file that has the form, before its names are looked at.
#[derive(Drop)]
pub struct RawPrices {
    pub cpu: Section,
    pub net: Net,
    pub links: Seq<Link>,
    pub rows: Section,
    pub distinct: Section,
}
