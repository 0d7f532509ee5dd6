use mq_base::{Seq, Text, ValueType};

/// A column as the file gives it.
#[derive(Drop)]
pub struct RawColumn {
    pub name: Text,
    pub ty: ValueType,
}

/// A table as the file gives it.
#[derive(Drop)]
pub struct RawTable {
    pub name: Text,
    pub owner: Text,
    pub columns: Seq<RawColumn>,
}

/// A rule as the file gives it.
#[derive(Drop)]
pub struct RawRule {
    pub table: Text,
    pub subject: Text,
    pub plain: Seq<Text>,
    pub sealed: Seq<Text>,
}

/// A policy file that has the form, before its names are looked at.
#[derive(Drop)]
pub struct RawPolicy {
    pub user: Text,
    pub subjects: Seq<Text>,
    pub tables: Seq<RawTable>,
    pub rules: Seq<RawRule>,
}
