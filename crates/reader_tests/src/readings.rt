//! What queries say, with the places of their words.
ghost use Rattle.std.specs.Prelude.{◌≤◌, length};

use sql_reader::{RawCol, RawCond, RawHaving, RawItem, RawLit, RawQuery, RawSide, read_query};
use std::alloc::Global;
use std::fmt::Write;
use std::process::Abort;
use std::test::Fail;

// A column, with the place of its first word.
fn tell_column(line: &mut String, col: RawCol) -> Result<(), Fail> {
    if let Some(table) = col.table {
        write!(line, "{table}.")?;
    }
    let (name, at) = (col.name, col.at);
    write!(line, "{name}@{at}")?;
    Ok(())
}

fn tell_literal(line: &mut String, lit: RawLit) -> Result<(), Fail> {
    match lit {
        RawLit::Number(number) => write!(line, "{number}")?,
        RawLit::Text(text) => write!(line, "'{text}'")?,
    }
    Ok(())
}

// An item: a function goes before its column, and the place of its word behind it.
fn tell_item(line: &mut String, item: RawItem) -> Result<(), Fail> {
    match item {
        RawItem::Col(col) => tell_column(line, col),
        RawItem::Agg { func, col, at } => {
            write!(line, "{func:?} ")?;
            tell_column(line, col)?;
            write!(line, " @{at}")?;
            Ok(())
        }
        RawItem::Count { at } => {
            write!(line, "count @{at}")?;
            Ok(())
        }
    }
}

fn tell_conditions(line: &mut String, word: &str, conds: &[RawCond]) -> Result<(), Fail> {
    for cond in conds {
        write!(line, "{word} ")?;
        tell_column(line, cond.left)?;
        let op = cond.op;
        write!(line, " {op:?} ")?;
        match cond.right {
            RawSide::Col(col) => tell_column(line, col)?,
            RawSide::Lit(lit) => tell_literal(line, lit)?,
        }
        line.push(';')?;
    }
    Ok(())
}

fn tell_sources(line: &mut String, query: &RawQuery) -> Result<(), Fail> {
    for source in query.sources.as_slice() {
        let (table, at) = (source.table, source.at);
        write!(line, "from {table}@{at};")?;
        tell_conditions(line, "on", source.on.as_slice())?;
    }
    Ok(())
}

fn tell_havings(line: &mut String, havings: &[RawHaving]) -> Result<(), Fail> {
    for having in havings {
        write!(line, "having ")?;
        tell_item(line, having.item)?;
        let op = having.op;
        write!(line, " {op:?} ")?;
        tell_literal(line, having.lit)?;
        line.push(';')?;
    }
    Ok(())
}

fn tell_query(line: &mut String, query: &RawQuery) -> Result<(), Fail> {
    for item in query.items.as_slice() {
        tell_item(line, *item)?;
        line.push(';')?;
    }
    tell_sources(line, query)?;
    tell_conditions(line, "where", query.conds.as_slice())?;
    for col in query.group.as_slice() {
        write!(line, "group ")?;
        tell_column(line, *col)?;
        line.push(';')?;
    }
    tell_havings(line, query.having.as_slice())
}

// What the query says, part by part, in one line, or the words of its refusal.
fn told(alloc: Global, text: &str) -> Result<String, Fail>
    requires { length text.now ≤ 67108864 }
{
    let mut line = String::new(alloc);
    match read_query(alloc, text) {
        Ok(query) => tell_query(&mut line, &query)?,
        Err(no) => write!(line, "{no}")?,
    }
    Ok(line)
}

// Queries, each with what it says.
const QUERIES: [(&str, &str); 8] = [
    ("select a from r", "a@7;from r@14;"),
    ("SELECT\ta\r\nFROM r;", "a@7;from r@15;"),
    ("select a.b, r . a from r", "a.b@7;r.a@12;from r@23;"),
    (
        "SeLeCt SuM(a), mIn(b), MAX(r.c), CoUnT ( * ) fRoM r, s jOiN t oN t.a = s.a aNd b <> 'x' WhErE a = 1 \
             AnD b < -2 GrOuP bY a, r.b HaViNg sum(b) >= 3 and COUNT(*) != 'y''z' ;",
        "Sum a@11 @7;Min b@19 @15;Max r.c@27 @23;count @33;from r@50;from s@53;from t@60;on t.a@65 Eq \
             s.a@71;on b@79 Ne 'x';where a@94 Eq 1;where b@104 Lt -2;group a@120;group r.b@123;having Sum b@138 \
             @134 Ge 3;having count @150 Ne 'y''z';",
    ),
    (
        "select a from r where a=1 and a<>2 and a!=3 and a<4 and a<=5 and a>6 and a>=7 and a=b",
        "a@7;from r@14;where a@22 Eq 1;where a@30 Ne 2;where a@39 Ne 3;where a@48 Lt 4;where a@56 Le 5;where \
             a@65 Gt 6;where a@73 Ge 7;where a@82 Eq b@84;",
    ),
    (
        "select a from r where a = '''' and a = ''",
        "a@7;from r@14;where a@22 Eq '''';where a@35 Eq '';",
    ),
    (
        "select a from r where a = 9223372036854775807 and a = -9223372036854775808 and a = 007 and a = -0",
        "a@7;from r@14;where a@22 Eq 9223372036854775807;where a@50 Eq -9223372036854775808;where a@79 Eq \
             7;where a@91 Eq 0;",
    ),
    ("select a from r group by a", "a@7;from r@14;group a@25;"),
];

fn check(rt: &impl Abort, alloc: Global, rows: &[(&str, &str)]) -> Result<(), Fail> {
    for (text, want) in rows {
        assert!(rt; text.len() < 1000);
        assert_eq!(rt; told(alloc, text)?.as_str(), *want, "of {text:?}");
    }
    Ok(())
}

#[test]
fn a_query_is_read_with_its_places(rt: HostRuntime) -> Result<(), Fail> {
    check(&rt, rt.alloc(), &QUERIES)
}
