//! Queries that bind: with which ids, and up to which limits.
ghost use Rattle.std.specs.Prelude.{◌≤◌, length};
ghost use Rattle.mq_base.specs.Schema.{IsSchema};

use crate::schemas::{THREE_TABLES, TWO_TABLES, schema_of};
use mq_base::{Agg, AttrId, Cond, Having, Item, Query, Schema, Value};
use query_bind::bind;
use sql_reader::read_query;
use std::alloc::Global;
use std::fmt::Write;
use std::process::Abort;
use std::test::Fail;

fn tell_items(line: &mut String, items: &[Item]) -> Result<(), Fail> {
    for item in items {
        match item {
            Item::Attr(a) => write!(line, " {}", a.0)?,
            Item::Count => line.push_str(" *")?,
        }
    }
    Ok(())
}

fn tell_value(line: &mut String, value: &Value) -> Result<(), Fail> {
    match value {
        Value::Int(number) => write!(line, "{number}")?,
        Value::Text(text) => write!(line, "text {:?}", text.as_bytes())?,
    }
    Ok(())
}

fn tell_conds(line: &mut String, conds: &[Cond]) -> Result<(), Fail> {
    for cond in conds {
        line.push_str(", ")?;
        match cond {
            Cond::Const(a, op, value) => {
                write!(line, "{} {op:?} ", a.0)?;
                tell_value(line, value)?;
            }
            Cond::Attrs(a, op, b) => write!(line, "{} {op:?} at {}", a.0, b.0)?,
        }
    }
    Ok(())
}

fn tell_aggs(line: &mut String, aggs: &[(AttrId, Agg)]) -> Result<(), Fail> {
    for (a, func) in aggs {
        write!(line, ", {func:?} {}", a.0)?;
    }
    Ok(())
}

fn tell_having(line: &mut String, having: &[Having]) -> Result<(), Fail> {
    for test in having {
        line.push_str(", having ")?;
        match test {
            Having::Const(a, op, value) => {
                write!(line, "{} {op:?} ", a.0)?;
                tell_value(line, value)?;
            }
            Having::Count(op, number) => write!(line, "* {op:?} {number}")?,
        }
    }
    Ok(())
}

// A query with ids: its items, behind `from` its tables, its conditions, its functions, the number of its group, and
// whether it counts.
fn tell_query(line: &mut String, query: &Query) -> Result<(), Fail> {
    tell_items(line, query.items.as_slice())?;
    line.push_str(" from")?;
    for t in query.tables.as_slice() {
        write!(line, " {}", t.0)?;
    }
    tell_conds(line, query.conds.as_slice())?;
    if query.grouped {
        write!(line, ", by {}", query.group.0)?;
    }
    tell_aggs(line, query.aggs.as_slice())?;
    if query.count {
        line.push_str(", counted")?;
    }
    tell_having(line, query.having.as_slice())
}

// What a text is bound to, or its refusal, in one line.
fn told(alloc: Global, text: &str, schema: &Schema) -> Result<String, Fail>
    requires short { length text.now ≤ 67108864 }
    requires schema { IsSchema schema.now }
{
    let mut line = String::new(alloc);
    let Ok(raw) = read_query(alloc, text) else {
        line.push_str("unread")?;
        return Ok(line);
    };
    match bind(alloc, &raw, schema) {
        Ok(query) => tell_query(&mut line, &query)?,
        Err(no) => write!(line, "{no}")?,
    }
    Ok(line)
}

const BOUND: [(&str, &str); 8] = [
    ("select b, a, b from r", " 1 0 1 from 0"),
    (
        "select a from s, r where s.c = r.a",
        " 0 from 1 0, 2 Eq at 0",
    ),
    (
        "select a from r join s on c <= a where b <> 'it''s' and a > -5",
        " 0 from 0 1, 2 Le at 0, 1 Ne text [105, 116, 39, 115], 0 Gt -5",
    ),
    (
        "select a from r join s on a = c where d = b",
        " 0 from 0 1, 0 Eq at 2, 3 Eq at 1",
    ),
    (
        "select b, sum(a), count(*) from r group by b, b",
        " 1 0 * from 0, by 2, Sum 0, counted",
    ),
    (
        "select max(a), max(a) from r group by b having max(a) < 7 and count(*) >= 2",
        " 0 0 from 0, by 2, Max 0, counted, having 0 Lt 7, having * Ge 2",
    ),
    (
        "select sum(a) from r, s group by d having min(b) = 'x' and max(c) = 1",
        " 0 from 0 1, by 8, Sum 0, Min 1, Max 2, having 1 Eq text [120], having 2 Eq 1",
    ),
    ("select a from r group by a", " 0 from 0, by 1"),
];

// Each text of the rows is bound to its line.
fn check_bound(rt: &impl Abort, alloc: Global, rows: &[(&str, &str)]) -> Result<(), Fail> {
    let schema = schema_of(alloc, TWO_TABLES)?;
    for (text, want) in rows {
        assert!(rt; text.len() < 1000);
        assert_eq!(rt; told(alloc, text, &schema)?.as_str(), *want, "of {text:?}");
    }
    Ok(())
}

#[test]
fn a_query_is_bound_to_its_ids(rt: HostRuntime) -> Result<(), Fail> {
    check_bound(&rt, rt.alloc(), &BOUND)
}

// A text of this many pairs of quotes as a constant, and this many conditions on one attribute.
fn long_query(alloc: Global, quotes: usize, conditions: usize) -> Result<String, Fail>
    requires few { quotes ≤ 200 }
    requires short { conditions ≤ 200 }
{
    let mut text = String::new(alloc);
    text.push_str("select a from r where b = '")?;
    for _ in 0..quotes {
        text.push_str("''")?;
    }
    text.push_str("'")?;
    for _ in 0..conditions {
        text.push_str(" and a = 1")?;
    }
    Ok(text)
}

const LIMITS: [(usize, usize, &str); 4] = [
    (121, 0, "query refused: code 16 at byte 22"),
    (121, 100, "query refused: code 16 at byte 22"),
    (120, 62, "query refused: code 21 at byte 0"),
    (0, 63, "query refused: code 21 at byte 0"),
];

// What a long query is bound to, or its refusal.
fn long_told(alloc: Global, quotes: usize, conditions: usize) -> Result<String, Fail> {
    let schema = schema_of(alloc, TWO_TABLES)?;
    let text = long_query(alloc, quotes.min(200), conditions.min(200))?;
    if text.len() > 10_000 {
        return Ok(text);
    }
    told(alloc, text.as_str(), &schema)
}

fn check_limits(rt: &impl Abort, alloc: Global, rows: &[(usize, usize, &str)]) -> Result<(), Fail> {
    for (quotes, conditions, want) in rows {
        let line = long_told(alloc, *quotes, *conditions)?;
        assert_eq!(rt; line.as_str(), *want, "of {quotes} and {conditions}");
    }
    Ok(())
}

#[test]
fn a_text_and_a_plan_have_their_limits(rt: HostRuntime) -> Result<(), Fail> {
    check_limits(&rt, rt.alloc(), &LIMITS)?;
    let line = long_told(rt.alloc(), 120, 61)?;
    assert!(rt; line.as_str().starts_with(" 0 from 0, 1 Eq text [39, 39"));
    Ok(())
}

// Queries that bind: with conditions, joins or groups, and four of one table alone.
const QUERIES: [&str; 29] = [
    "select a from r where a = -9223372036854775808",
    "select a from r where a = 000000000000000000000000000000000000000000000000000000000007",
    "select a from r where a = 9223372036854775807",
    "select a from r, s where a = c",
    "select a from r join s on a = c",
    "select a from r join s on a = f join t on c = f",
    "select a from r join s on a = c and b = e where d <> 1",
    "select a from r group by a having min(b) > 'x'",
    "select a from r where a > 1 and a < 5",
    "select a from r where a = 1",
    "select a from r where a <> 1",
    "select a from r where a != 1",
    "select a from r where a < 1",
    "select a from r where a <= 1",
    "select a from r where a > 1",
    "select a from r where a >= 1",
    "select a from r where b = ''",
    "select a from r where b = ''''",
    "select a from r where b = '''xxxxxxxxxxxxxxxxxxxxxxxxxxxxxxxxxxxxxxxxxxxxxxxxxxxxxxxxxxxxxxxxxxxxxxxxxxxxxxxxxxxxxxxxxxxxxxxxxxxxxxxxxxxxxxxxxxxxxxx'",
    "select a from r group by a",
    "select count(*), a from r group by a",
    "select min(b), min(b) from r group by a",
    "Select sum(c), Min(a), mAx(d), Count(*) From r Join s On a = c Where b = 'x' And d > 1 Group By b, e Having Sum(c) > 1 and count(*) < 9;",
    "select a from r, s",
    "select a from r where a=-5",
    "SELECT a FROM r;",
    "sElEcT\ta\r\nFrOm r ; ",
    "select r . a from r",
    "select a, a, r.b from r",
];

// Whether a text is a query of the schema.
fn binds(alloc: Global, text: &str, schema: &Schema) -> bool
    requires short { length text.now ≤ 67108864 }
    requires schema { IsSchema schema.now }
{
    match read_query(alloc, text) {
        Ok(raw) => bind(alloc, &raw, schema).is_ok(),
        Err(_) => false,
    }
}

fn check_binding(rt: &impl Abort, alloc: Global, rows: &[&str]) -> Result<(), Fail> {
    let schema = schema_of(alloc, THREE_TABLES)?;
    for text in rows {
        assert!(rt; text.len() < 1000);
        assert!(rt; binds(alloc, text, &schema), "{text}");
    }
    Ok(())
}

#[test]
fn larger_queries_bind(rt: HostRuntime) -> Result<(), Fail> {
    check_binding(&rt, rt.alloc(), &QUERIES)
}

// The front of a query and how often its last condition stands in a plan of 64 nodes.
const LARGEST: [(&str, usize); 5] = [
    ("select a from r where a = 1", 63),
    ("select b from r where a = 1", 62),
    ("select a from r, s where a = 1", 61),
    ("select a from r, s where a = c and a = 1", 60),
    ("select a from r where a = 1 and a = 1", 62),
];

// What a query is bound to, or its refusal, with so many conditions behind its front.
fn repeated(alloc: Global, front: &str, more: usize) -> Result<String, Fail> {
    let schema = schema_of(alloc, THREE_TABLES)?;
    let mut text = String::from_str(alloc, front)?;
    for _ in 0..more {
        text.push_str(" and a = 1")?;
    }
    if text.len() > 10_000 {
        return Ok(text);
    }
    told(alloc, text.as_str(), &schema)
}

// With one condition more a plan has 65 nodes, and the query is refused.
fn check_plans(rt: &impl Abort, alloc: Global, rows: &[(&str, usize)]) -> Result<(), Fail> {
    let refused = "query refused: code 21 at byte 0";
    for (front, most) in rows {
        let most = (*most).min(64);
        let largest = repeated(alloc, front, most.saturating_sub(1))?;
        assert!(rt; largest.as_str().contains(" from 0"), "{front}");
        let larger = repeated(alloc, front, most)?;
        assert_eq!(rt; larger.as_str(), refused, "{front}");
    }
    Ok(())
}

#[test]
fn plans_are_small(rt: HostRuntime) -> Result<(), Fail> {
    check_plans(&rt, rt.alloc(), &LARGEST)
}
