//! Texts that are refused as queries, by the readers in turn: the tokens, the grammar, and the names of a schema.
ghost use Rattle.std.specs.Prelude.{◌≤◌, length};
ghost use Rattle.mq_base.specs.Schema.{IsSchema};

use crate::refusals::{ACCEPTED, Places, places_of};
use crate::schemas::{THREE_TABLES, schema_of};
use mq_base::Schema;
use query_bind::bind;
use sql_reader::read_query;
use std::alloc::Global;
use std::process::Abort;
use std::test::Fail;

// The refusal of a text, and zeros where it is bound.
fn refusal(alloc: Global, text: &str, schema: &Schema) -> Places
    requires short { length text.now ≤ 67108864 }
    requires schema { IsSchema schema.now }
{
    match read_query(alloc, text) {
        Ok(raw) => match bind(alloc, &raw, schema) {
            Ok(_) => ACCEPTED,
            Err(no) => places_of(&no),
        },
        Err(no) => places_of(&no),
    }
}

// Each text of the rows is refused with its code, at its place.
fn check(rt: &impl Abort, alloc: Global, rows: &[(&str, u16, u64)]) -> Result<(), Fail> {
    let schema = schema_of(alloc, THREE_TABLES)?;
    for (text, code, at) in rows {
        assert!(rt; text.len() < 1000);
        assert_eq!(rt; refusal(alloc, text, &schema), (*code, *at, 0), "{text}");
    }
    Ok(())
}

// Texts without tokens: the number of the refusal and its place.
const TOKENS: [(&str, u16, u64); 19] = [
    ("\"select a from r", 1, 0),
    ("select a from r #", 1, 16),
    ("select a from r where a = -", 1, 26),
    ("select a from r where a = - 5", 1, 26),
    ("select a from r where a ! = 5", 1, 24),
    ("from #", 1, 5),
    ("select a from r where a = 99999999999999999999 #", 1, 47),
    ("#", 1, 0),
    ("from \"", 1, 5),
    (
        "select a from r where a = 9223372036854775808 where #",
        1,
        52,
    ),
    ("select a from r where a = \"x\"", 1, 26),
    ("select a from r where a = - 1", 1, 26),
    ("'", 2, 0),
    ("select a from r where b = 'x", 2, 26),
    ("select a from r where b = 'it''s", 2, 26),
    ("select a from r where b = 'x''", 2, 26),
    ("from '", 2, 5),
    ("'a''b", 2, 0),
    ("select a from r; where '", 2, 23),
];

// Texts whose tokens are no query.
const GRAMMAR: [(&str, u16, u64); 58] = [
    ("", 3, 0),
    ("from", 3, 0),
    ("select", 3, 6),
    ("select from r", 3, 7),
    ("select a", 3, 8),
    ("select a b from r", 3, 9),
    ("select a, from r", 3, 10),
    ("select a from", 3, 13),
    ("select a from select", 3, 14),
    ("select a from r where", 3, 21),
    ("select a from r where a", 3, 23),
    ("select a from r where a =", 3, 25),
    ("select a from r where a = =1", 3, 26),
    ("select a from r where a = 1 b", 3, 28),
    ("select a from r where a = 1 and", 3, 31),
    ("select a from r where 1 = a", 3, 22),
    ("select a from r group", 3, 21),
    ("select a from r group a", 3, 22),
    ("select a from r group by a b", 3, 27),
    ("select a from r group by a having", 3, 33),
    ("select a from r group by a having a = 1", 3, 34),
    ("select a from r group by a having min(b) = c", 3, 43),
    ("select a from r having count(*) = 1", 3, 16),
    ("select sum from r", 3, 11),
    ("select sum(*) from r", 3, 11),
    ("select count(a) from r", 3, 13),
    ("select sum(a from r", 3, 13),
    ("select * from r", 3, 7),
    ("select a from r join s", 3, 22),
    ("select a from r join s where a = c", 3, 23),
    ("select a from r, s on a = c", 3, 19),
    ("select a from r; ;", 3, 17),
    ("select a from r; where a = 1", 3, 17),
    ("select a ; from r", 3, 9),
    ("select r. from r", 3, 10),
    ("select r.a .b from r", 3, 11),
    ("select a from r where a = 99999999999999999999 b", 3, 47),
    ("selecta from r", 3, 0),
    ("9223372036854775808", 3, 0),
    ("select from from r", 3, 7),
    ("select count", 3, 12),
    ("select sum a from r", 3, 11),
    ("select a.from from r", 3, 9),
    ("select a.b.c from r", 3, 10),
    ("select a from where", 3, 14),
    ("select a from r, join s", 3, 17),
    ("select a from r join s where a = b", 3, 23),
    ("select a from r on a = b", 3, 16),
    ("select a from r where a ", 3, 24),
    ("select a from r where a = = b", 3, 26),
    ("select a from r where a = b, s", 3, 27),
    ("select a from r where a = b and", 3, 31),
    ("select a from r where a = 9223372036854775808 where", 3, 46),
    ("select a from r group by a having b = 1", 3, 34),
    ("select a from r group by a having sum(a) = b", 3, 43),
    ("select a from r group by a where a = 1", 3, 27),
    ("select a from r; where", 3, 17),
    ("select a from r ; ;", 3, 18),
];

// Queries with a number outside 64 bits.
const NUMBERS: [(&str, u16, u64); 9] = [
    ("select a from r where a = 9223372036854775808", 4, 26),
    ("select a from r where a = -9223372036854775809", 4, 26),
    (
        "select a from r where a = 111111111111111111111111111111111111111111111111111111111111",
        4,
        26,
    ),
    (
        "select a from r where a = 9223372036854775808 and a = -9223372036854775809",
        4,
        26,
    ),
    ("select z from y where z = 9223372036854775808", 4, 26),
    (
        "select a from r group by a having count(*) > 9223372036854775808",
        4,
        45,
    ),
    (
        "select a from r where a = -9223372036854775809 and b = 9223372036854775808",
        4,
        26,
    ),
    (
        "select a from r where a = 123456789012345678901234567890123456789012345678901234567890",
        4,
        26,
    ),
    (
        "select a from r group by a having count(*) = 1 and sum(b) = 9223372036854775808;",
        4,
        60,
    ),
];

// Queries without groups that do not bind: their tables, columns and conditions.
const UNBOUND: [(&str, u16, u64); 34] = [
    ("select a from z", 11, 14),
    ("select a from r, z", 11, 17),
    ("select a from r join z on a = c", 11, 21),
    ("select z from y", 11, 14),
    ("select z.a from r", 11, 7),
    ("select s.c from r", 11, 7),
    ("select a from q", 11, 14),
    ("select z from r, q", 11, 17),
    ("select q.a from r", 11, 7),
    ("select s.z from r", 11, 7),
    ("select a from r, r", 12, 17),
    ("select a from r, s, r", 12, 20),
    ("select a from r join r on a = b", 12, 21),
    ("select z from r", 13, 7),
    ("select r.z from r", 13, 7),
    ("select a, z, y from r", 13, 10),
    ("select z from r join s on y = c", 13, 7),
    ("select a from r join s on y = c where z = 1", 13, 26),
    ("select a from r where a = z", 13, 26),
    ("select a, z from r where c = 1", 13, 10),
    ("select a from r join s on c = z where y = 1", 13, 30),
    ("select sum(z) from r", 13, 11),
    ("select c from r", 14, 7),
    ("select r.c from r, s", 14, 7),
    ("select a from r where b = 1", 15, 22),
    ("select a from r where a = 'x'", 15, 22),
    ("select a from r where a = b", 15, 22),
    ("select a from r where b = 1 and a = a", 15, 22),
    ("select a, max(b) from r where b = 1", 15, 30),
    (
        "select a from r where b = 'xxxxxxxxxxxxxxxxxxxxxxxxxxxxxxxxxxxxxxxxxxxxxxxxxxxxxxxxxxxxxxxxxxxxxxxxxxxxxxxxxxxxxxxxxxxxxxxxxxxxxxxxxxxxxxxxxxxxxxxxx'",
        16,
        22,
    ),
    (
        "select a from r where b = '''xxxxxxxxxxxxxxxxxxxxxxxxxxxxxxxxxxxxxxxxxxxxxxxxxxxxxxxxxxxxxxxxxxxxxxxxxxxxxxxxxxxxxxxxxxxxxxxxxxxxxxxxxxxxxxxxxxxxxxxx'",
        16,
        22,
    ),
    ("select a from r where a = a", 22, 22),
    ("select a from r where a = r.a", 22, 22),
    ("select a from r where a = 1 and a = a", 22, 32),
];

// Queries that do not bind, with functions or groups.
const GROUPS: [(&str, u16, u64); 24] = [
    ("select a from r group by z having sum(y) > 1", 13, 25),
    ("select b from r group by b having sum(y) > 1", 13, 38),
    ("select z, a from r group by b", 13, 7),
    ("select a from r group by a having sum(z) = 1", 13, 38),
    ("select a from r where c = 1 group by z", 14, 22),
    ("select sum(b) from r group by a", 15, 7),
    ("select a from r group by a having max(b) > 1", 15, 34),
    ("select a from r group by a having count(*) > 'x'", 15, 34),
    (
        "select a from r group by a having count(*) > 'xxxxxxxxxxxxxxxxxxxxxxxxxxxxxxxxxxxxxxxxxxxxxxxxxxxxxxxxxxxxxxxxxxxxxxxxxxxxxxxxxxxxxxxxxxxxxxxxxxxxxxxxxxxxxxxxxxxxxxxxx'",
        15,
        34,
    ),
    (
        "select min(a) from r group by b having min(a) = 'x'",
        15,
        39,
    ),
    ("select b from r group by b having count(*) = 'x'", 15, 34),
    (
        "select a from r group by a having max(b) = 'xxxxxxxxxxxxxxxxxxxxxxxxxxxxxxxxxxxxxxxxxxxxxxxxxxxxxxxxxxxxxxxxxxxxxxxxxxxxxxxxxxxxxxxxxxxxxxxxxxxxxxxxxxxxxxxxxxxxxxxxx'",
        16,
        34,
    ),
    ("select a from r group by b", 17, 7),
    ("select sum(b), a from r group by b", 17, 15),
    ("select b, a from r group by b", 17, 10),
    ("select sum(a) from r group by a", 18, 7),
    ("select a from r group by a having min(a) > 1", 18, 34),
    (
        "select min(a) from r group by b having sum(b) = 'x'",
        18,
        39,
    ),
    ("select min(b), max(b) from r group by a", 19, 15),
    (
        "select min(b) from r group by a having max(b) > 'x'",
        19,
        39,
    ),
    ("select min(a), max(a) from r group by b", 19, 15),
    ("select min(a) from r group by b having max(a) = 1", 19, 39),
    ("select sum(a) from r", 20, 7),
    ("select a, count(*) from r", 20, 10),
];

#[test]
fn queries_have_tokens(rt: HostRuntime) -> Result<(), Fail> {
    check(&rt, rt.alloc(), &TOKENS)
}

#[test]
fn queries_have_the_grammar(rt: HostRuntime) -> Result<(), Fail> {
    check(&rt, rt.alloc(), &GRAMMAR)
}

#[test]
fn numbers_are_in_range(rt: HostRuntime) -> Result<(), Fail> {
    check(&rt, rt.alloc(), &NUMBERS)
}

#[test]
fn queries_bind(rt: HostRuntime) -> Result<(), Fail> {
    check(&rt, rt.alloc(), &UNBOUND)
}

#[test]
fn groups_bind(rt: HostRuntime) -> Result<(), Fail> {
    check(&rt, rt.alloc(), &GROUPS)
}
