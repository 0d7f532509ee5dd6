//! Queries as they are printed, and refusals in words.
ghost use Rattle.std.specs.Prelude.{◌≤◌, length};

use mq_base::{NoMemory, Text};
use query_bind::{BindCode, BindNo};
use query_print::print_query;
use sql_reader::{SqlNo, read_query};
use std::alloc::Global;
use std::process::Abort;
use std::test::Fail;

// Texts, and how what they read as is printed.
const QUERIES: [(&str, &str); 4] = [
    (
        "select a from r where b='it''s';",
        "SELECT a FROM r WHERE b = 'it''s'",
    ),
    (
        "SELECT T, SUM(P) FROM Hosp JOIN Ins ON S = C WHERE D = 'stroke' GROUP BY T HAVING SUM(P) > 100",
        "SELECT T, SUM(P) FROM Hosp JOIN Ins ON S = C WHERE D = 'stroke' GROUP BY T HAVING SUM(P) > 100",
    ),
    (
        "select r . a,COUNT( * ) ,sum ( d )from r,s where a!=007 group by r.a,b having count(*)>=-1 And Max(d)<0;",
        "SELECT r.a, COUNT(*), SUM(d) FROM r, s WHERE a <> 7 GROUP BY r.a, b HAVING COUNT(*) >= -1 AND MAX(d) < 0",
    ),
    (
        "select r.a, sum(r.a), max(b), count(*) from r, s join t on r.a = t.a and b != '' where t.a > -9223372036854775808 and b<0 group by r.a, b having min(b)>=-7 and count(*)<=9223372036854775807",
        "SELECT r.a, SUM(r.a), MAX(b), COUNT(*) FROM r, s JOIN t ON r.a = t.a AND b <> '' WHERE t.a > -9223372036854775808 AND b < 0 GROUP BY r.a, b HAVING MIN(b) >= -7 AND COUNT(*) <= 9223372036854775807",
    ),
];

// What a text reads as, printed; or nothing, where it is no query.
fn printed(alloc: Global, text: &str) -> Result<Text, NoMemory>
    requires { length text.now ≤ 67108864 }
{
    match read_query(alloc, text) {
        Ok(raw) => print_query(alloc, &raw),
        Err(_) => Text::copied(alloc, b""),
    }
}

fn check(rt: &impl Abort, alloc: Global, rows: &[(&str, &str)]) -> Result<(), NoMemory> {
    for (text, want) in rows {
        assert!(rt; text.len() < 1000);
        assert!(rt;
            printed(alloc, text)?.as_bytes() == want.as_bytes(),
            "{text}"
        );
    }
    Ok(())
}

#[test]
fn queries_are_printed(rt: HostRuntime) -> Result<(), Fail> {
    check(&rt, rt.alloc(), &QUERIES)?;
    Ok(())
}

// Refusals by the grammar, and their words.
const REFUSALS: [(SqlNo, &str); 5] = [
    (SqlNo::BadChar { at: 3 }, "no token begins at byte 3"),
    (
        SqlNo::OpenText { at: 4 },
        "the text at byte 4 has no closing quote",
    ),
    (SqlNo::Unexpected { at: 5 }, "no query goes on at byte 5"),
    (
        SqlNo::NumberRange { at: 6 },
        "the number at byte 6 is outside 64 bits",
    ),
    (SqlNo::NoMemory, "no memory"),
];

fn check_words(rt: &impl Abort, alloc: Global, rows: &[(SqlNo, &str)]) -> Result<(), Fail> {
    for (refusal, words) in rows {
        assert_eq!(rt; refusal.to_string(alloc)?.as_str(), *words);
    }
    Ok(())
}

#[test]
fn refusals_have_their_words(rt: HostRuntime) -> Result<(), Fail> {
    let alloc = rt.alloc();
    check_words(&rt, alloc, &REFUSALS)?;
    let refusal = BindNo::Refused {
        code: BindCode::SameAttribute,
        at: 7,
    };
    assert_eq!(rt;
        refusal.to_string(alloc)?.as_str(),
        "query refused: code 22 at byte 7"
    );
    assert_eq!(rt; BindNo::NoMemory.to_string(alloc)?.as_str(), "no memory");
    Ok(())
}
