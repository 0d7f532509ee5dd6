//! Plans of queries, worked out by hand from docs/FORMATS.md, "Plan".
ghost use Rattle.std.specs.Prelude.{◌≤◌};

use crate::told::{facts_of, planned, schema, told_facts, told_plan};
use mq_base::NodeId;
use plan_algebra::Kind;
use std::alloc::Global;
use std::test::Fail;

// Queries of one table.
const ONE_TABLE: [(&str, &str); 9] = [
    ("select a from r", "r{a}"),
    ("select b, a, b from r", "r{ab}"),
    ("select a from r where b = 1", "r{ab}; [b Eq 1] 0; {a} 1"),
    ("select a from r where a > -5", "r{a}; [a Gt -5] 0"),
    (
        "select a from r where b = 1 and a < 5 and b <> a",
        "r{ab}; [b Eq 1] 0; [a Lt 5] 1; [b Ne a] 2; {a} 3",
    ),
    (
        "select a, b from r where b >= a and a = 1 and b <= 7",
        "r{ab}; [b Ge a] 0; [a Eq 1] 1; [b Le 7] 2",
    ),
    (
        "select a from r where a = 1 and a = 1",
        "r{a}; [a Eq 1] 0; [a Eq 1] 1",
    ),
    (
        "select g from u where h = 'x' and g = 0",
        "u{gh}; [h Eq text [120]] 0; [g Eq 0] 1; {g} 2",
    ),
    ("select h from u", "u{h}"),
];

// Every operator as it is written, and turned round where the further table stands on the left.
const JOINED: [(&str, &str); 12] = [
    (
        "select a, c from r, s where a = c",
        "r{a}; s{c}; join [a Eq c] 0 1",
    ),
    (
        "select a, c from r, s where a <> c",
        "r{a}; s{c}; join [a Ne c] 0 1",
    ),
    (
        "select a, c from r, s where a < c",
        "r{a}; s{c}; join [a Lt c] 0 1",
    ),
    (
        "select a, c from r, s where a <= c",
        "r{a}; s{c}; join [a Le c] 0 1",
    ),
    (
        "select a, c from r, s where a > c",
        "r{a}; s{c}; join [a Gt c] 0 1",
    ),
    (
        "select a, c from r, s where a >= c",
        "r{a}; s{c}; join [a Ge c] 0 1",
    ),
    (
        "select a, c from r, s where c = a",
        "r{a}; s{c}; join [a Eq c] 0 1",
    ),
    (
        "select a, c from r, s where c <> a",
        "r{a}; s{c}; join [a Ne c] 0 1",
    ),
    (
        "select a, c from r, s where c < a",
        "r{a}; s{c}; join [a Gt c] 0 1",
    ),
    (
        "select a, c from r, s where c <= a",
        "r{a}; s{c}; join [a Ge c] 0 1",
    ),
    (
        "select a, c from r, s where c > a",
        "r{a}; s{c}; join [a Lt c] 0 1",
    ),
    (
        "select a, c from s, r where a >= c",
        "s{c}; r{a}; join [c Le a] 0 1",
    ),
];

// Several tables.
const TABLES: [(&str, &str); 10] = [
    ("select a, c from r, s", "r{a}; s{c}; times 0 1"),
    ("select a from r, s", "r{a}; s{}; times 0 1"),
    (
        "select a, c from r, s where a = c and d >= b",
        "r{ab}; s{cd}; join [a Eq c] 0 1; [d Ge b] 2; {ac} 3",
    ),
    (
        "select a, c from r, s where d > b and a = c and c < a",
        "r{ab}; s{cd}; join [b Lt d] 0 1; [a Eq c] 2; [c Lt a] 3; {ac} 4",
    ),
    (
        "select a, c from r, s where d = 1 and b = 2 and c > 3 and a = c",
        "r{ab}; [b Eq 2] 0; s{cd}; [d Eq 1] 2; [c Gt 3] 3; join [a Eq c] 1 4; {ac} 5",
    ),
    (
        "select a, e from r join s on a = e join t on c = f",
        "r{a}; s{c}; times 0 1; t{ef}; join [a Eq e] 2 3; [c Eq f] 4; {ae} 5",
    ),
    (
        "select a, f from r join s on b = 3 and a = c join t on e = b where f < d",
        "r{ab}; [b Eq 3] 0; s{cd}; join [a Eq c] 1 2; t{ef}; join [b Eq e] 3 4; [f Lt d] 5; {af} 6",
    ),
    (
        "select c, a, e from s, r, t where a <> e and e <> c",
        "s{c}; r{a}; times 0 1; t{e}; join [a Ne e] 2 3; [e Ne c] 4",
    ),
    (
        "select a from r, s, t, u, v, w, x, y",
        "r{a}; s{}; times 0 1; t{}; times 2 3; u{}; times 4 5; v{}; times 6 7; w{}; times 8 9; x{}; times 10 11; y{}; times 12 13",
    ),
    (
        "select a, l from r, s, t, u, v, w, x, y where a = c and d = e and f = g and g = i and i = j and j = k and k = l",
        "r{a}; s{cd}; join [a Eq c] 0 1; t{ef}; join [d Eq e] 2 3; u{g}; join [f Eq g] 4 5; v{i}; join [g Eq i] 6 7; w{j}; join [i Eq j] 8 9; x{k}; join [j Eq k] 10 11; y{l}; join [k Eq l] 12 13; {al} 14",
    ),
];

// Groups, with and without the last projection.
const GROUPED: [(&str, &str); 10] = [
    ("select a from r group by a", "r{a}; by{a} 0"),
    ("select a from r group by a, b", "r{ab}; by{ab} 0; {a} 1"),
    ("select a, sum(b) from r group by a", "r{ab}; by{a} Sum b 0"),
    (
        "select max(b) from r group by a",
        "r{ab}; by{a} Max b 0; {b} 1",
    ),
    ("select count(*), a from r group by a", "r{a}; by{a} # 0"),
    ("select count(*) from r group by a", "r{a}; by{a} # 0; {} 1"),
    (
        "select a, count(*) from r group by a, b having count(*) > 1",
        "r{ab}; by{ab} # 0; [# Gt 1] 1; {a} 2",
    ),
    (
        "select a from r group by a having max(b) < 7 and count(*) >= 2 and max(b) <> -1",
        "r{ab}; by{a} Max b # 0; [b Lt 7] 1; [# Ge 2] 2; [b Ne -1] 3; {a} 4",
    ),
    (
        "select c, count(*) from r, s group by c having count(*) <= 3",
        "r{}; s{c}; times 0 1; by{c} # 2; [# Le 3] 3",
    ),
    (
        "select b, sum(d) from r join s on a = c where b = 1 group by b having sum(d) > 100",
        "r{ab}; [b Eq 1] 0; s{cd}; join [a Eq c] 1 2; by{b} Sum d 3; [d Gt 100] 4",
    ),
];

// The facts of the nodes: what each has, the sets that comparisons made, and the count.
const FACTS: [(&str, &str); 6] = [
    ("select a from r where b = 1", "{ab}; {ab}; {a}"),
    (
        "select a, c from r, s where d > b and a = c and c < a",
        "{ab}; {cd}; {abcd} ={bd}; {abcd} ={ac}{bd}; {abcd} ={ac}{bd}; {ac} ={ac}{bd}",
    ),
    (
        "select a, e from r join s on a = e join t on c = f where e = c",
        "{a}; {c}; {ac}; {ef}; {acef} ={ae}; {acef} ={ae}{cf}; {acef} ={acef}; {ae} ={acef}",
    ),
    (
        "select e, f, a, b from t, r where a < b and f >= e",
        "{ef}; {ef} ={ef}; {ab}; {ab} ={ab}; {abef} ={ab}{ef}",
    ),
    (
        "select a, count(*) from r where a <> b group by a, b having count(*) > 1",
        "{ab}; {ab} ={ab}; {ab} ={ab} #; {ab} ={ab} #; {a} ={ab} #",
    ),
    (
        "select b, sum(d) from r join s on a = c group by b",
        "{ab}; {cd}; {abcd} ={ac}; {bd} ={ac}",
    ),
];

fn check_plan(
    rt: &impl std::process::Abort,
    alloc: Global,
    text: &str,
    want: &str,
) -> Result<(), Fail> {
    let schema = schema(alloc)?;
    assert!(rt; text.len() < 1000);
    let plan = planned(alloc, text, &schema)?;
    let line = told_plan(alloc, &plan)?;
    assert_eq!(rt; line.as_str(), want, "of {text:?}");
    Ok(())
}

#[test]
fn one_table_is_kept_by_its_conditions(rt: HostRuntime) -> Result<(), Fail> {
    for (text, want) in ONE_TABLE {
        check_plan(&rt, rt.alloc(), text, want)?;
    }
    Ok(())
}

#[test]
fn a_join_has_the_earlier_table_on_its_left(rt: HostRuntime) -> Result<(), Fail> {
    for (text, want) in JOINED {
        check_plan(&rt, rt.alloc(), text, want)?;
    }
    Ok(())
}

#[test]
fn tables_are_joined_in_their_order(rt: HostRuntime) -> Result<(), Fail> {
    for (text, want) in TABLES {
        check_plan(&rt, rt.alloc(), text, want)?;
    }
    Ok(())
}

#[test]
fn groups_come_after_tables(rt: HostRuntime) -> Result<(), Fail> {
    for (text, want) in GROUPED {
        check_plan(&rt, rt.alloc(), text, want)?;
    }
    Ok(())
}

// A query of one table with this many conditions.
fn long_query(alloc: Global, conditions: usize) -> Result<String, Fail>
    requires { conditions ≤ 100 }
{
    let mut text = String::new(alloc);
    text.push_str("select a from r where a = 0")?;
    for _ in 1..conditions {
        text.push_str(" and a = 1")?;
    }
    Ok(text)
}

#[test]
fn the_longest_plan_has_64_nodes(rt: HostRuntime) -> Result<(), Fail> {
    let alloc = rt.alloc();
    let text = long_query(alloc, 63)?;
    assert!(rt; text.len() < 10000);
    let schema = schema(alloc)?;
    let facts = facts_of(alloc, text.as_str(), &schema)?;
    assert_eq!(rt; facts.node_count(), 64);
    assert!(rt; matches!(facts.kind(NodeId(63)), Kind::One(NodeId(62))));
    let line = told_plan(alloc, &facts.plan)?;
    assert!(rt;
        line.as_str()
            .starts_with("r{a}; [a Eq 0] 0; [a Eq 1] 1; [a Eq 1] 2; ")
    );
    assert!(rt; line.as_str().ends_with("; [a Eq 1] 62"));
    Ok(())
}

#[test]
fn each_node_has_its_facts(rt: HostRuntime) -> Result<(), Fail> {
    let alloc = rt.alloc();
    let schema = schema(alloc)?;
    for (text, want) in FACTS {
        assert!(rt; text.len() < 1000);
        let facts = facts_of(alloc, text, &schema)?;
        let line = told_facts(alloc, &facts)?;
        assert_eq!(rt; line.as_str(), want, "of {text:?}");
    }
    Ok(())
}

#[test]
fn a_plan_tells_what_it_uses(rt: HostRuntime) -> Result<(), Fail> {
    let alloc = rt.alloc();
    let schema = schema(alloc)?;
    let facts = facts_of(alloc, "select d from r, s where a = c group by d", &schema)?;
    assert_eq!(rt; facts.used().0, 0b1101);
    assert_eq!(rt; facts.attribute_count(), 3);
    assert!(rt; facts.node_count() > 2);
    assert!(rt; matches!(facts.kind(NodeId(0)), Kind::Leaf));
    assert!(rt; matches!(facts.kind(NodeId(2)), Kind::Two(NodeId(0), NodeId(1))));
    Ok(())
}
