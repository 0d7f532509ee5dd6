//! Plans and facts in one line, each attribute by its letter, so that a test can write them out.
ghost use Rattle.std.specs.Prelude.{◌<◌, ◌≤◌, length, IfOk};
ghost use Rattle.mq_base.specs.Schema.{IsSchema};

use key_clusters::Clusters;
use mq_base::{Agg, AttrId, AttrSet, NodeId, Plan, PlanNode, PlanOp, Schema, TableId, Value};
use plan_algebra::{PlanFacts, plan_of};
use policy_reader::read_policy;
use query_bind::bind;
use sql_reader::read_query;
use std::alloc::Global;
use std::fmt::Write;
use std::test::Fail;

/// O owns r(a, b), s(c, d), t(e, f), u(g, h), v(i), w(j), x(k) and y(l), of which h alone is a TEXT.
const POLICY: &str = "version = 1\nuser = 'U'\nsubjects = ['O', 'U']\n\
[[table]]\nname = 'r'\nowner = 'O'\ncolumns = [{name = 'a', type = 'INT'}, {name = 'b', type = 'INT'}]\n\
[[table]]\nname = 's'\nowner = 'O'\ncolumns = [{name = 'c', type = 'INT'}, {name = 'd', type = 'INT'}]\n\
[[table]]\nname = 't'\nowner = 'O'\ncolumns = [{name = 'e', type = 'INT'}, {name = 'f', type = 'INT'}]\n\
[[table]]\nname = 'u'\nowner = 'O'\ncolumns = [{name = 'g', type = 'INT'}, {name = 'h', type = 'TEXT'}]\n\
[[table]]\nname = 'v'\nowner = 'O'\ncolumns = [{name = 'i', type = 'INT'}]\n\
[[table]]\nname = 'w'\nowner = 'O'\ncolumns = [{name = 'j', type = 'INT'}]\n\
[[table]]\nname = 'x'\nowner = 'O'\ncolumns = [{name = 'k', type = 'INT'}]\n\
[[table]]\nname = 'y'\nowner = 'O'\ncolumns = [{name = 'l', type = 'INT'}]\n";

/// The schema of the eight tables.
pub(crate) fn schema(alloc: Global) -> Result<Schema, Fail>
    ensures { IfOk result IsSchema }
{
    let policy = read_policy(alloc, POLICY.as_bytes())?;
    Ok(policy.schema)
}

/// The plan of a query over this schema.
pub(crate) fn planned(alloc: Global, text: &str, schema: &Schema) -> Result<Plan, Fail>
    requires short { length text.now ≤ 67108864 }
    requires schema { IsSchema schema.now }
{
    let raw = read_query(alloc, text)?;
    let query = bind(alloc, &raw, schema)?;
    Ok(plan_of(alloc, &query, schema)?)
}

/// The facts of the plan of a query over this schema.
pub(crate) fn facts_of(alloc: Global, text: &str, schema: &Schema) -> Result<PlanFacts, Fail>
    requires short { length text.now ≤ 67108864 }
    requires schema { IsSchema schema.now }
{
    let raw = read_query(alloc, text)?;
    let query = bind(alloc, &raw, schema)?;
    let plan = plan_of(alloc, &query, schema)?;
    match PlanFacts::of(alloc, plan) {
        Ok(facts) => Ok(facts),
        Err((_, no_memory)) => Err(Fail::from(no_memory)),
    }
}

fn letter(a: AttrId) -> char {
    char::from(a.0.wrapping_add(b'a'))
}

fn tell_set(line: &mut String, set: AttrSet) -> Result<(), Fail> {
    line.push_str("{")?;
    for a in 0..64u8 {
        if set.has(AttrId(a)) {
            line.push(letter(AttrId(a)))?;
        }
    }
    line.push_str("}")?;
    Ok(())
}

fn table_name(t: TableId) -> &'static str {
    match t.0 {
        0 => "r",
        1 => "s",
        2 => "t",
        3 => "u",
        4 => "v",
        5 => "w",
        6 => "x",
        7 => "y",
        _ => "none",
    }
}

fn tell_value(line: &mut String, value: &Value) -> Result<(), Fail> {
    match value {
        Value::Int(number) => write!(line, "{number}")?,
        Value::Text(text) => write!(line, "text {:?}", text.as_bytes())?,
    }
    Ok(())
}

fn tell_group(
    line: &mut String,
    by: AttrSet,
    aggs: &[(AttrId, Agg)],
    count: bool,
) -> Result<(), Fail> {
    line.push_str("by")?;
    tell_set(line, by)?;
    for (a, func) in aggs {
        write!(line, " {func:?} {}", letter(*a))?;
    }
    if count {
        line.push_str(" #")?;
    }
    Ok(())
}

// An operation: a table with its attributes, the attributes that are kept, a comparison in brackets, `times` for a
// product, and a group with its functions and `#` for its count.
fn tell_operation(line: &mut String, op: &PlanOp) -> Result<(), Fail> {
    match op {
        PlanOp::Base(t, used) => {
            line.push_str(table_name(*t))?;
            tell_set(line, *used)?;
        }
        PlanOp::Project(kept) => tell_set(line, *kept)?,
        PlanOp::SelConst(a, cmp, value) => {
            write!(line, "[{} {cmp:?} ", letter(*a))?;
            tell_value(line, value)?;
            line.push_str("]")?;
        }
        PlanOp::SelCount(cmp, n) => write!(line, "[# {cmp:?} {n}]")?,
        PlanOp::SelAttr(a, cmp, b) => write!(line, "[{} {cmp:?} {}]", letter(*a), letter(*b))?,
        PlanOp::Product => line.push_str("times")?,
        PlanOp::Join(a, cmp, b) => write!(line, "join [{} {cmp:?} {}]", letter(*a), letter(*b))?,
        PlanOp::Group(by, aggs, count) => tell_group(line, *by, aggs.as_slice(), *count)?,
    }
    Ok(())
}

fn tell_operand(line: &mut String, operand: &Option<NodeId>) -> Result<(), Fail> {
    if let Some(n) = operand {
        write!(line, " {}", n.0)?;
    }
    Ok(())
}

fn tell_node(line: &mut String, node: &PlanNode) -> Result<(), Fail> {
    tell_operation(line, &node.op)?;
    tell_operand(line, &node.left)?;
    tell_operand(line, &node.right)
}

/// The nodes of a plan: each operation with the numbers of its operands.
pub(crate) fn told_plan(alloc: Global, plan: &Plan) -> Result<String, Fail> {
    let mut line = String::new(alloc);
    for node in plan.nodes.as_slice() {
        if !line.is_empty() {
            line.push_str("; ")?;
        }
        tell_node(&mut line, node)?;
    }
    Ok(line)
}

/// The facts of a plan's nodes: what each has, `=` and its sets, and `#` for the count.
pub(crate) fn told_facts(alloc: Global, facts: &PlanFacts) -> Result<String, Fail> {
    let mut line = String::new(alloc);
    for n in 0..facts.node_count() {
        if !line.is_empty() {
            line.push_str("; ")?;
        }
        tell_facts(&mut line, facts, NodeId(n as u8))?;
    }
    Ok(line)
}

fn tell_facts(line: &mut String, facts: &PlanFacts, n: NodeId) -> Result<(), Fail>
    requires { n.0 < length facts.now.plan.nodes }
{
    tell_set(line, facts.visible(n))?;
    for (at, set) in facts.equivalent(n).iter().enumerate() {
        if at == 0 {
            line.push_str(" =")?;
        }
        tell_set(line, *set)?;
    }
    if facts.counts(n) {
        line.push_str(" #")?;
    }
    Ok(())
}

/// The cluster and the scheme of each of the first six attributes.
pub(crate) fn told_clusters(alloc: Global, clusters: &Clusters) -> Result<String, Fail> {
    let mut line = String::new(alloc);
    for a in 0..6u8 {
        if !line.is_empty() {
            line.push_str(" ")?;
        }
        let cluster = clusters.cluster_of(AttrId(a));
        write!(
            line,
            "{}{:?}",
            letter(cluster),
            clusters.scheme_of(AttrId(a))
        )?;
    }
    Ok(line)
}
