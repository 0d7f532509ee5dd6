ghost use Rattle.std.specs.Prelude.{◌≡◌, ◌≤◌, true, ℕ, List, ◌++◌, codes, drop, length, map, option_map, All, IsUtf8, OnOk, IfOk};
ghost use Rattle.std.specs.Fmt.{signed_decimal};
ghost use Rattle.std.specs.String.{string_bytes};
ghost use Rattle.base_laws.specs.Ranges.{fits_64_bits};
ghost use Rattle.sql_reader.specs.Syntax.{column_of, literal_of, side_of, condition_of, item_of, source_of, having_of, query_of};
ghost use Rattle.sql_reader.specs.Syntax as syntax;
ghost use Rattle.query_print.specs.Spelling as spelling;
ghost use Rattle.sql_reader.specs.Writable.{IsWritable};
ghost use Rattle.query_print.specs.Placeless.{ReadsBack};
ghost use Rattle.query_print.specs.inside.PrintParts.{followed, clause_text, IsInRange, IsSideInRange, IsConditionInRange, IsSourceInRange, IsHavingInRange, IsQueryInRange};

use mq_base::{Agg, CmpOp, NoMemory, Text};
use sql_reader::{RawCol, RawCond, RawHaving, RawItem, RawLit, RawQuery, RawSide, RawSource};
use std::alloc::Global;

// A part of a query, which can be written at the end of a text.
trait Part {
    // Its canonical spelling.
    ghost spelled: { Self → List ℕ };

    // Each number in it is within 64 bits.
    ghost in_range: { Self → Type 0 };

    fn put(&self, out: &mut String) -> Result<(), NoMemory>
        ensures written { OnOk result (string_bytes out.new ≡ string_bytes out.old ++ spelled self.now) }
        ensures range { OnOk result (in_range self.now) };
}

// The spelling of a comparison.
fn op_text(op: CmpOp) -> &'static str
    ensures { result.now ≡ spelling.op_text op }
{
    match op {
        CmpOp::Eq => "=",
        CmpOp::Ne => "<>",
        CmpOp::Lt => "<",
        CmpOp::Le => "<=",
        CmpOp::Gt => ">",
        CmpOp::Ge => ">=",
    }
}

// The spelling of a function.
fn function_text(func: Agg) -> &'static str
    ensures { result.now ≡ spelling.function_text func }
{
    match func {
        Agg::Sum => "SUM",
        Agg::Min => "MIN",
        Agg::Max => "MAX",
    }
}

// Writes the table before a column's name, with its dot.
fn put_qualifier(out: &mut String, table: Option<&str>) -> Result<(), NoMemory>
    ensures { OnOk result (string_bytes out.new
        ≡ string_bytes out.old ++ spelling.qualifier_text (option_map (λ t. t.now) table.entry)) }
{
    if let Some(table) = table {
        out.push_str(table)?;
        out.push_str(".")?;
    }
    Ok(())
}

impl Part for RawCol<'_> {
    ghost spelled = { λ c. spelling.column_text (column_of c) };

    ghost in_range = { λ c. Unit {0} };

    fn put(&self, out: &mut String) -> Result<(), NoMemory> {
        put_qualifier(out, self.table)?;
        out.push_str(self.name)?;
        Ok(())
    }
}

// Writes a number, which is within 64 bits as its type is.
fn put_number(out: &mut String, value: i64) -> Result<(), NoMemory>
    ensures written { OnOk result (string_bytes out.new ≡ string_bytes out.old ++ signed_decimal value) }
    ensures range { fits_64_bits value ≡ true }
{
    let digits = value.to_string(*out.allocator())?;
    out.push_str(digits.as_str())?;
    Ok(())
}

// Writes a text between quotes.
fn put_text(out: &mut String, inside: &str) -> Result<(), NoMemory>
    ensures { OnOk result (string_bytes out.new ≡ string_bytes out.old ++ spelling.literal_text (syntax.Text inside.now)) }
{
    out.push_str("'")?;
    out.push_str(inside)?;
    out.push_str("'")?;
    Ok(())
}

impl Part for RawLit<'_> {
    ghost spelled = { λ l. spelling.literal_text (literal_of l) };

    ghost in_range = { λ l. IsInRange (literal_of l) };

    fn put(&self, out: &mut String) -> Result<(), NoMemory> {
        match self {
            RawLit::Number(value) => put_number(out, *value),
            RawLit::Text(inside) => put_text(out, inside),
        }
    }
}

impl Part for RawSide<'_> {
    ghost spelled = { λ s. spelling.side_text (side_of s) };

    ghost in_range = { λ s. IsSideInRange (side_of s) };

    fn put(&self, out: &mut String) -> Result<(), NoMemory> {
        match self {
            RawSide::Col(col) => col.put(out),
            RawSide::Lit(lit) => lit.put(out),
        }
    }
}

// Writes a comparison between spaces.
fn put_op(out: &mut String, op: CmpOp) -> Result<(), NoMemory>
    ensures { OnOk result (string_bytes out.new ≡ string_bytes out.old ++ codes " " ++ spelling.op_text op ++ codes " ") }
{
    out.push_str(" ")?;
    out.push_str(op_text(op))?;
    out.push_str(" ")?;
    Ok(())
}

impl Part for RawCond<'_> {
    ghost spelled = { λ c. spelling.condition_text (condition_of c) };

    ghost in_range = { λ c. IsConditionInRange (condition_of c) };

    fn put(&self, out: &mut String) -> Result<(), NoMemory> {
        self.left.put(out)?;
        put_op(out, self.op)?;
        self.right.put(out)
    }
}

// Writes a function over a column.
fn put_over(out: &mut String, func: Agg, col: &RawCol<'_>) -> Result<(), NoMemory>
    ensures { OnOk result (string_bytes out.new ≡ string_bytes out.old
        ++ (spelling.function_text func ++ codes "(" ++ spelling.column_text (column_of col.now) ++ codes ")")) }
{
    out.push_str(function_text(func))?;
    out.push_str("(")?;
    col.put(out)?;
    out.push_str(")")?;
    Ok(())
}

impl Part for RawItem<'_> {
    ghost spelled = { λ i. spelling.item_text (item_of i) };

    ghost in_range = { λ i. Unit {0} };

    fn put(&self, out: &mut String) -> Result<(), NoMemory> {
        match self {
            RawItem::Col(col) => col.put(out),
            RawItem::Agg { func, col, .. } => put_over(out, *func, col),
            RawItem::Count { .. } => {
                out.push_str("COUNT(*)")?;
                Ok(())
            }
        }
    }
}

impl Part for RawHaving<'_> {
    ghost spelled = { λ h. spelling.having_text (having_of h) };

    ghost in_range = { λ h. IsHavingInRange (having_of h) };

    fn put(&self, out: &mut String) -> Result<(), NoMemory> {
        self.item.put(out)?;
        put_op(out, self.op)?;
        self.lit.put(out)
    }
}

// Writes items, with a separator before each.
fn put_followed<T: Part>(out: &mut String, separator: &str, items: &[T]) -> Result<(), NoMemory>
    ensures written { OnOk result (string_bytes out.new
        ≡ string_bytes out.old ++ followed separator.now (map T.spelled items.now)) }
    ensures range { OnOk result (All T.in_range items.now) }
{
    'items: for item in items {
        out.push_str(separator)?;
        item.put(out)?;
    }
    Ok(())
}

// Writes items, with a separator between each two.
fn put_separated<T: Part>(out: &mut String, separator: &str, items: &[T]) -> Result<(), NoMemory>
    ensures written { OnOk result (string_bytes out.new
        ≡ string_bytes out.old ++ spelling.separated separator.now (map T.spelled items.now)) }
    ensures range { OnOk result (All T.in_range items.now) }
{
    let [first, rest @ ..] = items else {
        return Ok(());
    };
    first.put(out)?;
    put_followed(out, separator, rest)?;
    Ok(())
}

// Writes a clause where it has an item: its word, and its items with a separator between each two.
fn put_clause<T: Part>(
    out: &mut String,
    word: &str,
    separator: &str,
    items: &[T],
) -> Result<(), NoMemory>
    ensures written { OnOk result (string_bytes out.new
        ≡ string_bytes out.old ++ clause_text word.now separator.now (map T.spelled items.now)) }
    ensures range { OnOk result (All T.in_range items.now) }
{
    if items.is_empty() {
        return Ok(());
    }
    out.push_str(word)?;
    put_separated(out, separator, items)
}

// Writes a table behind the first, joined on its conditions.
fn put_joined(out: &mut String, table: &str, on: &[RawCond<'_>]) -> Result<(), NoMemory>
    ensures written { OnOk result (string_bytes out.new
        ≡ string_bytes out.old ++ spelling.joined_text table.now (map condition_of on.now)) }
    ensures range { OnOk result (All (λ c. IsConditionInRange (condition_of c)) on.now) }
{
    if on.is_empty() {
        out.push_str(", ")?;
        out.push_str(table)?;
        return Ok(());
    }
    out.push_str(" JOIN ")?;
    out.push_str(table)?;
    put_clause(out, " ON ", " AND ", on)?;
    Ok(())
}

impl Part for RawSource<'_> {
    ghost spelled = { λ s. spelling.source_text (source_of s) };

    ghost in_range = { λ s. IsSourceInRange (source_of s) };

    fn put(&self, out: &mut String) -> Result<(), NoMemory> {
        put_joined(out, self.table, self.on.as_slice())?;
        Ok(())
    }
}

// Writes the tables: nothing where there is none.
fn put_sources(out: &mut String, sources: &[RawSource<'_>]) -> Result<(), NoMemory>
    ensures written { OnOk result (string_bytes out.new
        ≡ string_bytes out.old ++ spelling.sources_text (map source_of sources.now)) }
    ensures range { OnOk result (All (λ s. IsSourceInRange (source_of s)) (drop 1 sources.now)) }
{
    let [first, rest @ ..] = sources else {
        return Ok(());
    };
    out.push_str(first.table)?;
    put_followed(out, "", rest)?;
    Ok(())
}

// Writes a query.
fn put_query(out: &mut String, q: &RawQuery<'_>) -> Result<(), NoMemory>
    requires { IsWritable (query_of q.now) }
    ensures written { OnOk result (string_bytes out.new ≡ string_bytes out.old ++ spelling.query_text (query_of q.now)) }
    ensures range { OnOk result (IsQueryInRange (query_of q.now)) }
{
    out.push_str("SELECT ")?;
    put_separated(out, ", ", q.items.as_slice())?;
    out.push_str(" FROM ")?;
    put_sources(out, q.sources.as_slice())?;
    put_clause(out, " WHERE ", " AND ", q.conds.as_slice())?;
    put_clause(out, " GROUP BY ", ", ", q.group.as_slice())?;
    put_clause(out, " HAVING ", " AND ", q.having.as_slice())?;
    Ok(())
}

/// The query in its canonical spelling: keywords in capitals, one space between tokens, but none around `.`, `(` and `)`
/// and before `,`; `<>` for inequality; numbers in decimal; no `;`. Read again, the text is the same query, but for the
/// places of its words. docs/FORMATS.md, "Query", has the rules.
///
/// Names must be words and no keywords, and texts hold quotes only in pairs; `IsWritable` says it whole.
/// The one refusal is want of memory.
pub fn print_query(alloc: Global, q: &RawQuery<'_>) -> Result<Text, NoMemory>
    requires { IsWritable (query_of q.now) }
    ensures written { IfOk result (λ text. text ≡ spelling.query_text (query_of q.now)) }
    ensures utf8 { IfOk result IsUtf8 }
    ensures read_back { IfOk result (λ text. ReadsBack (query_of q.now) text) }
{
    let mut out = String::new(alloc);
    put_query(&mut out, q)?;
    Ok(Text::of(out.into_bytes()))
}
