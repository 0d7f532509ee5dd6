//! Files of tables, with their values or their refusals.
ghost use Rattle.std.specs.Prelude.{◌≤◌, IfSome};
ghost use Rattle.mq_base.specs.Schema.{IsSchema};

use crate::refusals::{Places, places_of};
use crate::schemas::schema_of;
use mq_base::{PlainTable, Schema, TableId, Value};
use policy_reader::read_policy;
use std::alloc::{AllocError, Global};
use std::process::Abort;
use std::test::Fail;
use table_reader::{TableNo, read_table};

// The schema of one table, r, with the columns a INT and b TEXT.
const ONE_TABLE: &str = "version = 1\nuser = 'U'\nsubjects = ['O', 'U']\n\
[[table]]\nname = 'r'\nowner = 'O'\ncolumns = [{name = 'a', type = 'INT'}, {name = 'b', type = 'TEXT'}]\n";

// The values of a table, column by column, each with a `;` behind it and each column with a `/`.
fn shown(alloc: Global, table: &PlainTable) -> Result<Vec<u8>, AllocError> {
    let mut text = Vec::new(alloc);
    for column in table.columns.as_slice() {
        for value in column.as_slice() {
            match value {
                Value::Int(number) => text.extend_from_slice(number.to_string(alloc)?.as_bytes())?,
                Value::Text(bytes) => text.extend_from_slice(bytes.as_bytes())?,
            }
            text.push(b';')?;
        }
        text.push(b'/')?;
    }
    Ok(text)
}

// What reading a file answers: its values, or the refusal by its name.
fn answer(alloc: Global, schema: &Schema, file: &[u8]) -> Result<Vec<u8>, AllocError>
    requires { IsSchema schema.now }
{
    match read_table(alloc, file, schema, TableId(0)) {
        Ok(table) => shown(alloc, &table),
        Err(refusal) => Ok(format!(in alloc; "{refusal:?}")?.into_bytes()),
    }
}

// Files, each with its values or its refusal.
const FILES: [(&[u8], &[u8]); 50] = [
    // No header, or another than the two names in their order.
    (b"", b"BadHeader"),
    (b"\n\r\n", b"BadHeader"),
    (b"1,x\n", b"BadHeader"),
    (b"a,c\n1,x\n", b"BadHeader"),
    (b"c,b\n1,x\n", b"BadHeader"),
    (b"b,a\nx,1\n", b"BadHeader"),
    (b"a\n1\n", b"BadHeader"),
    (b"a,b,c\n1,x,y\n", b"BadHeader"),
    (b"a,b,\n1,x,\n", b"BadHeader"),
    (b"A,b\n1,x\n", b"BadHeader"),
    (b"a, b\n1,x\n", b"BadHeader"),
    // Rows of other lengths.
    (b"a,b\n1\n", b"BadRow { row: 1 }"),
    (b"a,b\n1,x\n2\n", b"BadRow { row: 2 }"),
    (b"a,b\n1,x,\n", b"BadRow { row: 1 }"),
    (b"a,b\n1,x\n\"\"\n", b"BadRow { row: 2 }"),
    (b"a,b\nz,x,y\n", b"BadRow { row: 1 }"),
    // The field in column a is no INT.
    (b"a,b\nz,x\n1\n", b"BadInt { row: 1, col: 0 }"),
    (b"a,b\n1,x\nz,y\n", b"BadInt { row: 2, col: 0 }"),
    (b"a,b\n,x\n", b"BadInt { row: 1, col: 0 }"),
    (b"a,b\n-,x\n", b"BadInt { row: 1, col: 0 }"),
    (b"a,b\n+1,x\n", b"BadInt { row: 1, col: 0 }"),
    (b"a,b\n--1,x\n", b"BadInt { row: 1, col: 0 }"),
    (b"a,b\n1-,x\n", b"BadInt { row: 1, col: 0 }"),
    (b"a,b\n 1,x\n", b"BadInt { row: 1, col: 0 }"),
    (b"a,b\n1 ,x\n", b"BadInt { row: 1, col: 0 }"),
    (b"a,b\n0x1,x\n", b"BadInt { row: 1, col: 0 }"),
    (b"a,b\n\xd9\xa1,x\n", b"BadInt { row: 1, col: 0 }"),
    (
        b"a,b\n9223372036854775808,x\n",
        b"BadInt { row: 1, col: 0 }",
    ),
    (
        b"a,b\n-9223372036854775809,x\n",
        b"BadInt { row: 1, col: 0 }",
    ),
    (
        b"a,b\n18446744073709551617,x\n",
        b"BadInt { row: 1, col: 0 }",
    ),
    (
        b"a,b\n340282366920938463463374607431768211457,x\n",
        b"BadInt { row: 1, col: 0 }",
    ),
    // The field in column b is too long a TEXT.
    (
        b"a,b\n1,xxxxxxxxxxxxxxxxxxxxxxxxxxxxxxxxxxxxxxxxxxxxxxxxxxxxxxxxxxxxxxxxxxxxxxxxxxxxxxxxxxxxxxxxxxxxxxxxxxxxxxxxxxxxxxxxxxxxxxxxx\n",
        b"TextTooLong { row: 1, col: 1 }",
    ),
    (
        b"a,b\n1,x\n1,xxxxxxxxxxxxxxxxxxxxxxxxxxxxxxxxxxxxxxxxxxxxxxxxxxxxxxxxxxxxxxxxxxxxxxxxxxxxxxxxxxxxxxxxxxxxxxxxxxxxxxxxxxxxxxxxxxxxxxxxx\nz,x\n",
        b"TextTooLong { row: 2, col: 1 }",
    ),
    (
        b"a,b\nz,xxxxxxxxxxxxxxxxxxxxxxxxxxxxxxxxxxxxxxxxxxxxxxxxxxxxxxxxxxxxxxxxxxxxxxxxxxxxxxxxxxxxxxxxxxxxxxxxxxxxxxxxxxxxxxxxxxxxxxxxx\n",
        b"BadInt { row: 1, col: 0 }",
    ),
    // Files without a fault.
    (b"a,b", b"//"),
    (b"a,b\n", b"//"),
    (
        b"\xef\xbb\xbfa,b\r\n1,x\r\n-2,y\r\n1,z\r\n",
        b"1;-2;1;/x;y;z;/",
    ),
    (
        b"a,b\n1,xxxxxxxxxxxxxxxxxxxxxxxxxxxxxxxxxxxxxxxxxxxxxxxxxxxxxxxxxxxxxxxxxxxxxxxxxxxxxxxxxxxxxxxxxxxxxxxxxxxxxxxxxxxxxxxxxxxxxxxx\n",
        b"1;/xxxxxxxxxxxxxxxxxxxxxxxxxxxxxxxxxxxxxxxxxxxxxxxxxxxxxxxxxxxxxxxxxxxxxxxxxxxxxxxxxxxxxxxxxxxxxxxxxxxxxxxxxxxxxxxxxxxxxxxx;/",
    ),
    (b"a,b\n1,\"x,\"\"y\"\"\nz\"\n", b"1;/x,\"y\"\nz;/"),
    (b"\"a\",\"b\"\n\"-1\",\"\"\n", b"-1;/;/"),
    (b"a,b\n\n1,x\n\r\n\n2,y", b"1;2;/x;y;/"),
    (b"a,b\r1,x\r2,y\r", b"1;2;/x;y;/"),
    (b"a,b\n1,x\n1,x\n", b"1;1;/x;x;/"),
    (
        b"a,b\n9223372036854775807,x\n-9223372036854775808,y\n",
        b"9223372036854775807;-9223372036854775808;/x;y;/",
    ),
    (
        b"a,b\n007,x\n-0,y\n00000000000000000000000000000000000000000,z\n",
        b"7;0;0;/x;y;z;/",
    ),
    (b"a,b\n1,\n", b"1;/;/"),
    (b"a,b\n1, x \n", b"1;/ x ;/"),
    (b"a,b\n1,\xff\xfe\n", b"1;/\xff\xfe;/"),
    (b"a,b\n1,\"x\"y\n", b"1;/xy;/"),
    (b"a,b\n1,\"x\n", b"1;/x\n;/"),
];

fn check_files(rt: &impl Abort, alloc: Global, rows: &[(&[u8], &[u8])]) -> Result<(), Fail> {
    let schema = schema_of(alloc, ONE_TABLE)?;
    for (file, want) in rows {
        assert_eq!(rt; answer(alloc, &schema, file)?.as_slice(), *want);
    }
    Ok(())
}

#[test]
fn files(rt: HostRuntime) -> Result<(), Fail> {
    check_files(&rt, rt.alloc(), &FILES)
}

// The header, and as many rows as this.
fn rows_of(alloc: Global, rows: u64) -> Result<Vec<u8>, AllocError> {
    let mut file = Vec::from_slice(alloc, b"a,b\n")?;
    for _row in 0..rows {
        file.extend_from_slice(b"1,x\n")?;
    }
    Ok(file)
}

// What reading a file of this front and this end answers: the number of its rows, or the refusal.
fn long_answer(
    alloc: Global,
    schema: &Schema,
    front: &[u8],
    end: &[u8],
) -> Result<Result<u64, TableNo>, AllocError>
    requires { IsSchema schema.now }
{
    let mut file = Vec::from_slice(alloc, front)?;
    file.extend_from_slice(end)?;
    Ok(read_table(alloc, file.as_slice(), schema, TableId(0)).map(|table| table.rows))
}

// The ends of files behind 99,999 rows, and what reading these files answers.
const ENDS: [(&[u8], Result<u64, TableNo>); 5] = [
    (b"1,x\n", Ok(100_000)),
    (b"1,x\nz\n", Err(TableNo::TooManyRows)),
    (b"1\n1,x\n", Err(TableNo::BadRow { row: 100_000 })),
    (
        b"z,x\n1,x\n",
        Err(TableNo::BadInt {
            row: 100_000,
            col: 0,
        }),
    ),
    (
        b"1,xxxxxxxxxxxxxxxxxxxxxxxxxxxxxxxxxxxxxxxxxxxxxxxxxxxxxxxxxxxxxxxxxxxxxxxxxxxxxxxxxxxxxxxxxxxxxxxxxxxxxxxxxxxxxxxxxxxxxxxxx\n",
        Err(TableNo::TextTooLong {
            row: 100_000,
            col: 1,
        }),
    ),
];

fn check_ends(
    rt: &impl Abort,
    alloc: Global,
    rows: &[(&[u8], Result<u64, TableNo>)],
) -> Result<(), Fail> {
    let schema = schema_of(alloc, ONE_TABLE)?;
    let front = rows_of(alloc, 99_999)?;
    for (end, want) in rows {
        let found = long_answer(alloc, &schema, front.as_slice(), end)?;
        assert!(rt; found == *want, "{end:?}");
    }
    Ok(())
}

#[test]
fn long_files(rt: HostRuntime) -> Result<(), Fail> {
    check_ends(&rt, rt.alloc(), &ENDS)
}

// Refusals, with their numbers, places and words.
const REFUSALS: [(TableNo, Places, &str); 6] = [
    (
        TableNo::BadHeader,
        (1, 0, 0),
        "the header does not list the table's columns",
    ),
    (
        TableNo::BadRow { row: 2 },
        (2, 2, 0),
        "row 2 has another number of fields",
    ),
    (
        TableNo::BadInt { row: 2, col: 0 },
        (3, 2, 0),
        "row 2 has no INT in column 0",
    ),
    (
        TableNo::TextTooLong { row: 1, col: 1 },
        (4, 1, 1),
        "row 1 has a TEXT over 120 bytes in column 1",
    ),
    (
        TableNo::TooManyRows,
        (5, 100_001, 0),
        "there are more than 100000 rows",
    ),
    (TableNo::NoMemory, (999, 0, 0), "no memory"),
];

fn check_refusals(
    rt: &impl Abort,
    alloc: Global,
    rows: &[(TableNo, Places, &str)],
) -> Result<(), Fail> {
    for (refusal, places, words) in rows {
        assert_eq!(rt; places_of(refusal), *places, "{words}");
        assert_eq!(rt; refusal.to_string(alloc)?.as_str(), *words);
    }
    Ok(())
}

#[test]
fn texts(rt: HostRuntime) -> Result<(), Fail> {
    check_refusals(&rt, rt.alloc(), &REFUSALS)
}

// A caller of the two readers that knows their public names and clauses alone: the rows of a policy's first table.
fn rows_of_first_table(alloc: Global, policy: &[u8], table: &[u8]) -> Option<u64>
    ensures { IfSome result (λ rows. rows ≤ 100000) }
{
    let Ok(policy) = read_policy(alloc, policy) else {
        return None;
    };
    let Ok(content) = read_table(alloc, table, &policy.schema, TableId(0)) else {
        return None;
    };
    Some(content.rows)
}

#[test]
fn a_caller_reads_a_policy_and_a_table(rt: HostRuntime) -> Result<(), Fail> {
    let alloc = rt.alloc();
    assert_eq!(rt;
        rows_of_first_table(alloc, ONE_TABLE.as_bytes(), b"a,b\n1,x\n-2,y\n1,z\n"),
        Some(3)
    );
    assert_eq!(rt;
        rows_of_first_table(alloc, ONE_TABLE.as_bytes(), b"a,c\n"),
        None
    );
    Ok(())
}
