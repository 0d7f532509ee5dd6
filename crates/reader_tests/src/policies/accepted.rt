ghost use Rattle.std.specs.Prelude.{◌<◌};

use mq_base::{AttrInfo, SubjectId, TableInfo, ValueType};
use policy_base::Policy;
use policy_reader::{PolicyNo, read_policy};
use std::alloc::Global;
use std::process::Abort;
use std::test::Fail;

// A hospital and an insurance, each with a table: six subjects, and a rule for each subject and table.
const HOSPITAL: &str = "version = 1\nuser = 'U'\nsubjects = ['H', 'I', 'U', 'X', 'Y', 'Z']\n\
[[table]]\nname = 'Hosp'\nowner = 'H'\n\
columns = [{name = 'S', type = 'INT'}, {name = 'B', type = 'INT'}, {name = 'D', type = 'TEXT'}, {name = 'T', type = 'TEXT'}]\n\
[[table]]\nname = 'Ins'\nowner = 'I'\ncolumns = [{name = 'C', type = 'INT'}, {name = 'P', type = 'INT'}]\n\
[[rule]]\ntable = 'Hosp'\nsubject = 'I'\nplain = ['B']\nsealed = ['S', 'D', 'T']\n\
[[rule]]\ntable = 'Hosp'\nsubject = 'U'\nplain = ['S', 'D', 'T']\nsealed = []\n\
[[rule]]\ntable = 'Hosp'\nsubject = 'X'\nplain = ['D', 'T']\nsealed = ['S']\n\
[[rule]]\ntable = 'Hosp'\nsubject = 'Y'\nplain = ['B', 'D', 'T']\nsealed = ['S']\n\
[[rule]]\ntable = 'Hosp'\nsubject = 'Z'\nplain = ['S', 'T']\nsealed = ['D']\n\
[[rule]]\ntable = 'Hosp'\nsubject = 'any'\nplain = ['D', 'T']\n\
[[rule]]\ntable = 'Ins'\nsubject = 'H'\nplain = ['C']\nsealed = ['P']\n\
[[rule]]\ntable = 'Ins'\nsubject = 'U'\nplain = ['C', 'P']\n\
[[rule]]\ntable = 'Ins'\nsubject = 'X'\nsealed = ['C', 'P']\n\
[[rule]]\ntable = 'Ins'\nsubject = 'Y'\nplain = ['P']\nsealed = ['C']\n\
[[rule]]\ntable = 'Ins'\nsubject = 'Z'\nplain = ['C']\nsealed = ['P']\n\
[[rule]]\ntable = 'Ins'\nsubject = 'any'\nplain = ['P']\n";

// An own rule beside `any`, `any` alone, and no rule at all: ids r.a 0, r.b 1, s.c 2.
const ANY: &str = "version = 1\nuser = 'U'\nsubjects = ['O', 'U', 'X']\n\
[[table]]\nname = 'r'\nowner = 'O'\ncolumns = [{name = 'a', type = 'INT'}, {name = 'b', type = 'INT'}]\n\
[[table]]\nname = 's'\nowner = 'X'\ncolumns = [{name = 'c', type = 'INT'}]\n\
[[rule]]\ntable = 'r'\nsubject = 'any'\nplain = ['b', 'b']\nsealed = ['a']\n\
[[rule]]\ntable = 'r'\nsubject = 'U'\nplain = ['a']\n";

// The policy, a subject, and the attributes that it sees plain and sealed, as a sum of powers of 2.
const GRANTS: [(&str, u8, u64, u64); 10] = [
    (HOSPITAL, 0, 1 + 2 + 4 + 8 + 16, 32),
    (HOSPITAL, 1, 2 + 16 + 32, 1 + 4 + 8),
    (HOSPITAL, 2, 1 + 4 + 8 + 16 + 32, 0),
    (HOSPITAL, 3, 4 + 8, 1 + 16 + 32),
    (HOSPITAL, 4, 2 + 4 + 8 + 32, 1 + 16),
    (HOSPITAL, 5, 1 + 8 + 16, 4 + 32),
    (HOSPITAL, 6, 0, 0),
    (ANY, 0, 1 + 2, 0),
    (ANY, 1, 1, 0),
    (ANY, 2, 2 + 4, 1),
];

fn check_grants(
    rt: &impl Abort,
    alloc: Global,
    rows: &[(&str, u8, u64, u64)],
) -> Result<(), PolicyNo> {
    for (text, subject, plain, sealed) in rows {
        let policy = read_policy(alloc, text.as_bytes())?;
        let seen = sets(&policy, SubjectId((*subject).min(15)));
        assert_eq!(rt; seen, (*plain, *sealed), "{subject}");
    }
    Ok(())
}

// What a subject sees plain and sealed.
fn sets(policy: &Policy, subject: SubjectId) -> (u64, u64)
    requires { subject.0 < 16 }
{
    (policy.plain(subject).0, policy.sealed(subject).0)
}

#[test]
fn grants(rt: HostRuntime) -> Result<(), Fail> {
    check_grants(&rt, rt.alloc(), &GRANTS)?;
    Ok(())
}

// The tables of the hospital's policy: the name, the owner and the set of columns.
const TABLES: [(&str, u8, u64); 2] = [("Hosp", 0, 1 + 2 + 4 + 8), ("Ins", 1, 16 + 32)];

// The columns of the hospital's policy: the name, the type and the table.
const COLUMNS: [(&str, ValueType, u8); 6] = [
    ("S", ValueType::Int, 0),
    ("B", ValueType::Int, 0),
    ("D", ValueType::Text, 0),
    ("T", ValueType::Text, 0),
    ("C", ValueType::Int, 1),
    ("P", ValueType::Int, 1),
];

// Whether the table has this name, owner and set of columns.
fn is_table(table: &TableInfo, row: &(&str, u8, u64)) -> bool {
    let (name, owner, attrs) = *row;
    table.name.as_bytes() == name.as_bytes() && table.owner.0 == owner && table.attrs.0 == attrs
}

// Whether the column has this name, type and table.
fn is_column(column: &AttrInfo, row: &(&str, ValueType, u8)) -> bool {
    let (name, ty, table) = *row;
    column.name.as_bytes() == name.as_bytes() && column.ty == ty && column.table.0 == table
}

fn are_tables(tables: &[TableInfo], rows: &[(&str, u8, u64)]) -> bool {
    for (t, row) in rows.iter().enumerate() {
        let Some(table) = tables.get(t) else {
            return false;
        };
        if !is_table(table, row) {
            return false;
        }
    }
    tables.len() == rows.len()
}

fn are_columns(columns: &[AttrInfo], rows: &[(&str, ValueType, u8)]) -> bool {
    for (a, row) in rows.iter().enumerate() {
        let Some(column) = columns.get(a) else {
            return false;
        };
        if !is_column(column, row) {
            return false;
        }
    }
    columns.len() == rows.len()
}

// The tables and columns of the hospital's policy.
#[test]
fn ids(rt: HostRuntime) -> Result<(), Fail> {
    let policy = read_policy(rt.alloc(), HOSPITAL.as_bytes())?;
    assert_eq!(rt;
        (policy.user, policy.subjects.as_slice().len()),
        (SubjectId(2), 6)
    );
    assert!(rt; are_tables(policy.schema.tables.as_slice(), &TABLES));
    assert!(rt; are_columns(policy.schema.attrs.as_slice(), &COLUMNS));
    Ok(())
}
