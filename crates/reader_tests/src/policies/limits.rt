use super::{USER, file, refusal};
use crate::refusals::Places;
use std::alloc::{AllocError, Global};
use std::process::Abort;
use std::test::Fail;

// As many subjects as this, after the user and the owner.
fn subjects(alloc: Global, count: u8) -> Result<String, AllocError> {
    let mut text = String::from_str(alloc, "'U', 'O'")?;
    for n in 2..count {
        text.push_str(format!(in alloc; ", 'S{n}'")?.as_str())?;
    }
    Ok(text)
}

// As many tables and columns in all as this: one column in each table but the last, which has the others.
fn tables(alloc: Global, count: u8, columns: u8) -> Result<String, AllocError> {
    let mut text = String::new(alloc);
    for t in 0..columns {
        if t < count {
            text.push_str(format!(in alloc;
                "{{name = 't{t}', owner = 'O', columns = ["
            )?.as_str())?;
        }
        text.push_str(format!(in alloc; "{{name = 'c{t}', type = 'INT'}}, ")?.as_str())?;
        if t as u16 + 1 < count as u16 {
            text.push_str("]}, ")?;
        }
    }
    text.push_str("]}")?;
    Ok(text)
}

// The numbers of subjects, tables and columns, and the wanted refusal.
const COUNTS: [(u8, u8, u8, Places); 6] = [
    (16, 8, 64, (0, 0, 0)),
    (17, 8, 64, (12, 0, 0)),
    (16, 9, 64, (12, 1, 0)),
    (16, 8, 65, (12, 2, 0)),
    (17, 9, 65, (12, 0, 0)),
    (2, 9, 65, (12, 1, 0)),
];

// The refusal of a policy with so many subjects, tables and columns.
fn counted(
    alloc: Global,
    subject_count: u8,
    table_count: u8,
    column_count: u8,
) -> Result<Places, AllocError> {
    let subjects = subjects(alloc, subject_count)?;
    let tables = tables(alloc, table_count, column_count)?;
    let text = file(alloc, USER, subjects.as_str(), tables.as_str(), "")?;
    Ok(refusal(alloc, text.as_bytes()))
}

fn check(rt: &impl Abort, alloc: Global, rows: &[(u8, u8, u8, Places)]) -> Result<(), Fail> {
    for (subjects, tables, columns, want) in rows {
        let found = counted(alloc, *subjects, *tables, *columns)?;
        assert_eq!(rt; found, *want, "{subjects} {tables} {columns}");
    }
    Ok(())
}

#[test]
fn tells_the_limits(rt: HostRuntime) -> Result<(), Fail> {
    let alloc = rt.alloc();
    check(&rt, alloc, &COUNTS)?;
    let text = file(
        alloc,
        USER,
        "'1', '', '', '', '', '', '', '', '', '', '', '', '', '', '', '', ''",
        "{name = '', owner = '', columns = [{name = '', type = 'INT'}]}",
        "",
    )?;
    assert_eq!(rt; refusal(alloc, text.as_bytes()), (12, 0, 0));
    Ok(())
}
