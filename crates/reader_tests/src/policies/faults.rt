use super::{SUBJECTS, TABLES, USER, file, refusal};
use crate::refusals::Places;
use std::alloc::Global;
use std::process::Abort;
use std::test::Fail;

// Two tables, of which the second belongs to the user.
const TWO: &str =
    "{name = 'r', owner = 'O', columns = [{name = 'a', type = 'INT'}, {name = 'b', type = 'TEXT'}]}, \
    {name = 's', owner = 'U', columns = [{name = 'c', type = 'INT'}, {name = 'd', type = 'INT'}]}";

// The user, subjects and tables of a policy without rules, and its code with the places, zeros where it is accepted.
const NAMES: [(&str, &str, &str, Places); 23] = [
    (USER, SUBJECTS, TABLES, (0, 0, 0)),
    // BadName: the first subject and the last
    (USER, "'1', '1', 'U'", TABLES, (3, 0, 0)),
    (USER, "'O', 'U', 'any'", TABLES, (3, 2, 0)),
    (
        USER,
        "'O', 'U', 'S2', 'S3', 'S4', 'S5', 'S6', 'S7', 'S8', 'S9', 'S10', 'S11', 'S12', 'S13', 'S14', ''",
        TABLES,
        (3, 15, 0),
    ),
    (USER, "'O', 'U', 'select'", TABLES, (3, 2, 0)),
    (USER, "'O', 'U', 'Having'", TABLES, (3, 2, 0)),
    (USER, "'O', 'U', 'é'", TABLES, (3, 2, 0)),
    (
        USER,
        "'O', 'U', 'a_name_of_33_bytes_is_not_a_name_'",
        TABLES,
        (3, 2, 0),
    ),
    (
        USER,
        "'O', 'U', 'a_name_of_32_bytes_is_still_one_', 'Any', '_', 'selects', '_9'",
        TABLES,
        (0, 0, 0),
    ),
    // BadName: tables and columns, before a repeated name that comes later
    (
        USER,
        SUBJECTS,
        "{name = '', owner = 'O', columns = [{name = '1', type = 'INT'}]}",
        (3, 0, 0),
    ),
    (
        USER,
        SUBJECTS,
        "{name = 'r', owner = 'X', columns = [{name = 'a b', type = 'INT'}, {name = 'c', type = 'INT'}, {name = 'c', type = 'INT'}]}",
        (3, 0, 1),
    ),
    (
        USER,
        SUBJECTS,
        "{name = 'r', owner = 'O', columns = [{name = 'a', type = 'INT'}]}, {name = 's-t', owner = 'O', columns = [{name = 'b', type = 'INT'}]}",
        (3, 1, 0),
    ),
    (
        USER,
        SUBJECTS,
        "{name = 'r', owner = 'O', columns = [{name = 'a', type = 'INT'}]}, {name = 's', owner = 'O', columns = [{name = 'b', type = 'INT'}, {name = 'Count', type = 'INT'}]}",
        (3, 1, 2),
    ),
    // RepeatedName
    (USER, "'U', 'U', 'O'", TABLES, (4, 1, 0)),
    (USER, "'O', 'U', 'O', '1'", TABLES, (4, 2, 0)),
    (
        USER,
        SUBJECTS,
        "{name = 'r', owner = 'O', columns = [{name = 'a', type = 'INT'}]}, {name = 'r', owner = 'O', columns = [{name = 'a', type = 'INT'}]}",
        (4, 1, 0),
    ),
    (
        USER,
        SUBJECTS,
        "{name = 'r', owner = 'O', columns = [{name = 'a', type = 'INT'}, {name = 'a', type = 'TEXT'}]}",
        (4, 0, 2),
    ),
    (
        USER,
        SUBJECTS,
        "{name = 'r', owner = 'O', columns = [{name = 'a', type = 'INT'}]}, {name = 's', owner = 'O', columns = [{name = 'b', type = 'INT'}, {name = 'a', type = 'INT'}]}",
        (4, 1, 2),
    ),
    // names of different kinds, and names that differ in case, are different
    (
        USER,
        "'U', 'O', 'u'",
        "{name = 'O', owner = 'O', columns = [{name = 'O', type = 'INT'}, {name = 'any', type = 'INT'}]}",
        (0, 0, 0),
    ),
    // UnknownOwner, and UnknownSubject for the user
    (
        "X",
        SUBJECTS,
        "{name = 'r', owner = 'any', columns = [{name = 'a', type = 'INT'}]}",
        (5, 0, 0),
    ),
    (
        USER,
        SUBJECTS,
        "{name = 'r', owner = 'O', columns = [{name = 'a', type = 'INT'}]}, {name = 's', owner = 'o', columns = [{name = 'b', type = 'INT'}]}",
        (5, 1, 0),
    ),
    ("X", SUBJECTS, TABLES, (6, 0, 1)),
    ("any", SUBJECTS, TABLES, (6, 0, 1)),
];

fn check_names(
    rt: &impl Abort,
    alloc: Global,
    rows: &[(&str, &str, &str, Places)],
) -> Result<(), Fail> {
    for (user, subjects, tables, want) in rows {
        let text = file(alloc, user, subjects, tables, "")?;
        assert_eq!(rt; refusal(alloc, text.as_bytes()), *want, "{text}");
    }
    Ok(())
}

#[test]
fn tells_names_owners_and_the_user(rt: HostRuntime) -> Result<(), Fail> {
    check_names(&rt, rt.alloc(), &NAMES)
}

// The rules of a policy with two tables, and its code with the places, zeros where it is accepted.
const RULES: [(&str, Places); 18] = [
    (
        "{table = 'r', subject = 'U', plain = ['a', 'a'], sealed = ['b', 'b']}, {table = 'r', subject = 'any'}",
        (0, 0, 0),
    ),
    // UnknownTable, also where the subject is unknown too
    ("{table = 't', subject = 'X'}", (7, 0, 0)),
    (
        "{table = 'r', subject = 'U'}, {table = 'R', subject = 'U'}",
        (7, 1, 0),
    ),
    // UnknownSubject
    ("{table = 'r', subject = 'X', plain = ['z']}", (6, 0, 0)),
    (
        "{table = 'r', subject = 'U'}, {table = 'r', subject = 'ANY'}",
        (6, 1, 0),
    ),
    // RuleForOwner, also where the rule is repeated or its strings are no columns
    ("{table = 'r', subject = 'O', plain = ['z']}", (10, 0, 0)),
    (
        "{table = 'r', subject = 'U'}, {table = 's', subject = 'U'}",
        (10, 1, 0),
    ),
    // RepeatedRule, also where its strings are no columns
    (
        "{table = 'r', subject = 'U'}, {table = 'r', subject = 'U', plain = ['z']}",
        (11, 1, 0),
    ),
    (
        "{table = 'r', subject = 'any'}, {table = 's', subject = 'any'}, {table = 'r', subject = 'any'}",
        (11, 2, 0),
    ),
    // UnknownAttribute: the first string and the last, and a column of another table
    ("{table = 'r', subject = 'U', plain = ['z']}", (8, 0, 0)),
    ("{table = 'r', subject = 'U', sealed = ['A']}", (8, 0, 0)),
    (
        "{table = 'r', subject = 'U', plain = ['a', 'c']}",
        (8, 0, 1),
    ),
    (
        "{table = 'r', subject = 'any'}, {table = 'r', subject = 'U', plain = ['a', 'a'], sealed = ['b', 'z', 'a']}",
        (8, 1, 3),
    ),
    // Overlap: the first string of `sealed` and the last, and after a string that is no column
    (
        "{table = 'r', subject = 'U', plain = ['a'], sealed = ['a']}",
        (9, 0, 1),
    ),
    (
        "{table = 'r', subject = 'U', plain = ['a'], sealed = ['b', 'a']}",
        (9, 0, 2),
    ),
    (
        "{table = 'r', subject = 'U', plain = ['a'], sealed = ['a', 'z']}",
        (9, 0, 1),
    ),
    (
        "{table = 's', subject = 'O', plain = ['c', 'd', 'c'], sealed = ['d']}",
        (9, 0, 3),
    ),
    (
        "{table = 's', subject = 'O'}, {table = 's', subject = 'any', plain = ['d'], sealed = ['c', 'c', 'd']}",
        (9, 1, 3),
    ),
];

fn check_rules(rt: &impl Abort, alloc: Global, rows: &[(&str, Places)]) -> Result<(), Fail> {
    for (rules, want) in rows {
        let text = file(alloc, USER, SUBJECTS, TWO, rules)?;
        assert_eq!(rt; refusal(alloc, text.as_bytes()), *want, "{text}");
    }
    Ok(())
}

#[test]
fn tells_rules(rt: HostRuntime) -> Result<(), Fail> {
    check_rules(&rt, rt.alloc(), &RULES)
}
