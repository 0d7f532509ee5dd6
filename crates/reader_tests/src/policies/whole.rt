use super::refusal;
use crate::refusals::Places;
use std::alloc::Global;
use std::process::Abort;
use std::test::Fail;

// O owns r(a INT, b TEXT), and the rule of U has its columns still to come.
const FRONT: &str =
    "version = 1\nuser = \"U\"\nsubjects = [\"O\", \"U\"]\n[[table]]\nname = \"r\"\nowner = \"O\"\ncolumns = [{ name = \"a\", type = \"INT\" }, { name = \"b\", type = \"TEXT\" }]\n[[rule]]\ntable = \"r\"\nsubject = \"U\"\n";

const OWNED: &str =
    "version = 1\nuser = \"O\"\nsubjects = [\"O\", \"U\"]\n[[table]]\nname = \"r\"\nowner = \"O\"\ncolumns = [{ name = \"a\", type = \"INT\" }, { name = \"b\", type = \"TEXT\" }]\n";

const TABLE_OF_O: &str =
    "[[table]]\nname = \"r\"\nowner = \"O\"\ncolumns = [{ name = \"a\", type = \"INT\" }]\n";

// Policies in two parts, one behind the other, each with its code and places.
const POLICIES: [((&str, &str), Places); 11] = [
    (("version =", ""), (1, 0, 0)),
    (
        (
            "version = 1\nuser = \"U\"\nsubjects = [\"O\", \"U\", \"any\"]\n",
            TABLE_OF_O,
        ),
        (3, 2, 0),
    ),
    (
        (
            "version = 1\nuser = \"U\"\nsubjects = [\"U\"]\n",
            TABLE_OF_O,
        ),
        (5, 0, 0),
    ),
    (
        (
            "version = 1\nuser = \"O\"\nsubjects = [\"O\"]\n",
            "[[table]]\nname = \"r\"\nowner = \"O\"\ncolumns = [{ name = \"a\", type = \"INT\" }]\n[[table]]\nname = \"s\"\nowner = \"P\"\ncolumns = [{ name = \"b\", type = \"INT\" }]\n",
        ),
        (5, 1, 0),
    ),
    (
        (FRONT, "[[rule]]\ntable = \"z\"\nsubject = \"U\"\n"),
        (7, 1, 0),
    ),
    ((FRONT, "plain = [\"z\"]\n"), (8, 0, 0)),
    (
        (FRONT, "plain = [\"a\"]\nsealed = [\"b\", \"a\"]\n"),
        (9, 0, 2),
    ),
    (
        (FRONT, "[[rule]]\ntable = \"r\"\nsubject = \"O\"\n"),
        (10, 1, 0),
    ),
    (
        (OWNED, "[[rule]]\ntable = \"r\"\nsubject = \"O\"\n"),
        (10, 0, 0),
    ),
    (
        (FRONT, "[[rule]]\ntable = \"r\"\nsubject = \"U\"\n"),
        (11, 1, 0),
    ),
    (
        (
            FRONT,
            "[[rule]]\ntable = \"r\"\nsubject = \"any\"\n[[rule]]\ntable = \"r\"\nsubject = \"any\"\n",
        ),
        (11, 2, 0),
    ),
];

fn check(rt: &impl Abort, alloc: Global, rows: &[((&str, &str), Places)]) -> Result<(), Fail> {
    for (policy, want) in rows {
        let (front, end) = *policy;
        let text = format!(in alloc; "{front}{end}")?;
        assert_eq!(rt; refusal(alloc, text.as_bytes()), *want, "{text}");
    }
    Ok(())
}

#[test]
fn policies_are_refused(rt: HostRuntime) -> Result<(), Fail> {
    check(&rt, rt.alloc(), &POLICIES)
}
