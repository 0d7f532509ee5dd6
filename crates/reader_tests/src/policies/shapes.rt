use super::refusal;
use crate::refusals::{ACCEPTED, Places};
use policy_reader::{PolicyCode, PolicyNo};
use std::alloc::{AllocError, Global};
use std::process::Abort;
use std::test::Fail;

const SYNTAX: Places = (1, 0, 0);

const SHAPE: Places = (2, 0, 0);

const FILE: &str =
    "version = 1\nuser = 'U'\nsubjects = ['U']\nrule = [{table = 'r', subject = 'any', plain = ['a'], sealed = []}]\n\
    [[table]]\nname = 'r'\nowner = 'U'\ncolumns = [{name = 'a', type = 'INT'}]\n";

// The file with another text where one stands for the first time.
fn changed(alloc: Global, old: &str, new: &str) -> Result<String, AllocError> {
    match FILE.split_once(old) {
        Some((front, rest)) => format!(in alloc; "{front}{new}{rest}"),
        None => String::from_str(alloc, FILE),
    }
}

// A change of the accepted file, and its refusal.
const CHANGES: [(&str, &str, Places); 34] = [
    ("version = 1", "version =", SYNTAX),
    ("user = 'U'", "version = 1", SYNTAX),
    ("version = 1", "version = 9223372036854775808", SYNTAX),
    ("version = 1", "version = 2", SHAPE),
    ("version = 1", "version = '1'", SHAPE),
    ("version = 1", "version = 1.0", SHAPE),
    ("version = 1", "", SHAPE),
    ("version = 1", "version = 1\nnote = 1", SHAPE),
    ("user = 'U'", "", SHAPE),
    ("user = 'U'", "user = 1", SHAPE),
    ("subjects = ['U']", "", SHAPE),
    ("subjects = ['U']", "subjects = []", SHAPE),
    ("subjects = ['U']", "subjects = 'U'", SHAPE),
    ("subjects = ['U']", "subjects = ['U', 1]", SHAPE),
    ("[[table]]", "[table]", SHAPE),
    ("[[table]]", "[[rules]]", SHAPE),
    ("name = 'r'", "", SHAPE),
    ("owner = 'U'", "", SHAPE),
    ("owner = 'U'", "owner = 'U'\nstore = 'U'", SHAPE),
    ("columns = [{name = 'a', type = 'INT'}]", "", SHAPE),
    (
        "columns = [{name = 'a', type = 'INT'}]",
        "columns = []",
        SHAPE,
    ),
    ("type = 'INT'", "type = 'int'", SHAPE),
    ("type = 'INT'", "type = 'INT', ceiling = 'none'", SHAPE),
    (", type = 'INT'", "", SHAPE),
    ("rule = [{", "rule = [1, {", SHAPE),
    ("table = 'r', ", "", SHAPE),
    ("subject = 'any', ", "", SHAPE),
    ("plain = ['a']", "plain = 'a'", SHAPE),
    ("sealed = []", "sealed = ['b', 1]", SHAPE),
    ("sealed = []", "sealed = [], rest = []", SHAPE),
    ("", "", ACCEPTED),
    ("plain = ['a'], ", "", ACCEPTED),
    (", sealed = []", "", ACCEPTED),
    (
        "rule = [{table = 'r', subject = 'any', plain = ['a'], sealed = []}]",
        "",
        ACCEPTED,
    ),
];

fn check(rt: &impl Abort, alloc: Global, rows: &[(&str, &str, Places)]) -> Result<(), Fail> {
    for (old, new, want) in rows {
        let text = changed(alloc, old, new)?;
        assert_eq!(rt; refusal(alloc, text.as_bytes()), *want, "{text}");
    }
    Ok(())
}

#[test]
fn tells_the_form(rt: HostRuntime) -> Result<(), Fail> {
    let alloc = rt.alloc();
    check(&rt, alloc, &CHANGES)?;
    assert_eq!(rt; refusal(alloc, b""), SHAPE);
    assert_eq!(rt; refusal(alloc, b"user = '\xff'"), SYNTAX);
    Ok(())
}

#[test]
fn tells_a_refusal_in_words(rt: HostRuntime) -> Result<(), Fail> {
    let no = PolicyNo::Refused {
        code: PolicyCode::Overlap,
        at: 1,
        item: 2,
    };
    let message = format!(in rt.alloc(); "{no}")?;
    assert_eq!(rt; message.as_str(), "policy refused: code 9 at 1 item 2");
    Ok(())
}
