use super::{Row, check, policy_of};
use crate::refusals::ACCEPTED;
use std::alloc::Global;
use std::test::Fail;

// The letter of a subject, from `A` on, or of a table, from `a` on.
fn letter(first: u8, n: u8) -> char {
    char::from(first.wrapping_add(n))
}

// A policy of the subjects A to P, the tables a to h and the columns c10 to c73, eight of each table.
fn large_policy(alloc: Global) -> Result<String, Fail> {
    let mut text = String::from_str(alloc, "version = 1\nuser = 'A'\nsubjects = [")?;
    for s in 0..16u8 {
        text.push_str(format!(in alloc; "'{}', ", letter(b'A', s))?.as_str())?;
    }
    text.push_str("]\n")?;
    for t in 0..8u8 {
        push_table(alloc, &mut text, t)?;
    }
    Ok(text)
}

fn push_table(alloc: Global, text: &mut String, t: u8) -> Result<(), Fail> {
    let head = format!(in alloc;
        "[[table]]\nname = '{}'\nowner = 'A'\ncolumns = [",
        letter(b'a', t)
    )?;
    text.push_str(head.as_str())?;
    for c in 0..8u32 {
        let column = 10 + u32::from(t) * 8 + c;
        text.push_str(format!(in alloc; "{{name = 'c{column}', type = 'INT'}}, ")?.as_str())?;
    }
    text.push_str("]\n")?;
    Ok(())
}

// A section from each of these letters to 1.
fn push_letters(alloc: Global, text: &mut String, first: u8, count: u8) -> Result<(), Fail> {
    for n in 0..count {
        text.push_str(format!(in alloc; "{} = 1, ", letter(first, n))?.as_str())?;
    }
    Ok(())
}

// The 15 links from a subject to the others.
fn push_links(alloc: Global, text: &mut String, from: u8) -> Result<(), Fail> {
    for to in 0..16u8 {
        if to != from {
            let ends = (letter(b'A', from), letter(b'A', to));
            text.push_str(format!(in alloc;
                "{{from = '{}', to = '{}', price = 1}}, ",
                ends.0, ends.1
            )?.as_str())?;
        }
    }
    Ok(())
}

fn push_columns(alloc: Global, text: &mut String) -> Result<(), Fail> {
    for column in 10..74u32 {
        text.push_str(format!(in alloc; "c{column} = 1, ")?.as_str())?;
    }
    Ok(())
}

// Its price file, with a link for each of the 240 pairs.
fn large_file(alloc: Global) -> Result<String, Fail> {
    let mut text = String::from_str(alloc, "version = 1\ncpu = {")?;
    push_letters(alloc, &mut text, b'A', 16)?;
    text.push_str("}\nnet = {default = 1}\nlink = [")?;
    for from in 0..16u8 {
        push_links(alloc, &mut text, from)?;
    }
    text.push_str("]\nrows = {")?;
    push_letters(alloc, &mut text, b'a', 8)?;
    text.push_str("}\ndistinct = {")?;
    push_columns(alloc, &mut text)?;
    text.push_str("}\n")?;
    Ok(text)
}

// The last place that each fault can have in each section.
const ROWS: [Row; 15] = [
    ("P = 1", "P = 1", ACCEPTED),
    ("P = 1", "P = 1, Q = 1", (3, 0, 16)),
    ("P = 1", "P = -1", (4, 0, 15)),
    ("P = 1, ", "", (5, 0, 15)),
    (
        "'P', to = 'O', price = 1}",
        "'P', to = 'O', price = 1}, {from = 'A', to = 'Q', price = 1}",
        (3, 2, 240),
    ),
    (
        "'P', to = 'O', price = 1}",
        "'P', to = 'O', price = 1}, {from = 'P', to = 'O', price = 1}",
        (6, 2, 240),
    ),
    (
        "'P', to = 'O', price = 1}",
        "'P', to = 'O', price = 1}, {from = 'P', to = 'P', price = 1}",
        (6, 2, 240),
    ),
    (
        "'P', to = 'O', price = 1}",
        "'P', to = 'O', price = -1}",
        (4, 2, 239),
    ),
    ("h = 1", "h = 1, i = 1", (3, 3, 8)),
    ("h = 1", "h = -1", (4, 3, 7)),
    ("h = 1, ", "", (5, 3, 7)),
    ("c73 = 1", "c73 = 1, c74 = 1", (3, 4, 64)),
    ("c73 = 1", "c73 = 0", (4, 4, 63)),
    ("c73 = 1", "c73 = -1", (4, 4, 63)),
    ("c73 = 1, ", "", (5, 4, 63)),
];

#[test]
fn prices_have_their_last_faults(rt: HostRuntime) -> Result<(), Fail> {
    let alloc = rt.alloc();
    let text = large_policy(alloc)?;
    let policy = policy_of(alloc, text.as_str())?;
    let file = large_file(alloc)?;
    check(&rt, alloc, &policy, file.as_str(), &ROWS)
}
