//! The tokens of texts, and their lexical refusals.
ghost use Rattle.std.specs.Prelude.{◌≤◌, length};

use sql_lexer::tokens;
use std::alloc::Global;
use std::fmt::Write;
use std::process::Abort;
use std::test::Fail;

// The answer in one line: the place, the kind and the text of each token, or the refusal.
fn told(alloc: Global, text: &str) -> Result<String, Fail>
    requires { length text.now ≤ 67108864 }
{
    let mut line = String::new(alloc);
    match tokens(alloc, text) {
        Ok(found) => {
            for token in found.as_slice() {
                let (at, kind, text) = (token.at, token.kind, token.text);
                write!(line, "{at} {kind:?} {text};")?;
            }
        }
        Err(no) => write!(line, "{no}")?,
    }
    Ok(line)
}

// Texts, each with its tokens or its first refusal.
const TEXTS: [(&str, &str); 27] = [
    ("", ""),
    (" \t\r\n", ""),
    ("a<=1", "0 Word a;1 Symbol <=;3 Number 1;"),
    ("\tSELECT\r\n_a1 ", "1 Word SELECT;9 Word _a1;"),
    ("1a a1 A_9", "0 Number 1;1 Word a;3 Word a1;6 Word A_9;"),
    (
        ",.()*;=",
        "0 Symbol ,;1 Symbol .;2 Symbol (;3 Symbol );4 Symbol *;5 Symbol ;;6 Symbol =;",
    ),
    (
        "<>!=<<=>>=",
        "0 Symbol <>;2 Symbol !=;4 Symbol <;5 Symbol <=;7 Symbol >;8 Symbol >=;",
    ),
    ("<>=", "0 Symbol <>;2 Symbol =;"),
    ("-5 007", "0 Number -5;3 Number 007;"),
    ("1-2", "0 Number 1;1 Number -2;"),
    ("- 5", "no token begins at byte 0"),
    ("1 --2", "no token begins at byte 2"),
    ("a -", "no token begins at byte 2"),
    ("!", "no token begins at byte 0"),
    ("a !b", "no token begins at byte 2"),
    ("a = \"x\"", "no token begins at byte 4"),
    ("# 'a", "no token begins at byte 0"),
    ("''", "0 Text '';"),
    ("'it''s' 'é€'", "0 Text 'it''s';8 Text 'é€';"),
    ("''''", "0 Text '''';"),
    ("'a''b", "the text at byte 0 has no closing quote"),
    ("a'", "the text at byte 1 has no closing quote"),
    ("'''", "the text at byte 0 has no closing quote"),
    ("'a' 'b", "the text at byte 4 has no closing quote"),
    ("'a''' #", "no token begins at byte 6"),
    ("'é'é", "no token begins at byte 4"),
    ("\x0b", "no token begins at byte 0"),
];

fn check(rt: &impl Abort, alloc: Global, rows: &[(&str, &str)]) -> Result<(), Fail> {
    for (text, want) in rows {
        assert!(rt; text.len() < 100);
        assert_eq!(rt; told(alloc, text)?.as_str(), *want, "of {text:?}");
    }
    Ok(())
}

#[test]
fn a_text_has_its_tokens_or_its_first_refusal(rt: HostRuntime) -> Result<(), Fail> {
    check(&rt, rt.alloc(), &TEXTS)
}
