//! What texts spell: words, keywords and integers.
use std::process::Abort;
use word_forms::{Keyword, integer, is_word};

// A text, whether it is a word, the keyword that it is, and the integer that it spells.
const TEXTS: [(&str, bool, Option<Keyword>, Option<i64>); 23] = [
    ("select", true, Some(Keyword::Select), None),
    ("SeLeCt", true, Some(Keyword::Select), None),
    ("COUNT", true, Some(Keyword::Count), None),
    ("counts", true, None, None),
    ("coun", true, None, None),
    ("_a1", true, None, None),
    ("_", true, None, None),
    ("1a", false, None, None),
    ("a b", false, None, None),
    ("\u{e9}", false, None, None),
    ("", false, None, None),
    ("-", false, None, None),
    ("--1", false, None, None),
    ("+1", false, None, None),
    ("1 ", false, None, None),
    ("007", false, None, Some(7)),
    ("-0", false, None, Some(0)),
    ("-12", false, None, Some(-12)),
    ("9223372036854775807", false, None, Some(i64::MAX)),
    ("9223372036854775808", false, None, None),
    ("-9223372036854775808", false, None, Some(i64::MIN)),
    ("-9223372036854775809", false, None, None),
    ("18446744073709551617", false, None, None),
];

fn check(rt: &impl Abort, rows: &[(&str, bool, Option<Keyword>, Option<i64>)]) {
    for (text, word, keyword, number) in rows {
        let bytes = text.as_bytes();
        assert_eq!(rt; is_word(bytes), *word, "of {text:?}");
        assert_eq!(rt; Keyword::of(bytes), *keyword, "of {text:?}");
        assert_eq!(rt; integer(bytes), *number, "of {text:?}");
    }
}

#[test]
fn spelled_words(rt: HostRuntime) {
    check(&rt, &TEXTS);
}
