use super::{FILE, POLICY, Row, check, policy_of, refusal};
use crate::refusals::{ACCEPTED, Places};
use price_reader::{PriceCode, PriceNo};
use std::test::Fail;

const SYNTAX: Places = (1, 0, 0);

const SHAPE: Places = (2, 0, 0);

// What is no document, what has not the form, and what has it. Integers are within 64 bits, signed.
const ROWS: [Row; 48] = [
    ("version = 1", "version =", SYNTAX),
    ("version = 1", "version = 1\nversion = 1", SYNTAX),
    ("O = 1", "O = 1, O = 1", SYNTAX),
    ("O = 1", "O = 9223372036854775808", SYNTAX),
    ("O = 1", "O = -9223372036854775809", SYNTAX),
    ("default = 4", "default = 9223372036854775808", SYNTAX),
    ("price = 5", "price = 9223372036854775808", SYNTAX),
    ("r = 7", "r = 9223372036854775808", SYNTAX),
    ("c = 11", "c = 18446744073709551616", SYNTAX),
    ("version = 1", "version = 2", SHAPE),
    ("version = 1", "version = 0", SHAPE),
    ("version = 1", "version = '1'", SHAPE),
    ("version = 1", "version = 1.0", SHAPE),
    ("version = 1\n", "", SHAPE),
    ("version = 1", "version = 1\nnote = 1", SHAPE),
    ("cpu = {X = 3, O = 1, U = 2}\n", "", SHAPE),
    ("net = {default = 4}\n", "", SHAPE),
    ("rows = {r = 7, s = 8}\n", "", SHAPE),
    ("distinct = {a = 9, b = 10, c = 11}\n", "", SHAPE),
    ("cpu = {X = 3, O = 1, U = 2}", "cpu = 1", SHAPE),
    ("cpu = {X = 3, O = 1, U = 2}", "cpu = [3, 1, 2]", SHAPE),
    ("O = 1", "O = '1'", SHAPE),
    ("O = 1", "O = 1.0", SHAPE),
    ("O = 1", "O = true", SHAPE),
    ("O = 1", "O.x = 1", SHAPE),
    ("O = 1", "Q = '1'", SHAPE),
    ("{default = 4}", "4", SHAPE),
    ("default = 4", "", SHAPE),
    ("default = 4", "price = 4", SHAPE),
    ("default = 4", "default = 4, U = 4", SHAPE),
    ("default = 4", "default = '4'", SHAPE),
    ("link = [{", "link = [1, {", SHAPE),
    (
        "[{from = 'O', to = 'U', price = 5}, {from = 'U', to = 'O', price = 6}]",
        "{}",
        SHAPE,
    ),
    ("from = 'O', ", "", SHAPE),
    ("to = 'U', ", "", SHAPE),
    (", price = 5", "", SHAPE),
    ("price = 5", "price = 5, both = true", SHAPE),
    ("from = 'O'", "from = 1", SHAPE),
    ("to = 'O'", "to = ['O']", SHAPE),
    ("price = 6", "price = '6'", SHAPE),
    ("rows = {r = 7, s = 8}", "rows = 7", SHAPE),
    ("s = 8", "s = 8.0", SHAPE),
    ("distinct = {a = 9, b = 10, c = 11}", "distinct = []", SHAPE),
    ("c = 11", "c = 1979-05-27", SHAPE),
    // the form is told before a name or a number is
    (
        "O = 1, U = 2}\nnet = {default = 4}",
        "Q = -1}\nnet = {}",
        SHAPE,
    ),
    ("version = 1", "version = 1", ACCEPTED),
    (
        "{from = 'O', to = 'U', price = 5}, {from = 'U', to = 'O', price = 6}",
        "",
        ACCEPTED,
    ),
    (
        "link = [{from = 'O', to = 'U', price = 5}, {from = 'U', to = 'O', price = 6}]\n",
        "",
        ACCEPTED,
    ),
];

#[test]
fn prices_have_a_form(rt: HostRuntime) -> Result<(), Fail> {
    let alloc = rt.alloc();
    let policy = policy_of(alloc, POLICY)?;
    check(&rt, alloc, &policy, FILE, &ROWS)?;
    assert_eq!(rt; refusal(alloc, b"", &policy), SHAPE);
    assert_eq!(rt; refusal(alloc, b"version = '\xff'", &policy), SYNTAX);
    Ok(())
}

#[test]
fn a_refusal_of_prices_is_told_in_words(rt: HostRuntime) -> Result<(), Fail> {
    let no = PriceNo::Refused {
        code: PriceCode::BadLink,
        at: 2,
        item: 7,
    };
    let message = format!(in rt.alloc(); "{no}")?;
    assert_eq!(rt; message.as_str(), "prices refused: code 6 at 2 item 7");
    Ok(())
}
