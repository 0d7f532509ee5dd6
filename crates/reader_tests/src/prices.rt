//! The refusals of price files with their places, and the prices of accepted ones. The expected values are worked out by
//! hand from docs/FORMATS.md, "Price file".
ghost use Rattle.std.specs.Prelude.{IfOk};
ghost use Rattle.policy_base.specs.Accepted.{IsAccepted};

use crate::refusals::{ACCEPTED, Places, places_of};
use policy_base::Policy;
use policy_reader::read_policy;
use price_reader::read_prices;
use std::alloc::{AllocError, Global};
use std::process::Abort;
use std::test::Fail;

mod faults;
mod limits;
mod shapes;
mod values;

// Neither subjects nor tables nor columns have their ids in the byte order of their names: U, O and X are the subjects 0 to
// 2, s and r the tables 0 and 1, c, b and a the columns 0 to 2.
const POLICY: &str = "version = 1\nuser = 'U'\nsubjects = ['U', 'O', 'X']\n\
[[table]]\nname = 's'\nowner = 'X'\ncolumns = [{name = 'c', type = 'INT'}]\n\
[[table]]\nname = 'r'\nowner = 'O'\ncolumns = [{name = 'b', type = 'TEXT'}, {name = 'a', type = 'INT'}]\n";

// A price file that the policy accepts.
const FILE: &str = "version = 1\ncpu = {X = 3, O = 1, U = 2}\nnet = {default = 4}\n\
link = [{from = 'O', to = 'U', price = 5}, {from = 'U', to = 'O', price = 6}]\n\
rows = {r = 7, s = 8}\ndistinct = {a = 9, b = 10, c = 11}\n";

// The policy of these bytes, which is accepted.
fn policy_of(alloc: Global, text: &str) -> Result<Policy, Fail>
    ensures { IfOk result IsAccepted }
{
    Ok(read_policy(alloc, text.as_bytes())?)
}

// A file with another text where one stands for the first time.
fn changed(alloc: Global, file: &str, old: &str, new: &str) -> Result<String, AllocError> {
    match file.split_once(old) {
        Some((front, rest)) => format!(in alloc; "{front}{new}{rest}"),
        None => String::from_str(alloc, "the text to be changed does not stand there"),
    }
}

// The code, `at` and `item` of a file's refusal, and zeros where it is accepted.
fn refusal(alloc: Global, bytes: &[u8], policy: &Policy) -> Places
    requires { IsAccepted policy.now }
{
    match read_prices(alloc, bytes, policy) {
        Ok(_) => ACCEPTED,
        Err(no) => places_of(&no),
    }
}

// A text of the file, what stands in its place, and the refusal of the changed file.
type Row<'a> = (&'a str, &'a str, Places);

fn check(
    rt: &impl Abort,
    alloc: Global,
    policy: &Policy,
    file: &str,
    rows: &[Row],
) -> Result<(), Fail>
    requires { IsAccepted policy.now }
{
    for (old, new, want) in rows {
        let text = changed(alloc, file, old, new)?;
        assert_eq!(rt;
            refusal(alloc, text.as_bytes(), policy),
            *want,
            "{new} for {old}"
        );
    }
    Ok(())
}
