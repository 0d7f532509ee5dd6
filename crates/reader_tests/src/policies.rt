//! The refusals of policy files with their places, and the grants of accepted ones. The expected values are
//! worked out by hand from docs/FORMATS.md, "Policy file".
use crate::refusals::{ACCEPTED, Places, places_of};
use policy_reader::read_policy;
use std::alloc::{AllocError, Global};

mod accepted;
mod faults;
mod limits;
mod shapes;
mod whole;

// The code, `at` and `item` of a file's refusal, and zeros where it is accepted.
fn refusal(alloc: Global, bytes: &[u8]) -> Places {
    match read_policy(alloc, bytes) {
        Ok(_) => ACCEPTED,
        Err(no) => places_of(&no),
    }
}

// A policy of two subjects and one table, without rules.
const USER: &str = "U";

const SUBJECTS: &str = "'O', 'U'";

const TABLES: &str =
    "{name = 'r', owner = 'O', columns = [{name = 'a', type = 'INT'}, {name = 'b', type = 'TEXT'}]}";

// A policy file of these parts.
fn file(
    alloc: Global,
    user: &str,
    subjects: &str,
    tables: &str,
    rules: &str,
) -> Result<String, AllocError> {
    format!(in alloc;
        "version = 1\nuser = '{user}'\nsubjects = [{subjects}]\ntable = [{tables}]\nrule = [{rules}]\n"
    )
}
