//! Schemas, as the policies that declare them give them.
ghost use Rattle.std.specs.Prelude.{IfOk};
ghost use Rattle.mq_base.specs.Schema.{IsSchema};

use mq_base::Schema;
use policy_reader::read_policy;
use std::alloc::Global;
use std::test::Fail;

/// O owns r(a INT, b TEXT) and s(c INT, d TEXT), whose columns have the ids 0 to 3.
pub(crate) const TWO_TABLES: &str = "version = 1\nuser = 'U'\nsubjects = ['O', 'U']\n\
[[table]]\nname = 'r'\nowner = 'O'\ncolumns = [{name = 'a', type = 'INT'}, {name = 'b', type = 'TEXT'}]\n\
[[table]]\nname = 's'\nowner = 'O'\ncolumns = [{name = 'c', type = 'INT'}, {name = 'd', type = 'TEXT'}]\n";

/// O owns r(a INT, b TEXT), s(c INT, d INT, e TEXT) and t(f INT).
pub(crate) const THREE_TABLES: &str = "version = 1\nuser = 'U'\nsubjects = ['O', 'U']\n\
[[table]]\nname = 'r'\nowner = 'O'\ncolumns = [{name = 'a', type = 'INT'}, {name = 'b', type = 'TEXT'}]\n\
[[table]]\nname = 's'\nowner = 'O'\ncolumns = [{name = 'c', type = 'INT'}, {name = 'd', type = 'INT'}, {name = 'e', type = 'TEXT'}]\n\
[[table]]\nname = 't'\nowner = 'O'\ncolumns = [{name = 'f', type = 'INT'}]\n";

/// The schema of an accepted policy.
pub(crate) fn schema_of(alloc: Global, policy: &str) -> Result<Schema, Fail>
    ensures { IfOk result IsSchema }
{
    let policy = read_policy(alloc, policy.as_bytes())?;
    Ok(policy.schema)
}
