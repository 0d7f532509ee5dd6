//! The worked job that is timed: the query over a hospital's and an insurer's table, with six subjects.

ghost use Rattle.std.specs.Prelude.{IfSome};
ghost use Rattle.mq_base.specs.BoundQuery.{IsBound};
ghost use Rattle.mq_base.specs.Schema.{IsSchema};

use mq_base::{Query, Schema};
use query_bind::bind;
use sql_reader::read_query;
use std::alloc::Global;

pub(crate) const POLICY: &str =
    "version = 1\nuser = 'U'\nsubjects = ['H', 'I', 'U', 'X', 'Y', 'Z']\n\
[[table]]\nname = 'Hosp'\nowner = 'H'\ncolumns = [{name = 'S', type = 'INT'}, {name = 'B', type = 'INT'}, \
{name = 'D', type = 'TEXT'}, {name = 'T', type = 'TEXT'}]\n\
[[table]]\nname = 'Ins'\nowner = 'I'\ncolumns = [{name = 'C', type = 'INT'}, {name = 'P', type = 'INT'}]\n\
[[rule]]\ntable = 'Hosp'\nsubject = 'I'\nplain = ['B']\nsealed = ['S', 'D', 'T']\n\
[[rule]]\ntable = 'Hosp'\nsubject = 'U'\nplain = ['S', 'D', 'T']\nsealed = []\n\
[[rule]]\ntable = 'Hosp'\nsubject = 'X'\nplain = ['D', 'T']\nsealed = ['S']\n\
[[rule]]\ntable = 'Hosp'\nsubject = 'Y'\nplain = ['B', 'D', 'T']\nsealed = ['S']\n\
[[rule]]\ntable = 'Hosp'\nsubject = 'Z'\nplain = ['S', 'T']\nsealed = ['D']\n\
[[rule]]\ntable = 'Hosp'\nsubject = 'any'\nplain = ['D', 'T']\nsealed = []\n\
[[rule]]\ntable = 'Ins'\nsubject = 'H'\nplain = ['C']\nsealed = ['P']\n\
[[rule]]\ntable = 'Ins'\nsubject = 'U'\nplain = ['C', 'P']\nsealed = []\n\
[[rule]]\ntable = 'Ins'\nsubject = 'X'\nplain = []\nsealed = ['C', 'P']\n\
[[rule]]\ntable = 'Ins'\nsubject = 'Y'\nplain = ['P']\nsealed = ['C']\n\
[[rule]]\ntable = 'Ins'\nsubject = 'Z'\nplain = ['C']\nsealed = ['P']\n\
[[rule]]\ntable = 'Ins'\nsubject = 'any'\nplain = ['P']\nsealed = []\n";

pub(crate) const PRICES: &str = "version = 1\n[cpu]\nH = 10\nI = 10\nU = 100\nX = 1\nY = 2\nZ = 1\n\
[net]\ndefault = 1\n[rows]\nHosp = 1000\nIns = 5000\n\
[distinct]\nB = 100\nC = 5000\nD = 50\nP = 1000\nS = 1000\nT = 20\n";

const QUERY: &str =
    "SELECT T, SUM(P) FROM Hosp JOIN Ins ON S = C WHERE D = 'stroke' GROUP BY T HAVING SUM(P) > 1000";

/// The query, where it is one of this schema.
pub(crate) fn query(alloc: Global, schema: &Schema) -> Option<Query>
    requires { IsSchema schema.now }
    ensures { IfSome result (IsBound schema.now) }
{
    let raw = read_query(alloc, QUERY).ok()?;
    bind(alloc, &raw, schema).ok()
}
