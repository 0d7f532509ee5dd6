ghost use Rattle.std.specs.Prelude.{◌≤◌, length, IfOk};
ghost use Rattle.mq_base.specs.BoundQuery.{IsBound};
ghost use Rattle.mq_base.specs.Schema.{IsSchema};
ghost use Rattle.command_input.specs.Input.{query_read, text_bound};
ghost use Rattle.command_input.specs.Loading.{Judges};

use crate::fault::FileRole;
use crate::load_no::{LoadNo, judge, refused};
use mq_base::{Query, Refusal, Schema};
use query_bind::bind;
use sql_lexer::codes::BAD_CHAR;
use sql_reader::read_query;
use std::alloc::Global;
use std::str;

// The query of a text, with the ids of a schema in place of names.
#[tactic(auto, unfolding(crate::specs::Input::text_bound))]
fn bound_query(alloc: Global, text: &str, schema: &Schema) -> Result<Query, LoadNo>
    requires short { length text.now ≤ 67108864 }
    requires schema { IsSchema schema.now }
    ensures read { Judges FileRole.Query result (text_bound schema.now text.now) }
    ensures bound { IfOk result (IsBound schema.now) }
{
    let raw = judge(FileRole::Query, read_query(alloc, text))?;
    judge(FileRole::Query, bind(alloc, &raw, schema))
}

// The query that the bytes of its file stand for.
#[tactic(auto, unfolding(crate::specs::Input::query_read))]
pub fn read_bound(alloc: Global, bytes: &[u8], schema: &Schema) -> Result<Query, LoadNo>
    requires short { length bytes.now ≤ 67108864 }
    requires schema { IsSchema schema.now }
    ensures read { Judges FileRole.Query result (query_read schema.now bytes.now) }
    ensures bound { IfOk result (IsBound schema.now) }
{
    let text = match str::from_utf8(bytes) {
        Ok(text) => text,
        Err(e) => {
            let refusal = Refusal {
                code: BAD_CHAR,
                at: e.valid_up_to() as u64,
                item: 0,
            };
            return Err(refused(FileRole::Query, refusal));
        }
    };
    bound_query(alloc, text, schema)
}
