ghost use Rattle.std.specs.Prelude.{◌≡◌, ◌++◌, IfOk, OnOk};
ghost use Rattle.policy_base.specs.Accepted.{IsAccepted};
ghost use Rattle.run_report.specs.Answer.{answer_text, sorted_rows};
ghost use Rattle.run_report.specs.Names.{item_names};

use crate::{csv_text, names};
use mq_base::{Item, NoMemory, Seq, Value};
use policy_base::Policy;
use std::alloc::Global;

// Sorts rows by their values from the left.
fn sort_rows(rows: &mut Vec<Seq<Value>>) -> Result<(), NoMemory>
    ensures { OnOk result (rows.new.items ≡ sorted_rows rows.old.items) }
{
    rows.sort()?;
    Ok(())
}

// Puts the rows of an answer at the end of a text, sorted, under the names of the selected items.
pub fn append(
    alloc: Global,
    text: Vec<u8>,
    policy: &Policy,
    items: &[Item],
    mut rows: Vec<Seq<Value>>,
) -> Result<Vec<u8>, NoMemory>
    requires { IsAccepted policy.now }
    ensures { IfOk result (λ whole. whole.items ≡ text.items ++ answer_text (item_names policy.now.schema items.now) rows.items) }
{
    sort_rows(&mut rows)?;
    let names = names::items(alloc, policy, items)?;
    csv_text::append(alloc, text, names.as_slice(), rows.as_slice())
}
