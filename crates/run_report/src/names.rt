ghost use Rattle.std.specs.Prelude.{◌≡◌, map, IfOk};
ghost use Rattle.policy_base.specs.Accepted.{IsAccepted};
ghost use Rattle.run_report.specs.Names.{item_name, item_names};

use mq_base::{Item, NoMemory};
use policy_base::Policy;
use std::alloc::Global;

// The name of a selected item.
fn item<'a>(policy: &'a Policy, item: &Item) -> &'a str
    requires { IsAccepted policy.now }
    ensures { result.now ≡ item_name policy.now.schema item.now }
{
    match item {
        Item::Attr(a) => policy.attribute_name(*a),
        Item::Count => "count",
    }
}

// The names of selected items, in their order, lent.
pub fn items<'a>(
    alloc: Global,
    policy: &'a Policy,
    items: &[Item],
) -> Result<Vec<&'a str>, NoMemory>
    requires { IsAccepted policy.now }
    ensures { IfOk result (λ names. map (λ n. n.now) names.items ≡ item_names policy.now.schema items.now) }
{
    let mut names = Vec::with_capacity(alloc, items.len())?;
    'items: for selected in items {
        names.push(item(policy, selected))?;
    }
    Ok(names)
}
