ghost use Rattle.std.specs.Prelude.{◌≡◌, All, filter_map};
ghost use Rattle.std.specs.List.{flat_map};
ghost use Rattle.std.specs.Option.{option_map_or};
ghost use Rattle.base_laws.specs.Sets.{with_member, with_members};
ghost use Rattle.mq_base.specs.Nodes.{aggregated, cond_attributes, item_attribute, projects, selected_set, used_set, visible_set};
ghost use Rattle.mq_base.specs.Small.{HasSmallIds, IsSmallAgg, IsSmallCond, IsSmallItem};

use crate::attr_set::AttrSet;
use crate::ids::AttrId;
use crate::query::{Agg, Cond, Item, Query};

impl Query {
    /// The used attributes: all that the query names. docs/FORMATS.md, "Query".
    pub fn used_set(&self) -> AttrSet
        requires { HasSmallIds self.now }
        ensures { result.0 ≡ used_set self.now }
    {
        let selected = with_items(self.group, self.items.as_slice());
        let compared = with_conditions(selected, self.conds.as_slice());
        compared.with_aggregated(self.aggs.as_slice())
    }

    /// The attributes that are visible before the selected ones are kept: with GROUP BY the grouped ones and those under
    /// functions, and else all used ones. docs/FORMATS.md, "Query".
    pub fn visible_set(&self) -> AttrSet
        requires { HasSmallIds self.now }
        ensures { result.0 ≡ visible_set self.now }
    {
        if self.grouped {
            self.group.with_aggregated(self.aggs.as_slice())
        } else {
            self.used_set()
        }
    }

    /// The selected attributes.
    pub fn selected_set(&self) -> AttrSet
        requires { HasSmallIds self.now }
        ensures { result.0 ≡ selected_set self.now.items }
    {
        with_items(AttrSet::EMPTY, self.items.as_slice())
    }

    /// Whether a projection ends the plan: the selected attributes are not exactly the visible ones. docs/FORMATS.md, "Plan".
    pub fn projects(&self) -> bool
        requires { HasSmallIds self.now }
        ensures { result ≡ projects self.now }
    {
        self.selected_set().0 != self.visible_set().0
    }
}

// A set with the attributes of selected items.
#[tactic(auto, using(crate::proofs::UsedLaws::sets))]
fn with_items(from: AttrSet, items: &[Item]) -> AttrSet
    requires { All IsSmallItem items.now }
    ensures { result.0 ≡ with_members from.0 (filter_map item_attribute items.now) }
{
    let mut set = from;
    for item in items {
        set = with_item(set, *item);
    }
    set
}

fn with_item(set: AttrSet, item: Item) -> AttrSet
    requires { IsSmallItem item }
    ensures { result.0 ≡ option_map_or (with_member set.0) (item_attribute item) set.0 }
{
    match item {
        Item::Attr(a) => set.with(a),
        Item::Count => set,
    }
}

// A set with the attributes that conditions name.
#[tactic(auto, using(crate::proofs::UsedLaws::sets))]
fn with_conditions(from: AttrSet, conds: &[Cond]) -> AttrSet
    requires { All IsSmallCond conds.now }
    ensures { result.0 ≡ with_members from.0 (flat_map cond_attributes conds.now) }
{
    let mut set = from;
    for cond in conds {
        set = with_condition(set, cond);
    }
    set
}

fn with_condition(set: AttrSet, cond: &Cond) -> AttrSet
    requires { IsSmallCond cond.now }
    ensures { result.0 ≡ with_members set.0 (cond_attributes cond.now) }
{
    match cond {
        Cond::Const(a, _, _) => set.with(*a),
        Cond::Attrs(a, _, b) => set.with(*a).with(*b),
    }
}

impl AttrSet {
    /// The set with the attributes under functions.
    #[tactic(auto, using(crate::proofs::UsedLaws::sets))]
    pub fn with_aggregated(self, aggs: &[(AttrId, Agg)]) -> AttrSet
        requires { All IsSmallAgg aggs.now }
        ensures { result.0 ≡ with_members self.0 (aggregated aggs.now) }
    {
        let mut set = self;
        for (a, _) in aggs {
            set = set.with(*a);
        }
        set
    }
}
