ghost use Rattle.std.specs.Prelude.{◌≡◌, slice_index};
ghost use Rattle.key_clusters.specs.Keys.{scheme_at};
ghost use Rattle.cost_model.specs.Costs.{net_of, type_at};

use key_clusters::Clusters;
use mq_base::{AttrId, Schema, Scheme, SubjectId, ValueType};
use policy_base::Prices;

// The number at a place, and 0 past the last.
#[tactic(auto, using(crate::proofs::TableLaws::reads))]
pub fn number_at(numbers: &[u64], at: u8) -> u64
    ensures { result ≡ slice_index numbers.now at }
{
    match numbers.get(usize::from(at)) {
        Some(number) => *number,
        None => 0,
    }
}

// The price of sending a byte from a subject to another.
#[tactic(auto, using(crate::proofs::TableLaws::reads))]
pub fn net_of(prices: &Prices, from: SubjectId, to: SubjectId) -> u64
    ensures { result ≡ net_of prices.now from.0 to.0 }
{
    match prices.net.get(usize::from(from.0)) {
        Some(row) => number_at(row, to.0),
        None => 0,
    }
}

// The type of an attribute.
pub fn type_of(schema: &Schema, a: AttrId) -> ValueType
    ensures { result ≡ type_at schema.now a.0 }
{
    match schema.attrs.as_slice().get(usize::from(a.0)) {
        Some(info) => info.ty,
        None => ValueType::Int,
    }
}

// The scheme of an attribute.
#[tactic(auto, using(crate::proofs::TableLaws::reads))]
pub fn scheme_of(clusters: &Clusters, a: AttrId) -> Scheme
    ensures { result ≡ scheme_at clusters.now a.0 }
{
    match clusters.scheme.get(usize::from(a.0)) {
        Some(scheme) => *scheme,
        None => Scheme::Rnd,
    }
}
