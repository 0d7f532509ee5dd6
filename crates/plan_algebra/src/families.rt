ghost use Rattle.std.specs.Prelude.{◌≡◌, ◌≤◌, ◌<◌, ◌++◌, ◌∷◌, [], filter, length, not, bit_or, if◌then◌else◌, IfOk, OnOk};
ghost use Rattle.std.specs.List.{insert};
ghost use Rattle.plan_algebra.specs.Families.{meets, merged, pair, placed, united, with_all};

use mq_base::{AttrId, AttrSet, NoMemory};
use std::alloc::Global;

// A family in which two attributes are made equivalent.
pub fn merged(
    alloc: Global,
    a: AttrId,
    b: AttrId,
    family: &[AttrSet],
) -> Result<Vec<AttrSet>, NoMemory>
    requires left { a.0 < 64 }
    requires right { b.0 < 64 }
    ensures { IfOk result (λ made. made.items ≡ merged a b family.now) }
{
    let both = AttrSet::of(a).with(b);
    let mut rest = without_meeting(alloc, both, family)?;
    place(&mut rest, with_meeting(both, family))?;
    Ok(rest)
}

// The set with the members of each set of the family that meets it.
#[tactic(auto, using(crate::proofs::FamilyLaws::families))]
fn with_meeting(both: AttrSet, family: &[AttrSet]) -> AttrSet
    ensures { result ≡ with_all both (filter (meets both) family.now) }
{
    let mut set = both;
    for other in family {
        set = with_if(meets(both, *other), set, *other);
    }
    set
}

fn with_if(wanted: bool, set: AttrSet, other: AttrSet) -> AttrSet
    ensures { result.0 ≡ (if wanted then bit_or set.0 other.0 else set.0) }
{
    if wanted { set.union(other) } else { set }
}

// The sets of the family that do not meet this one.
#[tactic(auto, using(crate::proofs::FamilyLaws::families))]
fn without_meeting(
    alloc: Global,
    both: AttrSet,
    family: &[AttrSet],
) -> Result<Vec<AttrSet>, NoMemory>
    ensures { IfOk result (λ kept. kept.items ≡ filter (λ s. not (meets both s)) family.now) }
{
    let mut kept = Vec::new(alloc);
    for other in family {
        push_if(!meets(both, *other), &mut kept, *other)?;
    }
    Ok(kept)
}

fn push_if(wanted: bool, kept: &mut Vec<AttrSet>, set: AttrSet) -> Result<(), NoMemory>
    ensures { OnOk result (kept.new.items ≡ kept.old.items ++ (if wanted then set ∷ [] else [])) }
{
    if wanted {
        kept.push(set)?;
    }
    Ok(())
}

fn meets(s: AttrSet, t: AttrSet) -> bool
    ensures { result ≡ meets s t }
{
    s.0 & t.0 != 0
}

// The sets of two families, of which none meets one of the other.
#[tactic(auto, using(crate::proofs::FamilyLaws::families))]
pub fn united(
    alloc: Global,
    family: &[AttrSet],
    other: &[AttrSet],
) -> Result<Vec<AttrSet>, NoMemory>
    ensures { IfOk result (λ made. made.items ≡ united family.now other.now) }
{
    let mut made = Vec::from_slice(alloc, family)?;
    place_all(&mut made, other)?;
    Ok(made)
}

// Puts each set at its place.
#[tactic(auto, using(crate::proofs::FamilyLaws::families))]
fn place_all(family: &mut Vec<AttrSet>, other: &[AttrSet]) -> Result<(), NoMemory>
    ensures { OnOk result (family.new.items ≡ united family.old.items other.now) }
{
    for set in other {
        place(family, *set)?;
    }
    Ok(())
}

// Puts a set at its place.
fn place(family: &mut Vec<AttrSet>, set: AttrSet) -> Result<(), NoMemory>
    ensures { OnOk result (family.new.items ≡ placed set family.old.items) }
{
    let at = place_of(family, set);
    family.insert(at, set)?;
    Ok(())
}

// The place of a set by its least member.
#[tactic(auto, using(crate::proofs::FamilyLaws::families))]
fn place_of(family: &[AttrSet], set: AttrSet) -> usize
    ensures placed { placed set family.now ≡ insert family.now result set }
    ensures within { result ≤ length family.now }
{
    for (at, other) in family.iter().enumerate() {
        if set.0.trailing_zeros() <= other.0.trailing_zeros() {
            return at;
        }
    }
    family.len()
}
