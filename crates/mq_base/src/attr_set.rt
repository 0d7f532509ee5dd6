ghost use Rattle.std.specs.Prelude.{◌≡◌, ◌<◌, ◌^◌, ◌↔◌, IfSome, IsTrue, MatchOption, bit_and, bit_or};
ghost use Rattle.base_laws.specs.Sets.{has, with_member, without, IsWithin, IsLeastMember};

use crate::ids::AttrId;

/// A set of attributes, written as a number: bit i is 1 where attribute i is a member. Contracts speak of
/// it by that number, with `has`, `IsWithin` and `IsLeastMember` of the general laws.
#[derive(Clone, Copy, Debug, PartialEq, Eq, PartialOrd, Ord, Hash)]
pub struct AttrSet(pub u64);

impl AttrSet {
    /// The set without members.
    pub const EMPTY: AttrSet = AttrSet(0);

    /// The set of one attribute.
    pub fn of(a: AttrId) -> AttrSet
        requires { a.0 < 64 }
        ensures { result.0 ≡ 2 ^ a.0 }
    {
        AttrSet(1 << a.0)
    }

    /// Whether the attribute is a member.
    pub fn has(self, a: AttrId) -> bool
        requires { a.0 < 64 }
        ensures { result ≡ has self.0 a.0 }
    {
        (self.0 >> a.0) & 1 == 1
    }

    /// The set with the attribute as a member.
    pub fn with(self, a: AttrId) -> AttrSet
        requires { a.0 < 64 }
        ensures { result.0 ≡ with_member self.0 a.0 }
    {
        AttrSet(self.0 | (1 << a.0))
    }

    /// The members of either set.
    pub fn union(self, other: AttrSet) -> AttrSet
        ensures { result.0 ≡ bit_or self.0 other.0 }
    {
        AttrSet(self.0 | other.0)
    }

    /// The members that both sets have.
    pub fn intersection(self, other: AttrSet) -> AttrSet
        ensures { result.0 ≡ bit_and self.0 other.0 }
    {
        AttrSet(self.0 & other.0)
    }

    /// The members that the other set does not have.
    pub fn difference(self, other: AttrSet) -> AttrSet
        ensures { result.0 ≡ without self.0 other.0 }
    {
        AttrSet(self.0 ^ (self.0 & other.0))
    }

    /// Whether every member is one of the other set.
    pub fn is_subset(self, other: AttrSet) -> bool
        ensures { IsTrue result ↔ IsWithin self.0 other.0 }
    {
        self.0 | other.0 == other.0
    }

    /// Whether the set has no member.
    pub fn is_empty(self) -> bool
        ensures { IsTrue result ↔ (self.0 ≡ 0) }
    {
        self.0 == 0
    }

    /// The least member, where there is one. It is below 64, as all members are.
    pub fn first(self) -> Option<AttrId>
        ensures small { IfSome result (λ a. a.0 < 64) }
        ensures found { MatchOption result (self.0 ≡ 0) (λ a. IsLeastMember self.0 a.0) }
    {
        if self.0 == 0 {
            return None;
        }
        Some(AttrId(self.0.trailing_zeros() as u8))
    }
}
