ghost use Rattle.std.specs.Prelude.{◌≡◌, bit_or};
ghost use Rattle.base_laws.specs.Sets.{without};

use crate::view::View;
use mq_base::AttrSet;
use plan_algebra::NodeFacts;

/// The visible attributes of a table: those in plaintext, and those that are sealed.
#[derive(Clone, Copy)]
pub struct Seen {
    pub plain: AttrSet,
    pub sealed: AttrSet,
}

impl Seen {
    /// What is visible at a node with these facts, by a view of it.
    pub fn at(facts: &NodeFacts, view: &View) -> Seen
        ensures plain { result.plain.0 ≡ without facts.now.visible.0 view.now.enc.0 }
        ensures sealed { result.sealed.0 ≡ view.now.enc.0 }
    {
        Seen {
            plain: facts.visible.difference(view.enc),
            sealed: view.enc,
        }
    }

    /// What is visible in either table.
    pub fn union(self, other: Seen) -> Seen
        ensures plain { result.plain.0 ≡ bit_or self.plain.0 other.plain.0 }
        ensures sealed { result.sealed.0 ≡ bit_or self.sealed.0 other.sealed.0 }
    {
        Seen {
            plain: self.plain.union(other.plain),
            sealed: self.sealed.union(other.sealed),
        }
    }
}
