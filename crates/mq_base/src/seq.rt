ghost use Rattle.std.specs.Prelude.{◌≡◌, ◌∷◌, [], ◌++◌, length, OnOk, OnErr};
ghost use Rattle.std.specs.Cmp.Lexicographic.{pointwise, slice_cmp, slice_partial_cmp, lists_per, lists_equiv, lists_po, lists_total, lists_agrees, lists_ties};
ghost use Rattle.std.specs.Cmp.{on_per, on_equiv, on_po, on_total};

use crate::memory::NoMemory;
use std::alloc::Global;
use std::cmp::Ordering;
use std::marker::Model;

/// A list, as contracts see it: the items of a `Vec`, and nothing of its capacity.
#[derive(Drop)]
pub struct Seq<T> {
    items: Vec<T>,
}

impl<T> Model for Seq<T> {
    ghost use Rattle.std.specs.Prelude.{List};
    ghost use Rattle.std.specs.Coded.{coded_list};

    ghost Value = { List T };

    ghost coded = { coded_list T.code };

    ghost view = { λ s. s.items.items };
}

impl<T> Seq<T> {
    /// The list without items. It takes no memory until an item is pushed.
    pub fn new(alloc: Global) -> Seq<T>
        ensures { result ≡ [] }
    {
        Seq {
            items: Vec::new(alloc),
        }
    }

    /// The same list. It takes no memory.
    pub fn of(items: Vec<T>) -> Seq<T>
        ensures { result ≡ items.items }
    {
        Seq { items }
    }

    /// The items, in order. It takes no memory.
    pub fn as_slice(&self) -> &[T]
        ensures { result.now ≡ self.now }
    {
        self.items.as_slice()
    }

    /// The same list, for a caller that changes it. It takes no memory.
    pub fn into_vec(self) -> Vec<T>
        ensures { result.items ≡ self }
    {
        self.items
    }

    /// Puts an item at the end. Where memory is wanting the list stays as it was, and the item is let go.
    pub fn push(&mut self, item: T) -> Result<(), NoMemory>
    where
        T: Drop,
        ensures ok { OnOk result (self.new ≡ self.old ++ item ∷ []) }
        ensures err { OnErr result (self.new ≡ self.old) }
    {
        self.items.push(item)?;
        Ok(())
    }
}

impl<T: PartialEq> PartialEq for Seq<T> {
    ghost eq = { λ x y. pointwise T.eq x y };

    ghost laws = { on_per (λ x. x) (lists_per T.PartialEq.laws) };

    fn eq(&self, other: &Self) -> bool {
        self.items == other.items
    }
}

impl<T: Eq> Eq for Seq<T> {
    ghost laws = { on_equiv (λ x. x) (lists_equiv T.Eq.laws) };
}

impl<T: PartialOrd> PartialOrd for Seq<T> {
    ghost partial_cmp = { λ x y. slice_partial_cmp T.partial_cmp x y };

    ghost laws = { on_po (λ x. x) (lists_po T.PartialOrd.laws) };

    fn partial_cmp(&self, other: &Self) -> Option<Ordering> {
        self.items.partial_cmp(&other.items)
    }
}

impl<T: Ord> Ord for Seq<T> {
    ghost cmp = { λ x y. slice_cmp T.cmp x y };

    ghost total = { on_total (λ x. x) (lists_total T.total) };

    ghost matches_partial_cmp = { λ x y. lists_agrees T.matches_partial_cmp x y };

    ghost matches_eq = { λ x y. lists_ties T.cmp T.matches_eq x y };

    fn cmp(&self, other: &Self) -> Ordering {
        self.items.cmp(&other.items)
    }
}
