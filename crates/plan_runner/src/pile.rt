ghost use Rattle.std.specs.Prelude.{◌≡◌, ◌∷◌, ◌≤◌, length, reverse, OnOk};

use mq_base::NoMemory;
use std::alloc::Global;
use std::marker::Model;

// A pile of items, of which the top one is taken first. Contracts see the list of its items, the top one first.
#[derive(Drop)]
pub struct Pile<T> {
    items: Vec<T>,
}

impl<T> Model for Pile<T> {
    ghost use Rattle.std.specs.Prelude.{List, reverse};
    ghost use Rattle.std.specs.Coded.{coded_list};

    ghost Value = { List T };

    ghost coded = { coded_list T.code };

    ghost view = { λ pile. reverse pile.items.items };
}

impl<T> Pile<T> {
    ghost use Rattle.std.specs.Prelude.{[]};

    // The pile without items. It takes no memory.
    pub fn new(alloc: Global) -> Pile<T>
        ensures { result ≡ [] }
    {
        Pile {
            items: Vec::new(alloc),
        }
    }

    // The pile of these items, the first one on top. It takes no memory.
    #[tactic(auto, using(crate::proofs::PileLaws::piles))]
    pub fn of(items: Vec<T>) -> Pile<T>
        ensures { result ≡ items.items }
    {
        let mut items = items;
        items.reverse();
        Pile { items }
    }

    // Puts an item on top.
    #[tactic(auto, using(crate::proofs::PileLaws::piles))]
    pub fn push(&mut self, item: T) -> Result<(), NoMemory>
    where
        T: Drop,
        ensures { OnOk result (self.new ≡ item ∷ self.old) }
    {
        self.items.push(item)?;
        Ok(())
    }

    // Takes the top item off, which there is. It takes no memory.
    #[tactic(auto, using(crate::proofs::PileLaws::piles))]
    pub fn take(&mut self) -> T
        requires { 1 ≤ length self.old }
        ensures { self.old ≡ result ∷ self.new }
    {
        self.items.pop().unwrap()
    }
}
