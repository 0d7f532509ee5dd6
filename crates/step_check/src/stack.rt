ghost use Rattle.std.specs.Prelude.{◌≡◌, ◌<◌, ◌≤◌, [], ◌∷◌, length, IfOk};
ghost use Rattle.step_check.specs.Room.{room_of};
ghost use Rattle.step_check.specs.inside.Slots.{Takes, slots_of};

use extended_plan::State;
use mq_base::{NoMemory, NodeId};
use std::alloc::Global;

/// A table that steps made: its node, its state, and what it cost so far, cut at 2^128 - 1.
#[derive(Clone, Copy)]
pub struct Slot {
    pub node: NodeId,
    pub state: State,
    pub cost: u128,
}

/// Room for the tables that the steps of a list make, which a caller lends. docs/MODEL.md, "Step lists".
#[derive(Drop)]
pub struct StepStack {
    slots: Vec<Slot>,
}

impl StepStack {
    /// Room for `most` tables; a list of steps makes no more than it has steps. `NoMemory` where the allocator refused it.
    pub fn with(alloc: Global, most: usize) -> Result<StepStack, NoMemory>
        ensures { IfOk result (λ stack. room_of stack ≡ most) }
    {
        Ok(StepStack {
            slots: Vec::with_capacity(alloc, most)?,
        })
    }

    /// For how many tables there is room. It takes no memory.
    pub fn room(&self) -> usize
        ensures { result ≡ room_of self.now }
    {
        self.slots.capacity()
    }

    // Lets all tables go.
    #[tactic(auto, unfolding(crate::specs::inside::Slots::slots_of))]
    pub(crate) fn clear(&mut self)
        ensures none { slots_of self.new ≡ [] }
        ensures room { room_of self.new ≡ room_of self.old }
    {
        self.slots.clear();
    }

    // Puts a table on top.
    #[tactic(auto, using(crate::proofs::StackLaws::tops), unfolding(crate::specs::inside::Slots::slots_of))]
    pub(crate) fn push(&mut self, slot: Slot)
        requires { length (slots_of self.old) < room_of self.old }
        ensures top { slots_of self.new ≡ slot ∷ slots_of self.old }
        ensures room { room_of self.new ≡ room_of self.old }
    {
        self.slots.push_reserved(slot);
    }

    // Takes the top table off, where there is one.
    #[tactic(auto, using(crate::proofs::StackLaws::tops), unfolding(crate::specs::inside::Slots::slots_of))]
    pub(crate) fn pop(&mut self) -> Option<Slot>
        ensures top { Takes (slots_of self.old) result (slots_of self.new) }
        ensures room { room_of self.new ≡ room_of self.old }
    {
        self.slots.pop()
    }
}
