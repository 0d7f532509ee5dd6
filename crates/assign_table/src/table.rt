ghost use Rattle.std.specs.Prelude.{◌≤◌, ◌<◌, length};
ghost use Rattle.std.specs.BinaryHeap.{IsHeap, heap_items};
ghost use Rattle.std.specs.List.{All};
ghost use Rattle.std.proofs.Props.{props};
ghost use Rattle.assign_table.specs.inside.Neighbours.{AreAllNear};
ghost use Rattle.assign_table.specs.inside.Queue.{place_cmp};

use crate::cell::{Cell, Waiting};
use crate::way::{Settled, Taken, Way};
use extended_plan::State;
use indexmap::IndexMap;
use mq_base::{AttrSet, NoMemory};
use std::alloc::{AllocError, AllocFailed, Global};
use std::cmp::Reverse;
use std::collections::BinaryHeap;

/// Why a table takes no state.
#[derive(Clone, Copy, Debug, PartialEq, Eq)]
pub enum TableNo {
    /// It has as many states as it may have, and this is none of them.
    Full,
    /// The allocator refused a request.
    NoMemory,
}

impl From<AllocError> for TableNo {
    ghost use Rattle.std.specs.Prelude.{◌≡◌};
    ghost use Rattle.assign_table.specs.declared.table.TableNo.TheVariants.{NoMemory};

    ghost from_gives = { λ _ e. e ≡ NoMemory };

    fn from(_refused: AllocError) -> TableNo {
        TableNo::NoMemory
    }
}

impl<T: Drop> From<AllocFailed<T>> for TableNo {
    ghost use Rattle.std.specs.Prelude.{◌≡◌};
    ghost use Rattle.assign_table.specs.declared.table.TableNo.TheVariants.{NoMemory};

    ghost from_gives = { λ _ e. e ≡ NoMemory };

    fn from(_refused: AllocFailed<T>) -> TableNo {
        TableNo::NoMemory
    }
}

impl From<NoMemory> for TableNo {
    ghost use Rattle.std.specs.Prelude.{◌≡◌};
    ghost use Rattle.assign_table.specs.declared.table.TableNo.TheVariants.{NoMemory};

    ghost from_gives = { λ _ e. e ≡ NoMemory };

    fn from(_refused: NoMemory) -> TableNo {
        TableNo::NoMemory
    }
}

/// The states of a node that were reached so far, and those of them that wait to be settled. docs/MODEL.md, "Search".
///
/// A state may wait more than once, as its label falls; what waits with another label than the state has is stale.
///
/// Where a settled state offers another by an encryption or a decryption, the step back lowers no label. So each state keeps the
/// attributes across which it was offered so, and for these no step is tried from it.
#[derive(Drop)]
pub struct Table {
    cells: IndexMap<State, Cell>,
    queue: BinaryHeap<Reverse<Waiting>>,
    // For each state, by its place, the attributes across which the state there is listed with a label of at most the front.
    near: Vec<AttrSet>,
    // The highest label that was taken.
    pub front: u128,
    ghost placed: { All (λ w. w.0.place < length cells.entries) (heap_items queue) },
    ghost heaped: { IsHeap place_cmp (heap_items queue) } by { Prim.hlevel props },
    ghost each: { length cells.entries ≤ length near.items } by { Prim.hlevel props },
    ghost listed: { AreAllNear cells.entries near.items front } by { Prim.hlevel props },
}

impl Table {
    ghost use Rattle.std.specs.Prelude.{◌≡◌, ◌+◌, ◌^◌, ◌≤◌, ◌<◌, Err, None, OnOk, IfSome, MatchOption, Some, length};
    ghost use Rattle.std.specs.List.{IsDistinct, position};
    ghost use Rattle.std.specs.Map.{keys_of};
    ghost use Rattle.extended_plan.specs.declared.state.State.{State};
    ghost use Rattle.extended_plan.specs.States.{state_eq};
    ghost use Rattle.assign_table.specs.declared.table.TableNo.TheVariants.{Full};
    ghost use Rattle.assign_table.specs.inside.Cells.{cell_of, state_at};
    ghost use Rattle.assign_table.specs.inside.Neighbours.{AreNear};
    ghost use Rattle.assign_table.specs.inside.Settling.{IsFront};
    ghost use Rattle.assign_table.specs.inside.Sheet.{IsBlank, IsDrained, IsOffered, IsRefused, IsTaken, IsWritten, fresh_of, sheet_of, waits_at};

    /// A table with no state. It takes no memory.
    pub fn new(alloc: Global) -> Table
        ensures { IsBlank (sheet_of result) }
    {
        Table {
            cells: IndexMap::new(alloc),
            queue: BinaryHeap::new(alloc),
            near: Vec::new(alloc),
            front: 0,
        }
    }

    /// Leaves the table with no state. It keeps its memory.
    pub fn clear(&mut self)
        ensures { IsBlank (sheet_of self.new) }
    {
        self.queue.clear();
        self.cells.clear();
        self.near.clear();
        self.front = 0;
    }

    /// Offers a state that is reached at a cost, by a way, and tells attributes across which settled states stand. Where the state is
    /// new, or had a higher label, it has this label and this way, and waits. The time is that of a look-up, and of an insertion and
    /// a push where the table changes.
    ///
    /// `Full` where the state is new and the table has `room` states, which it keeps as they are; `NoMemory` where the allocator
    /// refused a request.
    pub fn offer(
        &mut self,
        state: &State,
        label: u128,
        way: Way,
        near: AttrSet,
        room: usize,
    ) -> Result<(), TableNo>
        requires near { AreNear (sheet_of self.old).cells state.now near.0 self.old.front }
        ensures front { OnOk result (self.new.front ≡ self.old.front) }
        ensures offered { OnOk result (IsOffered (sheet_of self.old) state.now label way (sheet_of self.new)) }
        ensures within { OnOk result (length (sheet_of self.old).cells ≤ room → length (sheet_of self.new).cells ≤ room) }
        ensures refused { result ≡ Err Full → IsRefused room (sheet_of self.old) state.now }
        ensures kept { result ≡ Err Full → sheet_of self.new ≡ sheet_of self.old }
    {
        match self.cells.get_index_of(state) {
            Some(place) => self.offer_at(place, label, way, near),
            None => {
                if room <= self.cells.len() {
                    Err(TableNo::Full)
                } else {
                    self.add(*state, label, way, near)
                }
            }
        }
    }

    // Offers a label and a way to the state at a place, and tells it these attributes.
    fn offer_at(
        &mut self,
        place: usize,
        label: u128,
        way: Way,
        near: AttrSet,
    ) -> Result<(), TableNo>
        requires place { place < length (sheet_of self.old).cells }
        requires distinct { IsDistinct state_eq (keys_of (sheet_of self.old).cells) }
        requires near { AreNear (sheet_of self.old).cells (state_at (keys_of (sheet_of self.old).cells) place) near.0 self.old.front }
        ensures front { OnOk result (self.new.front ≡ self.old.front) }
        ensures offered { (st : State) → position (state_eq st) (keys_of (sheet_of self.old).cells) ≡ Some place
            → OnOk result (IsOffered (sheet_of self.old) st label way (sheet_of self.new)) }
        ensures as_long { OnOk result (length (sheet_of self.new).cells ≡ length (sheet_of self.old).cells) }
        ensures not_full { result ≡ Err Full → ⊥ }
    {
        self.near[place] = self.near[place].union(near);
        if self.cells[place].label <= label {
            return Ok(());
        }
        self.cells[place] = Cell { label, way };
        self.queue.push(Reverse(Waiting { label, place }))?;
        Ok(())
    }

    // Gives a new state a label, a way and these attributes, and lets it wait.
    fn add(&mut self, state: State, label: u128, way: Way, near: AttrSet) -> Result<(), TableNo>
        requires new { cell_of (sheet_of self.old).cells state ≡ None }
        requires near { AreNear (sheet_of self.old).cells state near.0 self.old.front }
        ensures front { OnOk result (self.new.front ≡ self.old.front) }
        ensures written { OnOk result (IsWritten (sheet_of self.old) state label way (sheet_of self.new)) }
        ensures longer { OnOk result (length (sheet_of self.new).cells ≡ length (sheet_of self.old).cells + 1) }
        ensures not_full { result ≡ Err Full → ⊥ }
    {
        let place = self.cells.len();
        // A state that could not be inserted may have left its attributes.
        self.near.truncate(place);
        self.near.push(near)?;
        self.cells.insert(state, Cell { label, way })?;
        self.queue.push(Reverse(Waiting { label, place }))?;
        Ok(())
    }

    /// Takes the least that waits, with its label, its way and its attributes; what is stale is dropped. The time is that of a pop for
    /// each that is dropped or taken, and it takes no memory.
    pub fn take(&mut self) -> Option<Taken>
        ensures taken { MatchOption result (IsDrained (sheet_of self.old) (sheet_of self.new)) (λ t. IsTaken (sheet_of self.old) t.settled (sheet_of self.new)) }
        ensures near { IfSome result (λ t. AreNear (sheet_of self.new).cells t.settled.state t.near.0 t.settled.label) }
        ensures front { IfSome result (λ t. IsFront self.new t.settled) }
    {
        'sifting: loop {
            match self.queue.pop() {
                None => return None,
                Some(Reverse(waiting)) => {
                    if let Some(settled) = self.current(&waiting) {
                        return Some(self.passed(settled, waiting.place));
                    }
                }
            }
        }
    }

    // What is settled from this place, with its attributes, and the front at its label. No label falls below the front, but nothing
    // rests on that: such a state would have no attributes.
    fn passed(&mut self, settled: Settled, place: usize) -> Taken
        requires place { place < length (sheet_of self.old).cells }
        requires state { state_at (keys_of (sheet_of self.old).cells) place ≡ settled.state }
        ensures settled { result.settled ≡ settled }
        ensures same { sheet_of self.new ≡ sheet_of self.old }
        ensures near { AreNear (sheet_of self.old).cells settled.state result.near.0 settled.label }
        ensures low { settled.label ≤ self.new.front }
        ensures fits { settled.label < 2 ^ 128 }
    {
        if settled.label < self.front {
            return Taken {
                settled,
                near: AttrSet(0),
            };
        }
        self.front = settled.label;
        Taken {
            settled,
            near: self.near[place],
        }
    }

    // The settled state of one that waited, where it is not stale.
    fn current(&self, waiting: &Waiting) -> Option<Settled>
        requires { waiting.now.place < length (sheet_of self.now).cells }
        ensures { result ≡ fresh_of (waits_at (keys_of (sheet_of self.now).cells) (record { 0 = waiting.now })) (cell_of (sheet_of self.now).cells (state_at (keys_of (sheet_of self.now).cells) waiting.now.place)) }
    {
        let (state, cell) = self.cells.get_index(waiting.place)?;
        if cell.label == waiting.label {
            Some(Settled {
                state: *state,
                label: cell.label,
                way: cell.way,
            })
        } else {
            None
        }
    }
}
