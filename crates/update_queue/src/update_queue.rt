ghost use Rattle.std.specs.Prelude.{◌≡◌, ◌<◌, ◌≤◌, ◌↔◌, [], ◌∷◌, ◌++◌, length, drop, nat_le, All, AllPairs, IsTrue, IsErr, IfOk, IfErr, OnOk, OnErr};
ghost use Rattle.std.specs.List.{prefix_len};
ghost use Rattle.update_queue.specs.declared.update_queue.TheConstants.{ROOM};
ghost use Rattle.update_queue.specs.Items.{later_than, IsInOrder};

use crate::item::Item;
use std::alloc::{AllocError, Global};
use std::marker::Model;
use thiserror::Error;

/// How many items a queue holds at most.
pub const ROOM: usize = 1024;

/// Places for the items and for as many that were given up before them.
const PLACES: usize = 2048;

/// The queue holds as many items as it may. The item that found no place is handed back.
#[derive(Debug, Drop, Error)]
#[error("the update queue has no place left")]
pub struct Full {
    pub item: Item,
}

/// The items that aren't synced yet, in the order of their numbers.
#[derive(Drop)]
pub struct UpdateQueue {
    /// The items, after `given_up` ones that are synced.
    items: Vec<Item>,
    given_up: usize,
}

impl Model for UpdateQueue {
    ghost use Rattle.std.specs.Prelude.{◌+◌, ◌-◌, ◌≤◌, List, drop, vec_len, vec_capacity};
    ghost use Rattle.update_queue.specs.declared.item.Item.{Item};
    ghost use Rattle.update_queue.specs.declared.update_queue.TheConstants.{ROOM, PLACES};

    ghost Value = { List Item };

    ghost use Rattle.update_queue.specs.Items.{IsInOrder};

    ghost view = { λ q. drop q.given_up q.items.items };

    ghost invariant = { λ q. (vec_len q.items ≤ q.given_up + ROOM)
        × (q.given_up + q.given_up ≤ vec_len q.items)
        × (PLACES ≤ vec_capacity q.items)
        × IsInOrder (drop q.given_up q.items.items) };
}

impl UpdateQueue {
    /// An empty queue, which has all the places that it will need.
    pub fn new(alloc: Global) -> Result<UpdateQueue, AllocError>
        ensures { IfOk result (λ queue. queue ≡ []) }
    {
        Ok(UpdateQueue {
            items: Vec::with_capacity(alloc, PLACES)?,
            given_up: 0,
        })
    }

    pub fn is_full(&self) -> bool
        ensures { IsTrue result ↔ (length self.now ≡ ROOM) }
    {
        self.items.len() - self.given_up == ROOM
    }

    /// Puts an item after the others. It takes no memory.
    pub fn push(&mut self, item: Item) -> Result<(), Full>
        requires { All (λ held. held.w < item.w) self.old }
        ensures full { IsErr result ↔ (length self.old ≡ ROOM) }
        ensures handed_back { IfErr result (λ refused. refused.item ≡ item) }
        ensures ok { OnOk result (self.new ≡ self.old ++ item ∷ []) }
        ensures err { OnErr result (self.new ≡ self.old) }
        ensures room { length self.new ≤ ROOM }
        ensures in_order { IsInOrder self.new }
    {
        if self.items.len() - self.given_up == ROOM {
            return Err(Full { item });
        }
        match self.items.push(item) {
            Ok(()) => Ok(()),
            Err(refused) => Err(Full {
                item: refused.value,
            }),
        }
    }

    /// Gives up the items with a number up to `s`.
    pub fn synced(&mut self, s: u64)
        ensures { self.new ≡ later_than s self.old }
    {
        let count = front_len(self.as_slice(), s);
        self.give_up(count);
    }

    /// The items with a number above `w`.
    pub fn after(&self, w: u64) -> &[Item]
        ensures { result.now ≡ later_than w self.now }
    {
        let held = self.as_slice();
        let count = front_len(held, w);
        held.split_at(count).1
    }

    /// All items, oldest first.
    pub fn as_slice(&self) -> &[Item]
        ensures value { result.now ≡ self.now }
        ensures room { length self.now ≤ ROOM }
        ensures in_order { IsInOrder self.now }
    {
        self.items.as_slice().split_at(self.given_up).1
    }

    /// Gives up so many items from the front.
    fn give_up(&mut self, count: usize)
        requires { count ≤ length self.old }
        ensures { self.new ≡ drop count self.old }
    {
        self.given_up += count;
        // At least half of the places are free by then, so each item is moved once for one given up.
        if self.given_up >= self.items.len() - self.given_up {
            drop(self.items.drain(..self.given_up));
            self.given_up = 0;
        }
    }
}

/// How many items from the front have a number up to `w`. Behind them stand the others.
fn front_len(items: &[Item], w: u64) -> usize
    requires { IsInOrder items.now }
    ensures within { result ≤ length items.now }
    ensures rest { drop result items.now ≡ later_than w items.now }
{
    early_count(items, w)
}

/// How many items come before the first one with a number above `w`.
fn early_count(items: &[Item], w: u64) -> usize
    ensures { result ≡ prefix_len (λ item. nat_le item.w w) items.now }
{
    items.iter().take_while(|item| item.w <= w).count()
}
