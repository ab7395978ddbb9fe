ghost use Rattle.std.specs.Prelude.{◌≡◌, ◌≤◌, ◌+◌, ◌<◌, [], ◌∷◌, ◌++◌, length, ◌==◌, OnOk, IfSome, IfNone};

use rpc_msg::{Items, Memory};
use std::alloc::Global;
use std::collections::VecDeque;
use std::marker::Model;
use std::mem;

/// Items that come in lists and go one by one, the oldest first: seen by contracts as the items, and how many more lists
/// fit at least.
#[derive(Drop)]
pub(crate) struct ListQueue<T> {
    // What is left of the oldest list, and the lists behind it.
    oldest: VecDeque<T>,
    later: VecDeque<Items<T>>,
}

impl<T> Model for ListQueue<T> {
    ghost use Rattle.std.specs.Prelude.{ℕ, List, ◌++◌, ◌-◌};
    ghost use Rattle.std.specs.List.{flat_map};
    ghost use Rattle.std.specs.VecDeque.{deque_len, deque_capacity};
    ghost use Rattle.vat_host.specs.Queues.{NoneIsEmpty};

    ghost Value = { List T × ℕ };

    ghost view = { λ a. (a.oldest.items ++ flat_map (λ list. list) a.later.items, deque_capacity a.later - deque_len a.later) };

    ghost invariant = { λ a. NoneIsEmpty a.later.items };
}

impl<T: Drop> ListQueue<T> {
    /// No items, and no room. Takes no memory.
    pub(crate) fn new(alloc: Global) -> Self
        ensures { result.0 ≡ [] }
    {
        ListQueue {
            oldest: VecDeque::new(alloc),
            later: VecDeque::new(alloc),
        }
    }

    /// Makes room for that many lists.
    pub(crate) fn reserve(&mut self, lists: usize) -> Result<(), Memory>
        ensures same { self.new.0 ≡ self.old.0 }
        ensures ok { OnOk result (lists ≤ self.new.1) }
        ensures room { self.old.1 ≤ self.new.1 }
    {
        match self.later.reserve(lists) {
            Ok(()) => return Ok(()),
            Err(_) => return Err(Memory),
        }
    }

    /// Puts the items of a list at the end, if there is room for one unless it is empty. Takes no memory.
    pub(crate) fn append(&mut self, list: Items<T>)
        requires { 0 < length list → 0 < self.old.1 }
        ensures items { self.new.0 ≡ self.old.0 ++ list }
        ensures room { self.old.1 ≤ self.new.1 + 1 }
        ensures kept { list ≡ [] → self.old.1 ≤ self.new.1 }
    {
        if list.is_empty() {
            return;
        }
        self.later.push_back_reserved(list);
    }

    /// Takes the oldest item out, if there is one.
    pub(crate) fn pop(&mut self) -> Option<T>
        ensures oldest { IfSome result (λ item. self.old.0 ≡ item ∷ self.new.0) }
        ensures empty { IfNone result ((self.old.0 ≡ []) × (self.new.0 ≡ [])) }
        ensures room { self.old.1 ≤ self.new.1 }
    {
        if let Some(item) = self.oldest.pop_front() {
            return Some(item);
        }
        let list = self.later.pop_front()?;
        self.oldest = VecDeque::from(list.into_vec());
        self.oldest.pop_front()
    }

    /// Whether there is no item.
    pub(crate) fn is_empty(&self) -> bool
        ensures { result ≡ (length self.now.0 == 0) }
    {
        self.oldest.is_empty() && self.later.is_empty()
    }

    /// The memory of a list whose items were all taken out, if there is one, to be used again.
    pub(crate) fn spent(&mut self, alloc: Global) -> Option<Items<T>>
        ensures same { self.new ≡ self.old }
    {
        if !self.oldest.is_empty() {
            return None;
        }
        let emptied = mem::replace(&mut self.oldest, VecDeque::new(alloc));
        Some(Items::from_vec(Vec::from(emptied)))
    }
}
