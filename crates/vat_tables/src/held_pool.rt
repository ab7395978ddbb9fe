ghost use Rattle.std.specs.Prelude.{◌↔◌, ◌≡◌, ◌==◌, ◌≢◌, ◌≤◌, ◌<◌, ◌+◌, ◌++◌, [], ◌∷◌, length, Some, None, Ok, Err, true, IsTrue, IsOk, IsSome, IfOk, IfErr, IfSome, OnOk, OnErr, MatchBool, Any, All, false, unwrap_or};
ghost use Rattle.std.specs.Borrow.{Bor};
ghost use Rattle.std.specs.FinMap as map;
ghost use Rattle.vat_tables.specs.Chains.{walk};
ghost use Rattle.finite_maps.specs.Tally.{tally};

use crate::fault::TableFault;
use rpc_machine::rpc_msg::Memory;
use slab::Slab;
use std::alloc::Global;
use std::marker::Model;

/// The most calls that a pool may hold, in all its lists.
pub const POOL_LIMIT: usize = 65_536;

/// Names a list of a pool.
#[derive(Clone, Copy, Debug, PartialEq, Eq, Drop)]
pub struct ListKey(pub usize);

/// A call that waits.
#[derive(Drop)]
struct Held<T> {
    call: T,
    // The key of the call behind it in its list. Of the last call it says nothing.
    next: usize,
}

/// Where a list begins and ends, by the keys of its calls, and how many there are.
#[derive(Clone, Copy, Debug, PartialEq, Eq, Drop)]
struct Ends {
    first: usize,
    last: usize,
    len: usize,
}

/// Lists of waiting calls, at most 65,536 calls in all: seen by contracts as the lists by key, none of them empty, and
/// how many more calls need no more memory. All calls stand in one slab, each naming the next, so that to start a
/// list, to push, to pop and to append are constant work, however long the lists are.
#[derive(Drop)]
pub struct HeldPool<T> {
    calls: Slab<Held<T>>,
    lists: Slab<Ends>,
}

impl<T> Model for HeldPool<T> {
    ghost use Rattle.vat_tables.specs.Pool.{Pool, pool_code};

    ghost Value = { Pool T };

    ghost coded = { pool_code T.code };

    ghost use Rattle.vat_tables.specs.Chains.{pool_of, IsPool};

    ghost view = { λ a. pool_of a.calls a.lists };

    ghost invariant = { λ a. IsPool a.calls a.lists };
}

impl<T> HeldPool<T> {
    ghost use Rattle.vat_tables.specs.Pool.{PopsFirst, SomeHeld, EachHeld};

    /// No lists. Takes no memory.
    pub fn new(alloc: Global) -> Self
        ensures { result.lists ≡ map.empty }
    {
        HeldPool {
            calls: Slab::new(alloc),
            lists: Slab::new(alloc),
        }
    }

    /// How many calls there are in all lists. Takes no memory, as do `is_full` and `contains`.
    pub fn len(&self) -> usize
        ensures value { result ≡ tally length self.now.lists }
        ensures within { result ≤ POOL_LIMIT }
    {
        self.calls.len()
    }

    /// Whether there are 65,536 calls.
    pub fn is_full(&self) -> bool
        ensures { result ≡ (tally length self.now.lists == POOL_LIMIT) }
    {
        self.len() == POOL_LIMIT
    }

    /// Whether there is a list with that key.
    pub fn contains(&self, key: ListKey) -> bool
        ensures { IsTrue result ↔ IsSome (map.get self.now.lists key.0) }
    {
        self.lists.contains(key.0)
    }

    /// Makes room in memory, so that the next so many calls are not refused for lack of it, each in a list of its own
    /// or at the end of one; the limit of 65,536 calls stands beside it. `Err` if there was no room and the growth was
    /// refused. The lists stay as they are, and the room does not fall.
    pub fn reserve(&mut self, more: usize) -> Result<(), Memory>
        ensures same { self.new.lists ≡ self.old.lists }
        ensures ok { OnOk result (more ≤ self.new.room) }
        ensures had_room { more ≤ self.old.room → IsOk result }
        ensures keeps_room { self.old.room ≤ self.new.room }
    {
        if more == 0 {
            return Ok(());
        }
        self.calls.reserve(more)?;
        self.lists.reserve(more)?;
        Ok(())
    }

    /// Starts a list with this call. A call that is refused comes back: `Full` at 65,536 calls, and only then; `Memory`
    /// if there was no room and the growth was refused. Constant work.
    pub fn start(&mut self, call: T) -> Result<ListKey, (TableFault, T)>
        ensures free { IfOk result (λ key. map.get self.old.lists key.0 ≡ None) }
        ensures ok { IfOk result (λ key. self.new.lists ≡ map.insert self.old.lists key.0 (call ∷ [])) }
        ensures had_room { 0 < self.old.room → tally length self.old.lists ≢ POOL_LIMIT → IsOk result }
        ensures room { self.old.room ≤ self.new.room + 1 }
        ensures keeps_room { OnErr result (self.old.room ≤ self.new.room) }
        ensures at_limit { tally length self.old.lists ≡ POOL_LIMIT → result ≡ Err (TableFault.Full, call) }
        ensures full { IfErr result (λ e. e.0 ≡ TableFault.Full → tally length self.old.lists ≡ POOL_LIMIT) }
        ensures back { IfErr result (λ e. e.1 ≡ call) }
        ensures same { OnErr result (self.new.lists ≡ self.old.lists) }
    {
        if self.is_full() {
            return Err((TableFault::Full, call));
        }
        let Ok(()) = self.reserve(1) else {
            return Err((TableFault::Memory, call));
        };
        let first = self.calls.insert_reserved(Held { call, next: 0 });
        let list = self.lists.insert_reserved(Ends {
            first,
            last: first,
            len: 1,
        });
        Ok(ListKey(list))
    }

    /// Puts a call at the end of a list, which must be there. A call that is refused comes back: `Full` at 65,536
    /// calls, and only then; `Memory` if there was no room and the growth was refused. Constant work.
    pub fn push(&mut self, key: ListKey, call: T) -> Result<(), (TableFault, T)>
        requires { IsSome (map.get self.old.lists key.0) }
        ensures ok { OnOk result (IfSome (map.get self.old.lists key.0) (λ list. self.new.lists ≡ map.insert self.old.lists key.0 (list ++ call ∷ []))) }
        ensures had_room { 0 < self.old.room → tally length self.old.lists ≢ POOL_LIMIT → IsOk result }
        ensures room { self.old.room ≤ self.new.room + 1 }
        ensures keeps_room { OnErr result (self.old.room ≤ self.new.room) }
        ensures at_limit { tally length self.old.lists ≡ POOL_LIMIT → result ≡ Err (TableFault.Full, call) }
        ensures full { IfErr result (λ e. e.0 ≡ TableFault.Full → tally length self.old.lists ≡ POOL_LIMIT) }
        ensures back { IfErr result (λ e. e.1 ≡ call) }
        ensures same { OnErr result (self.new.lists ≡ self.old.lists) }
    {
        if self.is_full() {
            return Err((TableFault::Full, call));
        }
        let Ok(()) = self.reserve(1) else {
            return Err((TableFault::Memory, call));
        };
        let ends = self.lists[key.0];
        let new = self.calls.insert_reserved(Held { call, next: 0 });
        self.calls[ends.last].next = new;
        self.lists[key.0] = Ends {
            first: ends.first,
            last: new,
            len: ends.len + 1,
        };
        Ok(())
    }

    /// Takes the first call of a list, and says whether the list goes on; if it does not, the key is gone. Constant
    /// work, which takes no memory.
    pub fn pop(&mut self, key: ListKey) -> Option<(T, bool)>
        ensures first { PopsFirst self.old.lists key.0 (map.get self.old.lists key.0) result self.new.lists }
        ensures room { self.old.room ≤ self.new.room }
    {
        let ends = *self.lists.get(key.0)?;
        let Held { call, next } = self.calls.remove(ends.first);
        if ends.len == 1 {
            self.lists.remove(key.0);
            return Some((call, false));
        }
        self.lists[key.0] = Ends {
            first: next,
            last: ends.last,
            len: ends.len - 1,
        };
        Some((call, true))
    }

    /// Puts all calls of the list `from` behind those of the list `to`, and ends `from`. Both must be there, and differ.
    /// Constant work, which takes no memory.
    pub fn append(&mut self, to: ListKey, from: ListKey)
        requires to_there { IsSome (map.get self.old.lists to.0) }
        requires from_there { IsSome (map.get self.old.lists from.0) }
        requires differ { to.0 ≢ from.0 }
        ensures { IfSome (map.get self.old.lists to.0) (λ front. IfSome (map.get self.old.lists from.0) (λ back.
            self.new.lists ≡ map.insert (map.remove self.old.lists from.0) to.0 (front ++ back))) }
    {
        let back = self.lists.remove(from.0);
        let front = self.lists[to.0];
        self.calls[front.last].next = back.first;
        self.lists[to.0] = Ends {
            first: front.first,
            last: back.last,
            len: front.len + back.len,
        };
    }

    /// Whether `f` is true of some call of that list; of none if there is no such list. Takes no memory.
    pub fn any_in<F: Fn(&T) -> bool>(&self, key: ListKey, f: F) -> bool
    where
        F: Drop,
        requires { F.IsAlwaysCallable f }
        ensures { MatchBool result
            (Any (λ call. (shown : Bor T) × (shown.now ≡ call) × F.post f shown true) (unwrap_or (map.get self.now.lists key.0) []))
            (All (λ call. (shown : Bor T) × (shown.now ≡ call) × F.post f shown false) (unwrap_or (map.get self.now.lists key.0) [])) }
    {
        match self.lists.get(key.0) {
            Some(ends) => any_from(&self.calls, ends.first, ends.len, &f),
            None => false,
        }
    }

    /// Whether `f` is true of some call in any list. Takes no memory.
    pub fn any<F: Fn(&T) -> bool>(&self, f: F) -> bool
    where
        F: Drop,
        requires { F.IsAlwaysCallable f }
        ensures { MatchBool result
            (SomeHeld (λ call. (shown : Bor T) × (shown.now ≡ call) × F.post f shown true) self.now.lists)
            (EachHeld (λ call. (shown : Bor T) × (shown.now ≡ call) × F.post f shown false) self.now.lists) }
    {
        for (_list, ends) in self.lists.iter() {
            if any_from(&self.calls, ends.first, ends.len, &f) {
                return true;
            }
        }
        false
    }
}

// Whether `f` is true of one of so many calls from this key on.
fn any_from<T, F: Fn(&T) -> bool>(calls: &Slab<Held<T>>, first: usize, len: usize, f: &F) -> bool
    requires { F.IsAlwaysCallable f.now }
    ensures { MatchBool result
        (Any (λ call. (shown : Bor T) × (shown.now ≡ call) × F.post f.now shown true) (walk calls.now len first))
        (All (λ call. (shown : Bor T) × (shown.now ≡ call) × F.post f.now shown false) (walk calls.now len first)) }
{
    let mut key = first;
    for _ in 0..len {
        let Some(held) = calls.get(key) else {
            return false;
        };
        if f(&held.call) {
            return true;
        }
        key = held.next;
    }
    false
}
