ghost use Rattle.std.specs.Prelude.{◌≡◌, [], ◌∷◌, ◌++◌, length, ◌==◌, OnOk, OnErr, IfOk, IfErr};

use capn_wire::Memory;
use std::alloc::{AllocFailed, Global};
use std::marker::Model;
use std::ops::Deref;
use std::{slice, vec};

/// A list, seen by contracts as its items. It keeps the allocator that it was made with. All that only looks at a vector is
/// there for it too (`iter`, `get`, `first`, an index), and it is handed on as a slice by `&items`.
#[derive(Drop)]
pub struct Items<T> {
    items: Vec<T>,
}

impl<T> Model for Items<T> {
    ghost use Rattle.std.specs.Prelude.{List};

    ghost Value = { List T };

    ghost view = { λ a. a.items.items };
}

impl<T> Deref for Items<T> {
    type Target = Vec<T>;

    ghost use Rattle.std.specs.Prelude.{◌≡◌};

    ghost deref_gives = { λ list vector. vector.items ≡ list };

    #[inline(always)]
    fn deref(&self) -> &Vec<T> {
        &self.items
    }
}

impl<'a, T> IntoIterator for &'a Items<T> {
    type Item = &'a T;

    type IntoIter = slice::Iter<'a, T>;

    ghost use Rattle.std.specs.Prelude.{◌≡◌, ◌<◌, ◌^◌, length};
    ghost use Rattle.std.specs.Iterator.Runs.{EveryRun, ItemsMapTo};
    ghost use Rattle.std.specs.Slice.Iter.{iter_rest, iter_steps};

    ghost into_iter_gives = { λ list it. (iter_rest it ≡ list.now) × (length (iter_rest it) < 2 ^ 64)
        × EveryRun (iter_steps {A = T}) (λ p. ItemsMapTo p (λ x. x.now) (iter_rest p.from)) };

    #[inline(always)]
    fn into_iter(self) -> slice::Iter<'a, T> {
        self.items.as_slice().iter()
    }
}

impl<T: Drop> IntoIterator for Items<T> {
    type Item = T;

    type IntoIter = vec::IntoIter<T>;

    ghost use Rattle.std.specs.Prelude.{◌≡◌, ◌<◌, ◌^◌};
    ghost use Rattle.std.specs.Iterator.Runs.{EveryRun, ItemsAre};
    ghost use Rattle.std.specs.declared.alloc.Global.{Global};
    ghost use Rattle.std.specs.Vec.Iter.{into_iter_items, into_iter_len, into_iter_steps};

    ghost into_iter_gives = { λ list rest. (into_iter_items rest ≡ list) × (into_iter_len rest < 2 ^ 64)
        × EveryRun (into_iter_steps {X = T} {Z = Global}) (λ p. ItemsAre p (into_iter_items p.from)) };

    fn into_iter(self) -> vec::IntoIter<T> {
        self.into_vec().into_iter()
    }
}

impl<T> Items<T> {
    /// The empty list. Takes no memory.
    pub fn new(alloc: Global) -> Self
        ensures { result ≡ [] }
    {
        Items {
            items: Vec::new(alloc),
        }
    }

    /// The list of a vector's items. Takes no memory.
    pub fn from_vec(items: Vec<T>) -> Self
        ensures { result ≡ items.items }
    {
        Items { items }
    }

    /// The items, as a vector. Takes no memory.
    pub fn into_vec(self) -> Vec<T>
        ensures { result.items ≡ self }
    {
        let Items { items } = self;
        items
    }

    /// The list of one item; it comes back if there is no memory for it.
    pub fn one(alloc: Global, item: T) -> Result<Self, AllocFailed<T>>
    where
        T: Drop,
        ensures ok { IfOk result (λ items. items ≡ item ∷ []) }
        ensures back { IfErr result (λ refused. refused.value ≡ item) }
    {
        let mut items = Vec::new(alloc);
        items.push(item)?;
        Ok(Items { items })
    }

    /// How many items there are.
    pub fn len(&self) -> usize
        ensures { result ≡ length self.now }
    {
        self.items.len()
    }

    /// Whether there is none.
    pub fn is_empty(&self) -> bool
        ensures { result ≡ (length self.now == 0) }
    {
        self.items.is_empty()
    }

    /// The items, in order.
    pub fn as_slice(&self) -> &[T]
        ensures { result.now ≡ self.now }
    {
        self.items.as_slice()
    }

    /// Puts an item at the end. If memory is refused, the list stays as it was and the item comes back.
    pub fn push(&mut self, item: T) -> Result<(), AllocFailed<T>>
        ensures ok { OnOk result (self.new ≡ self.old ++ item ∷ []) }
        ensures back { IfErr result (λ refused. refused.value ≡ item) }
        ensures err { OnErr result (self.new ≡ self.old) }
    {
        self.items.push(item)
    }
}

impl<T: Copy> Items<T> {
    /// The same list, in memory of its own.
    pub fn copy(&self, alloc: Global) -> Result<Self, Memory>
        ensures { IfOk result (λ copy. copy ≡ self.now) }
    {
        if self.items.is_empty() {
            return Ok(Items::new(alloc));
        }
        let items = Vec::from_slice(alloc, self.items.as_slice())?;
        Ok(Items { items })
    }
}
